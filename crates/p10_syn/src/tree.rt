//! Trees of expressions, of the names of types and of declarators (C99 6.5, 6.7).

use crate::place::Side;
use crate::sign::Sign;
use p10_base::At;

/// A name and where it stands (C99 6.4.2).
#[derive(Clone, Copy, Debug)]
pub struct Identifier<'s> {
    pub at: At,
    pub text: &'s [u8],
}

/// A qualifier of a pointer and where it stands (C99 6.7.5.1).
#[derive(Clone, Copy, Debug)]
pub struct Qualifier {
    pub at: At,
    pub sign: Sign,
}

/// An expression (C99 6.5).
#[cycle(tree)]
#[derive(Drop)]
pub struct Expr<'s> {
    /// Where it stands, its own parentheses included.
    pub at: At,
    /// How many pairs of parentheses stand round it.
    pub parens: usize,
    pub form: Form<'s>,
}

/// The form of an expression.
#[cycle(tree)]
#[derive(Drop)]
pub enum Form<'s> {
    /// A name; it stands where its word does, without parentheses.
    Name(Identifier<'s>),
    Number(&'s [u8]),
    Char(&'s [u8]),
    /// Strings that stand side by side, at least one: they are one string (C99 6.4.5).
    Str(Vec<&'s [u8]>),
    /// `&`, `*`, `+`, `-`, `~` or `!` and its operand (C99 6.5.3).
    Unary(Sign, Box<Expr<'s>>),
    /// `++` or `--` (C99 6.5.2.4, 6.5.3.1).
    Step(Side, Sign, Box<Expr<'s>>),
    /// An operator between its operands, also `&&` and `||` (C99 6.5.5 to 6.5.14).
    Binary(Sign, Box<Expr<'s>>, Box<Expr<'s>>),
    /// `=` or a compound assignment (C99 6.5.16).
    Assign(Sign, Box<Expr<'s>>, Box<Expr<'s>>),
    /// `a ? b : c` (C99 6.5.15).
    Cond(Box<Expr<'s>>, Box<Expr<'s>>, Box<Expr<'s>>),
    /// What is called, and the arguments (C99 6.5.2.2).
    Call(Box<Expr<'s>>, Vec<Expr<'s>>),
    /// `a[b]` (C99 6.5.2.1).
    Index(Box<Expr<'s>>, Box<Expr<'s>>),
    /// `a.b` (C99 6.5.2.3).
    Member(Box<Expr<'s>>, Identifier<'s>),
    /// `a->b` (C99 6.5.2.3).
    Arrow(Box<Expr<'s>>, Identifier<'s>),
    /// `(T) a` (C99 6.5.4).
    Cast(Box<TypeName<'s>>, Box<Expr<'s>>),
    /// `sizeof a` (C99 6.5.3.4).
    SizeofExpr(Box<Expr<'s>>),
    /// `sizeof (T)` (C99 6.5.3.4).
    SizeofType(Box<TypeName<'s>>),
    /// Operands with commas between them, at least two (C99 6.5.17).
    Comma(Vec<Expr<'s>>),
}

/// The name of a type (C99 6.7.6).
#[cycle(tree)]
#[derive(Drop)]
pub struct TypeName<'s> {
    pub at: At,
    pub specs: Vec<Spec<'s>>,
    /// A declarator without a name.
    pub declarator: Declarator<'s>,
}

/// A specifier of a declaration (C99 6.7).
#[cycle(tree)]
#[derive(Drop)]
pub enum Spec<'s> {
    /// A storage class, a qualifier, `inline` or a word of a type.
    Keyword(At, Sign),
    /// A typedef name (C99 6.7.7).
    Typedef(Identifier<'s>),
    Structure(Structure<'s>),
    Enumeration(Enumeration<'s>),
}

/// A structure or union (C99 6.7.2.1).
#[cycle(tree)]
#[derive(Drop)]
pub struct Structure<'s> {
    pub at: At,
    /// `struct` or `union`.
    pub sign: Sign,
    pub tag: Option<Identifier<'s>>,
    /// The declarations in its body; none: it has no body.
    pub members: Vec<Member<'s>>,
}

/// A declaration of members.
#[cycle(tree)]
#[derive(Drop)]
pub struct Member<'s> {
    pub at: At,
    pub specs: Vec<Spec<'s>>,
    pub fields: Vec<Field<'s>>,
}

/// A declarator of a member, and its width if it is a bit-field.
#[cycle(tree)]
#[derive(Drop)]
pub struct Field<'s> {
    pub at: At,
    pub declarator: Declarator<'s>,
    pub width: Option<Box<Expr<'s>>>,
}

/// An enumeration (C99 6.7.2.2).
#[cycle(tree)]
#[derive(Drop)]
pub struct Enumeration<'s> {
    pub at: At,
    pub tag: Option<Identifier<'s>>,
    /// The constants in its body; none: it has no body.
    pub enumerators: Vec<Enumerator<'s>>,
    /// Whether a comma stands after the last one.
    pub ends_with_comma: bool,
}

/// A constant of an enumeration, and its value if one is written.
#[cycle(tree)]
#[derive(Drop)]
pub struct Enumerator<'s> {
    pub at: At,
    pub name: Identifier<'s>,
    pub value: Option<Box<Expr<'s>>>,
}

/// A declarator (C99 6.7.5).
#[cycle(tree)]
#[derive(Drop)]
pub enum Declarator<'s> {
    Named(Identifier<'s>),
    /// No word: the declarator lacks its name.
    Unnamed(At),
    /// `*`, its qualifiers, and the declarator after them.
    Pointer(At, Vec<Qualifier>, Box<Declarator<'s>>),
    /// In a pair of parentheses.
    Parenthesised(At, Box<Declarator<'s>>),
    /// An array, where its brackets stand, and its length if one is written.
    Array(At, Box<Declarator<'s>>, At, Option<Box<Expr<'s>>>),
    /// A function, where its parentheses stand, its parameters, and whether `...` stands after the last.
    Function(At, Box<Declarator<'s>>, At, Vec<Parameter<'s>>, bool),
}

/// A parameter.
#[cycle(tree)]
#[derive(Drop)]
pub struct Parameter<'s> {
    pub at: At,
    pub specs: Vec<Spec<'s>>,
    pub declarator: Declarator<'s>,
}
