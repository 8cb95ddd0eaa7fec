//! The codes with which a source is refused, by name, and the text of each.

ghost use Rattle.std.specs.Prelude.{◌≡◌, ◌<◌, [], length, map, slice_index_or};
ghost use Rattle.p10_base.specs.Codes.{IsCode, code_text, directive_refusal, letter_of, subset_refusal, syntax_refusal, word_refusal};

use crate::{Family, Refusal, Span};

/// The codes X1 to X6: why a file isn't cut into words (C99 6.4).
#[derive(Clone, Copy, Debug)]
pub enum WordCode {
    /// X1: a byte begins no word.
    BadByte = 1,
    /// X2: a `/*` has no `*/`.
    CommentWithoutEnd = 2,
    /// X3: a literal has no closing quote on its line.
    LiteralWithoutEnd = 3,
    /// X4: a number, character or escape is no constant, or `L` stands before a quote.
    BadConstant = 4,
    /// X5: `??` and a third byte are a trigraph.
    Trigraph = 5,
    /// X6: a splice stands in a word.
    SpliceInWord = 6,
}

/// The codes D1 to D8: why a directive or a use of a macro is refused (C99 6.10).
#[derive(Clone, Copy, Debug)]
pub enum DirectiveCode {
    /// D1: a directive is unknown or has another form.
    BadDirective = 1,
    /// D2: a conditional isn't opened or isn't closed.
    UnbalancedConditional = 2,
    /// D3: a condition is no expression, is too deep, or has no value.
    BadCondition = 3,
    /// D4: a definition of a macro has a form that isn't allowed.
    BadDefinition = 4,
    /// D5: an included file isn't there.
    IncludeNotFound = 5,
    /// D6: a use of a macro comes from that macro's own replacement.
    RecursiveMacro = 6,
    /// D7: the number of arguments differs from the parameters.
    WrongArguments = 7,
    /// D8: the arguments of a macro have no closing parenthesis.
    CallWithoutEnd = 8,
}

/// The codes S0 to S30: why a source isn't in the subset of the language.
#[derive(Clone, Copy, Debug)]
pub enum SubsetCode {
    /// S0: `p10` can't deal with this form of program yet.
    NotBuilt = 0,
    /// S1: a name is used that nothing declares.
    UnknownName = 1,
    /// S2: an operator isn't allowed at the types of its operands.
    OperandTypes = 2,
    /// S3: the target of an assignment or step can't be changed.
    FixedTarget = 3,
    /// S4: a value doesn't fit the type of its target.
    TypesDiffer = 4,
    /// S5: a call has another number of arguments than its function has parameters.
    WrongArguments = 5,
    /// S6: what is called isn't a function's name.
    BadCallee = 6,
    /// S7: an assignment or a step is an operand.
    NestedAssignment = 7,
    /// S8: a comma operator.
    CommaOperator = 8,
    /// S9: the order of a call and another operand isn't specified.
    UnspecifiedOrder = 9,
    /// S10: a cast isn't allowed.
    BadCast = 10,
    /// S11: an allocation has another form.
    BadAllocation = 11,
    /// S12: a structure has no such member.
    UnknownMember = 12,
    /// S13: a constant expression is required.
    NotConstant = 13,
    /// S14: the value of a void expression is used.
    VoidValue = 14,
    /// S15: a structure is an argument or a result.
    StructurePassed = 15,
    /// S16: the size of a type that has none.
    NoSize = 16,
    /// S17: the address of something that has none.
    NoAddress = 17,
    /// S18: a constant expression stops, or isn't in range.
    ConstantStops = 18,
    /// S19: a floating or complex type.
    FloatingType = 19,
    /// S20: a union or a bit-field.
    UnionOrBitField = 20,
    /// S21: the length of an array isn't a positive constant, or the type is too large.
    BadLength = 21,
    /// S22: a specifier isn't in the subset.
    BadSpecifier = 22,
    /// S23: a function has no full prototype.
    NoPrototype = 23,
    /// S24: a pointer type isn't in the subset.
    BadPointer = 24,
    /// S25: a type is incomplete.
    IncompleteType = 25,
    /// S26: a name is defined twice or declared differently.
    DefinedTwice = 26,
    /// S27: what is used isn't defined in the program.
    NotDefined = 27,
    /// S28: `main` is missing, has another form, or is used.
    BadMain = 28,
    /// S29: a label or a jump isn't allowed.
    BadJump = 29,
    /// S30: a p10 pragma is misplaced.
    MisplacedPragma = 30,
}

impl Refusal {
    /// The refusal of a file's bytes, at `span`.
    pub fn word(code: WordCode, span: Span) -> Refusal
        ensures value { result ≡ word_refusal code span }
        ensures code { IsCode result.family result.number }
    {
        Refusal {
            family: Family::X,
            number: code as u8,
            span,
        }
    }

    /// The refusal of a directive or of a use of a macro, at `span`.
    pub fn directive(code: DirectiveCode, span: Span) -> Refusal
        ensures value { result ≡ directive_refusal code span }
        ensures code { IsCode result.family result.number }
    {
        Refusal {
            family: Family::D,
            number: code as u8,
            span,
        }
    }

    /// The refusal G1 of words that no tree of the grammar spells, at `span`.
    pub fn syntax(span: Span) -> Refusal
        ensures value { result ≡ syntax_refusal span }
        ensures code { IsCode result.family result.number }
    {
        Refusal {
            family: Family::G,
            number: 1,
            span,
        }
    }

    /// The refusal of a source that isn't in the subset of the language, at `span`.
    pub fn subset(code: SubsetCode, span: Span) -> Refusal
        ensures value { result ≡ subset_refusal code span }
        ensures code { IsCode result.family result.number }
    {
        Refusal {
            family: Family::S,
            number: code as u8,
            span,
        }
    }

    /// Why a source is refused, in words: the text of the code.
    #[tactic(auto, unfolding(crate::specs::Codes::code_text, crate::specs::Codes::word_texts, crate::specs::Codes::directive_texts, crate::specs::Codes::subset_texts))]
    pub fn text(&self) -> &'static str
        requires { IsCode self.now.family self.now.number }
        ensures { result.now ≡ code_text self.now.family self.now.number }
    {
        match self.family {
            Family::X => entry(&WORD_TEXTS, self.number as usize - 1),
            Family::D => entry(&DIRECTIVE_TEXTS, self.number as usize - 1),
            Family::G => "not C of this grammar",
            Family::S => entry(&SUBSET_TEXTS, self.number as usize),
        }
    }
}

impl Family {
    /// The letter with which a code of the family begins.
    pub fn letter(self) -> &'static str
        ensures { result.now ≡ letter_of self }
    {
        match self {
            Family::X => "X",
            Family::D => "D",
            Family::G => "G",
            Family::S => "S",
        }
    }
}

/// An entry of a table of texts.
fn entry(table: &[&'static str], place: usize) -> &'static str
    requires { place < length table.now }
    ensures { result.now ≡ slice_index_or (map (λ text. text.now) table.now) place [] }
{
    table[place]
}

const WORD_TEXTS: [&str; 6] = [
    "bad byte",
    "comment without end",
    "literal without end",
    "bad constant",
    "trigraph",
    "splice in a word",
];

/// The texts of D1 to D8.
const DIRECTIVE_TEXTS: [&str; 8] = [
    "bad directive",
    "unbalanced conditional",
    "bad condition",
    "bad macro definition",
    "include not found",
    "recursive macro",
    "wrong number of macro arguments",
    "macro call without end",
];

/// The texts of S0 to S30.
const SUBSET_TEXTS: [&str; 31] = [
    "not built yet",
    "unknown name",
    "operand types not allowed",
    "target can't be changed",
    "types don't fit",
    "wrong number of arguments",
    "call of something other than a function's name",
    "assignment or step as an operand",
    "comma operator",
    "unspecified order of a call",
    "cast not allowed",
    "allocation of another form",
    "unknown member",
    "constant expression required",
    "value of a void expression",
    "struct as argument or result",
    "size of a type without one",
    "address of something without one",
    "constant expression that stops",
    "floating or complex type",
    "union or bit-field",
    "array length not a positive constant",
    "specifier not in the subset",
    "function without a full prototype",
    "pointer type not in the subset",
    "incomplete type",
    "defined twice or declared differently",
    "not defined in the program",
    "main missing, of another form, or used",
    "label or jump not allowed",
    "misplaced p10 pragma",
];
