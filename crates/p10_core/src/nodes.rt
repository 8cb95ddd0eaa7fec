//! A walk over typed trees: their statements, values and places, one after the other in text order, without recursion.
//! A walk over a program is a loop over [`Nodes`], and its contract speaks of the list of the nodes that are left.

use crate::pushing::push_one;
use crate::statements::{Initializer, Item, LoopKeyword, Stmt, StmtForm, Written};
use crate::typed::{Place, PlaceForm, Value, ValueForm};
use std::alloc::{AllocError, Global};

/// A node of a typed tree.
#[derive(Clone, Copy)]
pub enum Node<'p> {
    Stmt(&'p Stmt),
    Value(&'p Value),
    Place(&'p Place),
}

/// The nodes that are left of a walk.
#[derive(Drop)]
pub struct Nodes<'p> {
    /// Trees whose nodes are left. The next one stands last.
    ahead: Vec<Node<'p>>,
}

impl<'p> Nodes<'p> {
    ghost use Rattle.std.specs.Prelude.{◌≡◌, [], ◌∷◌, ◌++◌, IfOk, IfNone, map, option_map, option_copied};
    ghost use Rattle.p10_core.specs.Nodes.{nodes_of_value, nodes_of_place, nodes_of_values, nodes_of_statement, nodes_of_statements, nodes_of_items, nodes_of_initializer, nodes_of_maybe, nodes_of_written, in_loop_order, nodes_in, nodes_in_form, nodes_in_place_form, nodes_in_statement_form};
    ghost use Rattle.p10_core.specs.Views.{plain_value, plain_place, plain_values, plain_form, plain_place_form, plain_item, plain_written, plain_initializer, plain_statement, plain_statements, plain_statement_form};
    ghost use Rattle.p10_core.specs.Walks.{plain_node, nodes_ahead, left_in, WalksOn};

    /// No nodes.
    pub fn new(alloc: Global) -> Nodes<'p>
        ensures { left_in result ≡ [] }
    {
        Nodes {
            ahead: Vec::new(alloc),
        }
    }

    /// The nodes of statements, one after the other. It fails only where memory runs out.
    pub fn of_statements(alloc: Global, all: &'p [Stmt]) -> Result<Nodes<'p>, AllocError>
        ensures { IfOk result (λ w. left_in w ≡ nodes_of_statements (plain_statements all.now)) }
    {
        let mut nodes = Nodes::new(alloc);
        nodes.put_statements(all)?;
        Ok(nodes)
    }

    /// The nodes of a value. It fails only where memory runs out.
    pub fn of_value(alloc: Global, value: &'p Value) -> Result<Nodes<'p>, AllocError>
        ensures { IfOk result (λ w. left_in w ≡ nodes_of_value (plain_value value.now)) }
    {
        let mut nodes = Nodes::new(alloc);
        nodes.put_value(value)?;
        Ok(nodes)
    }

    /// The nodes of an initialiser. It fails only where memory runs out.
    pub fn of_initializer(alloc: Global, initial: &'p Initializer) -> Result<Nodes<'p>, AllocError>
        ensures { IfOk result (λ w. left_in w ≡ nodes_of_initializer (plain_initializer initial.now)) }
    {
        let mut nodes = Nodes::new(alloc);
        nodes.put_initializer(initial)?;
        Ok(nodes)
    }

    /// The next node, or `None` at the end. Out of memory, nothing is said of what is left.
    pub fn next(&mut self) -> Result<Option<Node<'p>>, AllocError>
        ensures walks { IfOk result (λ found. WalksOn found (left_in self.old) (left_in self.new)) }
        ensures end { IfOk result (λ found. IfNone found (left_in self.new ≡ [])) }
    {
        match self.ahead.pop() {
            Some(node) => {
                self.open(node)?;
                Ok(Some(node))
            }
            None => Ok(None),
        }
    }

    /// Puts the parts of a node ahead.
    fn open(&mut self, node: Node<'p>) -> Result<(), AllocError>
        ensures { IfOk result (λ _. nodes_ahead self.new.ahead.items ≡ nodes_in (plain_node node.entry) ++ nodes_ahead self.old.ahead.items) }
    {
        match node {
            Node::Stmt(statement) => self.open_statement(&statement.form),
            Node::Value(value) => self.open_value(&value.form),
            Node::Place(place) => self.open_place(&place.form),
        }
    }

    /// Puts the parts of a value ahead.
    fn open_value(&mut self, form: &'p ValueForm) -> Result<(), AllocError>
        ensures { IfOk result (λ _. nodes_ahead self.new.ahead.items ≡ nodes_in_form (plain_form form.now) ++ nodes_ahead self.old.ahead.items) }
    {
        match form {
            ValueForm::Const(_) | ValueForm::Sense(_) => Ok(()),
            ValueForm::Read(place) | ValueForm::Addr(place) | ValueForm::Decay(place) => {
                self.put_place(place)
            }
            ValueForm::Convert(value) | ValueForm::Cast(value) | ValueForm::Unary(_, value) => {
                self.put_value(value)
            }
            ValueForm::Binary(_, left, right) | ValueForm::Logic(_, left, right) => {
                self.put_two(left, right)
            }
            ValueForm::Cond(test, left, right) => {
                self.put_two(left, right)?;
                self.put_value(test)
            }
            ValueForm::Call(_, _, arguments) | ValueForm::Builtin(_, _, arguments) => {
                self.put_values(arguments.as_slice())
            }
        }
    }

    /// Puts the parts of a place ahead.
    fn open_place(&mut self, form: &'p PlaceForm) -> Result<(), AllocError>
        ensures { IfOk result (λ _. nodes_ahead self.new.ahead.items ≡ nodes_in_place_form (plain_place_form form.now) ++ nodes_ahead self.old.ahead.items) }
    {
        match form {
            PlaceForm::Var(_) | PlaceForm::Global(_) | PlaceForm::Literal(_, _) => Ok(()),
            PlaceForm::Index(pointer, by) => self.put_two(pointer, by),
            PlaceForm::Member(whole, _) => self.put_place(whole),
            PlaceForm::Deref(pointer) => self.put_value(pointer),
        }
    }

    /// Puts the parts of a statement ahead.
    fn open_statement(&mut self, form: &'p StmtForm) -> Result<(), AllocError>
        ensures { IfOk result (λ _. nodes_ahead self.new.ahead.items ≡ nodes_in_statement_form (plain_statement_form form.now) ++ nodes_ahead self.old.ahead.items) }
    {
        match form {
            StmtForm::Set(target, value) => {
                self.put_value(value)?;
                self.put_place(target)
            }
            StmtForm::Update(_, _, _, target, value) => {
                self.put_value(value)?;
                self.put_place(target)
            }
            StmtForm::Copy(target, source) => {
                self.put_place(source)?;
                self.put_place(target)
            }
            StmtForm::Value(value) | StmtForm::Assert(_, value) => self.put_value(value),
            StmtForm::Declare(_, initial) => self.put_initializer(initial),
            StmtForm::Block(items) => self.put_statements(items.as_slice()),
            StmtForm::If(test, then, None) => self.put_tested(test, then),
            StmtForm::If(test, then, Some(otherwise)) => {
                self.put_statement(otherwise)?;
                self.put_tested(test, then)
            }
            StmtForm::Loop(head, first, test, third, body) => {
                self.put_loop(
                    head.keyword,
                    first.as_slice(),
                    test.as_ref(),
                    third.as_slice(),
                    body,
                )
            }
            StmtForm::Switch(_, value, _, body) => {
                self.put_statement(body)?;
                self.put_value(value)
            }
            StmtForm::Return(_, value) => self.put_maybe(value.as_ref()),
            StmtForm::Static(_)
            | StmtForm::Break
            | StmtForm::Continue
            | StmtForm::Empty
            | StmtForm::Mark(_) => Ok(()),
        }
    }

    /// Puts a test and the statement after it ahead.
    fn put_tested(&mut self, test: &'p Value, then: &'p Stmt) -> Result<(), AllocError>
        ensures { IfOk result (λ _. nodes_ahead self.new.ahead.items ≡ (nodes_of_value (plain_value test.now) ++ nodes_of_statement (plain_statement then.now)) ++ nodes_ahead self.old.ahead.items) }
    {
        self.put_statement(then)?;
        self.put_value(test)?;
        Ok(())
    }

    /// Puts the parts of a loop ahead.
    fn put_loop(
        &mut self,
        keyword: LoopKeyword,
        first: &'p [Stmt],
        test: Option<&'p Value>,
        third: &'p [Stmt],
        body: &'p Stmt,
    ) -> Result<(), AllocError>
        ensures { IfOk result (λ _. nodes_ahead self.new.ahead.items ≡ in_loop_order keyword (nodes_of_statements (plain_statements first.now)) (nodes_of_maybe (option_map plain_value (option_copied test.entry))) (nodes_of_statements (plain_statements third.now)) (nodes_of_statement (plain_statement body.now)) ++ nodes_ahead self.old.ahead.items) }
    {
        match keyword {
            LoopKeyword::While | LoopKeyword::For => {
                self.put_statement(body)?;
                self.put_statements(third)?;
                self.put_maybe(test)?;
            }
            LoopKeyword::Do => {
                self.put_statements(third)?;
                self.put_maybe(test)?;
                self.put_statement(body)?;
            }
        }
        self.put_statements(first)
    }

    /// Puts the nodes of an initialiser before those that are left. Out of memory, nothing is said of what is left.
    pub fn put_initializer(&mut self, initial: &'p Initializer) -> Result<(), AllocError>
        ensures { IfOk result (λ _. left_in self.new ≡ nodes_of_initializer (plain_initializer initial.now) ++ left_in self.old) }
    {
        match initial {
            Initializer::Absent => Ok(()),
            Initializer::Single(value) => self.put_value(value),
            Initializer::Copied(place) => self.put_place(place),
            Initializer::Listed(_, items) => self.put_items(items.as_slice()),
        }
    }

    /// Puts a value ahead.
    fn put_value(&mut self, value: &'p Value) -> Result<(), AllocError>
        ensures { IfOk result (λ _. nodes_ahead self.new.ahead.items ≡ nodes_of_value (plain_value value.now) ++ nodes_ahead self.old.ahead.items) }
    {
        push_one(&mut self.ahead, Node::Value(value))?;
        Ok(())
    }

    /// Puts a place ahead.
    fn put_place(&mut self, place: &'p Place) -> Result<(), AllocError>
        ensures { IfOk result (λ _. nodes_ahead self.new.ahead.items ≡ nodes_of_place (plain_place place.now) ++ nodes_ahead self.old.ahead.items) }
    {
        push_one(&mut self.ahead, Node::Place(place))?;
        Ok(())
    }

    /// Puts a statement ahead.
    fn put_statement(&mut self, statement: &'p Stmt) -> Result<(), AllocError>
        ensures { IfOk result (λ _. nodes_ahead self.new.ahead.items ≡ nodes_of_statement (plain_statement statement.now) ++ nodes_ahead self.old.ahead.items) }
    {
        push_one(&mut self.ahead, Node::Stmt(statement))?;
        Ok(())
    }

    /// Puts two values ahead.
    fn put_two(&mut self, left: &'p Value, right: &'p Value) -> Result<(), AllocError>
        ensures { IfOk result (λ _. nodes_ahead self.new.ahead.items ≡ (nodes_of_value (plain_value left.now) ++ nodes_of_value (plain_value right.now)) ++ nodes_ahead self.old.ahead.items) }
    {
        self.put_value(right)?;
        self.put_value(left)?;
        Ok(())
    }

    /// Puts a value ahead, if there is one.
    fn put_maybe(&mut self, value: Option<&'p Value>) -> Result<(), AllocError>
        ensures { IfOk result (λ _. nodes_ahead self.new.ahead.items ≡ nodes_of_maybe (option_map plain_value (option_copied value.entry)) ++ nodes_ahead self.old.ahead.items) }
    {
        match value {
            Some(value) => self.put_value(value),
            None => Ok(()),
        }
    }

    /// Puts values ahead, the first one first.
    fn put_values(&mut self, all: &'p [Value]) -> Result<(), AllocError>
        ensures { IfOk result (λ _. nodes_ahead self.new.ahead.items ≡ nodes_of_values (plain_values all.now) ++ nodes_ahead self.old.ahead.items) }
    {
        let mut left = all.len();
        while left > 0 {
            left -= 1;
            self.put_value(&all[left])?;
        }
        Ok(())
    }

    /// Puts the nodes of statements before those that are left, in text order. Out of memory, nothing is said of what is left.
    pub fn put_statements(&mut self, all: &'p [Stmt]) -> Result<(), AllocError>
        ensures { IfOk result (λ _. left_in self.new ≡ nodes_of_statements (plain_statements all.now) ++ left_in self.old) }
    {
        let mut left = all.len();
        while left > 0 {
            left -= 1;
            self.put_statement(&all[left])?;
        }
        Ok(())
    }

    /// Puts the values of items ahead, the first one first.
    fn put_items(&mut self, all: &'p [Item]) -> Result<(), AllocError>
        ensures { IfOk result (λ _. nodes_ahead self.new.ahead.items ≡ nodes_of_items (map plain_item all.now) ++ nodes_ahead self.old.ahead.items) }
    {
        let mut left = all.len();
        while left > 0 {
            left -= 1;
            self.put_written(&all[left].written)?;
        }
        Ok(())
    }

    /// Puts the value of an item ahead, if it has one.
    fn put_written(&mut self, written: &'p Written) -> Result<(), AllocError>
        ensures { IfOk result (λ _. nodes_ahead self.new.ahead.items ≡ nodes_of_written (plain_written written.now) ++ nodes_ahead self.old.ahead.items) }
    {
        match written {
            Written::Scalar(value) => self.put_value(value),
            Written::Text(_) => Ok(()),
        }
    }
}
