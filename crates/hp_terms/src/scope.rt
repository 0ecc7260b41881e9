//! The variables of a rule, or of a problem, while it is read.

ghost use Rattle.std.specs.Prelude.{◌≡◌, [], ◌∷◌, IfOk, bytes_eq, is_some};
ghost use Rattle.std.specs.List.{list_any, position};
ghost use Rattle.hp_syntax.specs.Steps as steps;
ghost use Rattle.hp_syntax.specs.Grammar as grammar;
ghost use Rattle.hp_text.specs.Nodes.{node_of, nodes_of};
ghost use Rattle.hp_terms.specs.FormReads.{Reads};

use crate::names::{is, is_variable};
use crate::nodes::expected;
use crate::refusal::FormRefusal;
use hp_syntax::{Name, What};
use hp_text::{Node, NodeKind};
use indexmap::IndexSet;
use std::alloc::{AllocError, Global};

const MOST_ROOM_KEPT: usize = 64;

const FEW_NAMES: usize = 8;

/// The names so far, each once, in the order of first appearance: a variable's number is the place
/// of its name.
pub struct Scope {
    pub alloc: Global,
    pub names: IndexSet<Name>,
}

impl Drop for Scope {
    fn drop(self) {
        let Scope { alloc: _, names } = self;
        drop(names);
    }
}

/// A list of one item.
pub fn only<T: Drop>(alloc: Global, item: T) -> Result<Vec<T>, AllocError>
    ensures { IfOk result (λ list. list.items ≡ item ∷ []) }
{
    let mut list = Vec::with_capacity(alloc, 1)?;
    list.push(item)?;
    Ok(list)
}

fn place_among(names: &[Name], name: &Name) -> Option<usize>
    ensures { result ≡ position (bytes_eq name.now) names.now }
{
    names.iter().position(|other| is(name, other.bytes()))
}

impl Scope {
    /// A scope without names, which takes no memory before the first name.
    pub fn new(alloc: Global) -> Scope
        ensures { result.names.keys ≡ [] }
    {
        Scope {
            alloc,
            names: IndexSet::new(alloc),
        }
    }

    /// Forgets all names. A little room is kept for the next ones; clearing much of it each time would
    /// cost more than it saves.
    pub fn clear(&mut self)
        ensures { self.new.names.keys ≡ [] }
    {
        if self.names.capacity() <= MOST_ROOM_KEPT {
            self.names.clear();
        } else {
            self.names = IndexSet::new(self.alloc);
        }
    }

    // The place of a name. Few names are compared one by one, which takes less time than a hash.
    fn place_of(&self, name: &Name) -> Option<usize>
        ensures index { result ≡ position (bytes_eq name.now) self.now.names.keys }
        ensures found { is_some result ≡ list_any (bytes_eq name.now) self.now.names.keys }
    {
        if self.names.len() > FEW_NAMES {
            return self.names.get_index_of(name);
        }
        place_among(self.names.as_slice(), name)
    }

    /// The number of a variable.
    pub fn number(&mut self, name: &Name) -> Result<u32, FormRefusal>
        ensures { Reads (λ v. v) result (steps.numbered name.now) self.old.names.keys self.new.names.keys }
    {
        let index = match self.place_of(name) {
            Some(index) => index,
            None => self.names.insert_full(name.copy(self.alloc)?)?.0,
        };
        match u32::try_from(index) {
            Ok(number) => Ok(number),
            // No forest has so many names.
            Err(_) => Err(FormRefusal::NoMemory),
        }
    }

    /// The variable that a node is.
    #[tactic(auto, unfolding(hp_syntax::specs::Grammar::variable))]
    pub fn variable(&mut self, node: &Node) -> Result<u32, FormRefusal>
        ensures { Reads (λ v. v) result (grammar.variable (node_of node.now))
            self.old.names.keys self.new.names.keys }
    {
        match &node.kind {
            NodeKind::Name(name) if is_variable(name) => self.number(name),
            _ => expected(What::Variable, node.span),
        }
    }

    fn each_variable(&mut self, nodes: &[Node]) -> Result<Vec<u32>, FormRefusal>
        ensures { Reads (λ vs. vs.items) result (steps.each grammar.variable (nodes_of nodes.now))
            self.old.names.keys self.new.names.keys }
    {
        let mut variables = Vec::with_capacity(self.alloc, nodes.len())?;
        for node in nodes {
            variables.push(self.variable(node)?)?;
        }
        Ok(variables)
    }

    fn only_variable(&mut self, name: &Name) -> Result<Vec<u32>, FormRefusal>
        ensures { Reads (λ vs. vs.items) result (grammar.one_variable name.now)
            self.old.names.keys self.new.names.keys }
    {
        let variable = self.number(name)?;
        Ok(only(self.alloc, variable)?)
    }

    /// The variables that a node is: one, or a list of them.
    #[tactic(auto, unfolding(hp_syntax::specs::Grammar::variables))]
    pub fn variables(&mut self, node: &Node) -> Result<Vec<u32>, FormRefusal>
        ensures { Reads (λ vs. vs.items) result (grammar.variables (node_of node.now))
            self.old.names.keys self.new.names.keys }
    {
        match &node.kind {
            NodeKind::List(nodes) => self.each_variable(nodes.as_slice()),
            NodeKind::Name(name) if is(name, b"nil") => Ok(Vec::new(self.alloc)),
            NodeKind::Name(name) if is_variable(name) => self.only_variable(name),
            _ => expected(What::Variable, node.span),
        }
    }

    /// All names, by number.
    pub fn all_names(&self) -> Result<Vec<Name>, AllocError>
        ensures { IfOk result (λ names. names.items ≡ self.now.names.keys) }
    {
        let mut copies = Vec::with_capacity(self.alloc, self.names.len())?;
        for name in self.names.as_slice() {
            copies.push(name.copy(self.alloc)?)?;
        }
        Ok(copies)
    }
}
