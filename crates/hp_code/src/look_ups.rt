//! What a code holds, the rules of a name, and what its goals ask for.
ghost use Rattle.std.specs.Prelude.{◌≡◌, ◌<◌, IfOk, Some, length, map, slice_get};
ghost use Rattle.hp_nodes.specs.Asked.{asked_parts};
ghost use Rattle.hp_nodes.specs.NodeViews.{laid_of};
ghost use Rattle.hp_nodes.specs.Trees.{Laid};
ghost use Rattle.hp_code.specs.Codes.{code_of};
ghost use Rattle.hp_code.specs.CodeViews.{IsPlaceOf, concludes, rule_nodes, vars_at};

use crate::code::Code;
use hp_nodes::{CodeNode, asked_by_nodes};
use hp_syntax::Name;
use std::alloc::{AllocError, Global};

impl Code {
    /// All nodes: each rule's, in the order of the domain, and behind each node those below it.
    pub fn nodes(&self) -> &[CodeNode]
        ensures { map laid_of result.now ≡ (code_of self.now).nodes }
    {
        self.nodes.as_slice()
    }

    /// The names of the variables of the rule whose node has an index, by their numbers; none for another node.
    pub fn vars(&self, rule: usize) -> &[Name]
        ensures { result.now ≡ vars_at (code_of self.now) rule }
    {
        match self.rules.as_slice().binary_search(&rule) {
            Ok(number) => match self.vars.get(number) {
                Some(names) => names.as_slice(),
                None => &[],
            },
            Err(_) => &[],
        }
    }

    /// The place of the rule whose node has an index, in the order of the domain; none for another node.
    pub fn place_of(&self, rule: usize) -> Option<usize>
        ensures { IsPlaceOf (code_of self.now) rule result }
    {
        match self.rules.as_slice().binary_search(&rule) {
            Ok(place) => Some(place),
            Err(_) => None,
        }
    }

    /// The node of the rule at a place, in the order of the domain.
    pub fn rule_at(&self, place: usize) -> Option<usize>
        ensures { result ≡ slice_get (rule_nodes (code_of self.now)) place }
    {
        self.rules.get(place).copied()
    }

    /// The nodes of the operators and methods for the tasks of a name, in the order of the domain.
    pub fn task_rules(&self, name: &Name) -> &[usize]
        ensures { result.now ≡ (code_of self.now).task_rules name.now }
    {
        self.task_rules.get(name)
    }

    /// The nodes of the axioms that conclude a name, in the order of the domain.
    pub fn axiom_rules(&self, name: &Name) -> &[usize]
        ensures { result.now ≡ (code_of self.now).axiom_rules name.now }
    {
        self.axiom_rules.get(name)
    }

    /// Whether a node is an atom's whose name axioms conclude. No name is looked up.
    pub fn is_concluded(&self, node: usize) -> bool
        requires { node < length (code_of self.now).nodes }
        ensures { (l : Laid) → slice_get (code_of self.now).nodes node ≡ Some l
            → result ≡ concludes (code_of self.now).axiom_rules l.op }
    {
        self.concluded[node]
    }
}

/// The parts of atoms that the goals of a code ask for, in order, each once: 0 where there is a goal, since each asks
/// for its name, and the places of the arguments that a goal may know when it is come to, up to the first that it
/// surely knows, none above `LAST_PART`. Atoms are found by the first argument that is known, so none behind that one
/// serves. A world may keep indexes by the parts.
pub fn asked_parts(alloc: Global, code: &Code) -> Result<Vec<usize>, AllocError>
    ensures { IfOk result (λ parts. parts.items ≡ asked_parts (code_of code.now).nodes) }
{
    asked_by_nodes(alloc, code.nodes())
}
