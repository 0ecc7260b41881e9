//! The parts of atoms that the goals among nodes ask for: the name, and the arguments that may have a value when a goal
//! is come to, up to the first that surely has one. Atoms are found by a goal's first argument that has a value, so
//! those behind that one never serve.
ghost use Rattle.std.specs.Prelude.{◌≡◌, ◌+◌, ◌^◌, ◌<◌, [], ◌∷◌, ◌++◌, ◌&&◌, not, cond, IfOk, OnOk, map};
ghost use Rattle.std.specs.List.{filter, range_with_len};
ghost use Rattle.hp_syntax.specs.Views.{atom_of, pattern_of, patterns_of};
ghost use Rattle.hp_nodes.specs.Asked.{also, asked_by, asked_parts, atom_variables, behind, behind_head, is_known, is_sure, known_arguments, all_variables, none, variables};
ghost use Rattle.hp_nodes.specs.Marks.{Marks, known_of, marked};
ghost use Rattle.hp_nodes.specs.NodeViews.{laid_of, operation_of};

use crate::marks::{is_marked, mark, mark_atom, mark_if, mark_pattern, mark_tail};
use crate::node::{CodeNode, Op};
use hp_syntax::{AtomPat, Pat, PatKind};
use std::alloc::{AllocError, Global};

/// The last part by which indexes are kept. An index for each of hundreds of thousands of arguments would be dear.
pub const LAST_PART: usize = 8;

/// Whether a pattern is more than a variable that wasn't seen yet.
#[tactic(auto, unfolding(hp_syntax::specs::Views::pattern_of))]
fn is_known(seen: &[bool], pattern: &Pat) -> bool
    ensures { result ≡ is_known (marked seen.now) (pattern_of pattern.now) }
{
    match &pattern.kind {
        PatKind::Var(v) => is_marked(seen, *v as usize),
        PatKind::Sym(_) | PatKind::Num(_) | PatKind::List(_, _) | PatKind::Call(_, _) => true,
    }
}

/// Whether a pattern surely has a value when its goal is come to.
#[tactic(auto, unfolding(hp_syntax::specs::Views::pattern_of))]
fn is_sure(sure: &[bool], pattern: &Pat) -> bool
    ensures { result ≡ is_sure (marked sure.now) (pattern_of pattern.now) }
{
    match &pattern.kind {
        PatKind::Var(v) => is_marked(sure, *v as usize),
        PatKind::Sym(_) | PatKind::Num(_) | PatKind::Call(_, _) => true,
        // It has no value while a variable in it is free.
        PatKind::List(_, _) => false,
    }
}

/// Whether an argument is asked for: if it may serve, and is known.
fn is_asked_for(may_serve: bool, seen: &[bool], argument: &Pat) -> bool
    ensures { result ≡ (may_serve && is_known (marked seen.now) (pattern_of argument.now)) }
{
    may_serve && is_known(seen, argument)
}

/// Whether the arguments behind one may serve: if that one may, and isn't sure.
fn may_serve_behind(may_serve: bool, sure: &[bool], argument: &Pat) -> bool
    ensures { result ≡ (may_serve && not (is_sure (marked sure.now) (pattern_of argument.now))) }
{
    may_serve && !is_sure(sure, argument)
}

/// What is known while nodes are gone through, and what was asked for so far.
#[derive(Drop)]
pub(crate) struct Asking {
    /// The variables of the head of the rule.
    head: Vec<bool>,
    /// Those of them that surely have a value.
    sure: Vec<bool>,
    /// The variables that were seen so far in its branch.
    seen: Vec<bool>,
    /// The parts.
    asked: Vec<bool>,
}

impl Asking {
    fn new(alloc: Global) -> Asking
        ensures known { known_of result ≡ record { head = none; sure = none; seen = none } }
        ensures asked { marked result.asked.items ≡ none }
    {
        Asking {
            head: Vec::new(alloc),
            sure: Vec::new(alloc),
            seen: Vec::new(alloc),
            asked: Vec::new(alloc),
        }
    }

    /// A branch begins: the variables of the head are seen.
    fn begin_branch(&mut self) -> Result<(), AllocError>
        ensures known { OnOk result (known_of self.new ≡ record {
          head = marked self.old.head.items;
          sure = marked self.old.sure.items;
          seen = marked self.old.head.items;
        }) }
        ensures asked { self.new.asked ≡ self.old.asked }
    {
        self.seen.clear();
        self.seen.extend_from_slice(self.head.as_slice())
    }

    /// A rule begins, with this head, of which no variable is sure: the goal that an axiom is for may have free ones.
    fn begin_rule(&mut self, head: &AtomPat) -> Result<(), AllocError>
        ensures known { OnOk result (known_of self.new ≡ behind_head (atom_of head.now) none) }
        ensures asked { self.new.asked ≡ self.old.asked }
    {
        self.sure.clear();
        self.head.clear();
        mark_atom(&mut self.head, head)?;
        self.begin_branch()
    }

    /// A rule for tasks begins, with this head: its variables are sure, since a task has none when a rule is tried for
    /// it.
    fn begin_task_rule(&mut self, head: &AtomPat) -> Result<(), AllocError>
        ensures known { OnOk result (known_of self.new
            ≡ behind_head (atom_of head.now) (also (atom_variables (atom_of head.now)) none)) }
        ensures asked { self.new.asked ≡ self.old.asked }
    {
        self.begin_rule(head)?;
        mark_atom(&mut self.sure, head)
    }

    /// An argument, which is this part, is come to. It is asked for if it may serve.
    fn ask_argument(
        &mut self,
        part: usize,
        argument: &Pat,
        may_serve: bool,
    ) -> Result<(), AllocError>
        requires { part + 1 < 2 ^ 64 }
        ensures known { OnOk result (known_of self.new ≡ record {
          head = marked self.old.head.items;
          sure = marked self.old.sure.items;
          seen = also (variables (pattern_of argument.now)) (marked self.old.seen.items);
        }) }
        ensures asked { OnOk result (Marks (cond (may_serve && is_known (marked self.old.seen.items)
            (pattern_of argument.now)) (part ∷ []) []) self.old.asked.items self.new.asked.items) }
    {
        let asked = is_asked_for(may_serve, self.seen.as_slice(), argument);
        mark_pattern(&mut self.seen, argument)?;
        mark_if(&mut self.asked, asked, part)
    }

    /// The arguments of a goal are come to. Behind one that is sure none serves.
    fn ask_arguments(&mut self, arguments: &[Pat]) -> Result<(), AllocError>
        ensures known { OnOk result (known_of self.new ≡ record {
          head = marked self.old.head.items;
          sure = marked self.old.sure.items;
          seen = also (all_variables (patterns_of arguments.now)) (marked self.old.seen.items);
        }) }
        ensures asked { OnOk result (Marks (known_arguments (marked self.old.sure.items)
            (marked self.old.seen.items) 1 (patterns_of arguments.now)) self.old.asked.items self.new.asked.items) }
    {
        let mut may_serve = true;
        for (number, argument) in arguments.iter().enumerate() {
            self.ask_argument(number + 1, argument, may_serve)?;
            may_serve = may_serve_behind(may_serve, self.sure.as_slice(), argument);
        }
        Ok(())
    }

    /// A goal is come to.
    fn ask(&mut self, goal: &AtomPat) -> Result<(), AllocError>
        ensures known { OnOk result (known_of self.new ≡ record {
          head = marked self.old.head.items;
          sure = marked self.old.sure.items;
          seen = also (atom_variables (atom_of goal.now)) (marked self.old.seen.items);
        }) }
        ensures asked { OnOk result (Marks (0 ∷ known_arguments (marked self.old.sure.items)
            (marked self.old.seen.items) 1 (patterns_of goal.now.args.items)) self.old.asked.items
            self.new.asked.items) }
    {
        mark(&mut self.asked, 0)?;
        self.ask_arguments(goal.args.as_slice())?;
        mark_tail(&mut self.seen, &goal.tail)
    }

    /// A variable is given a value.
    fn assign(&mut self, v: u32) -> Result<(), AllocError>
        ensures known { OnOk result (known_of self.new ≡ record {
          head = marked self.old.head.items;
          sure = marked self.old.sure.items;
          seen = also (v ∷ []) (marked self.old.seen.items);
        }) }
        ensures asked { self.new.asked ≡ self.old.asked }
    {
        mark(&mut self.seen, v as usize)
    }

    /// A node is come to.
    fn come_to(&mut self, op: &Op) -> Result<(), AllocError>
        ensures known { OnOk result (known_of self.new ≡ behind (operation_of op.now) (known_of self.old)) }
        ensures asked { OnOk result (Marks (asked_by (operation_of op.now) (known_of self.old))
            self.old.asked.items self.new.asked.items) }
    {
        match op {
            Op::Operator(head) | Op::Method(head) => self.begin_task_rule(head),
            Op::Axiom(head) => self.begin_rule(head),
            Op::Branch(_) => self.begin_branch(),
            Op::Atom(goal) => self.ask(goal),
            Op::Assign(v, _) => self.assign(*v),
            Op::Plain | Op::First | Op::Sort(_) | Op::And | Op::Or | Op::Not => Ok(()),
            Op::Forall | Op::Call(_) | Op::Delete(_) | Op::Add(_) | Op::Unguard(_) => Ok(()),
            Op::Guard(_) | Op::Each | Op::Cost(_) | Op::Tasks(_) => Ok(()),
        }
    }
}

/// The marked parts, in order.
fn marked_parts(alloc: Global, marks: &[bool]) -> Result<Vec<usize>, AllocError>
    ensures { IfOk result (λ parts. parts.items
        ≡ filter (marked marks.now) (range_with_len 0 (LAST_PART + 1))) }
{
    let mut parts = Vec::new(alloc);
    for part in 0..LAST_PART + 1 {
        if is_marked(marks, part) {
            parts.push(part)?;
        }
    }
    Ok(parts)
}

/// The parts that the goals among nodes ask for, in order, each once: the name, and the arguments that may be known
/// when a goal is come to, up to the first that surely is.
pub fn asked_by_nodes(alloc: Global, nodes: &[CodeNode]) -> Result<Vec<usize>, AllocError>
    ensures { IfOk result (λ parts. parts.items ≡ asked_parts (map laid_of nodes.now)) }
{
    let mut asking = Asking::new(alloc);
    for node in nodes {
        asking.come_to(&node.op)?;
    }
    marked_parts(alloc, asking.asked.as_slice())
}
