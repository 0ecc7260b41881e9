//! Sets of numbers, as a mark for each number up to the largest.
ghost use Rattle.std.specs.Prelude.{◌≡◌, ◌+◌, ◌^◌, ◌<◌, [], ◌∷◌, cond, OnOk};
ghost use Rattle.hp_syntax.specs.Views.{atom_of, pattern_of, patterns_of};
ghost use Rattle.hp_nodes.specs.Asked.{all_variables, atom_variables, tail_variables, variables};
ghost use Rattle.hp_nodes.specs.Marks.{Marks, marked};

use hp_syntax::{AtomPat, Pat, PatKind, Tail};
use std::alloc::AllocError;

/// Whether a number is marked.
pub(crate) fn is_marked(marks: &[bool], number: usize) -> bool
    ensures { result ≡ marked marks.now number }
{
    match marks.get(number) {
        Some(mark) => *mark,
        None => false,
    }
}

/// Marks a number.
pub(crate) fn mark(marks: &mut Vec<bool>, number: usize) -> Result<(), AllocError>
    requires { number + 1 < 2 ^ 64 }
    ensures { OnOk result (Marks (number ∷ []) marks.old.items marks.new.items) }
{
    let length = marks.len().max(number + 1);
    marks.resize(length, false)?;
    marks[number] = true;
    Ok(())
}

/// Marks a number where a test passes.
pub(crate) fn mark_if(marks: &mut Vec<bool>, test: bool, number: usize) -> Result<(), AllocError>
    requires { number + 1 < 2 ^ 64 }
    ensures { OnOk result (Marks (cond test (number ∷ []) []) marks.old.items marks.new.items) }
{
    if test { mark(marks, number) } else { Ok(()) }
}

/// Marks the variable of a tail, where there is one.
pub(crate) fn mark_tail(marks: &mut Vec<bool>, tail: &Option<Tail>) -> Result<(), AllocError>
    ensures { OnOk result (Marks (tail_variables tail.now) marks.old.items marks.new.items) }
{
    match tail {
        Some(tail) => mark(marks, tail.var as usize),
        None => Ok(()),
    }
}

/// Marks the variables of a pattern.
#[cycle(pattern)]
#[tactic(auto, unfolding(hp_syntax::specs::Views::pattern_of, crate::specs::Asked::variables))]
pub(crate) fn mark_pattern(marks: &mut Vec<bool>, pattern: &Pat) -> Result<(), AllocError>
    ensures { OnOk result (Marks (variables (pattern_of pattern.now)) marks.old.items marks.new.items) }
{
    match &pattern.kind {
        PatKind::Var(v) => mark(marks, *v as usize),
        PatKind::Sym(_) | PatKind::Num(_) => Ok(()),
        PatKind::List(parts, tail) => {
            mark_patterns(marks, parts.as_slice())?;
            mark_tail(marks, tail)
        }
        PatKind::Call(_, args) => mark_patterns(marks, args.as_slice()),
    }
}

/// Marks the variables of some patterns.
#[cycle(pattern)]
pub(crate) fn mark_patterns(marks: &mut Vec<bool>, patterns: &[Pat]) -> Result<(), AllocError>
    ensures { OnOk result (Marks (all_variables (patterns_of patterns.now)) marks.old.items marks.new.items) }
{
    for pattern in patterns {
        mark_pattern(marks, pattern)?;
    }
    Ok(())
}

/// Marks the variables of an atom.
pub(crate) fn mark_atom(marks: &mut Vec<bool>, atom: &AtomPat) -> Result<(), AllocError>
    ensures { OnOk result (Marks (atom_variables (atom_of atom.now)) marks.old.items marks.new.items) }
{
    mark_patterns(marks, atom.args.as_slice())?;
    mark_tail(marks, &atom.tail)
}
