//! Terms and atoms.

ghost use Rattle.std.specs.Prelude.{◌≡◌, ◌++◌, OnOk, codes};
ghost use Rattle.hp_syntax.specs.Views.{pattern_of, patterns_of, atom_of, atoms_of};
ghost use Rattle.hp_syntax.specs.Written as written;
ghost use Rattle.hp_syntax.specs.Written.{node_text, rest_text, group};

use crate::words::{push_all, push_begun, push_number, push_variable, variable_name};
use hp_syntax::{AtomPat, Name, Pat, PatKind, Tail};
use std::alloc::AllocError;

/// The variable behind a dot, where there is one, as what follows in a list.
#[tactic(auto, unfolding(hp_syntax::specs::Written::rest_text))]
fn push_tail(text: &mut Vec<u8>, vars: &[Name], tail: Option<Tail>) -> Result<(), AllocError>
    ensures { OnOk result (text.new.items ≡ text.old.items ++ rest_text (written.tail vars.now tail)) }
{
    match tail {
        None => Ok(()),
        Some(tail) => push_all(text, &[b" . ", variable_name(vars, tail.var)]),
    }
}

/// A term.
#[cycle(pattern)]
#[tactic(auto, unfolding(hp_syntax::specs::Views::pattern_of, hp_syntax::specs::Written::pattern))]
pub fn push_pattern(text: &mut Vec<u8>, vars: &[Name], pat: &Pat) -> Result<(), AllocError>
    ensures { OnOk result (text.new.items ≡ text.old.items
        ++ node_text (written.pattern vars.now (pattern_of pat.now))) }
{
    match &pat.kind {
        PatKind::Var(v) => push_variable(text, vars, *v),
        PatKind::Sym(name) => text.extend_from_slice(name.bytes()),
        PatKind::Num(n) => push_number(text, *n),
        PatKind::List(parts, tail) => push_list(text, vars, parts.as_slice(), *tail),
        PatKind::Call(name, args) => {
            push_all(text, &[b"(call ", name.bytes()])?;
            push_items(text, vars, args.as_slice(), None)
        }
    }
}

/// A list, which begins with its first part.
#[cycle(pattern)]
#[tactic(auto, unfolding(hp_syntax::specs::Written::pattern, hp_syntax::specs::Written::node_text))]
fn push_list(
    text: &mut Vec<u8>,
    vars: &[Name],
    parts: &[Pat],
    tail: Option<Tail>,
) -> Result<(), AllocError>
    ensures { OnOk result (text.new.items ≡ text.old.items
        ++ node_text (group (written.items vars.now (patterns_of parts.now) tail))) }
{
    match (parts, tail) {
        ([], None) => text.extend_from_slice(b"()"),
        ([], Some(tail)) => push_all(text, &[b"(. ", variable_name(vars, tail.var), b")"]),
        ([first, rest @ ..], tail) => {
            text.push(b'(')?;
            push_pattern(text, vars, first)?;
            push_items(text, vars, rest, tail)
        }
    }
}

/// The rest of a list: its parts, its tail and the closing bracket.
#[cycle(pattern)]
#[tactic(auto, unfolding(hp_syntax::specs::Written::pattern, hp_syntax::specs::Written::rest_text))]
pub fn push_items(
    text: &mut Vec<u8>,
    vars: &[Name],
    parts: &[Pat],
    tail: Option<Tail>,
) -> Result<(), AllocError>
    ensures { OnOk result (text.new.items ≡ text.old.items
        ++ rest_text (written.items vars.now (patterns_of parts.now) tail) ++ codes ")") }
{
    for part in parts {
        text.push(b' ')?;
        push_pattern(text, vars, part)?;
    }
    push_tail(text, vars, tail)?;
    text.extend_from_slice(b")")
}

/// An atom.
#[tactic(auto, unfolding(hp_syntax::specs::Written::node_text))]
pub fn push_atom(text: &mut Vec<u8>, vars: &[Name], atom: &AtomPat) -> Result<(), AllocError>
    ensures { OnOk result (text.new.items ≡ text.old.items ++ node_text (written.atom vars.now (atom_of atom.now))) }
{
    push_begun(text, atom.name.bytes())?;
    push_items(text, vars, atom.args.as_slice(), atom.tail)
}

/// More atoms of a list, and the closing bracket.
#[tactic(auto, unfolding(hp_syntax::specs::Written::rest_text))]
fn push_more_atoms(text: &mut Vec<u8>, vars: &[Name], atoms: &[AtomPat]) -> Result<(), AllocError>
    ensures { OnOk result (text.new.items ≡ text.old.items
        ++ rest_text (written.atoms vars.now (atoms_of atoms.now)) ++ codes ")") }
{
    for atom in atoms {
        text.push(b' ')?;
        push_atom(text, vars, atom)?;
    }
    text.extend_from_slice(b")")
}

/// A list of atoms.
#[tactic(auto, unfolding(hp_syntax::specs::Written::node_text))]
pub fn push_atoms(text: &mut Vec<u8>, vars: &[Name], atoms: &[AtomPat]) -> Result<(), AllocError>
    ensures { OnOk result (text.new.items ≡ text.old.items
        ++ node_text (group (written.atoms vars.now (atoms_of atoms.now)))) }
{
    text.push(b'(')?;
    match atoms {
        [] => text.extend_from_slice(b")"),
        [first, rest @ ..] => {
            push_atom(text, vars, first)?;
            push_more_atoms(text, vars, rest)
        }
    }
}

/// More variables of a list, and the closing bracket.
#[tactic(auto, unfolding(hp_syntax::specs::Written::rest_text))]
fn push_more_variables(text: &mut Vec<u8>, vars: &[Name], list: &[u32]) -> Result<(), AllocError>
    ensures { OnOk result (text.new.items ≡ text.old.items
        ++ rest_text (written.variables vars.now list.now) ++ codes ")") }
{
    for v in list {
        text.push(b' ')?;
        push_variable(text, vars, *v)?;
    }
    text.extend_from_slice(b")")
}

/// A list of variables.
#[tactic(auto, unfolding(hp_syntax::specs::Written::node_text))]
pub fn push_variables(text: &mut Vec<u8>, vars: &[Name], list: &[u32]) -> Result<(), AllocError>
    ensures { OnOk result (text.new.items ≡ text.old.items
        ++ node_text (group (written.variables vars.now list.now))) }
{
    text.push(b'(')?;
    match list {
        [] => text.extend_from_slice(b")"),
        [first, rest @ ..] => {
            push_variable(text, vars, *first)?;
            push_more_variables(text, vars, rest)
        }
    }
}

/// The beginning of what is said for all values of variables: `(forall (VARIABLE ..) `
pub fn push_begun_forall(text: &mut Vec<u8>, vars: &[Name], list: &[u32]) -> Result<(), AllocError>
    ensures { OnOk result (text.new.items ≡ text.old.items
        ++ codes "(forall " ++ node_text (group (written.variables vars.now list.now)) ++ codes " ") }
{
    push_begun(text, b"forall ")?;
    push_variables(text, vars, list)?;
    text.extend_from_slice(b" ")
}
