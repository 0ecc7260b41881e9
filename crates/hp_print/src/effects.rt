//! Delete lists and add lists.

ghost use Rattle.std.specs.Prelude.{◌≡◌, ◌++◌, OnOk, codes, map};
ghost use Rattle.hp_syntax.specs.Views.{effect_of};
ghost use Rattle.hp_syntax.specs.Written as written;
ghost use Rattle.hp_syntax.specs.Written.{node_text, rest_text, group};

use crate::expressions::push_expression;
use crate::terms::{push_atom, push_atoms, push_begun_forall};
use crate::words::push_begun;
use hp_syntax::{Effect, Name};
use std::alloc::AllocError;

/// An effect.
#[tactic(auto, unfolding(hp_syntax::specs::Written::effect, hp_syntax::specs::Written::node_text))]
fn push_effect(text: &mut Vec<u8>, vars: &[Name], effect: &Effect) -> Result<(), AllocError>
    ensures { OnOk result (text.new.items ≡ text.old.items
        ++ node_text (written.effect vars.now (effect_of effect.now))) }
{
    match effect {
        Effect::Atom(atom) => push_atom(text, vars, atom),
        Effect::Protection(atom) => {
            push_begun(text, b":protection ")?;
            push_atom(text, vars, atom)?;
            text.extend_from_slice(b")")
        }
        Effect::Forall(list, expr, atoms) => {
            push_begun_forall(text, vars, list.as_slice())?;
            push_expression(text, vars, expr)?;
            text.push(b' ')?;
            push_atoms(text, vars, atoms.as_slice())?;
            text.extend_from_slice(b")")
        }
    }
}

/// More effects of a list, and the closing bracket.
#[tactic(auto, unfolding(hp_syntax::specs::Written::rest_text))]
fn push_more_effects(text: &mut Vec<u8>, vars: &[Name], list: &[Effect]) -> Result<(), AllocError>
    ensures { OnOk result (text.new.items ≡ text.old.items
        ++ rest_text (written.effects vars.now (map effect_of list.now)) ++ codes ")") }
{
    for effect in list {
        text.push(b' ')?;
        push_effect(text, vars, effect)?;
    }
    text.extend_from_slice(b")")
}

/// A delete list or an add list.
#[tactic(auto, unfolding(hp_syntax::specs::Written::node_text))]
pub fn push_effects(text: &mut Vec<u8>, vars: &[Name], list: &[Effect]) -> Result<(), AllocError>
    ensures { OnOk result (text.new.items ≡ text.old.items
        ++ node_text (group (written.effects vars.now (map effect_of list.now)))) }
{
    text.push(b'(')?;
    match list {
        [] => text.extend_from_slice(b")"),
        [first, rest @ ..] => {
            push_effect(text, vars, first)?;
            push_more_effects(text, vars, rest)
        }
    }
}
