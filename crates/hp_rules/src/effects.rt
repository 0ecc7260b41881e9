//! Delete and add lists.

ghost use Rattle.std.specs.Prelude.{map};
ghost use Rattle.hp_syntax.specs.Steps as steps;
ghost use Rattle.hp_syntax.specs.Grammar as grammar;
ghost use Rattle.hp_syntax.specs.Views.{effect_of};
ghost use Rattle.hp_text.specs.Nodes.{node_of, nodes_of};
ghost use Rattle.hp_terms.specs.FormReads.{Reads};

use hp_conditions::expressions::expression;
use hp_syntax::{Effect, Name, Span, What};
use hp_terms::FormRefusal;
use hp_terms::names::{is, is_plain};
use hp_terms::nodes::{closing, ended, expected, list, next};
use hp_terms::scope::Scope;
use hp_terms::terms::{Setting, atom, atoms, begun, named_atom};
use hp_text::Node;

/// `(:protection atom)`
#[tactic(auto, unfolding(hp_syntax::specs::Grammar::protection))]
fn protection(scope: &mut Scope, span: Span, rest: &[Node]) -> Result<Effect, FormRefusal>
    ensures { Reads effect_of result (grammar.protection span (nodes_of rest.now))
        scope.old.names.keys scope.new.names.keys }
{
    let (first, rest) = next(What::Atom, closing(span), rest)?;
    let protected = atom(scope, Setting::Rule, first)?;
    ended(rest)?;
    Ok(Effect::Protection(protected))
}

/// `(forall VARIABLES expression atoms)`
#[tactic(auto, unfolding(hp_syntax::specs::Grammar::for_each))]
fn for_each(scope: &mut Scope, span: Span, rest: &[Node]) -> Result<Effect, FormRefusal>
    ensures { Reads effect_of result (grammar.for_each span (nodes_of rest.now))
        scope.old.names.keys scope.new.names.keys }
{
    let (first, rest) = next(What::Variable, closing(span), rest)?;
    let variables = scope.variables(first)?;
    let (second, rest) = next(What::Expr, closing(span), rest)?;
    let range = expression(scope, second)?;
    let (third, rest) = next(What::Atoms, closing(span), rest)?;
    let changed = atoms(scope, Setting::Rule, third)?;
    ended(rest)?;
    Ok(Effect::Forall(variables, range, changed))
}

#[tactic(auto, unfolding(hp_syntax::specs::Grammar::keyed_effect))]
fn keyed(scope: &mut Scope, span: Span, key: &Name, rest: &[Node]) -> Result<Effect, FormRefusal>
    ensures { Reads effect_of result (grammar.keyed_effect span key.now (nodes_of rest.now))
        scope.old.names.keys scope.new.names.keys }
{
    if is(key, b":protection") {
        protection(scope, span, rest)
    } else if is(key, b"forall") {
        for_each(scope, span, rest)
    } else if is_plain(key) {
        Ok(Effect::Atom(named_atom(scope, Setting::Rule, span, key, rest)?))
    } else {
        expected(What::Atom, span)
    }
}

#[tactic(auto, unfolding(hp_syntax::specs::Grammar::effect))]
fn effect(scope: &mut Scope, node: &Node) -> Result<Effect, FormRefusal>
    ensures { Reads effect_of result (grammar.effect (node_of node.now))
        scope.old.names.keys scope.new.names.keys }
{
    match begun(node) {
        Some((key, rest)) => keyed(scope, node.span, key, rest),
        None => expected(What::Atom, node.span),
    }
}

fn each_effect(scope: &mut Scope, nodes: &[Node]) -> Result<Vec<Effect>, FormRefusal>
    ensures { Reads (λ v. map effect_of v.items) result (steps.each grammar.effect (nodes_of nodes.now))
        scope.old.names.keys scope.new.names.keys }
{
    let mut effects = Vec::with_capacity(scope.alloc, nodes.len())?;
    for node in nodes {
        effects.push(effect(scope, node)?)?;
    }
    Ok(effects)
}

/// A delete list or an add list.
#[tactic(auto, unfolding(hp_syntax::specs::Grammar::effects))]
pub fn effects(scope: &mut Scope, node: &Node) -> Result<Vec<Effect>, FormRefusal>
    ensures { Reads (λ v. map effect_of v.items) result (grammar.effects (node_of node.now))
        scope.old.names.keys scope.new.names.keys }
{
    let nodes = list(What::Effects, node)?;
    each_effect(scope, nodes)
}
