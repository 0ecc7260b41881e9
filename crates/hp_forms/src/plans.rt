//! The steps of a plan file: atoms without variables, as terms.

ghost use Rattle.std.specs.Prelude.{map};
ghost use Rattle.hp_syntax.specs.GroundViews.{ground_of};
ghost use Rattle.hp_syntax.specs.Terms.{NoTerm};
ghost use Rattle.hp_text.specs.Nodes.{node_of, nodes_of};
ghost use Rattle.hp_terms.specs.FormReads.{Gives};
ghost use Rattle.hp_forms.specs.PlanForms as plans;
ghost use Rattle.hp_forms.specs.PlanReads.{Adds};

use hp_syntax::{Ground, Name, Span, What};
use hp_terms::FormRefusal;
use hp_terms::names::{is, is_plain, is_variable};
use hp_terms::nodes::{behind, closing, expected, is_word};
use hp_terms::terms::begun;
use hp_text::{Node, NodeKind};
use std::alloc::Global;

#[tactic(auto, unfolding(crate::specs::PlanForms::word_term))]
fn word_term(alloc: Global, span: Span, name: &Name) -> Result<Ground, FormRefusal>
    ensures { Gives ground_of result (plans.word_term span name.now) }
{
    if is(name, b".") {
        expected(What::Term, span)
    } else if is(name, b"nil") {
        Ok(Ground::List(Vec::new(alloc)))
    } else if is_variable(name) {
        expected(What::Ground, span)
    } else {
        Ok(Ground::Sym(name.copy(alloc)?))
    }
}

/// The term that a node is.
#[cycle(term)]
#[tactic(auto, unfolding(crate::specs::PlanForms::term))]
fn term(alloc: Global, node: &Node) -> Result<Ground, FormRefusal>
    ensures { Gives ground_of result (plans.term (node_of node.now)) }
{
    match &node.kind {
        NodeKind::Name(name) => word_term(alloc, node.span, name),
        NodeKind::Num(n) => Ok(Ground::Num(*n)),
        NodeKind::List(nodes) => list_term(alloc, node.span, nodes.as_slice()),
    }
}

#[cycle(term)]
fn list_term(alloc: Global, span: Span, nodes: &[Node]) -> Result<Ground, FormRefusal>
    ensures { Gives ground_of result (plans.list_term span (nodes_of nodes.now)) }
{
    if behind(b"call", nodes).is_some() {
        return expected(What::Ground, span);
    }
    // A list that is no call has the parts that it would have behind a dot.
    let mut parts = Vec::with_capacity(alloc, nodes.len())?;
    list_tail(alloc, span, nodes, &mut parts)?;
    Ok(Ground::List(parts))
}

/// Terms, and then a dot and a tail, where they are. The terms are added to the parts.
#[cycle(term)]
#[tactic(auto, unfolding(crate::specs::PlanForms::items))]
fn items(
    alloc: Global,
    end: Span,
    nodes: &[Node],
    parts: &mut Vec<Ground>,
) -> Result<(), FormRefusal>
    ensures { Adds result (plans.items end (nodes_of nodes.now)) parts.old.items parts.new.items }
{
    let mut rest = nodes;
    while let Some((first, others)) = rest.split_first() {
        if is_word(first, b".") {
            return dotted(alloc, end, others, parts);
        }
        parts.push(term(alloc, first)?)?;
        rest = others;
    }
    Ok(())
}

/// The tail behind a dot.
#[cycle(term)]
#[tactic(auto, unfolding(crate::specs::PlanForms::dotted))]
fn dotted(
    alloc: Global,
    end: Span,
    nodes: &[Node],
    parts: &mut Vec<Ground>,
) -> Result<(), FormRefusal>
    ensures { Adds result (plans.dotted end (nodes_of nodes.now)) parts.old.items parts.new.items }
{
    match nodes {
        [] => expected(What::Tail, end),
        [only] => tail(alloc, only, parts),
        [first, second, ..] => {
            tail(alloc, first, parts)?;
            expected(What::End, second.span)
        }
    }
}

/// A tail is a list, whose parts and tail take its place.
#[cycle(term)]
#[tactic(auto, unfolding(crate::specs::PlanForms::tail))]
fn tail(alloc: Global, node: &Node, parts: &mut Vec<Ground>) -> Result<(), FormRefusal>
    ensures { Adds result (plans.tail (node_of node.now)) parts.old.items parts.new.items }
{
    match &node.kind {
        NodeKind::Name(name) => word_tail(node.span, name),
        NodeKind::Num(_) => expected(What::Tail, node.span),
        NodeKind::List(nodes) => list_tail(alloc, node.span, nodes.as_slice(), parts),
    }
}

/// Behind a dot `nil` adds nothing, and no other name may stand.
#[tactic(auto, unfolding(crate::specs::PlanForms::word_tail))]
fn word_tail(span: Span, name: &Name) -> Result<(), FormRefusal>
    ensures { Gives (λ _. NoTerm) result (plans.word_tail span name.now) }
{
    if is(name, b"nil") {
        Ok(())
    } else if is_variable(name) {
        expected(What::Ground, span)
    } else {
        expected(What::Tail, span)
    }
}

#[cycle(term)]
#[tactic(auto, unfolding(crate::specs::PlanForms::list_tail))]
fn list_tail(
    alloc: Global,
    span: Span,
    nodes: &[Node],
    parts: &mut Vec<Ground>,
) -> Result<(), FormRefusal>
    ensures { Adds result (plans.list_tail span (nodes_of nodes.now)) parts.old.items parts.new.items }
{
    match nodes {
        [] => Ok(()),
        [first, ..] if is_word(first, b"call") => expected(What::Tail, span),
        [first, rest @ ..] => {
            parts.push(term(alloc, first)?)?;
            items(alloc, closing(span), rest, parts)
        }
    }
}

/// A step by its name and what follows: the list of the name and its arguments.
#[tactic(auto, unfolding(crate::specs::PlanForms::named_step))]
fn named_step(alloc: Global, span: Span, name: &Name, nodes: &[Node]) -> Result<Ground, FormRefusal>
    ensures { Gives ground_of result (plans.named_step span name.now (nodes_of nodes.now)) }
{
    let mut parts = Vec::with_capacity(alloc, nodes.len() + 1)?;
    parts.push(Ground::Sym(name.copy(alloc)?))?;
    items(alloc, closing(span), nodes, &mut parts)?;
    Ok(Ground::List(parts))
}

/// The step that a node is: a list that begins with a plain name.
#[tactic(auto, unfolding(crate::specs::PlanForms::step))]
fn step(alloc: Global, node: &Node) -> Result<Ground, FormRefusal>
    ensures { Gives ground_of result (plans.step (node_of node.now)) }
{
    match begun(node) {
        Some((name, rest)) if is_plain(name) => named_step(alloc, node.span, name, rest),
        _ => expected(What::Atom, node.span),
    }
}

/// The steps that the nodes of a plan file are, in order.
pub fn steps(alloc: Global, nodes: &[Node]) -> Result<Vec<Ground>, FormRefusal>
    ensures { Gives (λ v. map ground_of v.items) result (plans.plan_form (nodes_of nodes.now)) }
{
    let mut steps = Vec::with_capacity(alloc, nodes.len())?;
    for node in nodes {
        steps.push(step(alloc, node)?)?;
    }
    Ok(steps)
}
