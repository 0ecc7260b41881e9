//! Terms and atoms.

ghost use Rattle.std.specs.Prelude.{◌≡◌, map, option_map};
ghost use Rattle.hp_syntax.specs.Steps as steps;
ghost use Rattle.hp_syntax.specs.Grammar as grammar;
ghost use Rattle.hp_syntax.specs.Views.{pattern_of, patterns_of, atom_of};
ghost use Rattle.hp_text.specs.Nodes.{node_of, nodes_of};
ghost use Rattle.hp_terms.specs.FormReads.{Reads, Adds, setting_of};
ghost use Rattle.hp_terms.specs.Heads.{fits_of};

use crate::names::{HeadKind, is, is_variable};
use crate::nodes::{behind, closing, expected, is_word, list, name, next};
use crate::refusal::FormRefusal;
use crate::scope::Scope;
use hp_syntax::{AtomPat, Name, Pat, PatKind, Span, Tail, What};
use hp_text::{Node, NodeKind};

/// Where a term stands: calls may stand in a rule, and not in a problem.
#[derive(Clone, Copy)]
pub enum Setting {
    Rule,
    Problem,
}

#[tactic(auto, unfolding(hp_syntax::specs::Grammar::word_term, hp_syntax::specs::Views::pattern_of))]
fn word_term(scope: &mut Scope, span: Span, name: &Name) -> Result<Pat, FormRefusal>
    ensures { Reads pattern_of result (grammar.word_term span name.now)
        scope.old.names.keys scope.new.names.keys }
{
    let kind = if is(name, b".") {
        return expected(What::Term, span);
    } else if is(name, b"nil") {
        PatKind::List(Vec::new(scope.alloc), None)
    } else if is_variable(name) {
        PatKind::Var(scope.number(name)?)
    } else {
        PatKind::Sym(name.copy(scope.alloc)?)
    };
    Ok(Pat { span, kind })
}

/// The term that a node is.
#[cycle(term)]
#[tactic(auto, unfolding(hp_syntax::specs::Grammar::term, hp_syntax::specs::Views::pattern_of))]
pub fn term(scope: &mut Scope, setting: Setting, node: &Node) -> Result<Pat, FormRefusal>
    ensures { Reads pattern_of result (grammar.term (setting_of setting) (node_of node.now))
        scope.old.names.keys scope.new.names.keys }
{
    match &node.kind {
        NodeKind::Name(name) => word_term(scope, node.span, name),
        NodeKind::Num(n) => Ok(Pat {
            span: node.span,
            kind: PatKind::Num(*n),
        }),
        NodeKind::List(parts) => list_term(scope, setting, node.span, parts.as_slice()),
    }
}

#[cycle(term)]
fn list_term(
    scope: &mut Scope,
    setting: Setting,
    span: Span,
    nodes: &[Node],
) -> Result<Pat, FormRefusal>
    ensures { Reads pattern_of result (grammar.list_term (setting_of setting) span (nodes_of nodes.now))
        scope.old.names.keys scope.new.names.keys }
{
    if let Some(rest) = behind(b"call", nodes) {
        return called(scope, setting, span, rest);
    }
    // A list that is no call has the parts and the tail that it would have behind a dot.
    let mut parts = Vec::with_capacity(scope.alloc, parts_room(nodes))?;
    let tail = list_tail(scope, setting, span, nodes, &mut parts)?;
    Ok(Pat {
        span,
        kind: PatKind::List(parts, tail),
    })
}

/// Room for the terms of a list: behind a dot there is a tail, which mostly adds none.
fn parts_room(nodes: &[Node]) -> usize {
    match nodes {
        [parts @ .., dot, _] if is_word(dot, b".") => parts.len(),
        _ => nodes.len(),
    }
}

/// Terms, and then a dot and a tail, where they are. The terms are added to the parts.
#[cycle(term)]
#[tactic(auto, unfolding(hp_syntax::specs::Grammar::items))]
fn items(
    scope: &mut Scope,
    setting: Setting,
    end: Span,
    nodes: &[Node],
    parts: &mut Vec<Pat>,
) -> Result<Option<Tail>, FormRefusal>
    ensures { Adds result (grammar.items (setting_of setting) end (nodes_of nodes.now))
        parts.old.items parts.new.items scope.old.names.keys scope.new.names.keys }
{
    let mut rest = nodes;
    while let Some((first, others)) = rest.split_first() {
        if is_word(first, b".") {
            return dotted(scope, setting, end, others, parts);
        }
        parts.push(term(scope, setting, first)?)?;
        rest = others;
    }
    Ok(None)
}

/// The tail behind a dot.
#[cycle(term)]
#[tactic(auto, unfolding(hp_syntax::specs::Grammar::dotted))]
fn dotted(
    scope: &mut Scope,
    setting: Setting,
    end: Span,
    nodes: &[Node],
    parts: &mut Vec<Pat>,
) -> Result<Option<Tail>, FormRefusal>
    ensures { Adds result (grammar.dotted (setting_of setting) end (nodes_of nodes.now))
        parts.old.items parts.new.items scope.old.names.keys scope.new.names.keys }
{
    match nodes {
        [] => expected(What::Tail, end),
        [only] => tail(scope, setting, only, parts),
        [first, second, ..] => {
            tail(scope, setting, first, parts)?;
            expected(What::End, second.span)
        }
    }
}

/// A tail is a variable, or a list whose parts and tail take its place.
#[cycle(term)]
#[tactic(auto, unfolding(hp_syntax::specs::Grammar::tail))]
fn tail(
    scope: &mut Scope,
    setting: Setting,
    node: &Node,
    parts: &mut Vec<Pat>,
) -> Result<Option<Tail>, FormRefusal>
    ensures { Adds result (grammar.tail (setting_of setting) (node_of node.now))
        parts.old.items parts.new.items scope.old.names.keys scope.new.names.keys }
{
    match &node.kind {
        NodeKind::Name(name) => word_tail(scope, node.span, name, parts),
        NodeKind::Num(_) => expected(What::Tail, node.span),
        NodeKind::List(nodes) => list_tail(scope, setting, node.span, nodes.as_slice(), parts),
    }
}

/// Behind a dot `nil` adds nothing, and so no name adds a part.
#[tactic(auto, unfolding(hp_syntax::specs::Grammar::word_tail))]
fn word_tail(
    scope: &mut Scope,
    span: Span,
    name: &Name,
    parts: &mut Vec<Pat>,
) -> Result<Option<Tail>, FormRefusal>
    ensures { Adds result (grammar.word_tail span name.now)
        parts.old.items parts.new.items scope.old.names.keys scope.new.names.keys }
{
    if is(name, b"nil") {
        Ok(None)
    } else if is_variable(name) {
        let var = scope.number(name)?;
        Ok(Some(Tail { span, var }))
    } else {
        expected(What::Tail, span)
    }
}

#[cycle(term)]
#[tactic(auto, unfolding(hp_syntax::specs::Grammar::list_tail))]
fn list_tail(
    scope: &mut Scope,
    setting: Setting,
    span: Span,
    nodes: &[Node],
    parts: &mut Vec<Pat>,
) -> Result<Option<Tail>, FormRefusal>
    ensures { Adds result (grammar.list_tail (setting_of setting) span (nodes_of nodes.now))
        parts.old.items parts.new.items scope.old.names.keys scope.new.names.keys }
{
    match nodes {
        [] => Ok(None),
        [first, ..] if is_word(first, b"call") => expected(What::Tail, span),
        [first, rest @ ..] => {
            parts.push(term(scope, setting, first)?)?;
            items(scope, setting, closing(span), rest, parts)
        }
    }
}

/// A call, by what follows the word; only a rule may have one.
#[cycle(term)]
#[tactic(auto, unfolding(hp_syntax::specs::Grammar::called))]
pub fn called(
    scope: &mut Scope,
    setting: Setting,
    span: Span,
    nodes: &[Node],
) -> Result<Pat, FormRefusal>
    ensures { Reads pattern_of result (grammar.called (setting_of setting) span (nodes_of nodes.now))
        scope.old.names.keys scope.new.names.keys }
{
    match setting {
        Setting::Rule => call(scope, span, nodes),
        Setting::Problem => expected(What::Ground, span),
    }
}

#[cycle(term)]
#[tactic(auto, unfolding(hp_syntax::specs::Grammar::called, hp_syntax::specs::Views::pattern_of))]
fn call(scope: &mut Scope, span: Span, nodes: &[Node]) -> Result<Pat, FormRefusal>
    ensures { Reads pattern_of result (grammar.called grammar.InRule span (nodes_of nodes.now))
        scope.old.names.keys scope.new.names.keys }
{
    let (first, rest) = next(What::Name, closing(span), nodes)?;
    let name = name(first)?.copy(scope.alloc)?;
    let args = terms(scope, rest)?;
    Ok(Pat {
        span,
        kind: PatKind::Call(name, args),
    })
}

#[cycle(term)]
#[tactic(auto, unfolding(hp_syntax::specs::Grammar::terms))]
fn terms(scope: &mut Scope, nodes: &[Node]) -> Result<Vec<Pat>, FormRefusal>
    ensures { Reads (λ ps. patterns_of ps.items) result (grammar.terms (nodes_of nodes.now))
        scope.old.names.keys scope.new.names.keys }
{
    let mut terms = Vec::with_capacity(scope.alloc, nodes.len())?;
    for node in nodes {
        terms.push(term(scope, Setting::Rule, node)?)?;
    }
    Ok(terms)
}

/// An atom, by its name and what follows.
#[tactic(auto, unfolding(hp_syntax::specs::Grammar::named_atom))]
pub fn named_atom(
    scope: &mut Scope,
    setting: Setting,
    span: Span,
    name: &Name,
    nodes: &[Node],
) -> Result<AtomPat, FormRefusal>
    ensures { Reads atom_of result (grammar.named_atom (setting_of setting) span name.now (nodes_of nodes.now))
        scope.old.names.keys scope.new.names.keys }
{
    let mut args = Vec::with_capacity(scope.alloc, parts_room(nodes))?;
    let tail = items(scope, setting, closing(span), nodes, &mut args)?;
    Ok(AtomPat {
        span,
        name: name.copy(scope.alloc)?,
        args,
        tail,
    })
}

/// The name that a list begins with, and what follows it.
pub fn begun(node: &Node) -> Option<(&Name, &[Node])>
    ensures { option_map (λ x. (x.0.now, nodes_of x.1.now)) result ≡ steps.begun (node_of node.now) }
{
    let NodeKind::List(nodes) = &node.kind else {
        return None;
    };
    let [first, rest @ ..] = nodes.as_slice() else {
        return None;
    };
    match &first.kind {
        NodeKind::Name(name) => Some((name, rest)),
        NodeKind::Num(_) | NodeKind::List(_) => None,
    }
}

/// A list that begins with a fitting name; else this is wanted.
#[tactic(auto, unfolding(hp_syntax::specs::Grammar::headed))]
pub fn headed(
    scope: &mut Scope,
    what: What,
    kind: HeadKind,
    setting: Setting,
    node: &Node,
) -> Result<AtomPat, FormRefusal>
    ensures { Reads atom_of result (grammar.headed what (fits_of kind) (setting_of setting) (node_of node.now))
        scope.old.names.keys scope.new.names.keys }
{
    match begun(node) {
        Some((name, rest)) if kind.fits(name) => named_atom(scope, setting, node.span, name, rest),
        _ => expected(what, node.span),
    }
}

/// An atom of an effect or a state.
pub fn atom(scope: &mut Scope, setting: Setting, node: &Node) -> Result<AtomPat, FormRefusal>
    ensures { Reads atom_of result (grammar.atom (setting_of setting) (node_of node.now))
        scope.old.names.keys scope.new.names.keys }
{
    headed(scope, What::Atom, HeadKind::Plain, setting, node)
}

fn each_atom(
    scope: &mut Scope,
    setting: Setting,
    nodes: &[Node],
) -> Result<Vec<AtomPat>, FormRefusal>
    ensures { Reads (λ v. map atom_of v.items) result
        (steps.each (grammar.atom (setting_of setting)) (nodes_of nodes.now))
        scope.old.names.keys scope.new.names.keys }
{
    let mut atoms = Vec::with_capacity(scope.alloc, nodes.len())?;
    for node in nodes {
        atoms.push(atom(scope, setting, node)?)?;
    }
    Ok(atoms)
}

/// A list of atoms.
#[tactic(auto, unfolding(hp_syntax::specs::Grammar::atoms))]
pub fn atoms(scope: &mut Scope, setting: Setting, node: &Node) -> Result<Vec<AtomPat>, FormRefusal>
    ensures { Reads (λ v. map atom_of v.items) result (grammar.atoms (setting_of setting) (node_of node.now))
        scope.old.names.keys scope.new.names.keys }
{
    let nodes = list(What::Atoms, node)?;
    each_atom(scope, setting, nodes)
}
