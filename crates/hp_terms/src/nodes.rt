//! The nodes of a list, one after the other.

ghost use Rattle.std.specs.Prelude.{◌≡◌, ◌<◌, length, option_map, IfOk, IfErr};
ghost use Rattle.hp_syntax.specs.Forest.{Bare, Grow};
ghost use Rattle.hp_syntax.specs.Steps as steps;
ghost use Rattle.hp_syntax.specs.Steps.{Names};
ghost use Rattle.hp_syntax.specs.Grammar as grammar;
ghost use Rattle.hp_text.specs.Nodes.{node_of, nodes_of};
ghost use Rattle.hp_terms.specs.FormReads.{Reads};
ghost use Rattle.hp_terms.specs.Words.{behind};

use crate::names::is;
use crate::refusal::FormRefusal;
use hp_syntax::{Name, Span, What};
use hp_text::{Node, NodeKind};

/// The closing bracket of a list.
pub fn closing(span: Span) -> Span
    ensures { result ≡ steps.closing span }
{
    Span {
        from: span.to.saturating_sub(1),
        to: span.to,
    }
}

/// The refusal of what stands at a span.
pub fn expected<T>(what: What, span: Span) -> Result<T, FormRefusal>
    ensures { result ≡ Err (FormRefusal.Expected what span) }
{
    Err(FormRefusal::Expected { what, span })
}

/// Nothing may be left over.
pub fn ended(nodes: &[Node]) -> Result<(), FormRefusal>
    ensures { (names : Names) → Reads (λ _. tt) result (steps.ended (nodes_of nodes.now)) names names }
{
    match nodes {
        [] => Ok(()),
        [first, ..] => expected(What::End, first.span),
    }
}

/// The next item and what follows it; where the list ends, this is wanted there.
pub fn next(what: What, end: Span, nodes: &[Node]) -> Result<(&Node, &[Node]), FormRefusal>
    ensures reads { (names : Names) → Reads (λ x. (node_of x.0.now, nodes_of x.1.now)) result
        (steps.next what end (nodes_of nodes.now)) names names }
    ensures ok { IfOk result (λ x. nodes_of nodes.now ≡ Grow (node_of x.0.now) (nodes_of x.1.now)) }
    ensures shorter { IfOk result (λ x. length x.1.now < length nodes.now) }
    ensures err { IfErr result (λ e. (e ≡ FormRefusal.Expected what end) × (nodes_of nodes.now ≡ Bare)) }
{
    let Some((first, rest)) = nodes.split_first() else {
        return Err(FormRefusal::Expected { what, span: end });
    };
    Ok((first, rest))
}

/// Whether a node is this name.
#[inline(always)]
pub fn is_word(node: &Node, word: &[u8]) -> bool
    ensures { result ≡ steps.is_word word.now (node_of node.now) }
{
    match &node.kind {
        NodeKind::Name(name) => is(name, word),
        NodeKind::Num(_) | NodeKind::List(_) => false,
    }
}

/// The nodes behind the word that they begin with, where it is this word.
pub fn behind<'a>(word: &[u8], nodes: &'a [Node]) -> Option<&'a [Node]>
    ensures { option_map (λ rest. nodes_of rest.now) result ≡ behind word.now (nodes_of nodes.now) }
{
    match nodes {
        [first, rest @ ..] if is_word(first, word) => Some(rest),
        _ => None,
    }
}

/// The name that a node is.
#[tactic(auto, unfolding(hp_syntax::specs::Grammar::name))]
pub fn name(node: &Node) -> Result<&Name, FormRefusal>
    ensures { (names : Names) → Reads (λ x. x.now) result (grammar.name (node_of node.now)) names names }
{
    match &node.kind {
        NodeKind::Name(name) if !is(name, b".") => Ok(name),
        _ => expected(What::Name, node.span),
    }
}

/// The items of a list; `nil` has none.
#[tactic(auto, unfolding(hp_syntax::specs::Grammar::list))]
pub fn list(what: What, node: &Node) -> Result<&[Node], FormRefusal>
    ensures { (names : Names) → Reads (λ x. nodes_of x.now) result (grammar.list what (node_of node.now))
        names names }
{
    match &node.kind {
        NodeKind::List(nodes) => Ok(nodes.as_slice()),
        NodeKind::Name(name) if is(name, b"nil") => Ok(&[]),
        _ => expected(what, node.span),
    }
}
