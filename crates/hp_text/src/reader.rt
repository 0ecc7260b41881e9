//! Reading a whole text: first its refusal, and where it has none its nodes, by recursion over its
//! lists.

ghost use Rattle.std.specs.Prelude.{◌≡◌, ◌+◌, ◌<◌, length, map, IfOk, IfErr};
ghost use Rattle.hp_syntax.specs.Forest.{IsForest};
ghost use Rattle.hp_syntax.specs.Refusal.{Refusal, IsClear, IsRefused};
ghost use Rattle.hp_syntax.specs.Text.{Opening, Closing, NameByte, IsOutside, kind_at};
ghost use Rattle.hp_text.specs.Refusals.{RefusesText};
ghost use Rattle.hp_text.specs.Nodes.{node_of, forest_of};
ghost use Rattle.hp_text.specs.Places.{IsBetween, IsStop, IsNodeAt, AreRead};

use crate::forest::{Forest, Node, NodeKind, TextRefusal};
use crate::gap::{skip_gap, token_end};
use crate::scan::first_refusal;
use crate::spelling::{Spelling, spelling_of};
use hp_syntax::{Name, Span};
use std::alloc::{AllocError, Global};

/// The nodes up to a closing bracket or the end of the text, and where that is.
#[derive(Drop)]
struct NodesTo {
    nodes: Vec<Node>,
    end: usize,
}

/// Reads a text. What is refused in it is known before memory is taken for the first node, so a text
/// that has a refusal is answered with it whatever memory there is. A name's bytes are copied once;
/// nothing else is.
pub fn read(alloc: Global, bytes: &[u8]) -> Result<Forest, TextRefusal>
    ensures forest { IfOk result (λ f. IsForest bytes.now (forest_of f)) }
    ensures length { IfOk result (λ f. f.len ≡ length bytes.now) }
    ensures refused { IfErr result (RefusesText bytes.now) }
    ensures exact { (r : Refusal) → IsRefused bytes.now r → result ≡ Err (TextRefusal.Bad r.kind r.offset) }
{
    match first_refusal(bytes) {
        Some(refusal) => Err(TextRefusal::Bad(refusal.kind, refusal.offset)),
        None => Ok(forest(alloc, bytes)?),
    }
}

// The forest of a text in which nothing is refused.
fn forest(alloc: Global, bytes: &[u8]) -> Result<Forest, AllocError>
    requires { IsClear bytes.now (length bytes.now + 1) }
    ensures forest { IfOk result (λ f. IsForest bytes.now (forest_of f)) }
    ensures length { IfOk result (λ f. f.len ≡ length bytes.now) }
{
    let mut pending = Vec::new(alloc);
    let run = nodes(alloc, bytes, 0, &mut pending)?;
    Ok(Forest {
        nodes: run.nodes,
        len: bytes.len() as u32,
    })
}

// The nodes from a place on, up to the bracket that closes what they stand in. They are gathered behind
// what others have pending, and then moved into memory of their own that is as large as they are.
#[cycle(read)]
fn nodes(
    alloc: Global,
    bytes: &[u8],
    from: usize,
    pending: &mut Vec<Node>,
) -> Result<NodesTo, AllocError>
    requires clear { IsClear bytes.now (length bytes.now + 1) }
    requires place { IsBetween bytes.now from }
    ensures read { IfOk result (λ r. AreRead bytes.now from r.end (map node_of r.nodes.items)) }
    ensures stop { IfOk result (λ r. IsStop bytes.now r.end) }
    ensures closing { IfOk result (λ r. r.end < length bytes.now → kind_at bytes.now r.end ≡ Closing) }
    ensures pending { IfOk result (λ _. pending.new.items ≡ pending.old.items) }
{
    let others = pending.len();
    let mut end = skip_gap(bytes, from);
    while end < bytes.len() && bytes[end] != b')' {
        let next = node(alloc, bytes, end, pending)?;
        end = skip_gap(bytes, next.span.to as usize);
        pending.push(next)?;
    }
    let nodes = pending.split_off(others)?;
    Ok(NodesTo { nodes, end })
}

// The node that begins at a place.
#[cycle(read)]
pub fn node(
    alloc: Global,
    bytes: &[u8],
    from: usize,
    pending: &mut Vec<Node>,
) -> Result<Node, AllocError>
    requires clear { IsClear bytes.now (length bytes.now + 1) }
    requires within { from < length bytes.now }
    requires stop { IsStop bytes.now from }
    requires no_close { kind_at bytes.now from ≡ Closing → ⊥ }
    ensures node { IfOk result (λ n. IsNodeAt bytes.now from n) }
    ensures pending { IfOk result (λ _. pending.new.items ≡ pending.old.items) }
{
    if bytes[from] == b'(' {
        list(alloc, bytes, from, pending)
    } else {
        word(alloc, bytes, from)
    }
}

// The list whose opening bracket stands at a place.
#[cycle(read)]
fn list(
    alloc: Global,
    bytes: &[u8],
    from: usize,
    pending: &mut Vec<Node>,
) -> Result<Node, AllocError>
    requires clear { IsClear bytes.now (length bytes.now + 1) }
    requires opening { kind_at bytes.now from ≡ Opening }
    ensures node { IfOk result (λ n. IsNodeAt bytes.now from n) }
    ensures pending { IfOk result (λ _. pending.new.items ≡ pending.old.items) }
{
    let run = nodes(alloc, bytes, from + 1, pending)?;
    Ok(Node {
        span: Span {
            from: from as u32,
            to: (run.end + 1) as u32,
        },
        kind: NodeKind::List(run.nodes),
    })
}

// The token that begins at a place.
fn word(alloc: Global, bytes: &[u8], from: usize) -> Result<Node, AllocError>
    requires clear { IsClear bytes.now (length bytes.now + 1) }
    requires byte { kind_at bytes.now from ≡ NameByte }
    requires outside { IsOutside bytes.now from }
    ensures { IfOk result (λ n. IsNodeAt bytes.now from n) }
{
    let to = token_end(bytes, from);
    let token = &bytes[from..to];
    let span = Span {
        from: from as u32,
        to: to as u32,
    };
    match spelling_of(token) {
        Spelling::Name => {
            let name = Name::new(alloc, token)?;
            Ok(Node {
                span,
                kind: NodeKind::Name(name),
            })
        }
        Spelling::Number(n) => Ok(Node {
            span,
            kind: NodeKind::Num(n),
        }),
        Spelling::NoNumber | Spelling::OutOfRange => unreachable!(),
    }
}
