//! Reading a text node by node, for whoever needs its nodes one after another and never all at once.

ghost use Rattle.std.specs.Prelude.{◌≡◌, ℕ, IfOk, IfSome, IfNone, IsTrue, length, true, false};
ghost use Rattle.hp_syntax.specs.Forest as plain;
ghost use Rattle.hp_syntax.specs.Refusal.{Refusal, IsRefused};
ghost use Rattle.hp_syntax.specs.Text.{Opening, Closing, IsGap};
ghost use Rattle.hp_text.specs.Nodes.{node_of};
ghost use Rattle.hp_text.specs.Stepping.{IsPlaced, PassesBracket, PassesNode, place_of, text_of};

use crate::forest::Node;
use crate::gap::skip_gap;
use crate::reader::node;
use crate::scan::first_refusal;
use std::alloc::{AllocError, Global};

/// Stands in a text in which nothing is refused, between two nodes or brackets.
#[derive(Drop)]
pub struct NodeReader<'a> {
    alloc: Global,
    bytes: &'a [u8],
    at: usize,
    // The nodes of lists that are open while a node is read.
    pending: Vec<Node>,
}

impl<'a> NodeReader<'a> {
    /// A reader that stands before a text, where nothing in it is refused.
    pub fn new(alloc: Global, bytes: &'a [u8]) -> Option<NodeReader<'a>>
        ensures placed { IfSome result IsPlaced }
        ensures text { IfSome result (λ r. text_of r ≡ bytes.now) }
        ensures first { IfSome result (λ r. place_of r ≡ 0) }
        ensures none { IfNone result ((refusal : Refusal) × IsRefused bytes.now refusal) }
    {
        if first_refusal(bytes).is_some() {
            return None;
        }
        Some(NodeReader {
            alloc,
            bytes,
            at: 0,
            pending: Vec::new(alloc),
        })
    }

    /// Steps over an opening bracket, where one comes next.
    pub fn enter(&mut self) -> bool
        requires { IsPlaced self.old }
        ensures placed { IsPlaced self.new }
        ensures text { text_of self.new ≡ text_of self.old }
        ensures enters { IsTrue result → PassesBracket Opening (text_of self.old) (place_of self.old) (place_of self.new) }
        ensures stays { result ≡ false → place_of self.new ≡ place_of self.old }
        ensures exact { (to : ℕ) → PassesBracket Opening (text_of self.old) (place_of self.old) to → result ≡ true }
    {
        let at = skip_gap(self.bytes, self.at);
        if at < self.bytes.len() && self.bytes[at] == b'(' {
            self.at = at + 1;
            return true;
        }
        false
    }

    /// Steps over a closing bracket, where one comes next.
    pub fn leave(&mut self) -> bool
        requires { IsPlaced self.old }
        ensures placed { IsPlaced self.new }
        ensures text { text_of self.new ≡ text_of self.old }
        ensures leaves { IsTrue result → PassesBracket Closing (text_of self.old) (place_of self.old) (place_of self.new) }
        ensures stays { result ≡ false → place_of self.new ≡ place_of self.old }
        ensures exact { (to : ℕ) → PassesBracket Closing (text_of self.old) (place_of self.old) to → result ≡ true }
    {
        let at = skip_gap(self.bytes, self.at);
        if at < self.bytes.len() && self.bytes[at] == b')' {
            self.at = at + 1;
            return true;
        }
        false
    }

    /// Steps over the next node, unless a closing bracket or the end comes next.
    pub fn next(&mut self) -> Result<Option<Node>, AllocError>
        requires { IsPlaced self.old }
        ensures placed { IsPlaced self.new }
        ensures text { text_of self.new ≡ text_of self.old }
        ensures passes { IfOk result (λ found. IfSome found
            (λ n. PassesNode (text_of self.old) (place_of self.old) (place_of self.new) (node_of n))) }
        ensures stays { IfOk result (λ found. IfNone found (place_of self.new ≡ place_of self.old)) }
        ensures exact { IfOk result (λ found. IfNone found ((n : plain.Node) (to : ℕ)
            → PassesNode (text_of self.old) (place_of self.old) to n → ⊥)) }
    {
        let at = skip_gap(self.bytes, self.at);
        if at >= self.bytes.len() || self.bytes[at] == b')' {
            return Ok(None);
        }
        let node = node(self.alloc, self.bytes, at, &mut self.pending)?;
        self.at = node.span.to as usize;
        Ok(Some(node))
    }

    /// Whether nothing but a gap is left of the text.
    pub fn is_at_end(&self) -> bool
        requires { IsPlaced self.now }
        ensures gap { IsTrue result → IsGap (text_of self.now) (place_of self.now) (length (text_of self.now)) }
        ensures exact { IsGap (text_of self.now) (place_of self.now) (length (text_of self.now)) → result ≡ true }
    {
        skip_gap(self.bytes, self.at) >= self.bytes.len()
    }
}
