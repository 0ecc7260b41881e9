ghost use Rattle.std.specs.Prelude.{◌≡◌, option_map};
ghost use Rattle.hp_syntax.specs.declared.pattern.Span.{Span};
ghost use Rattle.hp_text.specs.Nodes.{node_of, nodes_of, parts_of};
ghost use Rattle.hp_text.specs.declared.forest.TextRefusal.TheVariants.{NoMemory};

use hp_syntax::{Name, Span, TextKind};
use std::alloc::AllocError;

/// The forest of a whole text: its outermost nodes, in order.
#[derive(Drop)]
pub struct Forest {
    pub nodes: Vec<Node>,
    /// The number of bytes of the text.
    pub len: u32,
}

/// A part of a text, with the span of its bytes.
#[cycle(node)]
pub struct Node {
    pub span: Span,
    pub kind: NodeKind,
}

impl Drop for Node {
    #[cycle(node)]
    fn drop(self) {
        let Node { span: _, kind } = self;
        drop(kind);
    }
}

/// The kind of a node. The span of a list goes from its opening bracket to the byte past its
/// closing one.
#[cycle(node)]
pub enum NodeKind {
    Name(Name),
    Num(i64),
    List(Vec<Node>),
}

impl Drop for NodeKind {
    #[cycle(node)]
    fn drop(self) {
        match self {
            NodeKind::Name(name) => drop(name),
            NodeKind::Num(_) => {}
            NodeKind::List(parts) => drop(parts),
        }
    }
}

impl Node {
    /// The parts of a list, taken out of it.
    pub fn into_parts(self) -> Option<Vec<Node>>
        ensures { option_map (λ parts. nodes_of parts.items) result ≡ parts_of (node_of self) }
    {
        let Node { span: _, kind } = self;
        kind.into_parts()
    }
}

impl NodeKind {
    fn into_parts(self) -> Option<Vec<Node>>
        ensures { (span : Span) → option_map (λ parts. nodes_of parts.items) result
            ≡ parts_of (node_of (record { span = span; kind = self })) }
    {
        match self {
            NodeKind::List(parts) => Some(parts),
            NodeKind::Name(_) | NodeKind::Num(_) => None,
        }
    }
}

/// Why a text has no forest.
#[derive(Clone, Copy, Debug, PartialEq, Eq)]
pub enum TextRefusal {
    /// The text is refused for this reason, with the offset that is told with it.
    Bad(TextKind, u32),
    /// Memory ran out.
    NoMemory,
}

impl From<AllocError> for TextRefusal {
    ghost from_gives = { λ _ e. e ≡ NoMemory };

    fn from(_error: AllocError) -> TextRefusal {
        TextRefusal::NoMemory
    }
}
