//! Copies of forests, in memory of their own.

ghost use Rattle.std.specs.Prelude.{◌≡◌, IfOk};
ghost use Rattle.hp_text.specs.Nodes.{node_of, nodes_of, forest_of};

use crate::forest::{Forest, Node, NodeKind};
use std::alloc::{AllocError, Global};

impl Forest {
    /// An equal forest.
    pub fn copy(&self, alloc: Global) -> Result<Forest, AllocError>
        ensures nodes { IfOk result (λ copy. forest_of copy ≡ forest_of self.now) }
        ensures length { IfOk result (λ copy. copy.len ≡ self.now.len) }
    {
        Ok(Forest {
            nodes: copy_nodes(self.nodes.as_slice(), alloc)?,
            len: self.len,
        })
    }
}

impl Node {
    /// An equal node.
    #[cycle(copy_node)]
    pub fn copy(&self, alloc: Global) -> Result<Node, AllocError>
        ensures { IfOk result (λ copy. node_of copy ≡ node_of self.now) }
    {
        let kind = match &self.kind {
            NodeKind::Name(name) => NodeKind::Name(name.copy(alloc)?),
            NodeKind::Num(n) => NodeKind::Num(*n),
            NodeKind::List(nodes) => NodeKind::List(copy_nodes(nodes.as_slice(), alloc)?),
        };
        Ok(Node {
            span: self.span,
            kind,
        })
    }
}

#[cycle(copy_node)]
fn copy_nodes(nodes: &[Node], alloc: Global) -> Result<Vec<Node>, AllocError>
    ensures { IfOk result (λ copies. nodes_of copies.items ≡ nodes_of nodes.now) }
{
    let mut copies = Vec::with_capacity(alloc, nodes.len())?;
    for node in nodes {
        copies.push(node.copy(alloc)?)?;
    }
    Ok(copies)
}
