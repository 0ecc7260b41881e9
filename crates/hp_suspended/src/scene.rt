ghost use Rattle.std.specs.Prelude.{◌≡◌, ◌<◌, ◌+◌, ◌^◌, ◌==◌, Some, length, not, slice_get};
ghost use Rattle.hp_nodes.specs.NodeViews.{laid_of};
ghost use Rattle.hp_suspended.specs.Fitting.{IsAtomAt};
ghost use Rattle.hp_suspended.specs.Nodes.{atom_at};
ghost use Rattle.hp_suspended.specs.SceneViews.{code_in};
ghost use Rattle.hp_syntax.specs.Syntax.{Atom};

use hp_code::{Code, CodeNode};
use hp_world::World;

/// The world in which satisfiers are looked for, and the code of the rules.
pub struct Scene<'a> {
    pub world: World,
    pub code: &'a Code,
}

impl Drop for Scene<'_> {
    fn drop(self) {
        let Scene { world, code: _ } = self;
        drop(world);
    }
}

// The node of an index.
pub(crate) fn node_at<'s>(node: usize, scene: &'s Scene<'_>) -> &'s CodeNode
    requires { node < length (code_in scene.now).nodes }
    ensures is { slice_get (code_in scene.now).nodes node ≡ Some (laid_of result.now) }
    ensures small { node + 1 < 2 ^ 64 }
{
    let nodes = scene.code.nodes();
    let _ = nodes.len();
    &nodes[node]
}

// Whether any axiom concludes the name of a node's atom.
pub(crate) fn is_concluded(node: usize, scene: &Scene<'_>) -> bool
    requires { IsAtomAt (code_in scene.now) node }
    ensures { (a : Atom) → atom_at (code_in scene.now) node ≡ Some a
        → result ≡ not (length ((code_in scene.now).axiom_rules a.name) == 0) }
{
    scene.code.is_concluded(node)
}
