//! Scenes, and expressions of a code, that generators are tried on.
ghost use Rattle.std.specs.Prelude.{IfOk, IfSome, length};
ghost use Rattle.hp_code.specs.Codes.{code_of};
ghost use Rattle.hp_suspended.specs.Fitting.{IsExpressionAt};
ghost use Rattle.hp_world.specs.Recorded.{Knows};
ghost use Rattle.hp_world.specs.Stages.{StageBelow};

use crate::look_ups::large::add_each;
use crate::look_ups::rounds::atoms_of;
use hp_cells::Cells;
use hp_code::{Code, asked_parts};
use hp_suspended::Scene;
use hp_suspended::laws::branches_hold_expressions;
use hp_syntax::Name;
use hp_world::World;
use std::alloc::{AllocError, Global};

/// The node of the expression of the first branch of the one axiom of a name.
pub fn body_of(code: &Code, name: &Name) -> Option<usize>
    ensures { IfSome result (λ node. IsExpressionAt (code_of code.now) node) }
{
    branches_hold_expressions();
    let rules = code.axiom_rules(name);
    let nodes = code.nodes();
    match rules {
        [axiom] if *axiom < nodes.len() && *axiom + 1 < nodes[*axiom].to => Some(*axiom + 2),
        _ => None,
    }
}

/// The same of a name that is spelled so.
pub fn body_named(alloc: Global, code: &Code, word: &[u8]) -> Result<Option<usize>, AllocError>
    ensures { IfOk result (λ body. IfSome body (λ node. IsExpressionAt (code_of code.now) node)) }
{
    let name = Name::new(alloc, word)?;
    Ok(body_of(code, &name))
}

/// A scene of the atoms in the state of a problem with repeated parts, with the indexes that the code asks for.
pub fn scene_of<'a>(
    alloc: Global,
    code: &'a Code,
    cells: &mut Cells,
    problem: &str,
) -> Result<Scene<'a>, AllocError>
    ensures knows { IfOk result (λ scene. Knows cells.new scene.world) }
    ensures below { IfOk result (λ scene. StageBelow (length cells.new) scene.world.now) }
{
    let parts = asked_parts(alloc, code)?;
    let atoms = atoms_of(alloc, cells, problem)?;
    let mut world = World::indexed(alloc, parts.as_slice())?;
    add_each(cells, &mut world, atoms.as_slice())?;
    Ok(Scene { world, code })
}
