//! The facts of a name.
ghost use Rattle.std.specs.Prelude.{◌≡◌, ◌<◌, ◌++◌, [], ◌∷◌, List, IfOk, OnOk, length};
ghost use Rattle.hp_eval.specs.GoalViews.{term_at};
ghost use Rattle.hp_syntax.specs.Terms.{Term};
ghost use Rattle.hp_world.specs.Stages.{AllBelow, StageBelow, live_atoms, state_of, terms_at};
ghost use Rattle.hp_obstacles.specs.Facts.{facts_of, is_fact_of, kept, shown};

use hp_best::to_ground;
use hp_cells::{Cell, Cells, View};
use hp_syntax::{Ground, Name};
use hp_world::World;
use std::alloc::{AllocError, Global};

/// How many facts of a name are shown at most.
pub const FACTS_SHOWN: usize = 5;

/// The first facts of a name, at most `FACTS_SHOWN`, and how many there are; the count stays at 2^64 - 1.
pub struct Facts {
    pub first: Vec<Ground>,
    pub count: u64,
}

// A derived drop would do the same, but be proved anew wherever facts are let go.
impl Drop for Facts {
    fn drop(self) {
        let Facts { first, count: _ } = self;
        drop(first);
    }
}

/// Whether an atom is a fact of a name.
fn is_fact_of(cells: &Cells, atom: Cell, name: &Name) -> bool
    requires { atom < length cells.now }
    ensures { result ≡ is_fact_of name.now (term_at cells.now atom) }
{
    match cells.get(atom) {
        View::Cons(head, _) => cells.is_symbol(head, name),
        View::Nil => false,
        View::Sym(_) => false,
        View::Num(_) => false,
    }
}

/// Counts one more fact, and keeps it where fewer are kept than are shown.
fn add(alloc: Global, cells: &Cells, facts: &mut Facts, atom: Cell) -> Result<(), AllocError>
    requires { atom < length cells.now }
    ensures { OnOk result ((all : List Term) → kept facts.old ≡ shown all
        → kept facts.new ≡ shown (all ++ term_at cells.now atom ∷ [])) }
{
    facts.count = facts.count.saturating_add(1);
    if facts.first.len() >= FACTS_SHOWN {
        return Ok(());
    }
    let fact = to_ground(alloc, cells, atom)?;
    Ok(facts.first.push(fact)?)
}

/// Looks at a place of a world: an atom of the name is one more fact.
fn look_at(
    alloc: Global,
    cells: &Cells,
    name: &Name,
    facts: &mut Facts,
    place: Option<Cell>,
) -> Result<(), AllocError>
    requires { AllBelow (length cells.now) (live_atoms (place ∷ [])) }
    ensures { OnOk result ((all : List Term) → kept facts.old ≡ shown all
        → kept facts.new ≡ shown (all ++ facts_of name.now (terms_at cells.now (live_atoms (place ∷ []))))) }
{
    match place {
        Some(atom) if is_fact_of(cells, atom, name) => add(alloc, cells, facts, atom),
        Some(_) => Ok(()),
        None => Ok(()),
    }
}

/// The facts of a name that hold in a world, in its order.
pub fn facts_in(
    alloc: Global,
    world: &World,
    cells: &Cells,
    name: &Name,
) -> Result<Facts, AllocError>
    requires { StageBelow (length cells.now) world.now.now }
    ensures { IfOk result (λ f. kept f ≡ shown (facts_of name.now (state_of cells.now world.now.now))) }
{
    let mut facts = Facts {
        first: Vec::new(alloc),
        count: 0,
    };
    for place in 0..world.places() {
        look_at(alloc, cells, name, &mut facts, world.at(place))?;
    }
    Ok(facts)
}
