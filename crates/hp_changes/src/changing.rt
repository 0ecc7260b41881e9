//! A walk to a path, which notes what each step on its way changes.
ghost use Rattle.std.specs.Prelude.{◌≡◌, [], false, true, IfOk, MatchOption};
ghost use Rattle.hp_net.specs.Standings.{tree_visits};
ghost use Rattle.hp_dead_ends.specs.Arriving.{is_small};
ghost use Rattle.hp_changes.specs.Changing.{AreAlong};

use crate::comparing::{Changed, Holding, compare, held};
use hp_dead_ends::{is_small, turn_after};
use hp_net::Walk;
use hp_passes::{Pass, Sight, Turn, go_through};
use std::alloc::{AllocError, Global};

/// A walk to a path, with what holds at the last node on its way and what all steps so far changed.
#[derive(Drop)]
struct Changing<'a> {
    alloc: Global,
    target: &'a [u64],
    before: Holding,
    changes: Vec<Changed>,
}

impl Changing<'_> {
    ghost use Rattle.std.specs.Prelude.{◌≡◌, true, OnOk, Some};
    ghost use Rattle.hp_net.specs.Standings.{node_reached};
    ghost use Rattle.hp_syntax.specs.Walk.{Node};
    ghost use Rattle.hp_changes.specs.Changing.{GoesBy, Notes};

    /// Notes a step to the node that a walk stands at.
    fn note<W: Walk>(&mut self, walk: &W) -> Result<(), AllocError>
        requires live { W.is_live walk.now ≡ true }
        ensures { OnOk result ((n : Node) → node_reached (W.tree walk.now) (W.stands walk.now) ≡ Some n
            → Notes n self.old self.new) }
    {
        let after = held(self.alloc, walk)?;
        let changes = compare(self.alloc, &self.before, &after)?;
        self.changes.push(changes)?;
        self.before = after;
        Ok(())
    }

    /// Notes a step, where the walk goes on below it or ends at it.
    fn note_by<W: Walk>(&mut self, walk: &W, turn: Turn) -> Result<(), AllocError>
        requires live { W.is_live walk.now ≡ true }
        ensures { OnOk result ((n : Node) → node_reached (W.tree walk.now) (W.stands walk.now) ≡ Some n
            → GoesBy turn n self.old self.new) }
    {
        match turn {
            Turn::Past => Ok(()),
            Turn::On | Turn::Last => self.note(walk),
        }
    }

    /// What the steps on the way changed.
    fn into_changes(self) -> Vec<Changed>
        ensures { result ≡ self.entry.changes }
    {
        let Changing {
            alloc: _,
            target: _,
            before,
            changes,
        } = self;
        drop(before);
        changes
    }
}

impl<W: Walk> Pass<W, ()> for Changing<'_> {
    ghost use Rattle.hp_changes.specs.Changing.{MeetsChanging};

    type Error = AllocError;

    ghost meets = { λ tree. MeetsChanging };

    ghost fails = { λ s c v e d. Unit {0} };

    fn meet(&mut self, walk: &W, _hand: &mut (), sight: Sight) -> Result<Turn, AllocError> {
        match sight {
            Sight::Did => {
                let turn = turn_after(walk.path(), self.target);
                self.note_by(walk, turn)?;
                Ok(turn)
            }
            Sight::Plan | Sight::Cut => Ok(Turn::On),
            Sight::Fault(_) => Ok(Turn::Last),
        }
    }
}

/// What the decompositions on the way to a path change, one by one, in the tree of a new walk that comes to the path
/// before any fault. What lies below decompositions beside the way is left out.
///
/// In a path a number of 2^64 - 1 may mean a greater one, so there is no answer where there is such a number. After an
/// error the walk may be used no more.
pub fn changes_along<W: Walk>(
    alloc: Global,
    walk: &mut W,
    path: &[u64],
) -> Result<Option<Vec<Changed>>, AllocError>
    requires live { W.is_live walk.old ≡ true }
    requires new { (W.stands walk.old).rest ≡ tree_visits (W.tree walk.old) }
    requires at_root { (W.stands walk.old).path ≡ [] }
    ensures { IfOk result (λ o. MatchOption o (is_small path.now ≡ false)
        (λ v. AreAlong (W.tree walk.old) path.now v.items)) }
{
    if !is_small(path) {
        return Ok(None);
    }
    let before = held(alloc, walk)?;
    let mut pass = Changing {
        alloc,
        target: path,
        before,
        changes: Vec::new(alloc),
    };
    if path.is_empty() {
        return Ok(Some(pass.into_changes()));
    }
    match go_through(walk, &mut pass, &mut ()) {
        Ok(()) => Ok(Some(pass.into_changes())),
        Err(_) => Err(AllocError),
    }
}
