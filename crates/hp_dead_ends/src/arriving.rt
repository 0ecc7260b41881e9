//! A walk to a decomposition whose path is known.
ghost use Rattle.std.specs.Prelude.{◌≡◌, ℕ, List, [], false, true, IfOk, OnOk};
ghost use Rattle.hp_net.specs.Standings.{tree_visits};
ghost use Rattle.hp_syntax.specs.Walk.{told};
ghost use Rattle.hp_dead_ends.specs.Arriving.{IsHeld, HasArrived, did_turn, is_small};

use hp_net::Walk;
use hp_passes::{Pass, Sight, Stop, Turn, go_through};
use std::alloc::AllocError;

/// Whether no number of a path is 2^64 - 1.
pub fn is_small(path: &[u64]) -> bool
    ensures { result ≡ is_small path.now }
{
    path.iter().all(|number| *number < u64::MAX)
}

/// How a walk to a path goes on after a decomposition: on above the path, no further at it, and without what lies
/// below any other.
pub fn turn_after(path: &[u64], target: &[u64]) -> Turn
    ensures { (q : List ℕ) → path.now ≡ told q → is_small target.now ≡ true → result ≡ did_turn target.now q }
{
    if !target.starts_with(path) {
        return Turn::Past;
    }
    if path.len() == target.len() {
        Turn::Last
    } else {
        Turn::On
    }
}

/// A walk to a path.
#[derive(Clone, Copy)]
struct Arriving<'a> {
    target: &'a [u64],
}

impl<W: Walk> Pass<W, ()> for Arriving<'_> {
    ghost use Rattle.hp_dead_ends.specs.Arriving.{MeetsArriving};

    type Error = AllocError;

    ghost meets = { λ tree. MeetsArriving };

    ghost fails = { λ s c v e d. ⊥ };

    fn meet(&mut self, walk: &W, _hand: &mut (), sight: Sight) -> Result<Turn, AllocError> {
        match sight {
            Sight::Did => Ok(turn_after(walk.path(), self.target)),
            Sight::Plan | Sight::Cut => Ok(Turn::On),
            Sight::Fault(_) => Ok(Turn::Last),
        }
    }
}

/// Goes to the node of a decomposition, by its path, in the tree of a new walk. The decomposition comes before the
/// first plan or fault of the tree, and the root counts as one. What lies below a decomposition before the path is left
/// out.
///
/// In a path a number of 2^64 - 1 may mean a greater one. Where there is such a number the answer is no, and the walk
/// stays as it was. After an error the walk may be used no more.
pub fn go_to<W: Walk>(walk: &mut W, path: &[u64]) -> Result<bool, AllocError>
    requires live { W.is_live walk.old ≡ true }
    requires new { (W.stands walk.old).rest ≡ tree_visits (W.tree walk.old) }
    requires at_root { (W.stands walk.old).path ≡ [] }
    requires held { IsHeld (W.tree walk.old) path.now }
    ensures is { IfOk result (λ b. b ≡ is_small path.now) }
    ensures unmoved { IfOk result (λ b. b ≡ false → W.stands walk.new ≡ W.stands walk.old) }
    ensures there { IfOk result (λ b. b ≡ true → HasArrived (W.tree walk.old) (W.stands walk.new) path.now) }
    ensures tree { W.tree walk.new ≡ W.tree walk.old }
    ensures live { OnOk result (W.is_live walk.new ≡ true) }
{
    if !is_small(path) {
        return Ok(false);
    }
    if path.is_empty() {
        return Ok(true);
    }
    let mut pass = Arriving { target: path };
    match go_through(walk, &mut pass, &mut ()) {
        Ok(()) => Ok(true),
        Err(Stop::NoMemory) => Err(AllocError),
        Err(Stop::Failed(error)) => Err(error),
    }
}
