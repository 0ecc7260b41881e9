//! Walks of the tree of ordered task decomposition, one visit at a time.
use hp_cells::{Cell, Cells};
use hp_syntax::RunFault;
use hp_world::World;
use std::alloc::AllocError;

/// The sight of a visit, or the end of the walk.
#[derive(Clone, Copy, Debug, PartialEq, Eq)]
pub enum Step {
    /// A task was done or decomposed.
    Did,
    /// Nothing is left to do.
    Plan,
    /// A limit cut the tree here.
    Cut,
    /// After a fault nothing more comes.
    Fault(RunFault),
    End,
}

/// A walk of a tree, depth first, up to its first fault. It stands at a node, of which the steps, their cost and the
/// world can be read, and it goes on from there: `next` makes the next visit wherever it is; `step` and `back` do the
/// same with each way back as a call of its own; `prune` leaves out what lies below the decomposition just visited.
pub trait Walk {
    ghost use Rattle.std.specs.Prelude.{◌≡◌, ◌≢◌, ◌<◌, ℕ, Bool, true, false, List, [], Option, None};
    ghost use Rattle.std.specs.Prelude.{OnOk, OnErr, IfOk, MatchOption, option_map, length};
    ghost use Rattle.hp_syntax.specs.Terms.{Term};
    ghost use Rattle.hp_world.specs.Stages.{AllBelow, StageBelow, terms_at, state_of, guards_of};
    ghost use Rattle.hp_net.specs.Standings.{Tree, Standing, HasCells, node_reached, next_below, next_of};
    ghost use Rattle.hp_net.specs.Standings.{step_of, step_or_end, stepped, gone_on, gone_back, pruned};
    ghost use Rattle.hp_syntax.specs.Walk.{told};

    /// The tree that is walked.
    ghost tree: { Self → Tree };

    /// Where the walk stands.
    ghost stands: { Self → Standing };

    /// The terms that its cells name.
    ghost terms: { Self → List Term };

    /// No call has failed.
    ghost is_live: { Self → Bool };

    /// The number of cells while the walk stands at its root and nothing is left, where the engine promises that.
    ghost root_cells: { Self → Option ℕ };

    /// The next visit, where it is at or below the node reached: its plan, a cut or a fault of its list of children, or
    /// the next child. None where nothing more comes there.
    fn step(&mut self) -> Result<Option<Step>, AllocError>
        requires live { is_live self.old ≡ true }
        ensures answer { IfOk result (λ s. s
            ≡ option_map step_of (next_below (stands self.old).path (stands self.old).rest)) }
        ensures stands { OnOk result (stands self.new ≡ stepped (stands self.old)) }
        ensures tree { tree self.new ≡ tree self.old }
        ensures root_cells { root_cells self.new ≡ root_cells self.old }
        ensures given_back { IfOk result (λ s. s ≡ None → (stands self.old).path ≡ []
            → HasCells (root_cells self.new) (terms self.new)) }
        ensures live { OnOk result (is_live self.new ≡ true) }
        ensures dead { OnErr result (is_live self.new ≡ false) };

    /// Goes to the parent, once nothing more comes at the node reached or below it. It takes no memory.
    fn back(&mut self)
        requires live { is_live self.old ≡ true }
        requires below { (stands self.old).path ≢ [] }
        requires done { next_below (stands self.old).path (stands self.old).rest ≡ None }
        ensures stands { stands self.new ≡ gone_back (stands self.old) }
        ensures tree { tree self.new ≡ tree self.old }
        ensures root_cells { root_cells self.new ≡ root_cells self.old }
        ensures live { is_live self.new ≡ true };

    /// Leaves out all that lies below the child that was just answered. It takes no memory.
    fn prune(&mut self)
        requires live { is_live self.old ≡ true }
        requires did { (stands self.old).at_did ≡ true }
        ensures stands { stands self.new ≡ pruned (stands self.old) }
        ensures tree { tree self.new ≡ tree self.old }
        ensures root_cells { root_cells self.new ≡ root_cells self.old }
        ensures live { is_live self.new ≡ true };

    /// The steps of the node reached, from the first on.
    fn plan(&self) -> &[Cell]
        requires live { is_live self.now ≡ true }
        ensures steps { MatchOption (node_reached (tree self.now) (stands self.now)) ⊥
            (λ n. terms_at (terms self.now) result.now ≡ n.steps) }
        ensures below { AllBelow (length (terms self.now)) result.now };

    /// The sum of the costs of the steps of the node reached, in thousandths.
    fn cost(&self) -> i128
        requires live { is_live self.now ≡ true }
        ensures { MatchOption (node_reached (tree self.now) (stands self.now)) ⊥ (λ n. result ≡ n.cost) };

    /// The world of the node reached.
    fn world(&self) -> &World
        requires live { is_live self.now ≡ true }
        ensures state { MatchOption (node_reached (tree self.now) (stands self.now)) ⊥
            (λ n. state_of (terms self.now) result.now.now ≡ n.state) }
        ensures guards { MatchOption (node_reached (tree self.now) (stands self.now)) ⊥
            (λ n. guards_of (terms self.now) result.now.now ≡ n.guards) }
        ensures below { StageBelow (length (terms self.now)) result.now.now };

    /// The terms that cells of the plan and of the world name.
    fn cells(&self) -> &Cells
        requires live { is_live self.now ≡ true }
        ensures { result.now ≡ terms self.now };

    /// For each decomposition on the way to the node reached its number among those of its parent, from 0 on; one that
    /// is greater than 2^64 - 1 is told as that.
    fn path(&self) -> &[u64]
        requires live { is_live self.now ≡ true }
        ensures { result.now ≡ told (stands self.now).path };

    /// Whether no call has failed.
    fn live(&self) -> bool
        ensures { result ≡ is_live self.now };

    /// The next visit, wherever it is, or the end, again and again then.
    final fn next(&mut self) -> Result<Step, AllocError>
        requires live { is_live self.old ≡ true }
        ensures answer { IfOk result (λ s. s ≡ step_or_end (next_of (stands self.old).rest)) }
        ensures stands { OnOk result (stands self.new ≡ gone_on (stands self.old)) }
        ensures tree { tree self.new ≡ tree self.old }
        ensures root_cells { root_cells self.new ≡ root_cells self.old }
        ensures given_back { IfOk result (λ s. s ≡ Step.End → HasCells (root_cells self.new) (terms self.new)) }
        ensures live { OnOk result (is_live self.new ≡ true) }
        ensures dead { OnErr result (is_live self.new ≡ false) }
    {
        loop {
            if let Some(step) = self.step()? {
                return Ok(step);
            }
            if self.path().is_empty() {
                return Ok(Step::End);
            }
            self.back();
        }
    }
}
