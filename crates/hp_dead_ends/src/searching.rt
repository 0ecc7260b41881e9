//! A search for the dead ends that came furthest.
ghost use Rattle.std.specs.Prelude.{◌≡◌, [], false, true, map, Some, IfOk, OnOk};
ghost use Rattle.std.specs.List.{All};
ghost use Rattle.hp_net.specs.Standings.{tree_visits};
ghost use Rattle.hp_passes.specs.Passing.{sight_of};
ghost use Rattle.hp_syntax.specs.declared.fault.RunFault.{RunFault};
ghost use Rattle.hp_dead_ends.specs.Arriving.{HasHeldCuts, IsHeld};
ghost use Rattle.hp_dead_ends.specs.DeadEnds.{is_further, is_stopped};
ghost use Rattle.hp_dead_ends.specs.declared.searching.SearchEnd.TheVariants as ends;
ghost use Rattle.hp_dead_ends.specs.Finding.{HasMet, IsFoundIn, IsFurthest, items_of, told_of};
ghost use Rattle.hp_dead_ends.specs.Searching.{as_rank, first_of, is_over, one_more, told_as};

use hp_net::Walk;
use hp_passes::{Pass, Sight, Turn, go_through};
use hp_syntax::RunFault;
use std::alloc::{AllocError, Global};

/// A dead end, and how far it came.
pub struct DeadEnd {
    /// For each decomposition on the way its number among those of its parent, from 0 on; one that is greater than
    /// 2^64 - 1 is told as that.
    pub path: Vec<u64>,
    pub steps: u64,
    pub decompositions: u64,
}

// A derived drop would do the same, but be proved anew wherever a dead end is let go.
impl Drop for DeadEnd {
    fn drop(self) {
        let DeadEnd {
            path,
            steps: _,
            decompositions: _,
        } = self;
        drop(path);
    }
}

/// How a search ended: at a plan, with the whole tree visited, with a limit that cut the tree somewhere, or at a fault.
#[derive(Clone, Copy, Debug, PartialEq, Eq)]
pub enum SearchEnd {
    Plan,
    Whole,
    Cut,
    Fault(RunFault),
}

/// How far a search came, and what stopped it. A count stays at 2^64 - 1.
pub struct DeadEnds {
    /// The first of those that came furthest, in the order of the walk.
    pub furthest: Vec<DeadEnd>,
    /// How many came as far.
    pub as_far: u64,
    /// How many dead ends there are.
    pub all: u64,
    /// The path of the first node that the depth cut.
    pub depth_cut: Option<Vec<u64>>,
    /// The path of the first node that the number of axiom levels cut.
    pub level_cut: Option<Vec<u64>>,
    pub end: SearchEnd,
    /// How many decompositions were visited.
    pub expansions: u64,
}

impl Drop for DeadEnds {
    fn drop(self) {
        let DeadEnds {
            furthest,
            as_far: _,
            all: _,
            depth_cut,
            level_cut,
            end: _,
            expansions: _,
        } = self;
        drop(furthest);
        drop(depth_cut);
        drop(level_cut);
    }
}

/// How far a dead end came.
#[derive(Clone, Copy)]
struct Rank {
    steps: u64,
    decompositions: u64,
}

/// Whether a rank is further than another one: by more steps, or by as many and more decompositions.
fn is_further(a: Rank, b: Rank) -> bool
    ensures { result ≡ is_further (as_rank a) (as_rank b) }
{
    b.steps < a.steps || (a.steps == b.steps && b.decompositions < a.decompositions)
}

/// Whether the last decomposition is over, by the lengths of the path of the next visit and of its own.
fn is_over(sight: Sight, here: usize, last: usize) -> bool
    ensures { result ≡ is_over (sight_of sight) here last }
{
    match sight {
        Sight::Did => here <= last,
        Sight::Plan | Sight::Cut | Sight::Fault(_) => here < last,
    }
}

/// Tells a dead end behind others, where not so many are told already.
fn tell(
    alloc: Global,
    ends: &mut Vec<DeadEnd>,
    most: usize,
    path: &[u64],
    steps: u64,
) -> Result<(), AllocError>
    ensures { OnOk result (map told_of ends.new.items
        ≡ one_more most (map told_of ends.old.items) (told_as path.now steps)) }
{
    if ends.len() >= most {
        return Ok(());
    }
    let end = DeadEnd {
        path: Vec::from_slice(alloc, path)?,
        steps,
        decompositions: path.len() as u64,
    };
    Ok(ends.push(end)?)
}

/// Keeps a path, where none is kept already.
fn keep_first(alloc: Global, kept: &mut Option<Vec<u64>>, path: &[u64]) -> Result<(), AllocError>
    ensures { OnOk result (items_of kept.new ≡ first_of (items_of kept.old) (Some path.now)) }
{
    if kept.is_some() {
        return Ok(());
    }
    *kept = Some(Vec::from_slice(alloc, path)?);
    Ok(())
}

/// A search for dead ends, with what it has found so far.
#[derive(Drop)]
struct Seeking {
    alloc: Global,
    depth: u32,
    most: usize,
    /// The path of the last decomposition, and how many steps there are.
    path: Vec<u64>,
    steps: u64,
    /// Whether no visit came after it.
    is_open: bool,
    /// How far those came that came furthest.
    best: Rank,
    found: DeadEnds,
}

impl Seeking {
    ghost use Rattle.std.specs.Prelude.{◌≡◌, ◌+◌, true, IfOk, OnOk, length};
    ghost use Rattle.hp_after.specs.Stepping.{StepsFrom};
    ghost use Rattle.hp_syntax.specs.Walk.{Visit, CutHere, told};
    ghost use Rattle.hp_dead_ends.specs.Searching.{Goes, Known, Tells, TellsFound, TellsOneMore, any_known, closed, with_end_here, with_did, with_cut};

    /// Tells the last decomposition as a dead end, where not so many are told already.
    fn tell_last(&mut self) -> Result<(), AllocError>
        ensures { OnOk result (TellsOneMore self.old self.new) }
    {
        tell(
            self.alloc,
            &mut self.found.furthest,
            self.most,
            &self.path,
            self.steps,
        )
    }

    /// Counts the last decomposition as a dead end, and tells it where none came further.
    fn keep(&mut self) -> Result<(), AllocError>
        ensures { OnOk result (Goes self.old self.new with_end_here any_known) }
    {
        self.found.all = self.found.all.saturating_add(1);
        let rank = Rank {
            steps: self.steps,
            decompositions: self.path.len() as u64,
        };
        if is_further(self.best, rank) {
            return Ok(());
        }
        if is_further(rank, self.best) {
            self.best = rank;
            self.found.as_far = 1;
            self.found.furthest.clear();
            return self.tell_last();
        }
        self.found.as_far = self.found.as_far.saturating_add(1);
        self.tell_last()
    }

    /// Closes the last decomposition, which is a dead end where no visit came after it and it is over.
    fn close(&mut self, is_over: bool) -> Result<(), AllocError>
        ensures { OnOk result (Goes self.old self.new (closed is_over) any_known) }
    {
        let was_open = self.is_open;
        self.is_open = false;
        if was_open && is_over {
            return self.keep();
        }
        Ok(())
    }

    /// Goes to a decomposition: its path is that of the last one up to a number, and one number more.
    fn go_to(&mut self, path: &[u64], steps: usize) -> Result<(), AllocError>
        ensures { OnOk result ((v : Visit) → path.now ≡ told v.path → steps ≡ length v.node.steps
            → Goes self.old self.new (with_did v) (λ k. StepsFrom v.path k.last.path)) }
    {
        let Some(number) = path.last() else {
            return Ok(());
        };
        self.steps = steps as u64;
        self.is_open = true;
        self.found.expansions = self.found.expansions.saturating_add(1);
        self.path.truncate(path.len() - 1);
        Ok(self.path.push(*number)?)
    }

    /// Notes a cut, whose path is kept where it is the first of its kind: the depth cuts where none is left.
    fn cut(&mut self, path: &[u64]) -> Result<(), AllocError>
        ensures { OnOk result ((v : Visit) → path.now ≡ told v.path → v.sight ≡ CutHere
            → Goes self.old self.new (with_cut v) (λ k. v.node.depth + length v.path ≡ self.old.depth)) }
    {
        self.found.end = SearchEnd::Cut;
        if path.len() as u64 == u64::from(self.depth) {
            keep_first(self.alloc, &mut self.found.depth_cut, path)
        } else {
            keep_first(self.alloc, &mut self.found.level_cut, path)
        }
    }

    /// What was found, where nothing more comes: a last decomposition that is still open is a dead end too.
    fn finish(mut self) -> Result<DeadEnds, AllocError>
        ensures { IfOk result (λ f. (k : Known) → Tells self k → TellsFound self.most f (closed true k)) }
    {
        self.close(true)?;
        Ok(self.found)
    }
}

impl<W: Walk> Pass<W, ()> for Seeking {
    ghost use Rattle.hp_dead_ends.specs.Searching.{MeetsSeeking};

    type Error = AllocError;

    ghost meets = { λ tree. MeetsSeeking };

    ghost fails = { λ s c v e d. Unit {0} };

    fn meet(&mut self, walk: &W, _hand: &mut (), sight: Sight) -> Result<Turn, AllocError> {
        let over = is_over(sight, walk.path().len(), self.path.len());
        self.close(over)?;
        match sight {
            Sight::Did => {
                self.go_to(walk.path(), walk.plan().len())?;
                Ok(Turn::On)
            }
            Sight::Plan => {
                self.found.end = SearchEnd::Plan;
                Ok(Turn::Last)
            }
            Sight::Cut => {
                self.cut(walk.path())?;
                Ok(Turn::On)
            }
            Sight::Fault(fault) => {
                self.found.end = SearchEnd::Fault(fault);
                Ok(Turn::Last)
            }
        }
    }
}

/// Finds the dead ends of the tree of a new walk, up to its first plan or fault, and tells the first of those that came
/// furthest, at most so many: they have the most steps, and among these the most decompositions. No path is copied but
/// that of a dead end that comes as far as all before it, and those of the first cuts. In another walk of the tree
/// `go_to` goes to each of them. Where neither a plan nor a fault ended the search, the walk is at its root again. Where a
/// fault ended it, the walk is at the node that has it. After an error it may be used no more.
pub fn find<W: Walk>(
    alloc: Global,
    walk: &mut W,
    depth: u32,
    most: usize,
) -> Result<DeadEnds, AllocError>
    requires live { W.is_live walk.old ≡ true }
    requires new { (W.stands walk.old).rest ≡ tree_visits (W.tree walk.old) }
    requires at_root { (W.stands walk.old).path ≡ [] }
    requires depth { (W.tree walk.old).root.depth ≡ depth }
    ensures found { IfOk result (IsFoundIn (W.tree walk.old) most) }
    ensures dead { IfOk result (λ f. All (IsFurthest (W.tree walk.old)) f.furthest.items) }
    ensures held { IfOk result (λ f. All (λ e. IsHeld (W.tree walk.old) e.path.items) f.furthest.items) }
    ensures cuts { IfOk result (HasHeldCuts (W.tree walk.old)) }
    ensures over { IfOk result (λ f. is_stopped f.end ≡ false → (W.stands walk.new).path ≡ []) }
    ensures fault { IfOk result (λ f. (x : RunFault) → f.end ≡ ends.Fault x
        → HasMet (W.tree walk.old) (W.stands walk.new) x) }
    ensures tree { W.tree walk.new ≡ W.tree walk.old }
    ensures live { OnOk result (W.is_live walk.new ≡ true) }
{
    let mut seeking = Seeking {
        alloc,
        depth,
        most,
        path: Vec::new(alloc),
        steps: walk.plan().len() as u64,
        is_open: true,
        best: Rank {
            steps: 0,
            decompositions: 0,
        },
        found: DeadEnds {
            furthest: Vec::new(alloc),
            as_far: 0,
            all: 0,
            depth_cut: None,
            level_cut: None,
            end: SearchEnd::Whole,
            expansions: 0,
        },
    };
    match go_through(walk, &mut seeking, &mut ()) {
        Ok(()) => seeking.finish(),
        Err(_) => Err(AllocError),
    }
}
