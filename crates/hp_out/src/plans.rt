//! The texts of plans, and of what stands at their ends.

ghost use Rattle.std.specs.Prelude.{◌≡◌, ◌≤◌, [], ◌++◌, OnErr, MatchOption, codes, cond, decimal, length, map, true};
ghost use Rattle.hp_io.specs.Rules.{Rose};
ghost use Rattle.hp_net.specs.Standings.{node_reached};
ghost use Rattle.hp_out.specs.Pages.{desk, Puts};
ghost use Rattle.hp_syntax.specs.GroundViews.{ground_of};
ghost use Rattle.hp_syntax.specs.Report.{best_line, best_text, lines_text, path_line, plan_line, plan_text, shown};
ghost use Rattle.hp_syntax.specs.Report.{state_text, told_plan};
ghost use Rattle.hp_syntax.specs.TermTexts.{num_text};
ghost use Rattle.hp_syntax.specs.Walk.{Node, told};
ghost use Rattle.hp_world.specs.Stages.{AllBelow, StageBelow, terms_at, state_of, guards_of};

use crate::grounds::push_ground_lines;
use crate::page::Page;
use crate::paths::push_path_line;
use crate::terms::{push_atoms, push_lines};
use hp_cells::{Cell, Cells};
use hp_io::{Failed, Sink};
use hp_net::Walk;
use hp_syntax::{Decimals, Ground, sign};
use hp_world::World;
use itoa::Buffer;

/// Puts a word and a cost, which is a count of thousandths, on a page.
pub fn push_cost<K: Sink>(
    page: &mut Page,
    sink: &mut K,
    word: &'static [u8],
    cost: i128,
) -> Result<(), Failed>
    ensures puts { Puts result (word.now ++ num_text cost)
        (desk (K.bytes sink.old) page.old) (desk (K.bytes sink.new) page.new) }
    ensures later { K.faults sink.old ≤ K.faults sink.new }
    ensures cause { OnErr result (Rose (K.faults sink.old) (K.faults sink.new)) }
{
    let magnitude = cost.unsigned_abs();
    let decimals = Decimals::new((magnitude % 1000) as u32);
    let mut whole = Buffer::new();
    let digits = whole.format(magnitude / 1000).as_bytes();
    page.push_all(sink, &[word, sign(cost < 0), digits, decimals.as_bytes()])
}

/// Puts a cost, which is a count of thousandths, and a number of steps on a page, and the end of their line.
fn push_measure<K: Sink>(
    page: &mut Page,
    sink: &mut K,
    cost: i128,
    steps: usize,
) -> Result<(), Failed>
    ensures puts { Puts result (codes " cost " ++ num_text cost ++ codes " steps " ++ decimal steps ++ codes "\n")
        (desk (K.bytes sink.old) page.old) (desk (K.bytes sink.new) page.new) }
    ensures later { K.faults sink.old ≤ K.faults sink.new }
    ensures cause { OnErr result (Rose (K.faults sink.old) (K.faults sink.new)) }
{
    push_cost(page, sink, b" cost ", cost)?;
    push_count(page, sink, b" steps ", steps)
}

/// Puts the line of a plan on a page, whose cost is a count of thousandths.
fn push_line<K: Sink>(
    page: &mut Page,
    sink: &mut K,
    number: u64,
    cost: i128,
    steps: usize,
) -> Result<(), Failed>
    ensures puts { Puts result (plan_line number cost steps)
        (desk (K.bytes sink.old) page.old) (desk (K.bytes sink.new) page.new) }
    ensures later { K.faults sink.old ≤ K.faults sink.new }
    ensures cause { OnErr result (Rose (K.faults sink.old) (K.faults sink.new)) }
{
    let mut digits = Buffer::new();
    page.push_all(sink, &[b"plan ", digits.format(number).as_bytes()])?;
    push_measure(page, sink, cost, steps)
}

/// Puts the line of a cheapest plan on a page, whose cost is a count of thousandths.
fn push_best_line<K: Sink>(
    page: &mut Page,
    sink: &mut K,
    cost: i128,
    steps: usize,
) -> Result<(), Failed>
    ensures puts { Puts result (best_line cost steps)
        (desk (K.bytes sink.old) page.old) (desk (K.bytes sink.new) page.new) }
    ensures later { K.faults sink.old ≤ K.faults sink.new }
    ensures cause { OnErr result (Rose (K.faults sink.old) (K.faults sink.new)) }
{
    page.push(sink, b"best")?;
    push_measure(page, sink, cost, steps)
}

/// Puts a cheapest plan on a page: its line, and then its steps.
pub fn push_best<K: Sink>(
    page: &mut Page,
    sink: &mut K,
    cost: i128,
    steps: &[Ground],
) -> Result<(), Failed>
    ensures puts { Puts result (best_text cost (map ground_of steps.now))
        (desk (K.bytes sink.old) page.old) (desk (K.bytes sink.new) page.new) }
    ensures later { K.faults sink.old ≤ K.faults sink.new }
    ensures cause { OnErr result (Rose (K.faults sink.old) (K.faults sink.new)) }
{
    push_best_line(page, sink, cost, steps.len())?;
    push_ground_lines(page, sink, steps)
}

/// Puts a plan on a page: its line, and then its steps.
fn push_plan<K: Sink>(
    page: &mut Page,
    sink: &mut K,
    cells: &Cells,
    number: u64,
    cost: i128,
    steps: &[Cell],
) -> Result<(), Failed>
    requires { AllBelow (length cells.now) steps.now }
    ensures puts { (n : Node) → n.steps ≡ terms_at cells.now steps.now → n.cost ≡ cost
        → Puts result (plan_text number n) (desk (K.bytes sink.old) page.old) (desk (K.bytes sink.new) page.new) }
    ensures later { K.faults sink.old ≤ K.faults sink.new }
    ensures cause { OnErr result (Rose (K.faults sink.old) (K.faults sink.new)) }
{
    push_line(page, sink, number, cost, steps.len())?;
    push_lines(page, sink, cells, steps)
}

/// Puts the line of the plan that a walk stands at on a page, without its steps.
pub fn push_told_line<K: Sink, W: Walk>(
    page: &mut Page,
    sink: &mut K,
    number: u64,
    walk: &W,
) -> Result<(), Failed>
    requires live { W.is_live walk.now ≡ true }
    ensures puts { MatchOption (node_reached (W.tree walk.now) (W.stands walk.now)) ⊥
        (λ n. Puts result (plan_line number n.cost (length n.steps))
        (desk (K.bytes sink.old) page.old) (desk (K.bytes sink.new) page.new)) }
    ensures later { K.faults sink.old ≤ K.faults sink.new }
    ensures cause { OnErr result (Rose (K.faults sink.old) (K.faults sink.new)) }
{
    push_line(page, sink, number, walk.cost(), walk.plan().len())
}

/// Puts a word and a count on a page, as a line.
fn push_count<K: Sink>(
    page: &mut Page,
    sink: &mut K,
    word: &'static [u8],
    count: usize,
) -> Result<(), Failed>
    ensures puts { Puts result (word.now ++ decimal count ++ codes "\n")
        (desk (K.bytes sink.old) page.old) (desk (K.bytes sink.new) page.new) }
    ensures later { K.faults sink.old ≤ K.faults sink.new }
    ensures cause { OnErr result (Rose (K.faults sink.old) (K.faults sink.new)) }
{
    let mut number = Buffer::new();
    page.push_all(sink, &[word, number.format(count).as_bytes(), b"\n"])
}

/// Puts the protections of a world on a page: their count, and then a line for each.
fn push_guards<K: Sink>(
    page: &mut Page,
    sink: &mut K,
    cells: &Cells,
    guards: &[Cell],
) -> Result<(), Failed>
    requires { AllBelow (length cells.now) guards.now }
    ensures puts { Puts result (codes "protections " ++ decimal (length guards.now) ++ codes "\n"
        ++ lines_text (terms_at cells.now guards.now))
        (desk (K.bytes sink.old) page.old) (desk (K.bytes sink.new) page.new) }
    ensures later { K.faults sink.old ≤ K.faults sink.new }
    ensures cause { OnErr result (Rose (K.faults sink.old) (K.faults sink.new)) }
{
    push_count(page, sink, b"protections ", guards.len())?;
    push_lines(page, sink, cells, guards)
}

/// Puts a world on a page: its atoms and its protections, each behind their count.
fn push_state<K: Sink>(
    page: &mut Page,
    sink: &mut K,
    cells: &Cells,
    world: &World,
) -> Result<(), Failed>
    requires { StageBelow (length cells.now) world.now.now }
    ensures puts { (n : Node) → n.state ≡ state_of cells.now world.now.now
        → n.guards ≡ guards_of cells.now world.now.now
        → Puts result (state_text n) (desk (K.bytes sink.old) page.old) (desk (K.bytes sink.new) page.new) }
    ensures later { K.faults sink.old ≤ K.faults sink.new }
    ensures cause { OnErr result (Rose (K.faults sink.old) (K.faults sink.new)) }
{
    push_count(page, sink, b"state ", world.live())?;
    push_atoms(page, sink, cells, world)?;
    push_guards(page, sink, cells, world.guards())
}

/// Puts the line of a path on a page, where paths are asked for.
fn push_asked_path<K: Sink>(
    page: &mut Page,
    sink: &mut K,
    path: &[u64],
    paths: bool,
) -> Result<(), Failed>
    ensures puts { Puts result (cond paths (path_line path.now) [])
        (desk (K.bytes sink.old) page.old) (desk (K.bytes sink.new) page.new) }
    ensures later { K.faults sink.old ≤ K.faults sink.new }
    ensures cause { OnErr result (Rose (K.faults sink.old) (K.faults sink.new)) }
{
    if !paths {
        return Ok(());
    }
    push_path_line(page, sink, path)
}

/// Puts the world that a walk stands at on a page, where states are asked for.
fn push_asked_state<K: Sink, W: Walk>(
    page: &mut Page,
    sink: &mut K,
    walk: &W,
    states: bool,
) -> Result<(), Failed>
    requires live { W.is_live walk.now ≡ true }
    ensures puts { MatchOption (node_reached (W.tree walk.now) (W.stands walk.now)) ⊥
        (λ n. Puts result (cond states (state_text n) [])
        (desk (K.bytes sink.old) page.old) (desk (K.bytes sink.new) page.new)) }
    ensures later { K.faults sink.old ≤ K.faults sink.new }
    ensures cause { OnErr result (Rose (K.faults sink.old) (K.faults sink.new)) }
{
    let world = walk.world();
    if !states {
        return Ok(());
    }
    push_state(page, sink, walk.cells(), world)
}

/// Puts the plan that a walk stands at on a page, with its path where paths are asked for.
fn push_placed<K: Sink, W: Walk>(
    page: &mut Page,
    sink: &mut K,
    number: u64,
    walk: &W,
    paths: bool,
) -> Result<(), Failed>
    requires live { W.is_live walk.now ≡ true }
    ensures puts { MatchOption (node_reached (W.tree walk.now) (W.stands walk.now)) ⊥
        (λ n. Puts result (plan_text number n ++ cond paths (path_line (told (W.stands walk.now).path)) [])
        (desk (K.bytes sink.old) page.old) (desk (K.bytes sink.new) page.new)) }
    ensures later { K.faults sink.old ≤ K.faults sink.new }
    ensures cause { OnErr result (Rose (K.faults sink.old) (K.faults sink.new)) }
{
    push_plan(page, sink, walk.cells(), number, walk.cost(), walk.plan())?;
    push_asked_path(page, sink, walk.path(), paths)
}

/// Puts the plan that a walk stands at on a page, with its path where paths are asked for, and its state where states
/// are.
pub fn push_told<K: Sink, W: Walk>(
    page: &mut Page,
    sink: &mut K,
    number: u64,
    walk: &W,
    states: bool,
    paths: bool,
) -> Result<(), Failed>
    requires live { W.is_live walk.now ≡ true }
    ensures puts { MatchOption (node_reached (W.tree walk.now) (W.stands walk.now)) ⊥
        (λ n. Puts result (told_plan (shown states paths) number (W.stands walk.now).path n)
        (desk (K.bytes sink.old) page.old) (desk (K.bytes sink.new) page.new)) }
    ensures later { K.faults sink.old ≤ K.faults sink.new }
    ensures cause { OnErr result (Rose (K.faults sink.old) (K.faults sink.new)) }
{
    push_placed(page, sink, number, walk, paths)?;
    push_asked_state(page, sink, walk, states)
}
