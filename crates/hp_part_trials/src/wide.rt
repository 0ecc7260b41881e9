//! Satisfiers of wide expressions, and of deep ones, by generators: nothing that they do may need more of the stack, or
//! far more time, where an expression is wide.
ghost use Rattle.std.specs.Prelude.{◌≡◌, ◌≤◌, length, true};
ghost use Rattle.hp_world.specs.Recorded.{Knows};
ghost use Rattle.hp_world.specs.Stages.{StageBelow};

use crate::events::Count;
use crate::scenes::{body_named, scene_of};
use hp_cells::Cells;
use hp_code::Code;
use hp_eval::{Event, Sats, Slots};
use hp_fixtures::page::Page;
use hp_fixtures::reading::code_of;
use hp_fixtures::repeats::with_repeats;
use hp_gen::Gen;
use hp_suspended::Scene;
use std::alloc::{AllocError, Global};

const LEVELS: u32 = 128;

// More events than any row has.
const ALL: usize = 1_000_000;

// What is shown, a domain, of whose one axiom `q` the branch is looked at where only `(w)` holds, and how many events
// are asked at most before the satisfiers are let go.
type Row = (&'static str, &'static str, usize);

const ROWS: [Row; 8] = [
    (
        "# all of 200000 parts hold",
        "(defdomain d ((:- (q) ({200000 (w)}))))",
        ALL,
    ),
    (
        "# all of 200000 parts hold, let go behind the first satisfier",
        "(defdomain d ((:- (q) ({200000 (w)}))))",
        1,
    ),
    (
        "# each of 200000 parts of a disjunction holds",
        "(defdomain d ((:- (q) (or {200000 (w)}))))",
        ALL,
    ),
    (
        "# the last of 200000 parts of a disjunction holds",
        "(defdomain d ((:- (q) (or {199999 (v)}(w)))))",
        ALL,
    ),
    (
        "# the last of 100000 branches of an axiom is satisfied",
        "(defdomain d ((:- (q) ((r))) (:- (r) {99999 (v)}(w))))",
        ALL,
    ),
    (
        "# as deep an expression as there may be, in an axiom that calls itself down to the limit",
        "(defdomain d ((:- (q) {5 (not (and (or (forall () (w) }(not (and (or (q)))){5 ))))})))",
        ALL,
    ),
    (
        "# the same of `not` alone",
        "(defdomain d ((:- (q) {23 (not }(q){23 )})))",
        ALL,
    ),
    (
        "# the same of `and` and `or`, let go behind the first event",
        "(defdomain d ((:- (q) {11 (and (or }(and (q)){11 ))})))",
        1,
    ),
];

// The events of satisfiers, so many at most, up to their end; they are closed then.
fn counted<B, S: Sats<B>>(
    sats: &mut S,
    base: &B,
    cells: &mut Cells,
    slots: &mut Slots,
    most: usize,
) -> Result<Count, AllocError>
    requires live { S.is_live sats.old ≡ true }
    requires open { S.is_open sats.old ≡ true }
    requires base { S.suits sats.old base.now cells.old }
    requires slots { S.fits sats.old slots.old }
    requires cells { S.kept sats.old ≤ length cells.old }
{
    let mut count = Count::new();
    for _call in 0..most {
        let event = sats.next(base, cells, slots)?;
        count.note(event);
        if matches!(event, Event::End) {
            break;
        }
    }
    sats.close(slots);
    Ok(count)
}

// The events of the branch of an axiom.
fn counted_in(
    alloc: Global,
    scene: &Scene<'_>,
    cells: &mut Cells,
    most: usize,
) -> Result<Option<Count>, AllocError>
    requires knows { Knows cells.old scene.now.world }
    requires below { StageBelow (length cells.old) scene.now.world.now }
{
    let Some(node) = body_named(alloc, scene.code, b"q")? else {
        return Ok(None);
    };
    let mut slots = Slots::new(alloc, 0)?;
    let mut sats = Gen::start(alloc, scene, cells, node, LEVELS, &slots)?;
    let count = counted(&mut sats, scene, cells, &mut slots, most)?;
    Ok(Some(count))
}

fn counted_of(alloc: Global, code: &Code, most: usize) -> Result<Option<Count>, AllocError> {
    let mut cells = Cells::new(alloc)?;
    let scene = scene_of(alloc, code, &mut cells, "(defproblem p d ((w)) ())")?;
    counted_in(alloc, &scene, &mut cells, most)
}

fn show_row(page: &mut Page, alloc: Global, (shows, domain, most): &Row) -> Result<(), AllocError> {
    page.title(shows);
    let text = with_repeats(alloc, domain)?;
    match code_of(alloc, text.as_str()) {
        Some(code) => page.given(&counted_of(alloc, &code, *most)?),
        None => page.title("no domain"),
    }
    Ok(())
}

/// What each row gives.
pub fn show_all(page: &mut Page, alloc: Global) -> Result<(), AllocError> {
    for row in &ROWS {
        show_row(page, alloc, row)?;
    }
    Ok(())
}
