//! Task lists.

ghost use Rattle.std.specs.Prelude.{◌≡◌};
ghost use Rattle.hp_syntax.specs.Checks as checks;
ghost use Rattle.hp_syntax.specs.Checks.{earlier, first_of};
ghost use Rattle.hp_syntax.specs.Views.{tasks_of, task_list_of};
ghost use Rattle.hp_check.specs.Places.{place_of};

use crate::patterns::atom;
use crate::watch::{Region, Watch};
use hp_syntax::NetPat;

/// A task or a list of tasks.
#[cycle(tasks)]
#[tactic(auto, unfolding(hp_syntax::specs::Views::tasks_of, hp_syntax::specs::Checks::tasks_faults))]
#[inline(always)]
pub fn tasks(watch: &mut Watch, place: Region, net: &NetPat)
    ensures { watch.new.first ≡ earlier watch.old.first
        (first_of (checks.tasks_faults (place_of place) (tasks_of net.now))) }
{
    match net {
        NetPat::Task(task) => atom(watch, place, &task.atom),
        NetPat::Ordered(parts) | NetPat::Unordered(parts) => task_list(
            watch,
            place,
            parts.as_slice(),
        ),
    }
}

#[cycle(tasks)]
#[tactic(auto, unfolding(hp_syntax::specs::Views::tasks_of, hp_syntax::specs::Checks::tasks_faults))]
#[inline(never)]
fn task_list(watch: &mut Watch, place: Region, parts: &[NetPat])
    ensures { watch.new.first ≡ earlier watch.old.first
        (first_of (checks.task_list_faults (place_of place) (task_list_of parts.now))) }
{
    for part in parts {
        tasks(watch, place, part);
    }
}
