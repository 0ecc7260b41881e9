//! The nodes on the path, by how many of its first numbers reach them.
ghost use Rattle.std.specs.Prelude.{◌≡◌, ◌<◌, ◌≤◌, Bool, Some, length, slice_get};
ghost use Rattle.hp_search.specs.Led.{IsStageAt};
ghost use Rattle.hp_search.specs.Planned.{marks_of, planned};
ghost use Rattle.hp_search.specs.Searches.{IsSearch};

use crate::search::Search;
use hp_agenda::Frame;
use hp_site::Mark;
use hp_world::World;
use std::mem;

impl<'a> Search<'a> {
    /// The frame of a node above the one reached.
    pub(crate) fn frame_at(&self, level: usize) -> &Frame<'a>
        requires { level < length self.now.above.items }
        ensures { slice_get self.now.above.items level ≡ Some result.now }
    {
        let frames = self.above.as_slice();
        &frames[level]
    }

    /// The moment of a node.
    pub(crate) fn mark_at(&self, level: usize) -> Mark
        requires { level ≤ length self.now.above.items }
        ensures { (live : Bool) → slice_get (marks_of (planned self.now live)) level ≡ Some result }
    {
        if level == self.above.len() {
            return self.top.mark;
        }
        self.frame_at(level).mark
    }

    /// Goes back to the moment of a node, and takes the world out. The search is lost, but for its cells.
    pub(crate) fn take_world_at(&mut self, level: usize) -> World
        requires search { IsSearch self.old }
        requires level { level ≤ length self.old.above.items }
        ensures stage { (live : Bool) → IsStageAt (planned self.old live) level result.now }
        ensures cells { self.new.cells ≡ self.old.cells }
    {
        let mark = self.mark_at(level);
        self.site.undo_to(mark);
        mem::replace(&mut self.site.scene.world, World::new(self.alloc))
    }
}
