//! Satisfiers of an expression of a code, one event a call.
ghost use Rattle.std.specs.Prelude.{◌≡◌, ◌≤◌, true, false, Some, IfOk, OnOk, OnErr, length};
ghost use Rattle.hp_syntax.specs.Events.{sat};
ghost use Rattle.hp_syntax.specs.Preconditions.{heard};
ghost use Rattle.hp_syntax.specs.Syntax.{Expression};
ghost use Rattle.hp_eval.specs.declared.event.Event.TheVariants as events;
ghost use Rattle.hp_eval.specs.Events.{event_of, left_after, AreOfFirst};
ghost use Rattle.hp_eval.specs.Growth.{Grows};
ghost use Rattle.hp_eval.specs.Slotted.{AreBelow, Binds, bindings_of, undone};
ghost use Rattle.hp_suspended.specs.Fitting.{IsExpressionAt};
ghost use Rattle.hp_gen.specs.GenLaws.{FitsSlots, Suits, rest_of};
ghost use Rattle.hp_suspended.specs.Nodes.{expression_at};
ghost use Rattle.hp_suspended.specs.Views as names;
ghost use Rattle.hp_suspended.specs.Views.{view};
ghost use Rattle.hp_suspended.specs.SceneViews.{IsReady, code_in, setting_of};
ghost use Rattle.hp_suspended.specs.Settings.{axioms_in, state_in};

use hp_cells::Cells;
use hp_eval::{Event, Sats, Slots};
use hp_suspended::{Scene, Suspended};
use std::alloc::{AllocError, Global};

/// The satisfiers of a node's expression in a scene, of which some were given.
///
/// What is left is kept as it stands, so that a call goes on where the one before ended. The world may change between
/// two calls, as long as it is what it was when the next one begins, and cells may be added or given back down to those
/// that stood at the end of the last call.
pub struct Gen {
    suspended: Suspended,
    mark: usize,
    // The number of bindings at the end of the last call.
    bound: usize,
    // The number of cells at the end of the last call.
    kept: usize,
    is_live: bool,
    is_open: bool,
    alloc: Global,
}

impl Drop for Gen {
    fn drop(self) {
        let Gen {
            suspended,
            mark: _,
            bound: _,
            kept: _,
            is_live: _,
            is_open: _,
            alloc: _,
        } = self;
        drop(suspended);
    }
}

impl Gen {
    /// All satisfiers of the expression of a node, under the bindings of the slots, with so many axiom levels: at most
    /// 128, so that the search is no deeper than a stack. The slots are those of the node's rule.
    pub fn start(
        alloc: Global,
        scene: &Scene<'_>,
        cells: &Cells,
        node: usize,
        nest: u32,
        slots: &Slots,
    ) -> Result<Gen, AllocError>
        requires ready { IsReady scene.now cells.now slots.now }
        requires node { IsExpressionAt (code_in scene.now) node }
        requires levels { nest ≤ 128 }
        ensures rest { IfOk result (λ g. (E : Expression) → expression_at (code_in scene.now) node ≡ Some E
            → rest_of g scene.now cells.now slots.now
            ≡ heard (sat (axioms_in (setting_of scene.now cells.now)) nest (state_in (setting_of scene.now cells.now)) E
            (bindings_of cells.now slots.now))) }
        ensures suits { IfOk result (λ g. Suits g scene.now cells.now) }
        ensures fits { IfOk result (λ g. FitsSlots g slots.now) }
        ensures start { IfOk result (λ g. g.mark ≡ length slots.now.trail) }
        ensures kept { IfOk result (λ g. g.kept ≡ length cells.now) }
        ensures live { IfOk result (λ g. g.is_live ≡ true) }
        ensures open { IfOk result (λ g. g.is_open ≡ true) }
    {
        let mark = slots.mark();
        Ok(Gen {
            suspended: Suspended::Fresh { mark, nest, node },
            mark,
            bound: mark,
            kept: cells.len(),
            is_live: true,
            is_open: true,
            alloc,
        })
    }

    // Behind a failed call nothing is left, and the bindings are those of the start.
    fn fail(&mut self, cells: &Cells, slots: &mut Slots)
        requires { self.old.mark ≤ length slots.old.trail }
        ensures slots { slots.new ≡ undone self.old.mark slots.old }
        ensures left { view self.new.suspended ≡ names.One self.old.mark events.End }
        ensures mark { self.new.mark ≡ self.old.mark }
        ensures bound { self.new.bound ≡ self.old.mark }
        ensures kept { self.new.kept ≡ length cells.now }
        ensures dead { self.new.is_live ≡ false }
        ensures open { self.new.is_open ≡ self.old.is_open }
    {
        let mark = self.mark;
        slots.undo_to(mark);
        self.suspended.end(mark);
        self.bound = mark;
        self.kept = cells.len();
        self.is_live = false;
    }
}

impl<'a> Sats<Scene<'a>> for Gen {
    ghost use Rattle.hp_gen.specs.GenLaws.{FitsSlots, Suits, fits_hold_of, rest_of, same_cells_of, same_base_of, sats_extend_of};

    ghost rest = { λ s b c e. rest_of s b c e };

    ghost suits = { λ s b c. Suits s b c };

    ghost fits = { λ s e. FitsSlots s e };

    ghost start = { λ s. s.mark };

    ghost kept = { λ s. s.kept };

    ghost is_live = { λ s. s.is_live };

    ghost is_open = { λ s. s.is_open };

    fn next(
        &mut self,
        base: &Scene<'a>,
        cells: &mut Cells,
        slots: &mut Slots,
    ) -> Result<Event, AllocError>
        requires live { self.old.is_live ≡ true }
        requires open { self.old.is_open ≡ true }
        requires base { Suits self.old base.now cells.old }
        requires slots { FitsSlots self.old slots.old }
        requires cells { self.old.kept ≤ length cells.old }
        ensures event { IfOk result (λ x. x ≡ event_of (rest_of self.old base.now cells.old slots.old)) }
        ensures rest { OnOk result (rest_of self.new base.now cells.new slots.new
            ≡ left_after (rest_of self.old base.now cells.old slots.old)) }
        ensures sat { OnOk result (AreOfFirst (rest_of self.old base.now cells.old slots.old)
            (bindings_of cells.new slots.new)) }
        ensures base { Suits self.new base.now cells.new }
        ensures slots { FitsSlots self.new slots.new }
        ensures above { Binds (undone self.old.mark slots.old) slots.new }
        ensures below { AreBelow self.new.kept slots.new }
        ensures undone { OnErr result (Binds slots.new slots.old) }
        ensures start { self.new.mark ≡ self.old.mark }
        ensures kept { (self.old.kept ≤ self.new.kept) × (self.new.kept ≤ length cells.new) }
        ensures cells { Grows cells.old cells.new }
        ensures live { OnOk result (self.new.is_live ≡ true) }
        ensures dead { OnErr result (self.new.is_live ≡ false) }
        ensures open { self.new.is_open ≡ true }
    {
        match self.suspended.next(self.alloc, base, cells, slots) {
            Ok(event) => {
                self.bound = slots.mark();
                self.kept = cells.len();
                Ok(event)
            }
            Err(refused) => {
                self.fail(cells, slots);
                Err(refused)
            }
        }
    }

    fn close(&mut self, slots: &mut Slots)
        requires open { self.old.is_open ≡ true }
        requires slots { FitsSlots self.old slots.old }
        ensures slots { slots.new ≡ undone self.old.mark slots.old }
        ensures closed { self.new.is_open ≡ false }
        ensures live { self.new.is_live ≡ self.old.is_live }
    {
        slots.undo_to(self.mark);
        self.is_open = false;
    }

    fn live(&self) -> bool
        ensures { result ≡ self.now.is_live }
    {
        self.is_live
    }

    ghost fits_hold = { λ s e h. fits_hold_of s e h };

    ghost same_cells = { λ s b c d e u h k. same_cells_of s b c d e u h k };

    ghost same_base = { λ s b c d u k. same_base_of s b c d u k };

    ghost sats_extend = { λ s b c e u h. sats_extend_of s b c e u h };
}
