ghost use Rattle.std.specs.Prelude.{◌≡◌, ◌≢◌, ℕ, true, false, OnOk, OnErr};
ghost use Rattle.hp_io.specs.Rules.{risen};
ghost use Rattle.hp_io.specs.Schedules.{is_listed};

use std::alloc::{AllocError, Global};

/// The calls that are to fail, by their numbers, and the number of the next call.
pub(crate) struct Schedule {
    listed: Vec<u64>,
    next: u64,
}

impl Drop for Schedule {
    fn drop(self) {
        let Schedule { listed, next: _ } = self;
        drop(listed);
    }
}

impl Schedule {
    pub(crate) fn new(alloc: Global) -> Schedule
        ensures listed { (n : ℕ) → is_listed result n ≡ false }
        ensures next { result.next ≡ 0 }
    {
        Schedule {
            listed: Vec::new(alloc),
            next: 0,
        }
    }

    pub(crate) fn fail_at(&mut self, call: u64) -> Result<(), AllocError>
        ensures set { OnOk result (is_listed self.new call ≡ true) }
        ensures others { (n : ℕ) → n ≢ call → is_listed self.new n ≡ is_listed self.old n }
        ensures err { OnErr result (is_listed self.new call ≡ is_listed self.old call) }
        ensures next { self.new.next ≡ self.old.next }
    {
        self.listed.push(call)?;
        Ok(())
    }

    /// Numbers a call, and says whether it is to fail.
    pub(crate) fn next_fails(&mut self) -> bool
        ensures fails { result ≡ is_listed self.old self.old.next }
        ensures next { self.new.next ≡ risen self.old.next }
        ensures listed { (n : ℕ) → is_listed self.new n ≡ is_listed self.old n }
    {
        let fails = self.listed.contains(&self.next);
        self.next = self.next.saturating_add(1);
        fails
    }
}
