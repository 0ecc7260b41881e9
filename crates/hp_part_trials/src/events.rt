//! Events that are counted.

use hp_eval::Event;

/// How many events of each kind there were.
#[derive(Clone, Copy, Debug)]
pub struct Count {
    sats: usize,
    cuts: usize,
    faults: usize,
}

impl Count {
    pub fn new() -> Count {
        Count {
            sats: 0,
            cuts: 0,
            faults: 0,
        }
    }

    /// Counts an event; the end is none.
    pub fn note(&mut self, event: Event) {
        match event {
            Event::Sat => self.sats = self.sats.saturating_add(1),
            Event::Cut => self.cuts = self.cuts.saturating_add(1),
            Event::Fault(_) => self.faults = self.faults.saturating_add(1),
            Event::End => {}
        }
    }
}
