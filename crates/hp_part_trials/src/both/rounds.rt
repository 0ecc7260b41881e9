//! Rounds of drawn calls, and what came of them.
ghost use Rattle.std.specs.Prelude.{◌<◌};

use crate::look_ups::draws::Draws;
use hp_net::Step;
use std::alloc::Global;

/// How often each call was made.
#[derive(Clone, Copy, Debug)]
pub struct Calls {
    pub next: u32,
    pub step: u32,
    pub back: u32,
    pub prune: u32,
}

/// How often each answer was given.
#[derive(Clone, Copy, Debug)]
pub struct Answers {
    dids: u32,
    plans: u32,
    cuts: u32,
    faults: u32,
    ends: u32,
    nones: u32,
}

impl Answers {
    fn note(&mut self, answer: Option<Step>) {
        let count = match answer {
            Some(Step::Did) => &mut self.dids,
            Some(Step::Plan) => &mut self.plans,
            Some(Step::Cut) => &mut self.cuts,
            Some(Step::Fault(_)) => &mut self.faults,
            Some(Step::End) => &mut self.ends,
            None => &mut self.nones,
        };
        *count = count.saturating_add(1);
    }
}

/// The numbers that are drawn, the calls so far, the answers of the first walk, and how often the second differed.
#[derive(Drop)]
pub struct Rounds {
    pub alloc: Global,
    pub draws: Draws,
    pub pairs: u32,
    pub calls: Calls,
    pub answers: Answers,
    pub differ: u32,
}

impl Rounds {
    pub fn new(alloc: Global) -> Rounds {
        Rounds {
            alloc,
            draws: Draws { state: 1 },
            pairs: 0,
            calls: Calls {
                next: 0,
                step: 0,
                back: 0,
                prune: 0,
            },
            answers: Answers {
                dids: 0,
                plans: 0,
                cuts: 0,
                faults: 0,
                ends: 0,
                nones: 0,
            },
            differ: 0,
        }
    }

    /// Draws what comes once in so many times.
    pub fn is_drawn(&mut self, times: usize) -> bool
        requires { 0 < times }
    {
        self.draws.below(times) == 0
    }

    /// Counts what isn't the same.
    pub fn note_same(&mut self, is_same: bool) {
        if !is_same {
            self.differ = self.differ.saturating_add(1);
        }
    }

    /// Counts a call of `next`, and what both walks answered.
    pub fn note_next(&mut self, step: Step, other: Step) {
        self.calls.next = self.calls.next.saturating_add(1);
        self.answers.note(Some(step));
        self.note_same(step == other);
    }

    /// Counts a call of `step`, and what both walks answered.
    pub fn note_step(&mut self, step: Option<Step>, other: Option<Step>) {
        self.calls.step = self.calls.step.saturating_add(1);
        self.answers.note(step);
        self.note_same(step == other);
    }
}
