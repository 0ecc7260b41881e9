ghost use Rattle.std.specs.Prelude.{◌≡◌, ◌≢◌, ◌≤◌, ◌<◌, ◌+◌, ◌⊎◌, ℕ, [], Some, true, false, length, min, OnOk, OnErr, IfOk, IsErr, ◌↔◌, vec_capacity, vec_len};

use crate::folder::Failed;
use crate::schedule::Schedule;
use crate::sink::Sink;
use std::alloc::{AllocError, Global};

/// A sink in memory. Its room is reserved when it is made, so a write takes no memory.
#[derive(Drop)]
pub struct MemSink {
    taken: Vec<u8>,
    room: usize,
    limit: usize,
    faults: u64,
    schedule: Schedule,
    ghost fits: { vec_len taken + room ≤ vec_capacity taken },
    ghost takes_some: { 1 ≤ limit },
}

impl MemSink {
    ghost use Rattle.hp_io.specs.Room.{bytes_of, room_of, limit_of, faults_of, next_call, fails_at};

    /// An empty sink with room for so many bytes, of which a write may fill all.
    pub fn new(alloc: Global, room: usize) -> Result<MemSink, AllocError>
        ensures bytes { IfOk result (λ sink. bytes_of sink ≡ []) }
        ensures room { IfOk result (λ sink. room_of sink ≡ room) }
        ensures limit { IfOk result (λ sink. limit_of sink ≡ usize.MAX) }
        ensures faults { IfOk result (λ sink. faults_of sink ≡ 0) }
        ensures next { IfOk result (λ sink. next_call sink ≡ 0) }
        ensures listed { IfOk result (λ sink. (n : ℕ) → fails_at sink n ≡ false) }
    {
        let taken = Vec::with_capacity(alloc, room)?;
        Ok(MemSink {
            taken,
            room,
            limit: usize::MAX,
            faults: 0,
            schedule: Schedule::new(alloc),
        })
    }

    /// Makes the write of that number fail. The first write has the number 0.
    pub fn fail_at(&mut self, call: u64) -> Result<(), AllocError>
        ensures set { OnOk result (fails_at self.new call ≡ true) }
        ensures others { (n : ℕ) → n ≢ call → fails_at self.new n ≡ fails_at self.old n }
        ensures err { OnErr result (fails_at self.new call ≡ fails_at self.old call) }
        ensures next { next_call self.new ≡ next_call self.old }
        ensures faults { faults_of self.new ≡ faults_of self.old }
        ensures bytes { bytes_of self.new ≡ bytes_of self.old }
        ensures room { room_of self.new ≡ room_of self.old }
        ensures limit { limit_of self.new ≡ limit_of self.old }
    {
        self.schedule.fail_at(call)
    }

    /// From now on a write takes at most so many bytes.
    pub fn take_at_most(&mut self, n: usize)
        requires { 1 ≤ n }
        ensures limit { limit_of self.new ≡ n }
        ensures listed { (n : ℕ) → fails_at self.new n ≡ fails_at self.old n }
        ensures next { next_call self.new ≡ next_call self.old }
        ensures faults { faults_of self.new ≡ faults_of self.old }
        ensures bytes { bytes_of self.new ≡ bytes_of self.old }
        ensures room { room_of self.new ≡ room_of self.old }
    {
        self.limit = n;
    }

    /// All that was written.
    pub fn bytes(&self) -> &[u8]
        ensures { result.now ≡ bytes_of self.now }
    {
        self.taken.as_slice()
    }
}

impl Sink for MemSink {
    ghost use Rattle.hp_io.specs.Room.{bytes_of, room_of, limit_of, faults_of, next_call, fails_at, next_fails};
    ghost use Rattle.hp_io.specs.Rules.{risen, Rose, Appended};

    ghost bytes = { λ s. Some (bytes_of s) };

    ghost faults = { faults_of };

    /// Takes as much as the room and the limit let it.
    fn write(&mut self, piece: &[u8]) -> Result<usize, Failed>
        ensures fails { IsErr result
            ↔ ((next_fails self.old ≡ true) ⊎ ((0 < length piece.now) × (room_of self.old ≡ 0))) }
        ensures exact { IfOk result (λ n. n ≡ min (length piece.now) (min (room_of self.old) (limit_of self.old))) }
        ensures room { IfOk result (λ n. room_of self.new + n ≡ room_of self.old) }
        ensures limit { limit_of self.new ≡ limit_of self.old }
        ensures calm { OnOk result (faults_of self.new ≡ faults_of self.old) }
        ensures fault { OnErr result (faults_of self.new ≡ risen (faults_of self.old)) }
        ensures next { next_call self.new ≡ risen (next_call self.old) }
        ensures listed { (n : ℕ) → fails_at self.new n ≡ fails_at self.old n }
        ensures err_room { OnErr result (room_of self.new ≡ room_of self.old) }
        ensures count { IfOk result (λ n. n ≤ length piece.now) }
        ensures some { IfOk result (λ n. 0 < length piece.now → 0 < n) }
        ensures taken { IfOk result (λ n.
            Appended n piece.now (Some (bytes_of self.old)) (Some (bytes_of self.new))) }
        ensures err { OnErr result (bytes_of self.new ≡ bytes_of self.old) }
        ensures later { faults_of self.old ≤ faults_of self.new }
        ensures cause { OnErr result (Rose (faults_of self.old) (faults_of self.new)) }
    {
        let fails = self.schedule.next_fails();
        let count = piece.len().min(self.room).min(self.limit);
        if fails || (count == 0 && !piece.is_empty()) {
            self.faults = self.faults.saturating_add(1);
            return Err(Failed);
        }
        self.room -= count;
        self.taken.extend_from_slice(&piece[..count]).unwrap();
        Ok(count)
    }
}
