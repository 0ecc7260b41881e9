ghost use Rattle.std.specs.Prelude.{◌≡◌, ◌≢◌, ◌≤◌, ◌<◌, ◌+◌, ℕ, true, false, List, Option, None, Some, IsSome, IfSome, IfNone, IfOk, IfErr, OnOk, OnErr, IsErr, ◌⊎◌, ◌↔◌, length, min, take, slice_get};
ghost use Rattle.std.specs.Bool.{OnTrue, OnFalse};
ghost use Rattle.hp_io.specs.declared.folder.Input.{Input};
ghost use Rattle.hp_io.specs.Files.{contents, rest_of, is_begun, SameInput, input_of, faults_of, next_call, fails_at, next_fails, file_of, bytes_at, IsFirst};
ghost use Rattle.hp_io.specs.Rules.{risen, Taken};

use crate::folder::{BeginError, Failed, Folder, Input};
use crate::schedule::Schedule;
use std::alloc::{AllocError, Global};

struct File {
    name: String,
    bytes: Vec<u8>,
}

impl Drop for File {
    fn drop(self) {
        let File { name, bytes } = self;
        drop(name);
        drop(bytes);
    }
}

/// Where an input is read: the index of its file, and how many bytes were read.
#[derive(Clone, Copy)]
struct Place {
    file: usize,
    at: usize,
}

/// An input: its place once it was begun, and how many of its calls failed as listed.
#[derive(Clone, Copy)]
struct MemInput {
    place: Option<Place>,
    faults: u64,
}

impl MemInput {
    fn new() -> MemInput
        ensures place { result.place ≡ None }
        ensures faults { result.faults ≡ 0 }
    {
        MemInput {
            place: None,
            faults: 0,
        }
    }
}

/// A folder in memory. Begins and reads are numbered in one row, from 0 on.
pub struct MemFolder {
    files: Vec<File>,
    domain: MemInput,
    problem: MemInput,
    plan: MemInput,
    schedule: Schedule,
}

impl Drop for MemFolder {
    fn drop(self) {
        let MemFolder {
            files,
            domain: _,
            problem: _,
            plan: _,
            schedule,
        } = self;
        drop(files);
        drop(schedule);
    }
}

impl MemFolder {
    /// A folder without files. It takes no memory.
    pub fn new(alloc: Global) -> MemFolder
        ensures files { (n : List ℕ) → contents result n ≡ None }
        ensures begun { (w : Input) → is_begun result w ≡ false }
        ensures faults { (w : Input) → faults_of result w ≡ 0 }
        ensures next { next_call result ≡ 0 }
        ensures listed { (n : ℕ) → fails_at result n ≡ false }
    {
        MemFolder {
            files: Vec::new(alloc),
            domain: MemInput::new(),
            problem: MemInput::new(),
            plan: MemInput::new(),
            schedule: Schedule::new(alloc),
        }
    }

    /// Sets a file, in place of one that had this name.
    pub fn put(&mut self, name: &str, bytes: &[u8]) -> Result<(), AllocError>
        requires { (w : Input) → is_begun self.old w ≡ false }
        ensures set { OnOk result (contents self.new name.now ≡ Some bytes.now) }
        ensures others { (n : List ℕ) → n ≢ name.now → contents self.new n ≡ contents self.old n }
        ensures err { OnErr result ((n : List ℕ) → contents self.new n ≡ contents self.old n) }
        ensures begun { (w : Input) → is_begun self.new w ≡ false }
        ensures faults { (w : Input) → faults_of self.new w ≡ faults_of self.old w }
        ensures next { next_call self.new ≡ next_call self.old }
        ensures listed { (n : ℕ) → fails_at self.new n ≡ fails_at self.old n }
    {
        let alloc = *self.files.allocator();
        let bytes = Vec::from_slice(alloc, bytes)?;
        match find(self.files.as_slice(), name) {
            Some(index) => self.files[index].bytes = bytes,
            None => {
                let name = String::from_str(alloc, name)?;
                self.files.push(File { name, bytes })?;
            }
        }
        Ok(())
    }

    /// Makes the begin or read of that number fail. Both count in one row, for all inputs.
    pub fn fail_at(&mut self, call: u64) -> Result<(), AllocError>
        ensures set { OnOk result (fails_at self.new call ≡ true) }
        ensures others { (n : ℕ) → n ≢ call → fails_at self.new n ≡ fails_at self.old n }
        ensures err { OnErr result (fails_at self.new call ≡ fails_at self.old call) }
        ensures next { next_call self.new ≡ next_call self.old }
        ensures files { (n : List ℕ) → contents self.new n ≡ contents self.old n }
        ensures inputs { (w : Input) → SameInput self.old self.new w }
    {
        self.schedule.fail_at(call)
    }

    fn input(&self, which: Input) -> MemInput
        ensures { result ≡ input_of self.now which }
    {
        match which {
            Input::Domain => self.domain,
            Input::Problem => self.problem,
            Input::Plan => self.plan,
        }
    }

    fn set_input(&mut self, which: Input, input: MemInput)
        ensures set { input_of self.new which ≡ input }
        ensures others { (w : Input) → w ≢ which → input_of self.new w ≡ input_of self.old w }
        ensures files { self.new.files ≡ self.old.files }
        ensures schedule { self.new.schedule ≡ self.old.schedule }
    {
        match which {
            Input::Domain => self.domain = input,
            Input::Problem => self.problem = input,
            Input::Plan => self.plan = input,
        }
    }

    /// Numbers a call, and counts its fault where it is to fail.
    fn next_fails(&mut self, which: Input) -> bool
        ensures fails { result ≡ next_fails self.old }
        ensures next { next_call self.new ≡ risen (next_call self.old) }
        ensures listed { (n : ℕ) → fails_at self.new n ≡ fails_at self.old n }
        ensures files { self.new.files ≡ self.old.files }
        ensures fault { OnTrue result (input_of self.new which
            ≡ record { place = (input_of self.old which).place; faults = risen (faults_of self.old which) }) }
        ensures calm { OnFalse result (input_of self.new which ≡ input_of self.old which) }
        ensures others { (w : Input) → w ≢ which → input_of self.new w ≡ input_of self.old w }
        ensures later { (w : Input) → faults_of self.old w ≤ faults_of self.new w }
    {
        if !self.schedule.next_fails() {
            return false;
        }
        let input = self.input(which);
        let faults = input.faults.saturating_add(1);
        self.set_input(which, MemInput { faults, ..input });
        true
    }
}

impl Folder for MemFolder {
    ghost file = { λ s n. Some (contents s n) };

    ghost rest = { rest_of };

    ghost begun = { is_begun };

    ghost faults = { faults_of };

    /// Takes no memory. Where the call was listed, its fault is counted whether the file is there or not.
    fn begin(&mut self, which: Input, name: &str) -> Result<(), BeginError>
        ensures fails { IsErr result ↔ ((next_fails self.old ≡ true) ⊎ (contents self.old name.now ≡ None)) }
        ensures only_failed { IfErr result (λ e. e ≡ BeginError.Failed) }
        ensures fault { next_fails self.old ≡ true → faults_of self.new which ≡ risen (faults_of self.old which) }
        ensures calm { next_fails self.old ≡ false → faults_of self.new which ≡ faults_of self.old which }
        ensures next { next_call self.new ≡ risen (next_call self.old) }
        ensures listed { (n : ℕ) → fails_at self.new n ≡ fails_at self.old n }
        ensures files { (n : List ℕ) → contents self.new n ≡ contents self.old n }
        ensures begun { OnOk result (is_begun self.new which ≡ true) }
        ensures rest { OnOk result (rest_of self.new which ≡ contents self.old name.now) }
        ensures tells { IsSome (rest_of self.old which) → IsSome (rest_of self.new which) }
        ensures others { (w : Input) → w ≢ which → SameInput self.old self.new w }
        ensures err { OnErr result ((rest_of self.new which ≡ rest_of self.old which)
            × (is_begun self.new which ≡ is_begun self.old which)) }
        ensures later { (w : Input) → faults_of self.old w ≤ faults_of self.new w }
    {
        if self.next_fails(which) {
            return Err(BeginError::Failed);
        }
        let Some(file) = find(self.files.as_slice(), name) else {
            return Err(BeginError::Failed);
        };
        let place = Some(Place { file, at: 0 });
        let input = self.input(which);
        self.set_input(which, MemInput { place, ..input });
        Ok(())
    }

    /// Reads as much as there is room for, and takes no memory.
    fn read(&mut self, which: Input, buf: &mut [u8]) -> Result<usize, Failed>
        requires { is_begun self.old which ≡ true }
        ensures fails { IsErr result ↔ (next_fails self.old ≡ true) }
        ensures exact { IfOk result (λ n. (rest : List ℕ) → rest_of self.old which ≡ Some rest
            → n ≡ min (length rest) (length buf.old)) }
        ensures fault { OnErr result (faults_of self.new which ≡ risen (faults_of self.old which)) }
        ensures calm { OnOk result (faults_of self.new which ≡ faults_of self.old which) }
        ensures next { next_call self.new ≡ risen (next_call self.old) }
        ensures listed { (n : ℕ) → fails_at self.new n ≡ fails_at self.old n }
        ensures files { (n : List ℕ) → contents self.new n ≡ contents self.old n }
        ensures begun { is_begun self.new which ≡ is_begun self.old which }
        ensures count { IfOk result (λ n. n ≤ length buf.old) }
        ensures length { length buf.new ≡ length buf.old }
        ensures taken { IfOk result (λ n.
            Taken n (length buf.old) buf.new (rest_of self.old which) (rest_of self.new which)) }
        ensures others { (w : Input) → w ≢ which → SameInput self.old self.new w }
        ensures err { OnErr result ((rest_of self.new which ≡ rest_of self.old which) × (buf.new ≡ buf.old)) }
        ensures later { (w : Input) → faults_of self.old w ≤ faults_of self.new w }
    {
        if self.next_fails(which) {
            return Err(Failed);
        }
        let input = self.input(which);
        let place = input.place.unwrap();
        let count = copy_prefix(rest_at(self.files.as_slice(), place), buf);
        let at = place.at + count;
        let place = Some(Place { at, ..place });
        self.set_input(which, MemInput { place, ..input });
        Ok(count)
    }
}

/// The first file of that name.
fn find(files: &[File], name: &str) -> Option<usize>
    ensures found { IfSome result (IsFirst files.now name.now) }
    ensures none { IfNone result (file_of files.now name.now ≡ None) }
{
    for (i, file) in files.iter().enumerate() {
        if file.name.as_str() == name {
            return Some(i);
        }
    }
    None
}

/// The bytes of a file from that place on.
fn rest_at(files: &[File], place: Place) -> &[u8]
    ensures rest { result.now ≡ bytes_at (slice_get files.now place.file) place.at }
    ensures fits { place.at + length result.now ≤ usize.MAX }
{
    let Some(file) = files.get(place.file) else {
        return &[];
    };
    let start = place.at.min(file.bytes.len());
    &file.bytes[start..]
}

/// Copies as much as there is room for.
fn copy_prefix(rest: &[u8], buf: &mut [u8]) -> usize
    ensures count { result ≡ min (length rest.now) (length buf.old) }
    ensures length { length buf.new ≡ length buf.old }
    ensures prefix { take result buf.new ≡ take result rest.now }
{
    let count = rest.len().min(buf.len());
    buf[..count].copy_from_slice(&rest[..count]);
    count
}
