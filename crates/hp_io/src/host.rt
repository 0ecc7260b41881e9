ghost use Rattle.std.specs.Prelude.{◌≡◌, ◌≢◌, ◌≤◌, ◌↔◌, None, true, false, is_some, length, IsOk, IsErrAnd, OnOk, OnErr, IfOk};
ghost use Rattle.std.specs.IoError.{error_kind};
ghost use Rattle.std.specs.declared.io.ErrorKind.TheVariants.{OutOfMemory};
ghost use Rattle.hp_io.specs.declared.folder.Input.{Input};
ghost use Rattle.hp_io.specs.Inputs.{by_input};
ghost use Rattle.hp_io.specs.Rules.{risen};

use crate::folder::{BeginError, Failed, Folder, Input};
use crate::sink::Sink;
use std::io::{Read, Write};
use std::rt::Files;
use std::{fs, io};

/// An input of real files: its file once it was begun, and its faults.
#[derive(Drop)]
struct HostInput<F> {
    file: Option<F>,
    faults: u64,
}

impl<F: Read + Drop> HostInput<F> {
    fn new() -> HostInput<F>
        ensures file { result.file ≡ None }
        ensures faults { result.faults ≡ 0 }
    {
        HostInput {
            file: None,
            faults: 0,
        }
    }

    fn begin(&mut self, opened: io::Result<F>) -> Result<(), BeginError>
        ensures opens { IsOk result ↔ IsOk opened }
        ensures no_memory { (result ≡ Err BeginError.NoMemory)
            ↔ IsErrAnd opened (λ e. error_kind e ≡ OutOfMemory) }
        ensures begun { OnOk result (is_some self.new.file ≡ true) }
        ensures err { OnErr result (self.new.file ≡ self.old.file) }
        ensures fault { result ≡ Err BeginError.Failed → self.new.faults ≡ risen self.old.faults }
        ensures calm { result ≢ Err BeginError.Failed → self.new.faults ≡ self.old.faults }
        ensures later { self.old.faults ≤ self.new.faults }
    {
        match opened {
            Ok(file) => {
                self.file = Some(file);
                Ok(())
            }
            Err(error) if error.kind() == io::ErrorKind::OutOfMemory => Err(BeginError::NoMemory),
            Err(_) => {
                self.faults = self.faults.saturating_add(1);
                Err(BeginError::Failed)
            }
        }
    }

    fn read(&mut self, buf: &mut [u8]) -> Result<usize, Failed>
        requires { is_some self.old.file ≡ true }
        ensures begun { is_some self.new.file ≡ true }
        ensures count { IfOk result (λ n. n ≤ length buf.old) }
        ensures length { length buf.new ≡ length buf.old }
        ensures fault { OnErr result (self.new.faults ≡ risen self.old.faults) }
        ensures calm { OnOk result (self.new.faults ≡ self.old.faults) }
        ensures later { self.old.faults ≤ self.new.faults }
    {
        let Some(file) = &mut self.file else {
            unreachable!()
        };
        match file.read(buf) {
            Ok(count) => Ok(count),
            Err(_) => {
                self.faults = self.faults.saturating_add(1);
                Err(Failed)
            }
        }
    }
}

/// Real files, by the paths that `begin` is given.
/// A path that names a folder fails at its first read.
#[derive(Drop)]
pub struct HostFolder<'a, R: Files> {
    rt: &'a R,
    domain: HostInput<R::File>,
    problem: HostInput<R::File>,
    plan: HostInput<R::File>,
}

impl<'a, R: Files> HostFolder<'a, R> {
    pub fn new(rt: &'a R) -> HostFolder<'a, R>
        ensures begun { (w : Input) → ⟦<HostFolder<'a, R> as Folder>⟧.begun result w ≡ false }
        ensures faults { (w : Input) → ⟦<HostFolder<'a, R> as Folder>⟧.faults result w ≡ 0 }
    {
        HostFolder {
            rt,
            domain: HostInput::new(),
            problem: HostInput::new(),
            plan: HostInput::new(),
        }
    }
}

impl<'a, R: Files> Folder for HostFolder<'a, R> {
    ghost file = { λ s n. None };

    ghost rest = { λ s w. None };

    ghost begun = { λ s w. by_input w (is_some s.domain.file) (is_some s.problem.file) (is_some s.plan.file) };

    ghost faults = { λ s w. by_input w s.domain.faults s.problem.faults s.plan.faults };

    /// Where the system has no memory to open the file, no count rises.
    fn begin(&mut self, which: Input, name: &str) -> Result<(), BeginError> {
        let opened = fs::open(self.rt, name);
        match which {
            Input::Domain => self.domain.begin(opened),
            Input::Problem => self.problem.begin(opened),
            Input::Plan => self.plan.begin(opened),
        }
    }

    fn read(&mut self, which: Input, buf: &mut [u8]) -> Result<usize, Failed> {
        match which {
            Input::Domain => self.domain.read(buf),
            Input::Problem => self.problem.read(buf),
            Input::Plan => self.plan.read(buf),
        }
    }
}

/// Standard output.
#[derive(Drop)]
pub struct HostSink<'a, R: Print> {
    rt: &'a R,
    faults: u64,
}

impl<'a, R: Print> HostSink<'a, R> {
    pub fn new(rt: &'a R) -> HostSink<'a, R>
        ensures { ⟦<HostSink<'a, R> as Sink>⟧.faults result ≡ 0 }
    {
        HostSink { rt, faults: 0 }
    }
}

impl<'a, R: Print> Sink for HostSink<'a, R> {
    ghost bytes = { λ s. None };

    ghost faults = { λ s. s.faults };

    fn write(&mut self, piece: &[u8]) -> Result<usize, Failed> {
        if piece.is_empty() {
            return Ok(0);
        }
        match io::writer(self.rt).write(piece) {
            Ok(count) if count > 0 => Ok(count),
            _ => {
                self.faults = self.faults.saturating_add(1);
                Err(Failed)
            }
        }
    }
}
