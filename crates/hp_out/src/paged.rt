//! A sink before a sink, which gathers what is written on a page.

ghost use Rattle.std.specs.Prelude.{◌≡◌, ◌≤◌, ◌<◌, [], ◌++◌, OnOk, OnErr, IfOk, length, drop, if◌then◌else◌};
ghost use Rattle.hp_io.specs.Rules.{Rose, Appended};
ghost use Rattle.hp_out.specs.Paged.{IsGrown, WroteUpTo, laid};
ghost use Rattle.hp_out.specs.Writing.{Writes};

use arrayvec::ArrayVec;
use hp_io::{Failed, Sink};
use std::marker::{Brand, PhantomData};

/// How many writes are handed on at once: who watches sees plans come, in the first thousands.
const WRITES_AT_ONCE: u32 = 10_000;

/// The sink behind a page, as it was when the page was put before it. A call picks it, at `Brand`.
pub trait Origin {
    ghost use Rattle.std.specs.Prelude.{ℕ, List, Option};

    // All that it had taken, where it tells.
    ghost taken: { Option (List ℕ) };
}

impl Origin for Brand {
    ghost use Rattle.std.specs.Prelude.{None};

    ghost taken = { None };
}

/// A sink before a sink: it hands on the first writes at once, and gathers later ones on a page, so that few system
/// calls serve many plans. What stands on the page is lost to the sink behind until `flush`. It takes no memory.
pub struct Paged<O: Origin, K: Sink> {
    sink: K,
    page: ArrayVec<u8, 8192>,
    /// How much of the page is written.
    done: usize,
    /// How many writes are still handed on at once.
    at_once: u32,
    origin: PhantomData<O>,
    ghost within: { done ≤ length page.items },
    ghost grown: { IsGrown O.taken (K.bytes sink) },
}

/// Writes what stands on a page from a place on, which goes as far as the writing.
fn write_rest<K: Sink>(sink: &mut K, page: &[u8], done: &mut usize) -> Result<(), Failed>
    requires within { done.old ≤ length page.now }
    ensures wrote { WroteUpTo page.now done.old done.new (K.bytes sink.old) (K.bytes sink.new) }
    ensures whole { OnOk result (done.new ≡ length page.now) }
    ensures part { OnErr result (done.new < length page.now) }
    ensures later { K.faults sink.old ≤ K.faults sink.new }
    ensures cause { OnErr result (Rose (K.faults sink.old) (K.faults sink.new)) }
{
    while *done < page.len() {
        let count = sink.write(&page[*done..])?;
        *done += count;
    }
    Ok(())
}

impl<O: Origin, K: Sink> Paged<O, K> {
    /// An empty page before a sink.
    pub fn new(sink: K) -> Paged<O, K>
        requires taken { K.bytes sink ≡ O.taken }
        ensures same { result.sink ≡ sink }
        ensures empty { drop result.done result.page.items ≡ [] }
    {
        Paged {
            sink,
            page: ArrayVec::new(),
            done: 0,
            at_once: WRITES_AT_ONCE,
            origin: PhantomData,
        }
    }

    /// The sink behind. What stands on the page is lost.
    pub fn into_sink(self) -> K
        ensures { result ≡ self.sink }
    {
        let Paged {
            sink,
            page: _,
            done: _,
            at_once: _,
            origin: _,
        } = self;
        sink
    }

    /// Writes what stands on the page, which is empty then. Where that fails, the rest goes on standing there.
    pub fn flush(&mut self) -> Result<(), Failed>
        ensures writes { Writes result (drop self.old.done self.old.page.items)
            (K.bytes self.old.sink) (K.bytes self.new.sink) }
        ensures same { laid (K.bytes self.new.sink) (drop self.new.done self.new.page.items)
            ≡ laid (K.bytes self.old.sink) (drop self.old.done self.old.page.items) }
        ensures empty { OnOk result (drop self.new.done self.new.page.items ≡ []) }
        ensures left { OnErr result (0 < length (drop self.new.done self.new.page.items)) }
        ensures later { K.faults self.old.sink ≤ K.faults self.new.sink }
        ensures cause { OnErr result (Rose (K.faults self.old.sink) (K.faults self.new.sink)) }
    {
        write_rest(&mut self.sink, self.page.as_slice(), &mut self.done)?;
        self.done = 0;
        self.page.clear();
        Ok(())
    }

    /// Puts a piece on the page, where it has the room and nothing more is handed on at once.
    fn gathers(&mut self, piece: &[u8]) -> bool
        ensures page { drop self.new.done self.new.page.items ≡ (if result
            then drop self.old.done self.old.page.items ++ piece.now else drop self.old.done self.old.page.items) }
        ensures same { self.new.sink ≡ self.old.sink }
    {
        self.at_once == 0 && self.page.try_extend_from_slice(piece).is_ok()
    }

    /// Hands a piece on.
    fn hand_on(&mut self, piece: &[u8]) -> Result<usize, Failed>
        ensures count { IfOk result (λ n. n ≤ length piece.now) }
        ensures some { IfOk result (λ n. 0 < length piece.now → 0 < n) }
        ensures taken { IfOk result (λ n.
            Appended n piece.now (K.bytes self.old.sink) (K.bytes self.new.sink)) }
        ensures err { OnErr result (K.bytes self.new.sink ≡ K.bytes self.old.sink) }
        ensures page { drop self.new.done self.new.page.items ≡ drop self.old.done self.old.page.items }
        ensures later { K.faults self.old.sink ≤ K.faults self.new.sink }
        ensures cause { OnErr result (Rose (K.faults self.old.sink) (K.faults self.new.sink)) }
    {
        self.at_once = self.at_once.saturating_sub(1);
        self.sink.write(piece)
    }
}

impl<O: Origin, K: Sink> Sink for Paged<O, K> {
    ghost use Rattle.std.specs.Prelude.{drop};
    ghost use Rattle.hp_out.specs.Paged.{laid};

    ghost bytes = { λ s. laid (K.bytes s.sink) (drop s.done s.page.items) };

    ghost faults = { λ s. K.faults s.sink };

    /// Puts a piece on the page, or hands it on: one of the first, and one that is longer than a page.
    fn write(&mut self, piece: &[u8]) -> Result<usize, Failed> {
        if self.gathers(piece) {
            return Ok(piece.len());
        }
        self.flush()?;
        if self.gathers(piece) {
            return Ok(piece.len());
        }
        self.hand_on(piece)
    }
}
