//! A page: bytes that are on their way to a sink.

ghost use Rattle.std.specs.Prelude.{◌≡◌, ◌≤◌, [], ◌++◌, OnOk, OnErr, if◌then◌else◌};
ghost use Rattle.std.specs.List.{flat_map};
ghost use Rattle.hp_io.specs.Rules.{Rose};
ghost use Rattle.hp_out.specs.Pages.{desk, Puts};
ghost use Rattle.hp_out.specs.Writing.{Writes};

use crate::writing::write_all;
use arrayvec::ArrayVec;
use hp_io::{Failed, Sink};
use std::marker::Model;

/// Bytes that are on their way to a sink, so that it takes a page at once and not each word. It takes no memory.
/// Contracts see what stands on the page.
#[derive(Drop)]
pub struct Page {
    bytes: ArrayVec<u8, 512>,
}

impl Model for Page {
    ghost use Rattle.std.specs.Prelude.{ℕ, List};

    ghost Value = { List ℕ };

    ghost view = { λ p. p.bytes.items };
}

impl Page {
    /// An empty page.
    pub fn new() -> Page
        ensures { result ≡ [] }
    {
        Page {
            bytes: ArrayVec::new(),
        }
    }

    /// Writes what stands on the page, which is empty then.
    pub fn flush<K: Sink>(&mut self, sink: &mut K) -> Result<(), Failed>
        ensures writes { Writes result self.old (K.bytes sink.old) (K.bytes sink.new) }
        ensures empty { OnOk result (self.new ≡ []) }
        ensures later { K.faults sink.old ≤ K.faults sink.new }
        ensures cause { OnErr result (Rose (K.faults sink.old) (K.faults sink.new)) }
    {
        write_all(sink, self.bytes.as_slice())?;
        self.bytes.clear();
        Ok(())
    }

    /// Puts a text on the page. Where it has no room, what stands there is written, and then a text that is longer
    /// than a page.
    pub fn push<K: Sink>(&mut self, sink: &mut K, text: &[u8]) -> Result<(), Failed>
        ensures puts { Puts result text.now (desk (K.bytes sink.old) self.old) (desk (K.bytes sink.new) self.new) }
        ensures later { K.faults sink.old ≤ K.faults sink.new }
        ensures cause { OnErr result (Rose (K.faults sink.old) (K.faults sink.new)) }
    {
        if self.fits(text) {
            return Ok(());
        }
        self.flush(sink)?;
        if self.fits(text) {
            return Ok(());
        }
        write_all(sink, text)
    }

    // Puts a text on the page, where it has the room. Most are a bracket, a space or the end of a line, for which
    // nothing is copied.
    fn fits(&mut self, text: &[u8]) -> bool
        ensures { self.new ≡ (if result then self.old ++ text.now else self.old) }
    {
        match text {
            [byte] => self.bytes.try_push(*byte).is_ok(),
            _ => self.bytes.try_extend_from_slice(text).is_ok(),
        }
    }

    /// Puts texts on the page, one behind the other.
    pub fn push_all<K: Sink>(&mut self, sink: &mut K, texts: &[&[u8]]) -> Result<(), Failed>
        ensures puts { Puts result (flat_map (λ t. t.now) texts.now)
            (desk (K.bytes sink.old) self.old) (desk (K.bytes sink.new) self.new) }
        ensures later { K.faults sink.old ≤ K.faults sink.new }
        ensures cause { OnErr result (Rose (K.faults sink.old) (K.faults sink.new)) }
    {
        for text in texts {
            self.push(sink, text)?;
        }
        Ok(())
    }
}
