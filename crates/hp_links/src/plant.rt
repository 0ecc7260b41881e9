//! Networks in reading order become numbered parts.
ghost use Rattle.std.specs.Prelude.{◌≡◌, ◌+◌, ◌-◌, ◌<◌, ◌≤◌, ◌++◌, ℕ, List, Some, None, OnOk, OnErr, length, map, take, drop, replicate, reverse, slice_set, vec_len};
ghost use Rattle.std.specs.List.{All};
ghost use Rattle.hp_links.specs.Entries.{AreClosed, EntryBelow};
ghost use Rattle.hp_links.specs.Frames.{frame_in, top};
ghost use Rattle.hp_links.specs.Linked.{PartBelow};
ghost use Rattle.hp_links.specs.Planted.{HasRoots, KeepsFirst, Planting, linked, own_all, part_of, roots_left, trees_at};

use crate::entry::{Entry, Order};
use crate::links::{Links, Part};
use crate::walk::push_reversed;
use std::alloc::AllocError;

impl Links {
    /// Plants networks in reading order behind the other parts, which stay, also where memory is wanting. Roots are
    /// kept in a list that is handed over, whatever stands there.
    pub(crate) fn plant(
        &mut self,
        entries: &[Entry],
        roots: &mut Vec<usize>,
    ) -> Result<(), AllocError>
        requires closed { AreClosed entries.now }
        requires owners { length self.old.owners.items ≡ length self.old.parts.items }
        ensures keeps { KeepsFirst (frame_in self.old) (frame_in self.new) }
        ensures planted { OnOk result ((js : List ℕ) → js
            ≡ reverse (map top (trees_at (length self.old.parts.items) entries.now))
            → Planting entries.now 0 js (frame_in self.old) (frame_in self.new)) }
        ensures below { OnOk result ((k : ℕ) → All (EntryBelow k) entries.now → All (PartBelow k) self.old.parts.items
            → All (PartBelow k) self.new.parts.items) }
    {
        let base = self.parts.len();
        self.push_entries(entries)?;
        roots.clear();
        let mut at = entries.len();
        while at > 0 {
            at -= 1;
            self.link(base + at, entries[at], roots)?;
        }
        Ok(())
    }

    // Puts the part of each entry behind the others, without its parts and without an owner.
    fn push_entries(&mut self, entries: &[Entry]) -> Result<(), AllocError>
        ensures keeps { KeepsFirst (frame_in self.old) (frame_in self.new) }
        ensures parts { OnOk result (self.new.parts.items ≡ self.old.parts.items ++ map part_of entries.now) }
        ensures owners { OnOk result (self.new.owners.items
            ≡ self.old.owners.items ++ replicate (length entries.now) None) }
        ensures rows { self.new.rows ≡ self.old.rows }
    {
        for entry in entries {
            self.parts.push(part_of(*entry))?;
            self.owners.push(None)?;
        }
        Ok(())
    }

    // Gives the part of an entry its parts: the last roots, of which the first in order is the last.
    fn link(
        &mut self,
        number: usize,
        entry: Entry,
        roots: &mut Vec<usize>,
    ) -> Result<(), AllocError>
        requires number { number < vec_len self.old.parts }
        requires roots { HasRoots entry roots.old.items }
        requires owned { All (λ j. j < length self.old.owners.items) roots.old.items }
        ensures linked { OnOk result (frame_in self.new ≡ linked number entry roots.old.items (frame_in self.old)) }
        ensures roots { OnOk result (roots.new.items ≡ roots_left number entry roots.old.items) }
        ensures err { OnErr result (frame_in self.new ≡ frame_in self.old) }
    {
        match entry {
            Entry::Task(_, _) => {
                roots.push(number)?;
                Ok(())
            }
            Entry::List(order, many) => self.link_list(number, order, many, roots),
        }
    }

    fn link_list(
        &mut self,
        number: usize,
        order: Order,
        many: usize,
        roots: &mut Vec<usize>,
    ) -> Result<(), AllocError>
        requires number { number < vec_len self.old.parts }
        requires many { (0 < many) × (many ≤ length roots.old.items) }
        requires owned { All (λ j. j < length self.old.owners.items) roots.old.items }
        ensures linked { OnOk result (frame_in self.new
            ≡ linked number (Entry.List order many) roots.old.items (frame_in self.old)) }
        ensures roots { OnOk result (roots.new.items ≡ roots_left number (Entry.List order many) roots.old.items) }
        ensures err { OnErr result (frame_in self.new ≡ frame_in self.old) }
    {
        let from = roots.len() - many;
        let start = self.rows.len();
        push_reversed(&mut self.rows, &roots[from..])?;
        own(&mut self.owners, &roots[from..], number);
        self.parts[number] = Part::Row(order, start, many);
        roots.truncate(from);
        roots.push_reserved(number);
        Ok(())
    }
}

fn part_of(entry: Entry) -> Part
    ensures { result ≡ part_of entry }
{
    match entry {
        Entry::Task(cell, immediate) => Part::Task(cell, immediate),
        Entry::List(order, _) => Part::Row(order, 0, 0),
    }
}

// Makes a list the owner of some parts.
fn own(owners: &mut [Option<usize>], parts: &[usize], list: usize)
    requires { All (λ j. j < length owners.old) parts.now }
    ensures { owners.new ≡ own_all (Some list) parts.now owners.old }
{
    for part in parts {
        owners[*part] = Some(list);
    }
}
