//! Chains of places.
ghost use Rattle.std.specs.Prelude.{◌≡◌, ℕ, ◌+◌, ◌-◌, ◌<◌, ◌≤◌, [], ◌∷◌, ◌++◌, IfSome, IfOk, OnOk, OnErr, length, take};
ghost use Rattle.hp_chains.specs.Entries.{Standing, new_entry, returned, StandsAt, IsNext, IsNear, IsPrevious, IsTakenOut, FitsBack};
ghost use Rattle.hp_chains.specs.Chained.{entry_of};

use crate::link::{Link, Sides};
use crate::ring::{put_back, take_out};
use std::alloc::{AllocError, Global};
use std::marker::Model;

// The most places that there may be.
const MOST: usize = 0xffff_ffff;

/// Places in a row, each with a key or without one, and for each key its places, ascending. A place may be taken out
/// from among those of its key, and put back when nothing was changed since but what was undone. Contracts see what is
/// at each place, how many keys there may be, and how many places there is room for.
pub struct Chains {
    links: Vec<Link>,
    // By key: its last place as the previous one, and its first as the next.
    heads: Vec<Sides>,
}

impl Drop for Chains {
    fn drop(self) {
        let Chains { links, heads } = self;
        drop(links);
        drop(heads);
    }
}

impl Model for Chains {
    ghost use Rattle.hp_chains.specs.Chained.{Row};

    ghost Value = { Row };

    ghost use Rattle.hp_chains.specs.Chained.{row_of, IsChained};

    ghost view = { row_of };

    ghost invariant = { IsChained };
}

impl Chains {
    /// No places, and no keys.
    pub fn new(alloc: Global) -> Chains
        ensures entries { result.entries ≡ [] }
        ensures keys { result.keys ≡ 0 }
    {
        Chains {
            links: Vec::new(alloc),
            heads: Vec::new(alloc),
        }
    }

    /// The same places.
    pub fn copy(&self) -> Result<Chains, AllocError>
        ensures entries { IfOk result (λ c. c.entries ≡ self.now.entries) }
        ensures keys { IfOk result (λ c. c.keys ≡ self.now.keys) }
    {
        let alloc = *self.links.allocator();
        Ok(Chains {
            links: Vec::from_slice(alloc, &self.links)?,
            heads: Vec::from_slice(alloc, &self.heads)?,
        })
    }

    /// The number of places.
    pub fn len(&self) -> usize
        ensures { result ≡ length self.now.entries }
    {
        self.links.len()
    }

    /// Makes room for so many more places. There is none where there would be 2^32 places or more.
    pub fn reserve(&mut self, places: usize) -> Result<(), AllocError>
        ensures entries { self.new.entries ≡ self.old.entries }
        ensures keys { self.new.keys ≡ self.old.keys }
        ensures wider { self.old.room ≤ self.new.room }
        ensures room { OnOk result (length self.new.entries + places ≤ self.new.room) }
    {
        if MOST - self.links.len() < places {
            return Err(AllocError);
        }
        self.links.reserve(places)
    }

    /// Makes keys up to this one usable. An error leaves everything as it is.
    pub fn widen(&mut self, key: u32) -> Result<(), AllocError>
        ensures entries { self.new.entries ≡ self.old.entries }
        ensures room { self.new.room ≡ self.old.room }
        ensures wider { self.old.keys ≤ self.new.keys }
        ensures keys { OnOk result (key < self.new.keys) }
        ensures failed { OnErr result (self.new ≡ self.old) }
    {
        let count = key as usize + 1;
        if self.heads.len() < count {
            self.heads.resize(count, Sides::NONE)?;
        }
        Ok(())
    }

    /// Appends a place, the last one of its key if it has one.
    pub fn push(&mut self, key: Option<u32>)
        requires room { length self.old.entries < self.old.room }
        requires key { IfSome key (λ k. k < self.old.keys) }
        ensures { self.new ≡ record self.old { entries = self.old.entries ++ new_entry key ∷ [] } }
    {
        match key {
            None => self.append(Link::Bare),
            Some(key) => {
                let place = self.len();
                let sides = Sides {
                    previous: self.last_of(key),
                    next: None,
                };
                self.append(Link::Loose(key, sides));
                self.relink(place);
            }
        }
    }

    /// Takes the last place away.
    pub fn pop(&mut self)
        ensures { self.new ≡ record self.old { entries = take (length self.old.entries - 1) self.old.entries } }
    {
        let count = self.len();
        if 0 < count {
            self.unlink(count - 1);
            let _ = self.links.pop();
        }
    }

    /// Takes a place out from among those of its key. It keeps its neighbours. One without a key, or that was taken
    /// out, stays as it is.
    pub fn unlink(&mut self, place: usize)
        requires { place < length self.old.entries }
        ensures place { IsTakenOut place self.old.entries self.new.entries }
        ensures key { (key : ℕ) → StandsAt key self.old.entries place → key < self.old.keys }
        ensures rest { self.new ≡ record self.old { entries = self.new.entries } }
    {
        take_out(&mut self.links, &mut self.heads, place);
    }

    /// Puts a place back between the neighbours that it kept. One that was not taken out stays as it is.
    pub fn relink(&mut self, place: usize)
        requires place { place < length self.old.entries }
        requires fits { FitsBack self.old.keys self.old.entries place }
        ensures { self.new ≡ record self.old { entries = returned self.old.entries place } }
    {
        put_back(&mut self.links, &mut self.heads, place);
    }

    /// The least place of a key from one on. It is found in one step where that one is the first of all, or follows a
    /// place of the key, and by a walk along the chain elsewhere.
    pub fn next_of(&self, key: u32, from: usize) -> Option<usize>
        ensures { IsNext key self.now.entries from result }
    {
        if self.heads.len() <= key as usize {
            return None;
        }
        let mut at = self.next_near(key, from);
        while let Some(place) = at {
            if from <= place as usize {
                return Some(place as usize);
            }
            at = self.links[place as usize].sides().next;
        }
        None
    }

    // The first place of a key from one on that is not behind the given one.
    fn next_near(&self, key: u32, from: usize) -> Option<u32>
        requires { key < self.now.keys }
        ensures { IsNear key self.now.entries from result }
    {
        match self.links.get(from.saturating_sub(1)) {
            Some(link) if 0 < from && link.stands_among(key) => link.sides().next,
            _ => self.heads[key as usize].next,
        }
    }

    // The last place of a key.
    fn last_of(&self, key: u32) -> Option<u32>
        requires { key < self.now.keys }
        ensures { IsPrevious key self.now.entries (length self.now.entries) result }
    {
        self.heads[key as usize].previous
    }

    // Appends a place that stands in no ring.
    fn append(&mut self, link: Link)
        requires room { length self.old.entries < self.old.room }
        requires apart { (key : ℕ) → entry_of link ≡ Standing key → ⊥ }
        ensures { self.new ≡ record self.old { entries = self.old.entries ++ entry_of link ∷ [] } }
    {
        self.links.push_reserved(link);
    }
}
