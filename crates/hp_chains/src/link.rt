//! Links of chains.
ghost use Rattle.std.specs.Prelude.{◌≡◌, ◌↔◌, IsTrue};
ghost use Rattle.hp_chains.specs.Entries.{Standing};
ghost use Rattle.hp_chains.specs.Chained.{entry_of, sides_of, with_next, with_previous, turned};

/// What is next to a stop of the ring of a key: a place, or its head, which is none.
#[derive(Clone, Copy)]
pub struct Sides {
    pub previous: Option<u32>,
    pub next: Option<u32>,
}

impl Sides {
    /// Nothing on either side.
    pub const NONE: Sides = Sides {
        previous: None,
        next: None,
    };
}

/// What stands at a place: nothing that has a key, a link in the ring of its key, or a link that was taken out and
/// keeps the neighbours that it had.
#[derive(Clone, Copy)]
pub enum Link {
    Bare,
    Standing(u32, Sides),
    Loose(u32, Sides),
}

impl Link {
    /// The sides of a link, which are none where it has no key.
    pub fn sides(&self) -> Sides
        ensures { result ≡ sides_of self.now }
    {
        match *self {
            Link::Bare => Sides::NONE,
            Link::Standing(_, sides) => sides,
            Link::Loose(_, sides) => sides,
        }
    }

    /// Whether a link stands in the ring of a key.
    pub fn stands_among(&self, key: u32) -> bool
        ensures { IsTrue result ↔ entry_of self.now ≡ Standing key }
    {
        matches!(self, Link::Standing(other, _) if *other == key)
    }

    /// Changes what comes before a link, if it has a key.
    pub fn set_previous(&mut self, previous: Option<u32>)
        ensures { self.new ≡ turned (with_previous previous) self.old }
    {
        match self {
            Link::Bare => {}
            Link::Standing(_, sides) => sides.previous = previous,
            Link::Loose(_, sides) => sides.previous = previous,
        }
    }

    /// Changes what comes behind a link, if it has a key.
    pub fn set_next(&mut self, next: Option<u32>)
        ensures { self.new ≡ turned (with_next next) self.old }
    {
        match self {
            Link::Bare => {}
            Link::Standing(_, sides) => sides.next = next,
            Link::Loose(_, sides) => sides.next = next,
        }
    }
}
