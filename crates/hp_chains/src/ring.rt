//! Rings of links: for each key one that goes through its head and its places, ascending.
ghost use Rattle.std.specs.Prelude.{◌≡◌, ◌<◌, ◌^◌, IfSome, length};
ghost use Rattle.hp_chains.specs.Entries.{returned, IsTakenOut, FitsBack};
ghost use Rattle.hp_chains.specs.Chained.{entries_of, with_next, with_previous, turned_links, turned_heads, joined_links, joined_heads, AreRings};

use crate::link::{Link, Sides};

/// Takes a place out of the ring of its key, if it stands there. It keeps its neighbours.
pub fn take_out(links: &mut [Link], heads: &mut [Sides], place: usize)
    requires place { place < length links.old }
    requires rings { AreRings links.old heads.old }
    ensures rings { AreRings links.new heads.new }
    ensures place { IsTakenOut place (entries_of links.old) (entries_of links.new) }
{
    if let Link::Standing(key, sides) = links[place] {
        join(links, heads, key, sides.previous, sides.next);
        links[place] = Link::Loose(key, sides);
    }
}

/// Puts a place back into the ring of its key, between the neighbours that it kept, if it was taken out.
pub fn put_back(links: &mut [Link], heads: &mut [Sides], place: usize)
    requires few { length links.old < 2 ^ 32 }
    requires place { place < length links.old }
    requires rings { AreRings links.old heads.old }
    requires fits { FitsBack (length heads.old) (entries_of links.old) place }
    ensures rings { AreRings links.new heads.new }
    ensures place { entries_of links.new ≡ returned (entries_of links.old) place }
{
    if let Link::Loose(key, sides) = links[place] {
        let here = Some(place as u32);
        links[place] = Link::Standing(key, sides);
        join(links, heads, key, sides.previous, here);
        join(links, heads, key, here, sides.next);
    }
}

// Makes two stops of the ring of a key neighbours.
fn join(links: &mut [Link], heads: &mut [Sides], key: u32, previous: Option<u32>, next: Option<u32>)
    requires key { key < length heads.old }
    requires previous { IfSome previous (λ i. i < length links.old) }
    requires next { IfSome next (λ i. i < length links.old) }
    ensures links { links.new ≡ joined_links previous next links.old }
    ensures heads { heads.new ≡ joined_heads key previous next heads.old }
{
    set_next(links, heads, key, previous, next);
    set_previous(links, heads, key, next, previous);
}

// Changes what comes before a stop of the ring of a key.
fn set_previous(
    links: &mut [Link],
    heads: &mut [Sides],
    key: u32,
    stop: Option<u32>,
    previous: Option<u32>,
)
    requires key { key < length heads.old }
    requires stop { IfSome stop (λ i. i < length links.old) }
    ensures links { links.new ≡ turned_links (with_previous previous) stop links.old }
    ensures heads { heads.new ≡ turned_heads (with_previous previous) key stop heads.old }
{
    match stop {
        None => heads[key as usize].previous = previous,
        Some(place) => links[place as usize].set_previous(previous),
    }
}

// Changes what comes behind a stop of the ring of a key.
fn set_next(links: &mut [Link], heads: &mut [Sides], key: u32, stop: Option<u32>, next: Option<u32>)
    requires key { key < length heads.old }
    requires stop { IfSome stop (λ i. i < length links.old) }
    ensures links { links.new ≡ turned_links (with_next next) stop links.old }
    ensures heads { heads.new ≡ turned_heads (with_next next) key stop heads.old }
{
    match stop {
        None => heads[key as usize].next = next,
        Some(place) => links[place as usize].set_next(next),
    }
}
