//! Lists of numbers under numbers of their own.

ghost use Rattle.std.specs.Prelude.{◌≡◌, ◌<◌, ◌≤◌, ◌^◌, ◌++◌, ◌∷◌, [], IsTrue, IfSome, IfOk, OnOk, OnErr, length};
ghost use Rattle.px_afa.specs.Lists.{row};
ghost use Rattle.px_machine.specs.Shelves.{IsSameOrMore, cut, span_of};

use crate::hashing::{LOOKS, MOST_PLACES, hash_of, place_of, wider};
use std::alloc::{AllocError, Global};
use std::marker::Model;

// How many lists there are numbers for.
const MOST: usize = 4_294_967_295;

/// Where a list lies among the items of all, and its hash.
#[derive(Clone, Copy, Drop)]
pub struct Span {
    pub start: usize,
    pub end: usize,
    pub hash: u64,
}

/// Lists of numbers, each under a number of its own, the empty one under 0. Contracts see them in
/// order of their numbers, and the bytes that they take.
#[derive(Drop)]
pub struct Lists {
    // the numbers of all lists, one list behind the other
    items: Vec<u32>,
    // where those from 1 on lie
    spans: Vec<Span>,
    // at one of the places that its hash gives, the number of a list; 0 where there is none
    places: Vec<u32>,
}

impl Model for Lists {
    ghost use Rattle.std.specs.Prelude.{◌+◌, ◌*◌, [], ◌∷◌, length, map};
    ghost use Rattle.std.specs.Vec.{vec_capacity};
    ghost use Rattle.px_machine.specs.Shelves.{Shelf, AreWithin, cut};

    ghost Value = { Shelf };

    ghost view = { λ shelf. record {
      lists = [] ∷ map (cut shelf.items.items) shelf.spans.items;
      bytes = 4 * vec_capacity shelf.items + 24 * vec_capacity shelf.spans + 4 * vec_capacity
          shelf.places;
    } };

    ghost invariant = { λ shelf. AreWithin (length shelf.items.items) shelf.spans.items };
}

impl Lists {
    /// The empty list alone. It takes no memory.
    pub fn new(alloc: Global) -> Lists
        ensures none { result.lists ≡ [] ∷ [] }
        ensures bytes { result.bytes ≡ 0 }
    {
        Lists {
            items: Vec::new(alloc),
            spans: Vec::new(alloc),
            places: Vec::new(alloc),
        }
    }

    /// The bytes that the lists take. It takes no memory.
    pub fn bytes(&self) -> u128
        ensures bytes { result ≡ self.now.bytes }
        ensures fits { result < 2 ^ 72 }
    {
        let items = 4 * self.items.capacity() as u128;
        let spans = 24 * self.spans.capacity() as u128;
        items + spans + 4 * self.places.capacity() as u128
    }

    /// Under 0 is the empty list.
    pub fn first_is_empty(&self)
        ensures first { (0 < length self.now.lists) × (row self.now.lists 0 ≡ []) }
    {
        let _ = &self.spans;
    }

    /// The list under a number. It takes no memory.
    pub fn at(&self, n: u32) -> &[u32]
        requires there { n < length self.now.lists }
        ensures list { result.now ≡ row self.now.lists n }
    {
        if n == 0 {
            return &self.items[..0];
        }
        let span = self.spans[(n - 1) as usize];
        part_of(self.items.as_slice(), span)
    }

    /// A number for a list: that of an equal one, if it is found, or else the next. It takes memory
    /// for a new one, and fails at want of memory, or where no number is left; the lists are then
    /// as before.
    pub fn keep(&mut self, list: &[u32]) -> Result<u32, AllocError>
        ensures kept { IfOk result (λ n. (n < length self.new.lists) ×
            (row self.new.lists n ≡ list.now)) }
        ensures only { IsSameOrMore self.old.lists list.now self.new.lists }
    {
        let hash = hash_of(list);
        match self.find(hash, list) {
            Some(n) => Ok(n),
            None => self.add(hash, list),
        }
    }

    // The number of a list, where it is found.
    fn find(&self, hash: u64, list: &[u32]) -> Option<u32>
        ensures found { IfSome result (λ n. (n < length self.now.lists) ×
            (row self.now.lists n ≡ list.now)) }
    {
        if list.is_empty() {
            self.first_is_empty();
            return Some(0);
        }
        for look in 0..LOOKS {
            let n = self.number_at(place_of(hash, look, self.places.len()));
            if self.is_under(n, hash, list) {
                return Some(n);
            }
        }
        None
    }

    // The number at a place, or 0.
    fn number_at(&self, place: usize) -> u32 {
        self.places.get(place).copied().unwrap_or(0)
    }

    // Whether this list stands under a number. The hash spares most comparisons, and decides none.
    fn is_under(&self, n: u32, hash: u64, list: &[u32]) -> bool
        ensures under { IsTrue result → (n < length self.now.lists) ×
            (row self.now.lists n ≡ list.now) }
    {
        if n == 0 || n as usize > self.spans.len() {
            return false;
        }
        if self.spans[(n - 1) as usize].hash != hash {
            return false;
        }
        self.at(n) == list
    }

    // The next number for a list. Where there is none left, it is as if memory were refused.
    fn add(&mut self, hash: u64, list: &[u32]) -> Result<u32, AllocError>
        ensures number { IfOk result (λ n. n ≡ length self.old.lists) }
        ensures ok { OnOk result (self.new.lists ≡ self.old.lists ++ list.now ∷ []) }
        ensures err { OnErr result (self.new.lists ≡ self.old.lists) }
    {
        let next = self.spans.len() + 1;
        if next >= MOST {
            return Err(AllocError);
        }
        make_room(&mut self.places, self.spans.as_slice())?;
        append(&mut self.items, &mut self.spans, list, hash)?;
        put(&mut self.places, hash, next as u32);
        Ok(next as u32)
    }
}

// The items from where a span begins to where it ends.
fn part_of(items: &[u32], span: Span) -> &[u32]
    requires order { span.start ≤ span.end }
    requires within { span.end ≤ length items.now }
    ensures part { result.now ≡ cut items.now span }
{
    &items[span.start..span.end]
}

// Adds a list behind the others.
fn append(
    items: &mut Vec<u32>,
    spans: &mut Vec<Span>,
    list: &[u32],
    hash: u64,
) -> Result<(), AllocError>
    ensures items { OnOk result (items.new.items ≡ items.old.items ++ list.now) }
    ensures spans { OnOk result (spans.new.items ≡ spans.old.items ++
        span_of items.old.items list.now hash ∷ []) }
    ensures err { OnErr result ((items.new.items ≡ items.old.items) ×
        (spans.new.items ≡ spans.old.items)) }
{
    spans.reserve(1)?;
    let start = items.len();
    items.extend_from_slice(list)?;
    let end = items.len();
    spans.push(Span { start, end, hash })?;
    Ok(())
}

// Makes more places where half of them are taken, and puts all numbers there again.
fn make_room(places: &mut Vec<u32>, spans: &[Span]) -> Result<(), AllocError>
    requires few { length spans.now < 4294967295 }
{
    let room = places.len();
    if spans.len() < room / 2 || room >= MOST_PLACES {
        return Ok(());
    }
    places.clear();
    places.resize(wider(room), 0)?;
    for (i, span) in spans.iter().enumerate() {
        put(places, span.hash, i as u32 + 1);
    }
    Ok(())
}

// Puts a number at a free one of the places that its hash gives, or else at the first of them.
fn put(places: &mut Vec<u32>, hash: u64, n: u32) {
    let place = free_place(places.as_slice(), hash);
    if place < places.len() {
        places[place] = n;
    }
}

// A free one of the places that a hash gives, or else the first of them.
fn free_place(places: &[u32], hash: u64) -> usize {
    for look in 0..LOOKS {
        let place = place_of(hash, look, places.len());
        if places.get(place).copied() == Some(0) {
            return place;
        }
    }
    place_of(hash, 0, places.len())
}
