//! Answers under two numbers.

ghost use Rattle.std.specs.Prelude.{◌≡◌, ◌⊎◌, ◌<◌, ◌^◌, ℕ, true, IfOk, IfSome};
ghost use Rattle.px_machine.specs.declared.table.Entry.{Entry as Told};
ghost use Rattle.px_machine.specs.Tables.{Tells, IsIn, bytes_of};

use crate::hashing::{LOOKS, MOST_PLACES, hash_of_two, place_of, wider};
use std::alloc::{AllocError, Global};

/// An answer under two numbers, if it is told.
#[derive(Clone, Copy, Drop)]
pub struct Entry {
    pub first: u32,
    pub second: u32,
    pub answer: u32,
    pub is_told: bool,
}

const NOTHING: Entry = Entry {
    first: 0,
    second: 0,
    answer: 0,
    is_told: false,
};

/// A table that answers under two numbers what it was told of them, and may forget. What a number
/// was told of stands at one of a few places that its hash gives; where all are taken, what stands
/// at the first of them is forgotten.
#[derive(Drop)]
pub struct Table {
    entries: Vec<Entry>,
    // how often it was told something
    count: usize,
}

impl Table {
    /// A table that was told nothing. It takes no memory.
    pub fn new(alloc: Global) -> Table
        ensures nothing { (first second answer : ℕ) → Tells result first second answer → ⊥ }
        ensures bytes { bytes_of result ≡ 0 }
    {
        Table {
            entries: Vec::new(alloc),
            count: 0,
        }
    }

    /// The bytes that it takes. It takes no memory.
    pub fn bytes(&self) -> u128
        ensures bytes { result ≡ bytes_of self.now }
        ensures fits { result < 2 ^ 72 }
    {
        16 * self.entries.capacity() as u128
    }

    /// What it was told of two numbers, if it has not forgotten it.
    pub fn get(&self, first: u32, second: u32) -> Option<u32>
        ensures told { IfSome result (Tells self.now first second) }
    {
        let hash = hash_of_two(first, second);
        for look in 0..LOOKS {
            let found = self.answer_at(place_of(hash, look, self.entries.len()), first, second);
            if found.is_some() {
                return found;
            }
        }
        None
    }

    // The answer at a place, where it is one under these two numbers.
    fn answer_at(&self, place: usize, first: u32, second: u32) -> Option<u32>
        ensures told { IfSome result (Tells self.now first second) }
    {
        if place >= self.entries.len() {
            return None;
        }
        let entry = self.entries[place];
        if entry.is_told && entry.first == first && entry.second == second {
            return Some(entry.answer);
        }
        None
    }

    /// Tells it an answer. It takes memory for it, and its only failure is want of memory; it then
    /// knows no more than before.
    pub fn tell(
        &mut self,
        alloc: Global,
        first: u32,
        second: u32,
        answer: u32,
    ) -> Result<(), AllocError>
        ensures only { (a b n : ℕ) → Tells self.new a b n → Tells self.old a b n ⊎ ((a ≡ first) ×
            (b ≡ second) × (n ≡ answer)) }
    {
        self.make_room(alloc)?;
        self.count = self.count.saturating_add(1);
        let entry = Entry {
            first,
            second,
            answer,
            is_told: true,
        };
        write(&mut self.entries, entry);
        Ok(())
    }

    // Makes more places where half of them are taken.
    fn make_room(&mut self, alloc: Global) -> Result<(), AllocError>
        ensures only { (a b n : ℕ) → Tells self.new a b n → Tells self.old a b n }
    {
        let room = self.entries.len();
        if self.count < room / 2 || room >= MOST_PLACES {
            return Ok(());
        }
        self.entries = spread(alloc, self.entries.as_slice(), wider(room))?;
        Ok(())
    }
}

// The entries that are told, over so many places.
fn spread(alloc: Global, entries: &[Entry], room: usize) -> Result<Vec<Entry>, AllocError>
    ensures only { IfOk result (λ spread. (entry : Told) → entry.is_told ≡ true →
        IsIn spread.items entry → IsIn entries.now entry) }
{
    let mut spread = vec![in alloc; NOTHING; room]?;
    for entry in entries {
        carry(&mut spread, *entry);
    }
    Ok(spread)
}

// Writes an entry, if it is told.
fn carry(entries: &mut Vec<Entry>, entry: Entry)
    ensures only { (other : Told) → IsIn entries.new.items other → IsIn entries.old.items other ⊎
        (other ≡ entry) }
{
    if !entry.is_told {
        return;
    }
    write(entries, entry);
}

// Writes an entry at a free one of its places, or else at the first of them.
fn write(entries: &mut Vec<Entry>, entry: Entry)
    ensures only { (other : Told) → IsIn entries.new.items other → IsIn entries.old.items other ⊎
        (other ≡ entry) }
{
    let place = free_place(entries.as_slice(), hash_of_two(entry.first, entry.second));
    if place < entries.len() {
        entries[place] = entry;
    }
}

// A free one of the places that a hash gives, or else the first of them.
fn free_place(entries: &[Entry], hash: u64) -> usize {
    for look in 0..LOOKS {
        let place = place_of(hash, look, entries.len());
        if place < entries.len() && !entries[place].is_told {
            return place;
        }
    }
    place_of(hash, 0, entries.len())
}
