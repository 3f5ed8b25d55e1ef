//! Where the filter of each id stands as it is live.

ghost use Rattle.std.specs.Prelude.{◌≡◌, ◌==◌, ℕ, [], OnOk, if◌then◌else◌};
ghost use Rattle.px_tiers.specs.HomeTables.{home_of};
ghost use Rattle.px_tiers.specs.Parts.{moved};

use std::alloc::{AllocError, Global};
use std::marker::Model;

/// The number of the tier in which each id is at home, from 1 on, or 0. Contracts see the numbers
/// under their ids.
#[derive(Drop)]
pub(crate) struct HomeTable {
    numbers: Vec<u8>,
    // how many ids are at home under each number
    counts: Vec<usize>,
}

impl Model for HomeTable {
    ghost use Rattle.std.specs.Prelude.{List, ℕ};

    ghost Value = { List ℕ };

    ghost view = { λ table. table.numbers.items };
}

impl HomeTable {
    /// No id has a home. It takes no memory.
    pub(crate) fn new(alloc: Global) -> HomeTable
        ensures none { result ≡ [] }
    {
        HomeTable {
            numbers: Vec::new(alloc),
            counts: Vec::new(alloc),
        }
    }

    /// Where an id is at home. It takes no memory.
    pub(crate) fn of(&self, id: u32) -> u8
        ensures home { result ≡ home_of self.now id }
    {
        match self.numbers.get(id as usize) {
            Some(number) => *number,
            None => 0,
        }
    }

    /// How many ids are at home under a number, for whoever plans what to build.
    pub(crate) fn count(&self, number: usize) -> usize {
        match self.counts.get(number) {
            Some(count) => *count,
            None => 0,
        }
    }

    /// Gives an id a home. Its only failure is want of memory.
    pub(crate) fn set(&mut self, id: u32, number: u8) -> Result<(), AllocError>
        ensures ok { OnOk result ((q : ℕ) → home_of self.new q ≡
            if q == id then number else home_of self.old q) }
    {
        let from = self.of(id) as usize;
        make_room(&mut self.counts, number)?;
        recount(&mut self.counts, from, number as usize);
        set_number(&mut self.numbers, id as usize, number)
    }

    /// Gives these ids the same home. Its only failure is want of memory.
    pub(crate) fn set_all(&mut self, ids: &[u32], number: u8) -> Result<(), AllocError>
        ensures ok { OnOk result ((q : ℕ) → home_of self.new q ≡
            moved ids.now number (home_of self.old) q) }
    {
        for id in ids {
            self.set(*id, number)?;
        }
        Ok(())
    }
}

// Writes a number under an id, whatever is not written being 0.
fn set_number(numbers: &mut Vec<u8>, id: usize, number: u8) -> Result<(), AllocError>
    ensures ok { OnOk result ((q : ℕ) → home_of numbers.new.items q ≡
        if q == id then number else home_of numbers.old.items q) }
{
    if id < numbers.len() {
        numbers[id] = number;
        return Ok(());
    }
    numbers.resize(id, 0)?;
    numbers.push(number)?;
    Ok(())
}

// Makes room for the count of a number.
fn make_room(counts: &mut Vec<usize>, number: u8) -> Result<(), AllocError> {
    let least = number as usize + 1;
    if counts.len() < least {
        counts.resize(least, 0)?;
    }
    Ok(())
}

// Counts an id that changes its home.
fn recount(counts: &mut [usize], from: usize, to: usize) {
    if from < counts.len() {
        counts[from] = counts[from].saturating_sub(1);
    }
    if to < counts.len() {
        counts[to] = counts[to].saturating_add(1);
    }
}
