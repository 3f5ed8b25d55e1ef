//! What a feeder posts, and where its letters go.
ghost use Rattle.std.specs.Prelude.{◌≡◌, ◌<◌, ◌↔◌, true, [], length, IfOk, OnOk, OnErr};
ghost use Rattle.px_post.specs.Sending.{fresh, with_way, IsNextWay, Routes, SameBesides, MayPost, Posts, GoesOn, Ends, Keeps, AreSlips, became, route_of};

use crate::mailbox::{Exit, Slip};
use crate::pushing::{LIMIT, gather, have_room, mailbox_of, put_all};
use crate::waiting::{Resumed, Waiting};
use std::alloc::{AllocError, Global};
use std::collections::{BTreeMap, VecDeque};
use std::marker::Model;
use std::sync::Wait;

/// A sender: the routes of a feeder from ids to mailboxes, an exit to each mailbox, and the letters
/// that are left. Contracts see them, and how many documents were posted.
#[derive(Drop)]
pub struct Sender {
    feeder: u32,
    routes: BTreeMap<u32, u32>,
    documents: u64,
    slips: Vec<Slip>,
    left: VecDeque<Waiting>,
}

impl Model for Sender {
    ghost use Rattle.px_post.specs.Sending.{Sending, IsSender};

    ghost Value = { Sending };

    ghost view = { λ sender. record {
      feeder = sender.feeder;
      routes = sender.routes.entries;
      documents = sender.documents;
      ways = sender.slips.items;
      left = sender.left.items;
    } };

    ghost invariant = { λ sender. IsSender sender.feeder sender.routes.entries sender.slips.items
        sender.left.items };
}

impl Sender {
    /// A sender without mailboxes.
    pub fn new(alloc: Global, feeder: u32) -> Sender
        ensures { result ≡ fresh feeder }
    {
        Sender {
            feeder,
            routes: BTreeMap::new(alloc),
            documents: 0,
            slips: Vec::new(alloc),
            left: VecDeque::new(alloc),
        }
    }

    /// Adds the exit to the next mailbox. Its only failure is want of memory.
    pub fn add(&mut self, exit: Exit) -> Result<(), AllocError>
        requires next { IsNextWay self.old exit }
        ensures way { OnOk result (self.new ≡ with_way self.old exit) }
        ensures none { OnErr result (self.new ≡ self.old) }
    {
        self.slips.push(exit.end())?;
        Ok(())
    }

    /// Sets where letters of an id go from now on. The letters that are left go where they were to
    /// go. Its only failure is want of memory, and then nothing has changed.
    pub fn route(&mut self, id: u32, mailbox: u32) -> Result<(), AllocError>
        requires there { mailbox < length self.old.ways }
        ensures route { OnOk result (Routes (route_of self.old) id mailbox
            (route_of self.new)) }
        ensures same { SameBesides self.old self.new }
        ensures none { OnErr result (self.new ≡ self.old) }
    {
        self.routes.insert(id, mailbox)?;
        Ok(())
    }

    /// How many mailboxes there are.
    pub fn boxes(&self) -> usize
        ensures { result ≡ length self.now.ways }
    {
        self.slips.len()
    }

    /// Where letters of an id go.
    pub fn leads_to(&self, id: u32) -> Option<u32>
        ensures { result ≡ route_of self.now id }
    {
        mailbox_of(&self.routes, id)
    }

    /// How many letters are left.
    pub fn left(&self) -> u64
        ensures { result ≡ length self.now.left }
    {
        self.left.len() as u64
    }

    /// Whether nothing is left, and fewer than 2^62 documents were posted, and fewer than 2^62
    /// letters for each mailbox.
    pub fn may_post(&self) -> bool
        ensures { (result ≡ true) ↔ MayPost self.now }
    {
        if self.left() > 0 {
            return false;
        }
        if self.documents >= LIMIT {
            return false;
        }
        have_room(self.slips.as_slice())
    }

    /// Makes a letter for each of these ids that has a route, in their order, and puts them in
    /// order, up to the first whose mailbox is full. All memory is taken before the first is put,
    /// and where it is refused nothing has changed.
    pub fn post<R: Wait>(&mut self, rt: &R, ids: &[u32]) -> Result<Resumed, AllocError>
        requires may { MayPost self.old }
        ensures posts { OnOk result (Posts self.old ids.now self.new) }
        ensures ends { IfOk result (λ end. Ends self.new end) }
        ensures keeps { Keeps self.old self.new }
        ensures none { OnErr result (self.new ≡ self.old) }
    {
        match gather(&self.routes, ids, &mut self.left) {
            Ok(()) => {
                self.documents += 1;
                Ok(self.resume(rt))
            }
            Err(status) => {
                self.left.clear();
                Err(status)
            }
        }
    }

    /// Puts the letters that are left, in order, up to the first whose mailbox is full. It takes no
    /// memory.
    pub fn resume<R: Wait>(&mut self, rt: &R) -> Resumed
        ensures goes_on { GoesOn self.old self.new }
        ensures ends { Ends self.new result }
        ensures keeps { Keeps self.old self.new }
        ensures documents { self.new.documents ≡ self.old.documents }
    {
        let stopped = put_all(
            rt,
            self.feeder,
            self.documents,
            &mut self.slips,
            &mut self.left,
        );
        resumed(stopped, self.left.len() as u64)
    }

    /// The slips for the mailboxes, in order. It takes no memory.
    pub fn end(self) -> Vec<Slip>
        requires none { self.left ≡ [] }
        ensures { AreSlips self result.items }
    {
        let Sender { slips, .. } = self;
        slips
    }
}

// What became of the letters that were left, where so many are left now.
fn resumed(stopped: Option<u32>, left: u64) -> Resumed
    ensures { result ≡ became stopped left }
{
    match stopped {
        None => Resumed::Done,
        Some(mailbox) => Resumed::Full { mailbox, left },
    }
}
