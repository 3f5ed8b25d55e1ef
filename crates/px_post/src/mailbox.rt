//! A mailbox, and the exits of the feeders that lead to it.
ghost use Rattle.std.specs.Prelude.{◌≡◌, ◌<◌, ◌+◌, ◌++◌, ◌∷◌, [], length, ◌^◌, MatchBool, MatchResult, MatchOption, IfOk, OnOk, OnErr};
ghost use Rattle.px_post.specs.Mail.{of_feeder, AreAll, WasFull};
ghost use Rattle.px_post.specs.Sending.{with_next};

use crate::letter::Letter;
use px_line::{Line, Seat};
use std::alloc::{AllocError, Global};
use std::marker::Model;
use std::sync::{Arc, Wait};

/// A mailbox. Contracts see its number, the letters that it gave, in order, and of each feeder
/// whose slip it took in all letters.
#[derive(Drop)]
pub struct Mailbox {
    number: u32,
    line: Arc<Line<Letter>>,
    seat: Seat<Letter>,
}

impl Model for Mailbox {
    ghost use Rattle.std.specs.Arc.{arc_value};
    ghost use Rattle.px_line.specs.Lines.{number_of};
    ghost use Rattle.px_post.specs.Mail.{Mail, IsMailbox};

    ghost Value = { Mail };

    ghost view = { λ mailbox. record {
      number = mailbox.number;
      table = mailbox.seat.table;
      capacity = (arc_value mailbox.line).capacity;
      made = number_of mailbox.seat.knows.makes;
      got = mailbox.seat.knows.taken;
      ended = mailbox.seat.knows.ended;
    } };

    ghost invariant = { λ mailbox. IsMailbox (arc_value mailbox.line) mailbox.seat };
}

/// The exit of a feeder to one mailbox. Contracts see whose it is, and the letters put there, in
/// order.
#[derive(Drop)]
pub struct Exit {
    feeder: u32,
    mailbox: u32,
    line: Arc<Line<Letter>>,
    seat: Seat<Letter>,
    count: u64,
}

impl Model for Exit {
    ghost use Rattle.std.specs.Prelude.{◌≡◌, length};
    ghost use Rattle.std.specs.Arc.{arc_value};
    ghost use Rattle.px_post.specs.Mail.{Way, IsExit};

    ghost Value = { Way };

    ghost view = { λ exit. record {
      feeder = exit.feeder;
      mailbox = exit.mailbox;
      table = exit.seat.table;
      capacity = (arc_value exit.line).capacity;
      put = exit.seat.knows.given;
    } };

    ghost invariant = { λ exit. IsExit exit.feeder (arc_value exit.line) exit.seat
        × (exit.count ≡ length exit.seat.knows.given) };
}

/// What a feeder leaves for a mailbox at its end. Contracts see its feeder, its mailbox, and all
/// letters that were put there.
#[derive(Drop)]
pub struct Slip {
    exit: Exit,
}

impl Model for Slip {
    ghost use Rattle.px_post.specs.Mail.{Way};

    ghost Value = { Way };

    ghost view = { λ slip. slip.exit };
}

impl Mailbox {
    /// An empty mailbox in which so many letters may wait. Its only failure is want of memory.
    pub fn create(alloc: Global, number: u32, capacity: u32) -> Result<Mailbox, AllocError>
        requires some { 0 < capacity }
        ensures number { IfOk result (λ mailbox. mailbox.number ≡ number) }
        ensures capacity { IfOk result (λ mailbox. mailbox.capacity ≡ capacity) }
        ensures made { IfOk result (λ mailbox. mailbox.made ≡ 0) }
        ensures none { IfOk result (λ mailbox. (mailbox.got ≡ []) × (mailbox.ended ≡ [])) }
    {
        let (line, seat) = Line::<Letter>::create(alloc, capacity)?;
        let line = Arc::new(alloc, line)?;
        Ok(Mailbox { number, line, seat })
    }

    /// The exit of the next feeder, whose number is that of the exits so far. Its only failure is
    /// want of memory, and then the mailbox is as it was.
    pub fn exit(&mut self, feeder: u32) -> Result<Exit, AllocError>
        requires feeder { feeder ≡ self.old.made }
        ensures exit { IfOk result (λ exit. exit ≡ record {
          feeder = feeder;
          mailbox = self.old.number;
          table = self.old.table;
          capacity = self.old.capacity;
          put = [];
        }) }
        ensures made { OnOk result (self.new.made ≡ self.old.made + 1) }
        ensures same { (self.new.number ≡ self.old.number) × (self.new.table ≡ self.old.table)
            × (self.new.capacity ≡ self.old.capacity) × (self.new.got ≡ self.old.got)
            × (self.new.ended ≡ self.old.ended) }
        ensures none { OnErr result (self.new ≡ self.old) }
    {
        let line = Arc::try_clone(&self.line)?;
        let seat = self.line.giver(&mut self.seat);
        Ok(Exit {
            feeder,
            mailbox: self.number,
            line,
            seat,
            count: 0,
        })
    }

    /// Takes the letter at the front. It is the next of its feeder. There is none only where none
    /// waited at some moment of this call; then the letters of each feeder whose slip was taken in
    /// are all its letters.
    pub fn take<R: Wait>(&mut self, rt: &R) -> Option<Letter>
        ensures number { self.new.number ≡ self.old.number }
        ensures table { self.new.table ≡ self.old.table }
        ensures made { self.new.made ≡ self.old.made }
        ensures capacity { self.new.capacity ≡ self.old.capacity }
        ensures ended { self.new.ended ≡ self.old.ended }
        ensures got { MatchOption result
            ((self.new.got ≡ self.old.got) × AreAll self.old.got self.old.ended)
            (λ x. (self.new.got ≡ self.old.got ++ x ∷ [])
            × (x.seq ≡ length (of_feeder x.feeder self.old.got) + 1)) }
    {
        let taken = self.line.take(rt, &mut self.seat);
        self.line.learn(&mut self.seat);
        taken
    }

    /// Takes in the slip of a feeder: from now on it is known which letters are all of that feeder.
    pub fn take_in(&mut self, slip: Slip)
        requires table { slip.table ≡ self.old.table }
        ensures number { self.new.number ≡ self.old.number }
        ensures table { self.new.table ≡ self.old.table }
        ensures made { self.new.made ≡ self.old.made }
        ensures capacity { self.new.capacity ≡ self.old.capacity }
        ensures got { self.new.got ≡ self.old.got }
        ensures ended { self.new.ended ≡ (slip.feeder, slip.put) ∷ self.old.ended }
    {
        let Slip { exit } = slip;
        let Exit { seat, .. } = exit;
        self.line.end(&mut self.seat, seat);
        self.line.learn(&mut self.seat);
    }
}

impl Exit {
    /// Puts the next letter into the mailbox. It comes back only where the mailbox was full at some
    /// moment of this call.
    pub fn put<R: Wait>(&mut self, rt: &R, letter: Letter) -> Result<(), Letter>
        requires feeder { letter.feeder ≡ self.old.feeder }
        requires next { letter.seq ≡ length self.old.put + 1 }
        ensures feeder { self.new.feeder ≡ self.old.feeder }
        ensures mailbox { self.new.mailbox ≡ self.old.mailbox }
        ensures table { self.new.table ≡ self.old.table }
        ensures capacity { self.new.capacity ≡ self.old.capacity }
        ensures put { MatchResult result
            (λ _. self.new.put ≡ self.old.put ++ letter ∷ [])
            (λ back. (back ≡ letter) × (self.new.put ≡ self.old.put)
            × WasFull self.old.capacity self.old.feeder self.old.put) }
    {
        let seq = letter.seq;
        let given = self.line.give(rt, &mut self.seat, letter);
        self.count = count_after(&given, self.count, seq);
        given
    }

    /// How many letters were put there.
    pub fn count(&self) -> u64
        ensures { result ≡ length self.now.put }
    {
        self.count
    }

    /// The slip for the mailbox, with which the feeder puts no more letters there. It takes no
    /// memory.
    pub fn end(self) -> Slip
        ensures { result ≡ self }
    {
        Slip { exit: self }
    }
}

// How many letters were put behind a call that was to put the letter of this number.
fn count_after(given: &Result<(), Letter>, before: u64, seq: u64) -> u64
    ensures { MatchResult given.now (λ _. result ≡ seq) (λ _. result ≡ before) }
{
    match given {
        Ok(()) => seq,
        Err(_) => before,
    }
}

impl Slip {
    // Puts the next letter of its feeder: that a document matches an id. It answers whether there
    // was room.
    pub(crate) fn put_next<R: Wait>(&mut self, rt: &R, document: u64, id: u32) -> bool
        requires room { length self.old.put + 1 < 2 ^ 64 }
        ensures put { MatchBool result (self.new ≡ with_next self.old document id)
            ((self.new ≡ self.old) × WasFull self.old.capacity self.old.feeder self.old.put) }
    {
        let feeder = self.exit.feeder;
        let seq = self.exit.count + 1;
        let letter = Letter {
            feeder,
            seq,
            document,
            id,
        };
        self.exit.put(rt, letter).is_ok()
    }

    // How many letters were put.
    pub(crate) fn count(&self) -> u64
        ensures { result ≡ length self.now.put }
    {
        self.exit.count()
    }
}
