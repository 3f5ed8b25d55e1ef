//! A feeder, which delivers documents.
ghost use Rattle.std.specs.Prelude.{◌≡◌, ◌<◌, ◌↔◌, true, false, [], length, IfOk, IfErr, OnOk, OnErr};
ghost use Rattle.px_hub.specs.declared.reply.FilterCallFault.TheVariants.{Memory};
ghost use Rattle.px_hub.specs.Replying.{Filters};
ghost use Rattle.px_post.specs.Sending.{route_of, Routes, SameBesides, MayPost, Posts, GoesOn, Ends, Keeps, AreSlips};
ghost use Rattle.px_delivery.specs.Delivered.{reply_of, end_of, filtered};

use crate::sent::{Sent, answer};
use px_hub::{FilterCallFault, Hub, HubName, Pass, Reply};
use px_post::{Resumed, Sender, Slip};
use std::alloc::AllocError;
use std::marker::Model;
use std::sync::Wait;

/// A feeder. Contracts see what it sends, as of a sender of px_post.
#[derive(Drop)]
pub struct Feeder {
    pub(crate) sender: Sender,
}

impl Model for Feeder {
    ghost use Rattle.px_post.specs.Sending.{Sending};

    ghost Value = { Sending };

    ghost view = { λ feeder. feeder.sender };
}

impl Feeder {
    /// Sets where letters of an id go from now on. The letters that are left go where they were to
    /// go. Its only failure is want of memory, and then nothing has changed.
    pub fn route(&mut self, id: u32, mailbox: u32) -> Result<(), AllocError>
        requires there { mailbox < length self.old.ways }
        ensures route { OnOk result (Routes (route_of self.old) id mailbox
            (route_of self.new)) }
        ensures same { SameBesides self.old self.new }
        ensures none { OnErr result (self.new ≡ self.old) }
    {
        self.sender.route(id, mailbox)
    }

    /// How many mailboxes there are.
    pub fn boxes(&self) -> usize
        ensures { result ≡ length self.now.ways }
    {
        self.sender.boxes()
    }

    /// Where letters of an id go.
    pub fn leads_to(&self, id: u32) -> Option<u32>
        ensures { result ≡ route_of self.now id }
    {
        self.sender.leads_to(id)
    }

    /// Whether no letter is left, and fewer than 2^62 documents were delivered, and fewer than 2^62
    /// letters for each mailbox.
    pub fn may_deliver(&self) -> bool
        ensures { (result ≡ true) ↔ MayPost self.now }
    {
        self.sender.may_post()
    }

    /// Filters a document, makes a letter for each id of the reply that has a route, rising, and
    /// puts them in order, up to the first whose mailbox is full. The reply, the refusals and the
    /// pass behind it are those of `Hub::filter`. A refusal leaves the feeder as it was. All memory
    /// is taken before the first letter is put.
    pub fn deliver<N: HubName, R: Wait>(
        &mut self,
        rt: &R,
        hub: &Hub<N>,
        pass: &mut Pass<N>,
        document: &[u8],
    ) -> Result<Sent, FilterCallFault>
        requires may { MayPost self.old }
        requires closed { pass.old.is_open ≡ false }
        ensures filters { Filters N.table.shape pass.old pass.new document.now (filtered result) }
        ensures posts { IfOk result (λ sent. Posts self.old (reply_of sent).ids self.new) }
        ensures ends { IfOk result (λ sent. Ends self.new (end_of sent)) }
        ensures keeps { Keeps self.old self.new }
        ensures refused { OnErr result (self.new ≡ self.old) }
    {
        match hub.filter(pass, document) {
            Ok(reply) => self.post(rt, reply),
            Err(fault) => Err(fault),
        }
    }

    // Posts the ids of a reply. Its only refusal is want of memory.
    fn post<R: Wait>(&mut self, rt: &R, reply: Reply) -> Result<Sent, FilterCallFault>
        requires may { MayPost self.old }
        ensures reply { IfOk result (λ sent. reply_of sent ≡ reply) }
        ensures posts { IfOk result (λ sent. Posts self.old reply.ids self.new) }
        ensures ends { IfOk result (λ sent. Ends self.new (end_of sent)) }
        ensures keeps { Keeps self.old self.new }
        ensures memory { IfErr result (λ fault. fault ≡ Memory) }
        ensures refused { OnErr result (self.new ≡ self.old) }
    {
        match self.sender.post(rt, reply.ids.as_slice()) {
            Ok(end) => Ok(answer(reply, end)),
            Err(_) => Err(FilterCallFault::Memory),
        }
    }

    /// Puts the letters that are left, in order, up to the first whose mailbox is full. It takes no
    /// memory.
    pub fn resume<R: Wait>(&mut self, rt: &R) -> Resumed
        ensures goes_on { GoesOn self.old self.new }
        ensures ends { Ends self.new result }
        ensures keeps { Keeps self.old self.new }
        ensures documents { self.new.documents ≡ self.old.documents }
    {
        self.sender.resume(rt)
    }

    /// The slips for the mailboxes, in order. It takes no memory, so the feeder never comes back.
    pub fn end(self) -> Result<Vec<Slip>, Feeder>
        requires none { self.left ≡ [] }
        ensures slips { IfOk result (λ slips. AreSlips self slips.items) }
        ensures never { OnErr result ⊥ }
    {
        let Feeder { sender } = self;
        Ok(sender.end())
    }
}
