//! A whole document is filtered.
ghost use Rattle.std.specs.Prelude.{◌≡◌, ◌<◌, ◌≤◌, ◌^◌, ℕ, List, false, [], length, IfOk, IfErr, OnOk, OnErr};
ghost use Rattle.px_text.specs.Nodes.{Root};
ghost use Rattle.px_reader.specs.Documents.{content};
ghost use Rattle.px_reader.specs.Reading.{IsLastFault};
ghost use Rattle.px_reader.specs.Spelling.{events_of};
ghost use Rattle.px_hub.specs.Passes.{PassView};
ghost use Rattle.px_hub.specs.Replying.{Filters, Replies, Stays};
ghost use Rattle.px_hub.specs.OpenCalls.{HasTaken, IsOpen, IsJudged};

use crate::call::Call;
use crate::hub::Hub;
use crate::name::HubName;
use crate::pass::Pass;
use crate::reply::{FilterCallFault, Reply};
use px_reader::{Doc, EventList, ReaderFault};
use px_text::Bytes;
use std::alloc::{AllocError, Global};

impl<N: HubName> Hub<N> {
    /// Filters a document at the version of the pass, which it leaves as it is: the ids of the live
    /// filters that hold of it, how its steps were come by, and why some are the call's own. It
    /// takes no lock and waits for nobody. Refusals: the first fault of the bytes, and want of
    /// memory. On every answer the pass is in no bank, and has the version, the program and the
    /// bank that it had.
    pub fn filter(&self, pass: &mut Pass<N>, document: &[u8]) -> Result<Reply, FilterCallFault>
        requires { pass.old.is_open ≡ false }
        ensures { Filters N.table.shape pass.old pass.new document.now result }
    {
        pass.is_in_no_bank();
        match judge(self.alloc, document) {
            Ok(doc) => self.filter_read(pass, &doc),
            Err(fault) => Err(fault),
        }
    }

    /// Filters a document that was read, as [`Hub::filter`] does its bytes. Its only refusal is
    /// want of memory.
    pub fn filter_read(&self, pass: &mut Pass<N>, doc: &Doc) -> Result<Reply, FilterCallFault>
        requires { pass.old.is_open ≡ false }
        ensures { Filters N.table.shape pass.old pass.new (content doc.now) result }
    {
        match self.filter_events(pass, doc.events()) {
            Ok(reply) => Ok(reply),
            Err(_) => Err(FilterCallFault::Memory),
        }
    }

    // Filters the events of a tree. Its only failure is want of memory.
    fn filter_events(&self, pass: &mut Pass<N>, events: &EventList) -> Result<Reply, AllocError>
        requires closed { pass.old.is_open ≡ false }
        requires few { length events.now < 2 ^ 60 }
        requires tree { (root : Root) × (events.now ≡ events_of root) }
        ensures reply { IfOk result (λ reply. (root : Root) → events.now ≡ events_of root →
            Replies N.table.shape pass.old pass.new root reply) }
        ensures memory { OnErr result (Stays pass.old pass.new) }
    {
        let mut call = self.begin(pass)?;
        match self.advance_all(pass, &mut call, events) {
            Ok(()) => self.finish(pass, call),
            Err(status) => {
                self.abandon(pass, call);
                Err(status)
            }
        }
    }

    // Takes all events of a document. Its only failure is want of memory, and then the call may
    // only be abandoned.
    fn advance_all(
        &self,
        pass: &mut Pass<N>,
        call: &mut Call<N>,
        events: &EventList,
    ) -> Result<(), AllocError>
        requires begun { (v : PassView) × HasTaken N.table v pass.old call.old [] }
        requires few { length events.now < 2 ^ 60 }
        ensures ok { OnOk result ((v : PassView) → HasTaken N.table v pass.old call.old [] →
            HasTaken N.table v pass.new call.new events.now) }
        ensures memory { OnErr result ((v : PassView) → HasTaken N.table v pass.old call.old [] →
            IsOpen v pass.new call.new) }
    {
        for place in 0..events.len() {
            self.advance(pass, call, events.get(place))?;
        }
        Ok(())
    }
}

// Reads a document whole.
fn judge(alloc: Global, document: &[u8]) -> Result<Doc, FilterCallFault>
    ensures doc { IfOk result (λ doc. content doc ≡ document.now) }
    ensures fault { IfErr result (λ fault. IsJudged document.now fault) }
{
    let bytes = Bytes::of(alloc, document)?;
    match Doc::of(alloc, bytes) {
        Ok(doc) => Ok(doc),
        Err(fault) => Err(call_fault(fault)),
    }
}

// The fault of a reader as that of a call.
fn call_fault(fault: ReaderFault) -> FilterCallFault
    ensures { (bytes : List ℕ) → IsLastFault bytes fault → IsJudged bytes result }
{
    match fault {
        ReaderFault::Doc(fault) => FilterCallFault::Doc(fault),
        ReaderFault::Memory => FilterCallFault::Memory,
    }
}
