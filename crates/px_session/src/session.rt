//! A document in pieces.
ghost use Rattle.std.specs.Prelude.{◌≡◌, ◌++◌, List, ℕ, Err, OnOk, IfErr, IsTrue, IsFalse};

use crate::opening::{Ended, Opened};
use crate::taking::{conclude, go_on, told};
use px_hub::{Call, Hub, HubName, Pass};
use px_reader::{Event, Reader, ReaderFault};
use std::alloc::Global;
use std::marker::Model;
use std::mem;

/// A document that is filtered as its pieces come, by the pass that it owns. It is spent by
/// [`Session::end`] or [`Session::abandon`]. Contracts see its pass, what its reader has read, and
/// its open call, or the fault at which it has stopped.
pub struct Session<N: HubName> {
    pass: Pass<N>,
    reader: Reader,
    // those of the last piece, kept for their memory
    events: Vec<Event>,
    stage: Result<Call<N>, ReaderFault>,
}

impl<N: HubName> Model for Session<N> {
    ghost use Rattle.std.specs.Coded.{codes};
    ghost use Rattle.px_hub.specs.contracts.engine.Engine as engine;
    ghost use Rattle.px_hub.specs.Passes.{pass_code};
    ghost use Rattle.px_session.specs.Sessions.{SessionView, session_view, IsSession};

    ghost Value = { SessionView };

    ghost coded = { Prim.hlevel (codes, pass_code, engine.the_row.coded) };

    ghost view = { λ s. session_view s.pass s.reader s.stage };

    ghost invariant = { λ s. IsSession N.table (session_view s.pass s.reader s.stage) };
}

impl<N: HubName> Session<N> {
    ghost use Rattle.std.specs.Prelude.{false};
    ghost use Rattle.px_reader.specs.declared.event.Event.{Event as Happened};
    ghost use Rattle.px_reader.specs.declared.fault.ReaderFault as faults;
    ghost use Rattle.px_reader.specs.Reading.{IsClosed, IsStillOpen};
    ghost use Rattle.px_hub.specs.Passes.{PassView};
    ghost use Rattle.px_hub.specs.Replying.{Filters, Stays};
    ghost use Rattle.px_session.specs.Sessions.{IsFed, FedOn, Follows, HasStopped, call_fault};
    ghost use Rattle.px_session.specs.Opening.{Opens};

    /// Opens a session at the version of the pass, which enters its bank, or has its cause not to.
    /// Its only failure is want of memory, and then the pass comes back, in no bank.
    #[tactic(none)]
    pub fn open(alloc: Global, hub: &Hub<N>, mut pass: Pass<N>) -> Opened<N>
        requires { pass.is_open ≡ false }
        ensures { Opens N.table pass result }
    {
        let Ok(call) = hub.begin(&mut pass) else {
            return Opened::NoMemory(pass);
        };
        match Reader::new(alloc) {
            Ok(reader) => Opened::Open(Session {
                pass,
                reader,
                events: Vec::new(alloc),
                stage: Ok(call),
            }),
            Err(_) => {
                hub.abandon(&mut pass, call);
                Opened::NoMemory(pass)
            }
        }
    }

    /// Takes the next bytes of the document, and does the work of the lines that they end. A fault
    /// comes as a reader gives it. Behind a fault, and where memory was refused, the pass is in no
    /// bank, and each call answers the same again.
    #[tactic(none)]
    pub fn feed(&mut self, hub: &Hub<N>, piece: &[u8]) -> Result<(), ReaderFault>
        ensures ok { OnOk result ((v : PassView) (bytes : List ℕ) (given : List Happened) →
            IsFed N.table v self.old bytes given →
            FedOn N.table v self.new (bytes ++ piece.now) given) }
        ensures fault { IfErr result (λ fault. (v : PassView) (bytes : List ℕ) →
            Follows N.table v self.old bytes →
            HasStopped N.table v self.new (bytes ++ piece.now) fault) }
        ensures stays { (v : PassView) (bytes : List ℕ) (fault : faults.ReaderFault) →
            HasStopped N.table v self.old bytes fault → result ≡ Err fault }
    {
        let stage = mem::replace(&mut self.stage, Err(ReaderFault::Memory));
        self.stage = go_on(
            hub,
            &mut self.pass,
            &mut self.reader,
            &mut self.events,
            stage,
            piece,
        );
        told(&self.stage)
    }

    /// Whether the root of the document is closed, where the pieces so far end with a line.
    #[tactic(none)]
    pub fn is_behind_root(&self) -> bool
        ensures closed { IsTrue result → IsClosed self.now.reader }
        ensures open { IsFalse result → IsStillOpen self.now.reader }
    {
        self.reader.is_behind_root()
    }

    /// Ends the document. The answer is that of a filter call on all pieces joined, at the version
    /// that the pass had when the session was opened. A session that has stopped answers its fault.
    /// On every answer the pass comes back as it was, in no bank.
    #[tactic(none)]
    pub fn end(self, hub: &Hub<N>) -> Ended<N>
        ensures answer { (v : PassView) (bytes : List ℕ) → Follows N.table v self bytes →
            Filters N.table.shape v result.pass bytes result.answer }
        ensures stopped { (v : PassView) (bytes : List ℕ) (fault : faults.ReaderFault) →
            HasStopped N.table v self bytes fault → result.answer ≡ Err (call_fault fault) }
    {
        let Session {
            mut pass,
            mut reader,
            mut events,
            stage,
        } = self;
        let answer = conclude(hub, &mut pass, &mut reader, &mut events, stage);
        Ended { pass, answer }
    }

    /// Gives up the document. The pass comes back as it was, in no bank. It takes no memory.
    #[tactic(none)]
    pub fn abandon(self, hub: &Hub<N>) -> Pass<N>
        ensures { (v : PassView) (bytes : List ℕ) → Follows N.table v self bytes →
            Stays v result }
    {
        let Session {
            mut pass,
            reader: _,
            events: _,
            stage,
        } = self;
        match stage {
            Ok(call) => hub.abandon(&mut pass, call),
            Err(_) => {}
        }
        pass
    }
}
