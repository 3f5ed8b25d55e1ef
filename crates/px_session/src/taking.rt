//! A piece is read, and the events that it brings are taken.
ghost use Rattle.std.specs.Prelude.{◌≡◌, ◌<◌, ◌^◌, List, ℕ, ◌++◌, length, Ok, Err, OnOk, OnErr, IfErr};
ghost use Rattle.px_reader.specs.declared.event.Event.{Event as Happened};
ghost use Rattle.px_reader.specs.declared.fault.ReaderFault as faults;
ghost use Rattle.px_reader.specs.declared.fault.ReaderFault.TheVariants.{Memory};
ghost use Rattle.px_hub.specs.Passes.{PassView};
ghost use Rattle.px_hub.specs.OpenCalls.{HasTaken, IsOpen};
ghost use Rattle.px_hub.specs.Replying.{Filters};
ghost use Rattle.px_session.specs.Sessions.{Runs, Follows, IsFed, FedOn, HasStopped, session_view, call_fault};
ghost use Rattle.px_session.specs.Taking.{RunsOn, GivesUp, Stops, Went, Ends, told};

use px_hub::{Call, FilterCallFault, Hub, HubName, Pass, Reply};
use px_reader::{Event, Reader, ReaderFault};
use std::alloc::AllocError;

/// Takes a piece, where the session has not stopped: what it is behind that.
#[tactic(none)]
pub fn go_on<N: HubName>(
    hub: &Hub<N>,
    pass: &mut Pass<N>,
    reader: &mut Reader,
    events: &mut Vec<Event>,
    stage: Result<Call<N>, ReaderFault>,
    piece: &[u8],
) -> Result<Call<N>, ReaderFault>
    requires { (v : PassView) × (bytes : List ℕ) ×
        Follows N.table v (session_view pass.old reader.old stage) bytes }
    ensures ok { OnOk result ((v : PassView) (bytes : List ℕ) (given : List Happened) →
        IsFed N.table v (session_view pass.old reader.old stage) bytes given →
        FedOn N.table v (session_view pass.new reader.new result) (bytes ++ piece.now) given) }
    ensures fault { IfErr result (λ fault. (v : PassView) (bytes : List ℕ) →
        Follows N.table v (session_view pass.old reader.old stage) bytes →
        HasStopped N.table v (session_view pass.new reader.new result) (bytes ++ piece.now) fault) }
    ensures stays { (fault : faults.ReaderFault) → stage ≡ Err fault → result ≡ Err fault }
{
    match stage {
        Ok(call) => take(hub, pass, reader, events, call, piece),
        Err(fault) => Err(fault),
    }
}

/// What a session at this stage answers to a piece.
#[tactic(none)]
pub fn told<N: HubName>(stage: &Result<Call<N>, ReaderFault>) -> Result<(), ReaderFault>
    ensures { result ≡ told stage.now }
{
    match stage {
        Ok(_) => Ok(()),
        Err(fault) => Err(*fault),
    }
}

/// Ends a session at this stage. The pass leaves its bank.
#[tactic(none)]
pub fn conclude<N: HubName>(
    hub: &Hub<N>,
    pass: &mut Pass<N>,
    reader: &mut Reader,
    events: &mut Vec<Event>,
    stage: Result<Call<N>, ReaderFault>,
) -> Result<Reply, FilterCallFault>
    requires { (v : PassView) × (bytes : List ℕ) ×
        Follows N.table v (session_view pass.old reader.old stage) bytes }
    ensures answer { (v : PassView) (bytes : List ℕ) →
        Follows N.table v (session_view pass.old reader.old stage) bytes →
        Filters N.table.shape v pass.new bytes result }
    ensures stopped { (fault : faults.ReaderFault) → stage ≡ Err fault →
        result ≡ Err (call_fault fault) }
{
    match stage {
        Ok(call) => close(hub, pass, reader, events, call),
        Err(fault) => Err(as_answer(fault)),
    }
}

// Ends a document all of whose pieces were taken. The pass leaves its bank.
#[tactic(none)]
fn close<N: HubName>(
    hub: &Hub<N>,
    pass: &mut Pass<N>,
    reader: &mut Reader,
    events: &mut Vec<Event>,
    mut call: Call<N>,
) -> Result<Reply, FilterCallFault>
    requires { (v : PassView) × (bytes : List ℕ) × (given : List Happened) ×
        Runs N.table v pass.old reader.old call bytes given }
    ensures { (v : PassView) (bytes : List ℕ) (given : List Happened) →
        Runs N.table v pass.old reader.old call bytes given →
        Filters N.table.shape v pass.new bytes result }
{
    match take_end(hub, pass, reader, events, &mut call) {
        Ok(()) => finish(hub, pass, call),
        Err(fault) => Err(give_up(hub, pass, call, fault)),
    }
}

// The fault of a reader as that of a filter call.
#[tactic(none)]
fn as_answer(fault: ReaderFault) -> FilterCallFault
    ensures { result ≡ call_fault fault }
{
    match fault {
        ReaderFault::Doc(fault) => FilterCallFault::Doc(fault),
        ReaderFault::Memory => FilterCallFault::Memory,
    }
}

// Takes a piece. At a fault, and where memory is refused, the call is given up, and the pass leaves
// its bank.
#[tactic(none)]
fn take<N: HubName>(
    hub: &Hub<N>,
    pass: &mut Pass<N>,
    reader: &mut Reader,
    events: &mut Vec<Event>,
    mut call: Call<N>,
    piece: &[u8],
) -> Result<Call<N>, ReaderFault>
    requires { (v : PassView) × (bytes : List ℕ) × (given : List Happened) ×
        Runs N.table v pass.old reader.old call bytes given }
    ensures { (v : PassView) (bytes : List ℕ) (given : List Happened) →
        Runs N.table v pass.old reader.old call bytes given →
        Went N.table v pass.new reader.new (bytes ++ piece.now) given result }
{
    match take_piece(hub, pass, reader, events, &mut call, piece) {
        Ok(()) => Ok(call),
        Err(fault) => {
            give_up(hub, pass, call, fault);
            Err(fault)
        }
    }
}

// Reads a piece, and gives its events to the call. At an error the call may only be abandoned.
#[tactic(none)]
fn take_piece<N: HubName>(
    hub: &Hub<N>,
    pass: &mut Pass<N>,
    reader: &mut Reader,
    events: &mut Vec<Event>,
    call: &mut Call<N>,
    piece: &[u8],
) -> Result<(), ReaderFault>
    requires { (v : PassView) × (bytes : List ℕ) × (given : List Happened) ×
        Runs N.table v pass.old reader.old call.old bytes given }
    ensures on { OnOk result ((v : PassView) (bytes : List ℕ) (given : List Happened) →
        Runs N.table v pass.old reader.old call.old bytes given →
        RunsOn N.table v pass.new reader.new call.new (bytes ++ piece.now) given) }
    ensures stops { IfErr result (λ fault. (v : PassView) (bytes : List ℕ)
        (given : List Happened) → Runs N.table v pass.old reader.old call.old bytes given →
        Stops N.table v pass.new call.new (bytes ++ piece.now) fault) }
{
    events.clear();
    match reader.feed(piece, events) {
        Ok(()) => give(hub, pass, call, events.as_slice()),
        Err(fault) => Err(fault),
    }
}

// Reads the end, and gives its events to the call. At an error the call may only be abandoned.
#[tactic(none)]
fn take_end<N: HubName>(
    hub: &Hub<N>,
    pass: &mut Pass<N>,
    reader: &mut Reader,
    events: &mut Vec<Event>,
    call: &mut Call<N>,
) -> Result<(), ReaderFault>
    requires { (v : PassView) × (bytes : List ℕ) × (given : List Happened) ×
        Runs N.table v pass.old reader.old call.old bytes given }
    ensures ends { OnOk result ((v : PassView) (bytes : List ℕ) (given : List Happened) →
        Runs N.table v pass.old reader.old call.old bytes given →
        Ends N.table v pass.new call.new bytes) }
    ensures stops { IfErr result (λ fault. (v : PassView) (bytes : List ℕ)
        (given : List Happened) → Runs N.table v pass.old reader.old call.old bytes given →
        GivesUp N.table v pass.new call.new bytes fault) }
{
    events.clear();
    match reader.end(events) {
        Ok(()) => give(hub, pass, call, events.as_slice()),
        Err(fault) => Err(fault),
    }
}

// Gives the events to the call. At an error, which is want of memory, the call may only be
// abandoned.
#[tactic(none)]
fn give<N: HubName>(
    hub: &Hub<N>,
    pass: &mut Pass<N>,
    call: &mut Call<N>,
    events: &[Event],
) -> Result<(), ReaderFault>
    requires { (v : PassView) × (given : List Happened) ×
        HasTaken N.table v pass.old call.old given × (length (given ++ events.now) < 2 ^ 60) }
    ensures ok { OnOk result ((v : PassView) (given : List Happened) →
        HasTaken N.table v pass.old call.old given → length (given ++ events.now) < 2 ^ 60 →
        HasTaken N.table v pass.new call.new (given ++ events.now)) }
    ensures memory { IfErr result (λ fault. (v : PassView) (given : List Happened) →
        HasTaken N.table v pass.old call.old given → length (given ++ events.now) < 2 ^ 60 →
        IsOpen v pass.new call.new × (fault ≡ Memory)) }
{
    match advance_all(hub, pass, call, events) {
        Ok(()) => Ok(()),
        Err(_) => Err(ReaderFault::Memory),
    }
}

// Gives the events to the call, in order. Its only failure is want of memory, and then the call may
// only be abandoned.
fn advance_all<N: HubName>(
    hub: &Hub<N>,
    pass: &mut Pass<N>,
    call: &mut Call<N>,
    events: &[Event],
) -> Result<(), AllocError>
    requires { (v : PassView) × (given : List Happened) ×
        HasTaken N.table v pass.old call.old given × (length (given ++ events.now) < 2 ^ 60) }
    ensures ok { OnOk result ((v : PassView) (given : List Happened) →
        HasTaken N.table v pass.old call.old given → length (given ++ events.now) < 2 ^ 60 →
        HasTaken N.table v pass.new call.new (given ++ events.now)) }
    ensures memory { OnErr result ((v : PassView) (given : List Happened) →
        HasTaken N.table v pass.old call.old given → length (given ++ events.now) < 2 ^ 60 →
        IsOpen v pass.new call.new) }
{
    for event in events {
        hub.advance(pass, call, event.seen())?;
    }
    Ok(())
}

// Answers a document whose end was taken.
#[tactic(none)]
fn finish<N: HubName>(
    hub: &Hub<N>,
    pass: &mut Pass<N>,
    call: Call<N>,
) -> Result<Reply, FilterCallFault>
    requires { (v : PassView) × (bytes : List ℕ) × Ends N.table v pass.old call bytes }
    ensures { (v : PassView) (bytes : List ℕ) → Ends N.table v pass.old call bytes →
        Filters N.table.shape v pass.new bytes result }
{
    match hub.finish(pass, call) {
        Ok(reply) => Ok(reply),
        Err(_) => Err(FilterCallFault::Memory),
    }
}

// Gives up a call for a fault, and answers it.
#[tactic(none)]
fn give_up<N: HubName>(
    hub: &Hub<N>,
    pass: &mut Pass<N>,
    call: Call<N>,
    fault: ReaderFault,
) -> FilterCallFault
    requires { (v : PassView) × (bytes : List ℕ) × GivesUp N.table v pass.old call bytes fault }
    ensures same { result ≡ call_fault fault }
    ensures refuses { (v : PassView) (bytes : List ℕ) →
        GivesUp N.table v pass.old call bytes fault →
        Filters N.table.shape v pass.new bytes (Err (call_fault fault)) }
{
    hub.abandon(pass, call);
    as_answer(fault)
}
