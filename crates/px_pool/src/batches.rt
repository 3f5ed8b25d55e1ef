//! A batch of documents.
ghost use Rattle.std.specs.Prelude.{◌≡◌, ◌<◌, ◌+◌, false, [], length, IfOk};
ghost use Rattle.std.specs.Thread.{IsSync};
ghost use Rattle.px_crew.specs.contracts.draws.Draws as draws;
ghost use Rattle.px_reader.specs.contracts.doc.Doc as doc;
ghost use Rattle.px_crew.specs.Crews.{AllReady, AllWorked};
ghost use Rattle.px_crew.specs.Drawn.{hand};
ghost use Rattle.px_hub.specs.AllOfThem.{AreClosed};
ghost use Rattle.px_hub.specs.Replying.{Stays};
ghost use Rattle.px_pool.specs.Batches.{AllStay, Batched};
ghost use Rattle.px_pool.specs.Working.{IsFresh, WorkedIfClosed};

use crate::gather::gather;
use crate::notice::{GateNotice, Notice};
use crate::worker::{Round, Worker};
use px_crew::{Drawer, Draws, Quota, run_crew};
use px_hub::{Hub, HubName, Pass, Reply, threads_may_share_a_hub};
use px_io::Gate;
use px_reader::Doc;
use std::alloc::{AllocError, Global};
use std::thread::Threads;

/// Filters each document once, side by side by as many workers as there are passes, each at the
/// version of its pass. Reply i is that to document i, and names the pass that filtered it. The
/// documents are numbered from 1 for the gate. Its only failure is want of memory. On every answer
/// each pass has what it had seen, its program and its bank, and is in no bank.
pub fn batch<N: HubName + Send + Sync, G: Gate, R: Threads + Sync>(
    rt: &R,
    alloc: Global,
    hub: &Hub<N>,
    passes: &mut [Pass<N>],
    docs: &[Doc],
    gate: &G,
) -> Result<Vec<Reply>, AllocError>
    requires some { 0 < length passes.old }
    requires closed { AreClosed passes.old }
    ensures stay { AllStay passes.old passes.new }
    ensures batched { IfOk result (λ replies. Batched N.table.shape docs.now passes.old
        replies.items passes.new) }
{
    stand_outside(passes);
    let quota = Quota {
        limit: docs.len() as u64,
        parts: passes.len() as u64 + 1,
    };
    let (draws, mut whole) = Draws::create(alloc, quota)?;
    let mut workers = equip(alloc, &draws, &mut whole, passes.len())?;
    let round = Round {
        hub,
        draws: &draws,
        docs,
        notice: GateNotice { gate },
    };
    work(rt, &round, passes, &mut workers);
    gather(alloc, &draws, whole, workers, docs.len())
}

// Passes on which no call is open are in no bank, and so stay as they are.
fn stand_outside<N: HubName>(passes: &[Pass<N>])
    requires closed { AreClosed passes.now }
    ensures { AllStay passes.now passes.now }
{
    for at in 0..passes.len() {
        stand(&passes[at]);
    }
}

fn stand<N: HubName>(pass: &Pass<N>)
    requires closed { pass.now.is_open ≡ false }
    ensures { Stays pass.now pass.now }
{
    pass.is_open();
}

// Threads may share a word and documents.
fn threads_may_share_documents()
    ensures draws { IsSync draws.the_row }
    ensures docs { IsSync doc.the_row }
{}

// A worker for each pass.
fn equip(
    alloc: Global,
    draws: &Draws,
    whole: &mut Drawer,
    count: usize,
) -> Result<Vec<Worker>, AllocError>
    requires table { whole.old.table ≡ draws.now.table }
    requires whole { whole.old.hand ≡ hand (count + 1) [] 0 }
    ensures table { IfOk result (λ _. whole.new.table ≡ draws.now.table) }
    ensures whole { IfOk result (λ _. whole.new.hand ≡ hand 1 [] 0) }
    ensures many { IfOk result (λ workers. length workers.items ≡ count) }
    ensures fresh { IfOk result (λ workers. AllReady (IsFresh draws.now) workers.items) }
{
    let mut workers = Vec::with_capacity(alloc, count)?;
    for _ in 0..count {
        workers.push_reserved(fresh(alloc, draws.share(whole)));
    }
    Ok(workers)
}

fn fresh(alloc: Global, drawer: Drawer) -> Worker
    ensures drawer { result.drawer ≡ drawer }
    ensures none { IfOk result.outcome (λ answers. answers.items ≡ []) }
{
    Worker {
        drawer,
        outcome: Ok(Vec::new(alloc)),
    }
}

// Each worker works with the pass beside it.
fn work<N: HubName + Send + Sync, S: Notice + Sync, R: Threads + Sync>(
    rt: &R,
    round: &Round<'_, N, S>,
    passes: &mut [Pass<N>],
    workers: &mut Vec<Worker>,
)
    requires pairs { length passes.old ≡ length workers.old.items }
    requires fresh { AllReady (IsFresh round.now.draws.now) workers.old.items }
    ensures worked { AllWorked (WorkedIfClosed N.table.shape round.now.docs.now) passes.old
        workers.old.items passes.new workers.new.items }
{
    threads_may_share_a_hub::<N>();
    threads_may_share_documents();
    run_crew(rt, round, passes, workers.as_mut_slice());
}
