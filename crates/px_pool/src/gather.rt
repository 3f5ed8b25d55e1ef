//! The replies of all workers, in the order of the documents.
ghost use Rattle.std.specs.Prelude.{◌≡◌, ◌<◌, ◌+◌, ◌++◌, ◌∷◌, [], List, Some, map, length, slice_set, IfOk, OnOk};
ghost use Rattle.px_crew.specs.Drawn.{hand, quota_of};
ghost use Rattle.px_pool.specs.declared.worker.Answer.{Answer as Given};
ghost use Rattle.px_pool.specs.declared.worker.Worker.{Worker as Beside};
ghost use Rattle.px_pool.specs.Placing.{Placed, AllWithin, IsFull, Filled};
ghost use Rattle.px_pool.specs.Gathering.{Gathered, HasBrought, AllBrought, AreReplies};

use crate::worker::{Answer, Worker};
use px_crew::{Drawer, Draws};
use px_hub::Reply;
use std::alloc::{AllocError, Global};

/// The replies that the workers brought back, in the order of the documents. Its only failure is
/// want of memory.
#[tactic(auto, using(crate::proofs::Gathers::nothing_gathered))]
pub(crate) fn gather(
    alloc: Global,
    draws: &Draws,
    mut whole: Drawer,
    workers: Vec<Worker>,
    count: usize,
) -> Result<Vec<Reply>, AllocError>
    requires table { whole.table ≡ draws.now.table }
    requires some { 0 < length workers.items }
    requires quota { draws.now.quota ≡ quota_of count (length workers.items + 1) }
    requires new { whole.hand ≡ hand 1 [] 0 }
    requires brought { AllBrought draws.now count workers.items }
    ensures { IfOk result (λ replies. AreReplies count workers.items replies.items) }
{
    let mut slots = empty_slots(alloc, count)?;
    take_all_in(draws, &mut whole, &mut slots, workers)?;
    draws.learn(&mut whole);
    take_all(alloc, slots)
}

// A place for the reply to each document.
#[tactic(auto, using(crate::proofs::Places::nothing_placed))]
fn empty_slots(alloc: Global, count: usize) -> Result<Vec<Option<Reply>>, AllocError>
    ensures long { IfOk result (λ slots. length slots.items ≡ count) }
    ensures placed { IfOk result (λ slots. Placed slots.items []) }
{
    let mut slots = Vec::with_capacity(alloc, count)?;
    for _ in 0..count {
        slots.push_reserved(None);
    }
    Ok(slots)
}

// Takes in what all workers brought back.
fn take_all_in(
    draws: &Draws,
    whole: &mut Drawer,
    slots: &mut Vec<Option<Reply>>,
    workers: Vec<Worker>,
) -> Result<(), AllocError>
    requires table { whole.old.table ≡ draws.now.table }
    requires brought { AllBrought draws.now (length slots.old.items) workers.items }
    requires first { Gathered [] whole.old.hand slots.old.items }
    ensures table { whole.new.table ≡ whole.old.table }
    ensures gathered { OnOk result (Gathered workers.items whole.new.hand slots.new.items) }
    ensures long { length slots.new.items ≡ length slots.old.items }
{
    for worker in workers {
        take_in(draws, whole, slots, worker)?;
    }
    Ok(())
}

// Takes in what a worker brought back.
fn take_in(
    draws: &Draws,
    whole: &mut Drawer,
    slots: &mut Vec<Option<Reply>>,
    worker: Worker,
) -> Result<(), AllocError>
    requires table { whole.old.table ≡ draws.now.table }
    requires brought { HasBrought draws.now (length slots.old.items) worker }
    ensures table { whole.new.table ≡ whole.old.table }
    ensures gathered { (before : List Beside) → Gathered before whole.old.hand slots.old.items →
        OnOk result (Gathered (before ++ worker ∷ []) whole.new.hand slots.new.items) }
    ensures long { length slots.new.items ≡ length slots.old.items }
{
    let Worker { drawer, outcome } = worker;
    let answers = outcome?;
    place(slots, answers);
    draws.join(whole, drawer);
    Ok(())
}

// Puts each reply into its place.
fn place(slots: &mut Vec<Option<Reply>>, answers: Vec<Answer>)
    requires within { AllWithin (length slots.old.items) answers.items }
    ensures long { length slots.new.items ≡ length slots.old.items }
    ensures placed { (before : List Given) → Placed slots.old.items before →
        Placed slots.new.items (before ++ answers.items) }
{
    for answer in answers {
        put(slots, answer);
    }
}

fn put(slots: &mut Vec<Option<Reply>>, answer: Answer)
    requires within { answer.number < length slots.old.items }
    ensures { slots.new.items ≡ slice_set slots.old.items answer.number (Some answer.reply) }
{
    let Answer { number, reply } = answer;
    slots[number as usize] = Some(reply);
}

// The replies, where each place is filled.
fn take_all(alloc: Global, slots: Vec<Option<Reply>>) -> Result<Vec<Reply>, AllocError>
    requires full { IsFull slots.items }
    ensures { IfOk result (λ replies. slots.items ≡ map Some replies.items) }
{
    let mut replies = Vec::with_capacity(alloc, slots.len())?;
    for slot in slots {
        replies.push_reserved(filled(slot));
    }
    Ok(replies)
}

fn filled(slot: Option<Reply>) -> Reply
    requires { Filled slot }
    ensures { slot ≡ Some result }
{
    match slot {
        Some(reply) => reply,
        None => unreachable!(),
    }
}
