//! One worker of a batch.
ghost use Rattle.std.specs.Prelude.{◌≡◌, ◌<◌, false, Ok, [], length, IfOk, OnOk};
ghost use Rattle.px_reader.specs.Documents.{content};
ghost use Rattle.px_hub.specs.Replying.{Filters, Stays};
ghost use Rattle.px_pool.specs.Batches.{Answers};
ghost use Rattle.px_pool.specs.Working.{IsFresh, WorkedIfClosed, Done, Going, Left};

use crate::notice::Notice;
use px_crew::{Crew, Drawer, Draws};
use px_hub::{FilterCallFault, Hub, HubName, Pass, Reply};
use px_reader::Doc;
use std::alloc::AllocError;

/// The number of a document, and its reply.
#[derive(Drop)]
pub(crate) struct Answer {
    pub(crate) number: u64,
    pub(crate) reply: Reply,
}

/// What a worker takes along, and what it brings back.
#[derive(Drop)]
pub(crate) struct Worker {
    pub(crate) drawer: Drawer,
    pub(crate) outcome: Result<Vec<Answer>, AllocError>,
}

/// What the workers of a batch share.
#[derive(Drop)]
pub(crate) struct Round<'a, N: HubName, S> {
    pub(crate) hub: &'a Hub<N>,
    pub(crate) draws: &'a Draws,
    pub(crate) docs: &'a [Doc],
    pub(crate) notice: S,
    pub ghost limit: { draws.now.quota.limit ≡ length docs.now },
}

impl<N: HubName, S: Notice> Round<'_, N, S> {
    // Answers documents as long as there are numbers to draw, where no call is open on the pass.
    fn run(&self, pass: &mut Pass<N>, worker: &mut Worker)
        requires fresh { IsFresh self.now.draws.now worker.old }
        ensures worked { WorkedIfClosed N.table.shape self.now.docs.now pass.old worker.old pass.new
            worker.new }
    {
        if pass.is_open() {
            return;
        }
        let Worker { drawer, outcome } = worker;
        if let Ok(answers) = outcome {
            if self.answer_all(pass, drawer, answers).is_err() {
                *outcome = Err(AllocError);
            }
        }
    }

    // Draws numbers, and answers the document of each, until a number is that of none.
    fn answer_all(
        &self,
        pass: &mut Pass<N>,
        drawer: &mut Drawer,
        answers: &mut Vec<Answer>,
    ) -> Result<(), AllocError>
        requires none { answers.old.items ≡ [] }
        requires fresh { Going N.table.shape self.now.docs.now self.now.draws.now pass.old
            drawer.old [] pass.old drawer.old }
        ensures left { Left pass.old drawer.old pass.new drawer.new }
        ensures done { OnOk result (Done N.table.shape self.now.docs.now pass.old answers.new.items
            pass.new drawer.new.hand) }
    {
        let mut least = 0;
        loop {
            let number = self.draws.draw(drawer);
            if number >= self.docs.len() as u64 {
                return Ok(());
            }
            let reply = self.answer(pass, number)?;
            answers.push(Answer { number, reply })?;
            least = number + 1;
        }
    }

    // The reply to the document of this number.
    fn answer(&self, pass: &mut Pass<N>, number: u64) -> Result<Reply, AllocError>
        requires below { number < length self.now.docs.now }
        requires closed { pass.old.is_open ≡ false }
        ensures stays { Stays pass.old pass.new }
        ensures reply { IfOk result (λ reply. Answers N.table.shape self.now.docs.now pass.old
            number reply pass.new) }
    {
        self.notice.begins(number + 1);
        let answer = reply_to(self.hub, pass, &self.docs[number as usize]);
        self.notice.done(number + 1);
        answer
    }
}

// The reply to a document, which has no fault. Its only failure is want of memory.
fn reply_to<N: HubName>(hub: &Hub<N>, pass: &mut Pass<N>, doc: &Doc) -> Result<Reply, AllocError>
    requires closed { pass.old.is_open ≡ false }
    ensures stays { Stays pass.old pass.new }
    ensures reply { IfOk result (λ reply. Filters N.table.shape pass.old pass.new (content doc.now)
        (Ok reply)) }
{
    // what was read spells a tree
    let _ = doc.bytes();
    match hub.filter_read(pass, doc) {
        Ok(reply) => Ok(reply),
        Err(FilterCallFault::Doc(_)) => unreachable!(),
        Err(FilterCallFault::Memory) => Err(AllocError),
    }
}

impl<N: HubName, S: Notice> Crew<Pass<N>, Worker> for Round<'_, N, S> {
    ghost use Rattle.px_pool.specs.Working.{IsFresh, WorkedIfClosed};

    ghost ready = { λ round worker. IsFresh round.draws.now worker };

    ghost worked = { λ round v a w b. WorkedIfClosed N.table.shape round.docs.now v a w b };

    fn work(&self, state: &mut Pass<N>, beside: &mut Worker) {
        self.run(state, beside);
    }
}
