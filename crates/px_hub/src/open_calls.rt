//! A document that is filtered event by event.
ghost use Rattle.std.specs.Prelude.{◌≡◌, ◌+◌, ◌<◌, ◌^◌, false, true, List, [], ◌∷◌, ◌++◌, length, IfOk, OnOk, OnErr};
ghost use Rattle.px_text.specs.Nodes.{Root};
ghost use Rattle.px_reader.specs.declared.event.Event.{Event as Happened};
ghost use Rattle.px_reader.specs.Happenings.{event_of};
ghost use Rattle.px_reader.specs.Spelling.{events_of};
ghost use Rattle.px_rule.specs.Table.{is_in};
ghost use Rattle.px_hub.specs.declared.engine.Engine.TheVariants.{Shared as Over};
ghost use Rattle.px_hub.specs.declared.server.Server.TheVariants.{Bank as Home};
ghost use Rattle.px_hub.specs.Passes.{PassView};
ghost use Rattle.px_hub.specs.Replying.{Replies, Stays, WroteOf};
ghost use Rattle.px_hub.specs.OpenCalls.{HasTaken, IsOpen, IsServer, left, why_of, answer_of};

use crate::call::Call;
use crate::engine::Engine;
use crate::entrance::{Entrance, begin_at, finish_inside};
use crate::hub::Hub;
use crate::law::Workload;
use crate::name::HubName;
use crate::pass::Pass;
use crate::reply::{Reply, Why};
use crate::server::Server;
use px_banks::leave;
use px_call::{
    BankCall, Tally, a_full_call_has_own_steps, counts_add_up, counts_hold_outside,
    only_words_of_the_run_are_written,
};
use px_reader::Happening;
use px_text::Ids;
use std::alloc::AllocError;

impl<N: HubName> Hub<N> {
    /// Begins to filter a document event by event, at the version of the pass. The pass enters its
    /// bank and stays inside, or there is a cause why no bank serves the call. Until the call is
    /// spent, no other call takes the pass, but those that ask for its version and number. Its only
    /// failure is want of memory, and then the pass is in no bank and no call is open.
    pub fn begin(&self, pass: &mut Pass<N>) -> Result<Call<N>, AllocError>
        requires { pass.old.is_open ≡ false }
        ensures call { IfOk result (λ call. HasTaken N.table pass.old pass.new call []) }
        ensures memory { OnErr result (Stays pass.old pass.new) }
    {
        pass.is_in_no_bank();
        let server = pass.server()?;
        match server {
            Server::Nobody { why } => pass.begin_alone(self.alloc, why),
            Server::Bank { bank } => self.begin_at(pass, bank),
        }
    }

    /// Takes the next event of the document. The events so far and this one are fewer than 2^60.
    /// Its only failure is want of memory, and then the call may only be abandoned.
    pub fn advance(
        &self,
        pass: &mut Pass<N>,
        call: &mut Call<N>,
        next: Happening<'_>,
    ) -> Result<(), AllocError>
        requires begun { (opened : PassView) × (given : List Happened) ×
            HasTaken N.table opened pass.old call.old given × (length given + 1 < 2 ^ 60) }
        ensures ok { OnOk result ((opened : PassView) (given : List Happened) →
            HasTaken N.table opened pass.old call.old given → length given + 1 < 2 ^ 60 →
            HasTaken N.table opened pass.new call.new (given ++ (event_of next.entry) ∷ [])) }
        ensures memory { OnErr result ((opened : PassView) (given : List Happened) →
            HasTaken N.table opened pass.old call.old given → IsOpen opened pass.new call.new) }
    {
        call.engine.event(
            self.alloc,
            &self.shared,
            &mut pass.seat,
            &pass.built.compiled,
            next,
        )
    }

    /// Ends the document, all of whose events were taken. The pass leaves its bank. Its only
    /// failure is want of memory, and then too the pass is in no bank and no call is open.
    pub fn finish(&self, pass: &mut Pass<N>, call: Call<N>) -> Result<Reply, AllocError>
        requires whole { (opened : PassView) × (root : Root) ×
            HasTaken N.table opened pass.old call (events_of root) }
        ensures reply { IfOk result (λ reply. (opened : PassView) (root : Root) →
            HasTaken N.table opened pass.old call (events_of root) →
            Replies N.table.shape opened pass.new root reply) }
        ensures memory { OnErr result ((opened : PassView) (root : Root) →
            HasTaken N.table opened pass.old call (events_of root) → Stays opened pass.new) }
    {
        match call.into_engine() {
            Engine::Private { lone, why } => pass.finish_alone(lone, why),
            Engine::Shared { call } => self.finish_inside(pass, call),
        }
    }

    /// Leaves the document, wherever it is. The pass leaves its bank. What was written is of every
    /// tree whose events begin with those that were taken. It takes no memory.
    pub fn abandon(&self, pass: &mut Pass<N>, call: Call<N>)
        requires begun { (opened : PassView) × IsOpen opened pass.old call }
        ensures stays { (opened : PassView) → IsOpen opened pass.old call → Stays opened pass.new }
        ensures wrote { (opened : PassView) (given rest : List Happened) (root : Root) →
            HasTaken N.table opened pass.old call given → events_of root ≡ given ++ rest →
            WroteOf N.table.shape opened pass.new root }
    {
        counts_hold_outside::<Workload>();
        only_words_of_the_run_are_written::<Workload>();
        match call.into_engine() {
            Engine::Private { .. } => pass.close(),
            Engine::Shared { .. } => self.leave(pass),
        }
    }

    // Begins a call at the bank of the pass, or by itself where the bank is gone.
    fn begin_at(&self, pass: &mut Pass<N>, bank: u32) -> Result<Call<N>, AllocError>
        requires closed { pass.old.is_open ≡ false }
        requires server { IsServer pass.old (Home bank) }
        ensures call { IfOk result (λ call. HasTaken N.table pass.old pass.new call []) }
        ensures memory { OnErr result (Stays pass.old pass.new) }
    {
        let version = pass.version;
        let entrance = begin_at(
            self.alloc,
            &self.shared,
            &mut pass.seat,
            &pass.built.compiled,
            bank,
            version,
        )?;
        match entrance {
            Entrance::Inside { call } => {
                pass.is_open = true;
                Ok(Call::of(Engine::Shared { call }))
            }
            Entrance::Gone { word } => pass.begin_alone(self.alloc, Why::Gone { word }),
        }
    }

    // Ends a call over the bank of the pass.
    fn finish_inside(
        &self,
        pass: &mut Pass<N>,
        call: BankCall<Workload>,
    ) -> Result<Reply, AllocError>
        requires whole { (v : PassView) × (root : Root) ×
            HasTaken N.table v pass.old (Over call) (events_of root) }
        ensures reply { IfOk result (λ reply. (v : PassView) (root : Root) →
            HasTaken N.table v pass.old (Over call) (events_of root) →
            Replies N.table.shape v pass.new root reply) }
        ensures memory { OnErr result ((v : PassView) (root : Root) →
            HasTaken N.table v pass.old (Over call) (events_of root) → Stays v pass.new) }
    {
        counts_add_up::<Workload>();
        a_full_call_has_own_steps::<Workload>();
        only_words_of_the_run_are_written::<Workload>();
        let version = pass.version;
        let number = pass.number;
        let done = finish_inside(
            self.alloc,
            &self.shared,
            &mut pass.seat,
            &pass.built.compiled,
            call,
        );
        pass.is_open = false;
        answer(version, number, done)
    }

    // Leaves the bank of the pass.
    fn leave(&self, pass: &mut Pass<N>)
        requires is_in { is_in pass.old.view.stay.place ≡ true }
        ensures { pass.new ≡ left pass.old }
    {
        leave(&self.shared, &mut pass.seat);
        pass.is_open = false;
    }
}

// The answer of a call over a bank, by what was found and counted.
fn answer(
    version: u32,
    pass: u32,
    done: Result<(Ids, Tally), AllocError>,
) -> Result<Reply, AllocError>
    ensures { result ≡ answer_of version pass done }
{
    match done {
        Ok((ids, tally)) => Ok(Reply {
            version,
            pass,
            ids,
            found: tally.found,
            computed: tally.computed,
            own: tally.own,
            why: why_of(tally.full),
        }),
        Err(status) => Err(status),
    }
}

// Why the bank has no place for steps, by the first word that found none.
fn why_of(full: Option<u64>) -> Why
    ensures { result ≡ why_of full }
{
    match full {
        Some(word) => Why::Full { word },
        None => Why::Settled,
    }
}
