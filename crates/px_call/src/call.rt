//! A call over a bank, whose seat is lent to it event by event.
ghost use Rattle.std.specs.Prelude.{◌≡◌, ◌+◌, ◌<◌, ◌^◌, ℕ, List, true, [], ◌∷◌, ◌++◌, length, IfOk, OnOk};
ghost use Rattle.px_text.specs.Nodes.{Root};
ghost use Rattle.px_reader.specs.declared.event.Event.{Event as Happened};
ghost use Rattle.px_reader.specs.Happenings.{event_of};
ghost use Rattle.px_reader.specs.Spelling.{events_of};
ghost use Rattle.px_xpath.specs.Histories.{Change, live, matches};
ghost use Rattle.px_afa.specs.Building as afa;
ghost use Rattle.px_afa.specs.Accepting.{HaveSteps};
ghost use Rattle.px_rule.specs.Table.{is_inside};
ghost use Rattle.px_rule.specs.Kept.{Grew};
ghost use Rattle.px_call.specs.Memory.{IsProgramAt};
ghost use Rattle.px_call.specs.Calls.{IsRunning, HasFiltered, CountsSince, CountsOf};

use crate::bank_memo::BankMemo;
use crate::entry::Entry;
use crate::law::ProgramLaw;
use crate::tally::Tally;
use core::mem::replace_with;
use px_prune::Compiled;
use px_reader::Happening;
use px_rule::{Seat, Shared};
use px_runner::Runner;
use px_text::Ids;
use std::alloc::{AllocError, Global};
use std::marker::{Brand, Model};
use std::snapshot::Snapshot;

/// A call over a bank that its seat is inside, between two events of a document. The seat is lent
/// to each of its calls, and stays inside the bank.
#[derive(Drop)]
pub struct BankCall<L: ProgramLaw> {
    began: Snapshot<Seat<L>>,
    // none after want of memory
    runner: Option<Runner>,
    tally: Tally,
}

impl<L: ProgramLaw> Model for BankCall<L> {
    ghost use Rattle.px_call.specs.Calls.{Call};

    ghost Value = { Call L.Entry };

    ghost view = { λ c. record { began = c.began.value; runner = c.runner; tally = c.tally } };
}

// The runner of a document that begins, over a memo for the seat, which it gives back.
#[tactic(none)]
fn started<L: ProgramLaw, C: Entry<L::Entry>>(
    alloc: Global,
    shared: &Shared<L>,
    compiled: &Compiled,
    mut seat: Seat<L>,
) -> (Seat<L>, (Tally, Result<Runner, AllocError>))
    requires began { seat ≡ C.began }
    requires table { seat.table ≡ shared.now }
    requires inside { is_inside seat.view.stay.place ≡ true }
    requires program { IsProgramAt L.automata_of seat.view compiled.now }
    ensures table { result.0.table ≡ C.began.table }
    ensures grew { Grew C.began.view result.0.view }
    ensures ok { IfOk result.1.1 (λ runner. IsRunning L.right compiled.now C.began result.0
        result.1.0 runner []) }
{
    shared.look_step(&mut seat, 0);
    let mut memo = BankMemo::<L, C>::new(alloc, shared, seat, compiled, Tally::new());
    let runner = Runner::new(alloc, &mut memo);
    let (seat, tally) = memo.end();
    (seat, (tally, runner))
}

// The runner after the next event, over a memo for the seat, which it gives back.
#[tactic(none)]
fn advanced<L: ProgramLaw, C: Entry<L::Entry>>(
    alloc: Global,
    shared: &Shared<L>,
    compiled: &Compiled,
    tally: Tally,
    mut runner: Runner,
    next: Happening<'_>,
    seat: Seat<L>,
) -> (Seat<L>, (Tally, Result<Runner, AllocError>))
    requires table { (seat.table ≡ shared.now) × (seat.table ≡ C.began.table) }
    requires grew { Grew C.began.view seat.view }
    requires inside { is_inside C.began.view.stay.place ≡ true }
    requires program { IsProgramAt L.automata_of C.began.view compiled.now }
    requires running { (given : List Happened) ×
        IsRunning L.right compiled.now C.began seat tally runner given ×
        (length given + 1 < 2 ^ 60) }
    ensures table { result.0.table ≡ C.began.table }
    ensures grew { Grew C.began.view result.0.view }
    ensures ok { IfOk result.1.1 (λ now. (given : List Happened) →
        IsRunning L.right compiled.now C.began seat tally runner given →
        length given + 1 < 2 ^ 60 →
        IsRunning L.right compiled.now C.began result.0 result.1.0 now
        (given ++ (event_of next.entry) ∷ [])) }
{
    let mut memo = BankMemo::<L, C>::new(alloc, shared, seat, compiled, tally);
    let went = runner.event(next, &mut memo);
    let (seat, tally) = memo.end();
    match went {
        Ok(()) => (seat, (tally, Ok(runner))),
        Err(status) => (seat, (tally, Err(status))),
    }
}

// The ids at the end of a document, by a memo for the seat, which it gives back.
#[tactic(none)]
fn closed<L: ProgramLaw, C: Entry<L::Entry>>(
    alloc: Global,
    shared: &Shared<L>,
    compiled: &Compiled,
    tally: Tally,
    runner: Runner,
    seat: Seat<L>,
) -> (Seat<L>, (Tally, Result<Ids, AllocError>))
    requires table { (seat.table ≡ shared.now) × (seat.table ≡ C.began.table) }
    requires grew { Grew C.began.view seat.view }
    requires inside { is_inside C.began.view.stay.place ≡ true }
    requires program { IsProgramAt L.automata_of C.began.view compiled.now }
    requires running { (root : Root) ×
        IsRunning L.right compiled.now C.began seat tally runner (events_of root) }
    ensures table { result.0.table ≡ C.began.table }
    ensures grew { Grew C.began.view result.0.view }
    ensures matches { IfOk result.1.1 (λ ids. (history : List Change) (root : Root) →
        compiled.now ≡ afa.program history → HaveSteps (live history) →
        IsRunning L.right compiled.now C.began seat tally runner (events_of root) →
        ids ≡ matches history root) }
    ensures counts { IfOk result.1.1 (λ ids. (given : List Happened) → length given < 2 ^ 60 →
        IsRunning L.right compiled.now C.began seat tally runner given →
        CountsSince L.right compiled.now C.began result.0.view result.1.0 given) }
{
    let mut memo = BankMemo::<L, C>::new(alloc, shared, seat, compiled, tally);
    let ids = runner.finish(alloc, &mut memo);
    let (seat, tally) = memo.end();
    (seat, (tally, ids))
}

// The runner of a document that begins, where the seat is only lent.
fn start<L: ProgramLaw, C: Entry<L::Entry>>(
    alloc: Global,
    shared: &Shared<L>,
    seat: &mut Seat<L>,
    compiled: &Compiled,
) -> (Tally, Result<Runner, AllocError>)
    requires began { seat.old ≡ C.began }
    requires table { seat.old.table ≡ shared.now }
    requires inside { is_inside seat.old.view.stay.place ≡ true }
    requires program { IsProgramAt L.automata_of seat.old.view compiled.now }
    ensures table { seat.new.table ≡ C.began.table }
    ensures grew { Grew C.began.view seat.new.view }
    ensures ok { IfOk result.1 (λ runner. IsRunning L.right compiled.now C.began seat.new result.0
        runner []) }
{
    replace_with(seat, (), |seat, _| {
        started::<L, C>(alloc, shared, compiled, seat)
    })
}

impl<L: ProgramLaw> BankCall<L> {
    /// A call before the first event of a document, over the bank that the seat is inside. Its only
    /// failure is want of memory.
    pub fn begin(
        alloc: Global,
        shared: &Shared<L>,
        seat: &mut Seat<L>,
        compiled: &Compiled,
    ) -> Result<BankCall<L>, AllocError>
        requires table { seat.old.table ≡ shared.now }
        requires inside { is_inside seat.old.view.stay.place ≡ true }
        requires program { IsProgramAt L.automata_of seat.old.view compiled.now }
        ensures table { seat.new.table ≡ seat.old.table }
        ensures grew { Grew seat.old.view seat.new.view }
        ensures ok { IfOk result (λ call. HasFiltered L.right compiled.now seat.old seat.new call
            []) }
    {
        let began = Snapshot::of(seat);
        let (tally, runner) = start::<L, Brand>(alloc, shared, seat, compiled);
        let runner = Some(runner?);
        Ok(BankCall {
            began,
            runner,
            tally,
        })
    }

    /// Takes the next event of a document. The events so far and this one are fewer than 2^60. Its
    /// only failure is want of memory, and the call may then only be dropped.
    pub fn event(
        &mut self,
        alloc: Global,
        shared: &Shared<L>,
        seat: &mut Seat<L>,
        compiled: &Compiled,
        next: Happening<'_>,
    ) -> Result<(), AllocError>
        requires table { seat.old.table ≡ shared.now }
        requires program { IsProgramAt L.automata_of seat.old.view compiled.now }
        requires begun { (given : List Happened) ×
            HasFiltered L.right compiled.now self.old.began seat.old self.old given ×
            (length given + 1 < 2 ^ 60) }
        ensures began { self.new.began ≡ self.old.began }
        ensures table { seat.new.table ≡ seat.old.table }
        ensures grew { Grew self.old.began.view seat.new.view }
        ensures ok { OnOk result ((given : List Happened) →
            HasFiltered L.right compiled.now self.old.began seat.old self.old given →
            length given + 1 < 2 ^ 60 →
            HasFiltered L.right compiled.now self.old.began seat.new self.new
            (given ++ (event_of next.entry) ∷ [])) }
    {
        let Some(runner) = self.runner.take() else {
            unreachable!()
        };
        let (tally, went) = self.advance::<Brand>(alloc, shared, seat, compiled, runner, next);
        self.tally = tally;
        self.runner = Some(went?);
        Ok(())
    }

    // The runner after the next event, where the seat is only lent.
    fn advance<C: Entry<L::Entry>>(
        &self,
        alloc: Global,
        shared: &Shared<L>,
        seat: &mut Seat<L>,
        compiled: &Compiled,
        runner: Runner,
        next: Happening<'_>,
    ) -> (Tally, Result<Runner, AllocError>)
        requires table { (seat.old.table ≡ shared.now) × (seat.old.table ≡ C.began.table) }
        requires grew { Grew C.began.view seat.old.view }
        requires inside { is_inside C.began.view.stay.place ≡ true }
        requires program { IsProgramAt L.automata_of C.began.view compiled.now }
        requires running { (given : List Happened) ×
            IsRunning L.right compiled.now C.began seat.old self.now.tally runner given ×
            (length given + 1 < 2 ^ 60) }
        ensures table { seat.new.table ≡ C.began.table }
        ensures grew { Grew C.began.view seat.new.view }
        ensures ok { IfOk result.1 (λ now. (given : List Happened) →
            IsRunning L.right compiled.now C.began seat.old self.now.tally runner given →
            length given + 1 < 2 ^ 60 →
            IsRunning L.right compiled.now C.began seat.new result.0 now
            (given ++ (event_of next.entry) ∷ [])) }
    {
        let tally = self.tally;
        replace_with(seat, (), |seat, _| {
            advanced::<L, C>(alloc, shared, compiled, tally, runner, next, seat)
        })
    }

    /// The ids of the filters that hold of the document, rising, when all its events have been
    /// taken, and what the call counted. Its only failure is want of memory.
    pub fn finish(
        mut self,
        alloc: Global,
        shared: &Shared<L>,
        seat: &mut Seat<L>,
        compiled: &Compiled,
    ) -> Result<(Ids, Tally), AllocError>
        requires table { seat.old.table ≡ shared.now }
        requires program { IsProgramAt L.automata_of seat.old.view compiled.now }
        requires whole { (root : Root) ×
            HasFiltered L.right compiled.now self.began seat.old self (events_of root) }
        ensures table { seat.new.table ≡ seat.old.table }
        ensures grew { Grew self.began.view seat.new.view }
        ensures matches { IfOk result (λ r. (history : List Change) (root : Root) →
            compiled.now ≡ afa.program history → HaveSteps (live history) →
            HasFiltered L.right compiled.now self.began seat.old self (events_of root) →
            r.0 ≡ matches history root) }
        ensures counts { IfOk result (λ r. (root : Root) → length (events_of root) < 2 ^ 60 →
            HasFiltered L.right compiled.now self.began seat.old self (events_of root) →
            CountsOf L.right compiled.now self.began seat.new.view r.1 root) }
    {
        let Some(runner) = self.runner.take() else {
            unreachable!()
        };
        let (tally, ids) = self.close::<Brand>(alloc, shared, seat, compiled, runner);
        Ok((ids?, tally))
    }

    // The ids at the end of a document, where the seat is only lent.
    fn close<C: Entry<L::Entry>>(
        &self,
        alloc: Global,
        shared: &Shared<L>,
        seat: &mut Seat<L>,
        compiled: &Compiled,
        runner: Runner,
    ) -> (Tally, Result<Ids, AllocError>)
        requires table { (seat.old.table ≡ shared.now) × (seat.old.table ≡ C.began.table) }
        requires grew { Grew C.began.view seat.old.view }
        requires inside { is_inside C.began.view.stay.place ≡ true }
        requires program { IsProgramAt L.automata_of C.began.view compiled.now }
        requires running { (root : Root) ×
            IsRunning L.right compiled.now C.began seat.old self.now.tally runner
            (events_of root) }
        ensures table { seat.new.table ≡ C.began.table }
        ensures grew { Grew C.began.view seat.new.view }
        ensures matches { IfOk result.1 (λ ids. (history : List Change) (root : Root) →
            compiled.now ≡ afa.program history → HaveSteps (live history) →
            IsRunning L.right compiled.now C.began seat.old self.now.tally runner
            (events_of root) → ids ≡ matches history root) }
        ensures counts { IfOk result.1 (λ ids. (given : List Happened) → length given < 2 ^ 60 →
            IsRunning L.right compiled.now C.began seat.old self.now.tally runner given →
            CountsSince L.right compiled.now C.began seat.new.view result.0 given) }
    {
        let tally = self.tally;
        replace_with(seat, (), |seat, _| {
            closed::<L, C>(alloc, shared, compiled, tally, runner, seat)
        })
    }
}
