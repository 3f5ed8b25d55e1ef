//! A seat enters a bank for a call, and leaves it.
ghost use Rattle.std.specs.Prelude.{◌≡◌, ◌<◌, ◌^◌, List, true, [], length, IfOk, OnErr};
ghost use Rattle.px_text.specs.Nodes.{Root};
ghost use Rattle.px_reader.specs.Spelling.{events_of};
ghost use Rattle.px_xpath.specs.Histories as histories;
ghost use Rattle.px_xpath.specs.Histories.{live, matches};
ghost use Rattle.px_afa.specs.Accepting.{HaveSteps};
ghost use Rattle.px_afa.specs.Building.{program};
ghost use Rattle.px_workload.specs.declared.change.Change.{Change};
ghost use Rattle.px_workload.specs.Changes.{history};
ghost use Rattle.px_rule.specs.declared.view.Place.TheVariants.{Outside};
ghost use Rattle.px_rule.specs.declared.view.View.{View};
ghost use Rattle.px_rule.specs.Rule.{is_pass};
ghost use Rattle.px_rule.specs.Table.{is_inside, bank_in, version_in};
ghost use Rattle.px_call.specs.Calls.{HasFiltered, CountsAt};
ghost use Rattle.px_call.specs.Laws.{KnowTheSame};
ghost use Rattle.px_call.specs.Memory.{IsProgramAt};
ghost use Rattle.px_hub.specs.Entries.{IsRight};
ghost use Rattle.px_hub.specs.OpenCalls.{EntranceGives, HasLeft, BeginsInside};

use crate::law::Workload;
use px_banks::{Enter, enter, leave};
use px_call::{BankCall, Tally, counts_hold_outside};
use px_prune::Compiled;
use px_rule::{Seat, Shared};
use px_runner::events_follow_content;
use px_text::Ids;
use std::alloc::{AllocError, Global};

/// What a seat met at its bank.
#[derive(Drop)]
pub(crate) enum Entrance {
    /// The bank stood at the version, and the seat is inside.
    Inside { call: BankCall<Workload> },
    /// The word showed another version, and the seat has left again.
    Gone { word: u64 },
}

/// Enters a bank at the version of the seat, and begins a call there. Its only failure is want of
/// memory, and then the seat has left again.
pub(crate) fn begin_at(
    alloc: Global,
    shared: &Shared<Workload>,
    seat: &mut Seat<Workload>,
    compiled: &Compiled,
    bank: u32,
    version: u32,
) -> Result<Entrance, AllocError>
    requires table { seat.old.table ≡ shared.now }
    requires bank { bank < shared.now.shape.banks }
    requires pass { is_pass seat.old.view.past.kind ≡ true }
    requires outside { seat.old.view.stay.place ≡ Outside }
    requires version { version ≡ length seat.old.view.past.seen }
    requires program { compiled.now ≡ program (history seat.old.view.past.seen) }
    ensures table { seat.new.table ≡ seat.old.table }
    ensures entrance { IfOk result
        (λ entrance. EntranceGives bank version compiled.now seat.old seat.new entrance) }
    ensures memory { OnErr result (HasLeft seat.old.view seat.new.view) }
{
    match enter(shared, seat, bank, version) {
        Enter::Entered => begin_inside(alloc, shared, seat, compiled),
        Enter::Gone { word } => Ok(Entrance::Gone { word }),
    }
}

// Begins a call over the bank that the seat is inside.
fn begin_inside(
    alloc: Global,
    shared: &Shared<Workload>,
    seat: &mut Seat<Workload>,
    compiled: &Compiled,
) -> Result<Entrance, AllocError>
    requires table { seat.old.table ≡ shared.now }
    requires inside { is_inside seat.old.view.stay.place ≡ true }
    requires program { IsProgramAt (λ log. program (history log)) seat.old.view compiled.now }
    ensures table { seat.new.table ≡ seat.old.table }
    ensures call { IfOk result (λ entrance. BeginsInside compiled.now seat.old seat.new entrance) }
    ensures memory { OnErr result (HasLeft seat.old.view seat.new.view) }
{
    match BankCall::begin(alloc, shared, seat, compiled) {
        Ok(call) => Ok(Entrance::Inside { call }),
        Err(status) => {
            leave(shared, seat);
            Err(status)
        }
    }
}

/// Ends a call whose events are those of a tree, and leaves its bank. Its only failure is want of
/// memory. The counts are those between a seat that has not entered and the one that has left.
pub(crate) fn finish_inside(
    alloc: Global,
    shared: &Shared<Workload>,
    seat: &mut Seat<Workload>,
    compiled: &Compiled,
    call: BankCall<Workload>,
) -> Result<(Ids, Tally), AllocError>
    requires table { seat.old.table ≡ shared.now }
    requires program { IsProgramAt (λ log. program (history log)) seat.old.view compiled.now }
    requires whole { (root : Root) ×
        HasFiltered IsRight compiled.now call.began seat.old call (events_of root) }
    ensures table { seat.new.table ≡ seat.old.table }
    ensures left { HasLeft call.began.view seat.new.view }
    ensures stay { seat.new.view.stay ≡ record call.began.view.stay { place = Outside } }
    ensures matches { IfOk result (λ r. (log : List histories.Change) (root : Root) →
        compiled.now ≡ program log → HaveSteps (live log) →
        HasFiltered IsRight compiled.now call.began seat.old call (events_of root) →
        r.0 ≡ matches log root) }
    ensures counts { IfOk result (λ r. (root : Root) (before : View Change) →
        length (events_of root) < 2 ^ 60 →
        HasFiltered IsRight compiled.now call.began seat.old call (events_of root) →
        KnowTheSame before call.began.view →
        CountsAt IsRight call.began.table.shape (bank_in call.began.view.stay.place)
        (version_in call.began.view.stay.place) compiled.now before seat.new.view r.1
        (events_of root)) }
{
    counts_hold_outside::<Workload>();
    events_follow_content();
    let done = call.finish(alloc, shared, seat, compiled);
    leave(shared, seat);
    done
}
