//! The command `match`: whether a document matches a filter.

ghost use Rattle.std.specs.Prelude.{◌≡◌, ◌≤◌, ◌∷◌, [], IfOk, Err, IsTrue, if◌then◌else◌};
ghost use Rattle.std.specs.Arc.{arc_value};
ghost use Rattle.px_feed.specs.Matches.{status_behind as status_of_line};
ghost use Rattle.px_io.specs.Faults.{Rose};
ghost use Rattle.px_reader.specs.declared.fault.DocFault.{DocFault};
ghost use Rattle.px_text.specs.Numbers.{is_empty};
ghost use Rattle.px_xpath.specs.Histories.{size};
ghost use Rattle.px_xpath.specs.Subscribed.{subscriptions};
ghost use Rattle.px_xpath.specs.Whole.{filter as way_of};
ghost use Rattle.px_afa.specs.Building.{automata};
ghost use Rattle.px_document.specs.CutShort.{CutAtDocument};
ghost use Rattle.px_document.specs.Documents.{GivesFine};
ghost use Rattle.xpush.specs.Runs.{IsLineFor, IsLineUnder, Matched, WritesFront};
ghost use Rattle.px_lines.specs.Served.{is_finished, is_cut_short};
ghost use Rattle.xpush.specs.Documents.{GivesFault, GivesMatch};
ghost use Rattle.xpush.specs.Forms.{Matches};
ghost use Rattle.xpush.specs.Stops.{outcome_of, refusal_of};

use crate::document::ids_in;
use crate::stop::{Cut, Stop};
use px_afa::Program;
use px_feed::{FeedFault, FeedKind, OutLine, Status, line_of};
use px_io::{Sink, Source};
use px_lines::write_answer;
use px_text::Ids;
use px_xpath::{Filter, Numbered, ParseFault, parse};
use std::alloc::{AllocError, Global};
use std::sync::Arc;

/// Writes the line for a filter's text and the document that is left in the source.
pub fn match_document<S: Source, K: Sink>(
    alloc: Global,
    filter: &[u8],
    source: &mut S,
    sink: &mut K,
) -> Status
    ensures not_usage { result ≡ Status.Usage → ⊥ }
    ensures output { IsTrue (is_finished result) →
        Matched filter.now (S.left source.old) (S.left source.new) (K.held sink.old)
        (K.held sink.new) result }
    ensures front { IsTrue (is_cut_short result) →
        WritesFront (Matches filter.now) (S.left source.old) (K.held sink.old) (K.held sink.new) }
    ensures read_fault { result ≡ Status.ReadFault →
        Rose (S.faults source.old) (S.faults source.new) }
    ensures not_at_fault { result ≡ Status.ReadFault →
        CutAtDocument filter.now (S.left source.old) (S.left source.new) }
    ensures unwritten { result ≡ Status.ReadFault → K.held sink.new ≡ K.held sink.old }
    ensures write_fault { result ≡ Status.WriteFault →
        Rose (K.faults sink.old) (K.faults sink.new) }
    ensures source_counts { S.faults source.old ≤ S.faults source.new }
    ensures sink_counts { K.faults sink.old ≤ K.faults sink.new }
{
    match line_for(alloc, filter, source) {
        Ok(line) => match line_of(alloc, &line) {
            Ok(text) => write_answer(text.as_slice(), status_behind(&line), sink),
            Err(_) => Status::Memory,
        },
        Err(Cut::Source) => Status::ReadFault,
        Err(Cut::Memory) => Status::Memory,
    }
}

// How a match ends that has written its line.
fn status_behind(line: &OutLine) -> Status
    ensures status { result ≡ status_of_line line.now }
    ensures finished { IsTrue (is_finished result) }
{
    match line {
        OutLine::Yes => Status::Done,
        _ => Status::Refused,
    }
}

// The line for a filter's text and the document that is left in the source. A filter that is
// refused is answered before anything is read.
fn line_for<S: Source>(alloc: Global, text: &[u8], source: &mut S) -> Result<OutLine, Cut>
    ensures line { IfOk result (λ line. IsLineFor text.now (S.left source.old) (S.left source.new)
        line) }
    ensures failed { result ≡ Err Cut.Source → Rose (S.faults source.old) (S.faults source.new) }
    ensures not_at_fault { result ≡ Err Cut.Source →
        CutAtDocument text.now (S.left source.old) (S.left source.new) }
    ensures never_falls { S.faults source.old ≤ S.faults source.new }
{
    match parse(alloc, text) {
        Ok(filter) => line_under(alloc, filter, source),
        Err(fault) => refusal(fault),
    }
}

// The line for a filter that is refused.
fn refusal(fault: ParseFault) -> Result<OutLine, Cut>
    ensures { result ≡ refusal_of fault }
{
    match fault {
        ParseFault::Filter(fault) => Ok(OutLine::NoFilter(fault)),
        ParseFault::Memory => Err(Cut::Memory),
    }
}

// The line for the document that is left in the source under the filter.
fn line_under<S: Source>(alloc: Global, filter: Filter, source: &mut S) -> Result<OutLine, Cut>
    requires small { size (way_of filter) ≤ 500_000 }
    ensures line { IfOk result (λ line. IsLineUnder (way_of filter) (S.left source.old)
        (S.left source.new) line) }
    ensures failed { result ≡ Err Cut.Source → Rose (S.faults source.old) (S.faults source.new) }
    ensures not_at_fault { result ≡ Err Cut.Source →
        GivesFine (S.left source.old) (S.left source.new) }
    ensures never_falls { S.faults source.old ≤ S.faults source.new }
{
    match ids_under(alloc, filter, source) {
        Ok(ids) => Ok(answer(ids.as_slice())),
        Err(stop) => outcome(stop),
    }
}

// The ids that the document left in the source matches, where the filter is the only one and has
// the id 1.
fn ids_under<S: Source>(alloc: Global, filter: Filter, source: &mut S) -> Result<Ids, Stop>
    requires small { size (way_of filter) ≤ 500_000 }
    ensures ids { IfOk result (λ ids. GivesMatch (way_of filter) (S.left source.old)
        (S.left source.new) ids) }
    ensures fault { (fault : DocFault) → result ≡ Err (Stop.Doc fault) →
        GivesFault (S.left source.old) (S.left source.new) fault }
    ensures failed { result ≡ Err Stop.Source → Rose (S.faults source.old) (S.faults source.new) }
    ensures not_at_fault { result ≡ Err Stop.Source →
        GivesFine (S.left source.old) (S.left source.new) }
    ensures never_falls { S.faults source.old ≤ S.faults source.new }
{
    let program = program_of(alloc, filter)?;
    ids_in(alloc, source, program)
}

// The program of the filter alone, under the id 1.
fn program_of(alloc: Global, filter: Filter) -> Result<Arc<Program>, AllocError>
    requires small { size (way_of filter) ≤ 500_000 }
    ensures program { IfOk result (λ program. arc_value program ≡
        automata (subscriptions (record { id = 1; filter = filter } ∷ []))) }
{
    let only = [Numbered { id: 1, filter }];
    let program = Program::build(alloc, &only)?;
    Ok(Arc::new(alloc, program)?)
}

// The line for a document whose reading was stopped.
fn outcome(stop: Stop) -> Result<OutLine, Cut>
    ensures { result ≡ outcome_of stop }
{
    match stop {
        Stop::Doc(fault) => Ok(OutLine::Faulty(FeedFault {
            line: fault.line,
            kind: FeedKind::Doc(fault.kind),
        })),
        Stop::Source => Err(Cut::Source),
        Stop::Memory => Err(Cut::Memory),
    }
}

// The line for a document that matches the filters with these ids.
fn answer(ids: &[u32]) -> OutLine
    ensures { result ≡ (if is_empty ids.now then OutLine.No else OutLine.Yes) }
{
    if ids.is_empty() {
        OutLine::No
    } else {
        OutLine::Yes
    }
}
