//! The command `show`: how a filter is understood.

ghost use Rattle.std.specs.Prelude.{◌≡◌, ◌≤◌, ◌++◌, ◌∷◌, ◌||◌, [], List, ℕ, Option, IfOk, IsTrue};
ghost use Rattle.px_feed.specs.Matches.{OutShow};
ghost use Rattle.px_io.specs.Faults.{Rose};
ghost use Rattle.xpush.specs.Runs.{Shown, WritesFront};
ghost use Rattle.px_lines.specs.Served.{is_finished, is_cut_short};
ghost use Rattle.px_xpath.specs.Whole.{filter as way_of};
ghost use Rattle.xpush.specs.Forms.{Shows};
ghost use Rattle.xpush.specs.Showing.{ShowsPrinted, ShowsRefusal};

use px_feed::{OutLine, Status, line_of};
use px_io::Sink;
use px_lines::write_answer;
use px_text::Bytes;
use px_xpath::{Filter, ParseFault, parse, print};
use std::alloc::{AllocError, Global};

/// What is written for a filter, and how the run ends then.
#[derive(Drop)]
struct Answer {
    text: Bytes,
    status: Status,
}

/// Writes the printed form of the filter, or the line of its fault.
pub fn show_filter<K: Sink>(alloc: Global, filter: &[u8], sink: &mut K) -> Status
    ensures ends { IsTrue (is_finished result || is_cut_short result) }
    ensures output { IsTrue (is_finished result) → (left : Option (List ℕ)) →
        Shown filter.now left left (K.held sink.old) (K.held sink.new) result }
    ensures front { IsTrue (is_cut_short result) → (left : Option (List ℕ)) →
        WritesFront (Shows filter.now) left (K.held sink.old) (K.held sink.new) }
    ensures write_fault { result ≡ Status.WriteFault →
        Rose (K.faults sink.old) (K.faults sink.new) }
    ensures sink_counts { K.faults sink.old ≤ K.faults sink.new }
{
    match answer_to(alloc, filter) {
        Ok(answer) => write_answer(answer.text.as_slice(), answer.status, sink),
        Err(_) => Status::Memory,
    }
}

// What is written for a filter's text. Its only failure is want of memory.
fn answer_to(alloc: Global, filter: &[u8]) -> Result<Answer, AllocError>
    ensures out { IfOk result (λ answer. OutShow filter.now answer.text answer.status) }
    ensures finished { IfOk result (λ answer. IsTrue (is_finished answer.status)) }
{
    match parse(alloc, filter) {
        Ok(found) => printed(alloc, &found),
        Err(fault) => refused(alloc, fault),
    }
}

// The printed form of a filter.
fn printed(alloc: Global, filter: &Filter) -> Result<Answer, AllocError>
    ensures out { IfOk result (λ answer. ShowsPrinted (way_of filter.now) answer.text
        answer.status) }
    ensures finished { IfOk result (λ answer. IsTrue (is_finished answer.status)) }
{
    let text = print(alloc, filter)?;
    Ok(Answer {
        text: with_line_feed(alloc, &text)?,
        status: Status::Done,
    })
}

// The line of a filter's fault.
fn refused(alloc: Global, fault: ParseFault) -> Result<Answer, AllocError>
    ensures out { IfOk result (λ answer. ShowsRefusal fault answer.text answer.status) }
    ensures finished { IfOk result (λ answer. IsTrue (is_finished answer.status)) }
{
    match fault {
        ParseFault::Filter(fault) => Ok(Answer {
            text: line_of(alloc, &OutLine::NoFilter(fault))?,
            status: Status::Refused,
        }),
        ParseFault::Memory => Err(AllocError),
    }
}

// The text and a line feed behind it.
fn with_line_feed(alloc: Global, text: &Bytes) -> Result<Bytes, AllocError>
    ensures { IfOk result (λ line. line ≡ text.now ++ 10 ∷ []) }
{
    let mut line = Vec::from_slice(alloc, text.as_slice())?;
    line.push(b'\n')?;
    Ok(Bytes::from_vec(line))
}
