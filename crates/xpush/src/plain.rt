//! The commands that need no runtime.

ghost use Rattle.std.specs.Prelude.{IfSome, IsNone};
ghost use Rattle.px_options.specs.OptionAnswers.{texts};
ghost use Rattle.xpush.specs.Answers.{Ran, RanNot, moment};
ghost use Rattle.xpush.specs.Forms.{form, have_plain_options, plain_form_of};

use crate::making::make_feed;
use crate::matching::match_document;
use crate::proving::{explain_document, verify_proof};
use crate::showing::show_filter;
use crate::words::{Command, command_of};
use px_feed::Status;
use px_io::{Sink, Source};
use px_options::OptionsError;
use px_serial::serve_feed;
use std::alloc::Global;

/// Runs the command that the words are, from the source to the sink, and answers its status.
///
/// At `Done` and `Refused` the bytes written are the whole output, and at `WriteFault` and
/// `Memory` its front. After a read fault nothing is written, but for `serial`, which has written
/// the lines of the items that are whole in the bytes read; the filter has no fault, and no line
/// that is whole in the bytes read is at fault. Words that are in no form are `Usage`, but for want
/// of memory, and read and write nothing.
pub fn plain<S: Source, K: Sink>(
    alloc: Global,
    words: &[String],
    source: &mut S,
    sink: &mut K,
) -> Status
    ensures ran { IfSome (plain_form_of (texts words.now)) (λ said. Ran said
        (moment (S.left source.old) (K.held sink.old) (S.faults source.old) (K.faults sink.old))
        (moment (S.left source.new) (K.held sink.new) (S.faults source.new) (K.faults sink.new))
        result) }
    ensures no_form { IsNone (plain_form_of (texts words.now)) →
        RanNot (have_plain_options (texts words.now))
        (moment (S.left source.old) (K.held sink.old) (S.faults source.old) (K.faults sink.old))
        (moment (S.left source.new) (K.held sink.new) (S.faults source.new) (K.faults sink.new))
        result }
{
    match command_of(alloc, words) {
        Ok(command) => run_command(alloc, command, source, sink),
        Err(OptionsError::Usage) => Status::Usage,
        Err(OptionsError::Memory) => Status::Memory,
    }
}

// Runs the command from the source to the sink.
fn run_command<S: Source, K: Sink>(
    alloc: Global,
    command: Command<'_>,
    source: &mut S,
    sink: &mut K,
) -> Status
    ensures { Ran (form command.entry)
        (moment (S.left source.old) (K.held sink.old) (S.faults source.old) (K.faults sink.old))
        (moment (S.left source.new) (K.held sink.new) (S.faults source.new) (K.faults sink.new))
        result }
{
    match command {
        Command::Match { filter } => match_document(alloc, filter, source, sink),
        Command::Show { filter } => show_filter(alloc, filter, sink),
        Command::Explain { filter } => explain_document(alloc, filter, source, sink),
        Command::Verify { filter } => verify_proof(alloc, filter, source, sink),
        Command::Make {
            seed,
            filters,
            documents,
        } => make_feed(alloc, seed, filters, documents, sink),
        Command::Serial => serve_feed(alloc, source, sink),
    }
}
