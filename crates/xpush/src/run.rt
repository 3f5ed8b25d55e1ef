//! The top call: every command, with a runtime for those that need one.

ghost use Rattle.std.specs.Prelude.{◌≡◌, Bool, IfOk, IfSome, IsNone, Option};
ghost use Rattle.px_options.specs.OptionAnswers.{texts};
ghost use Rattle.xpush.specs.Answers.{Ran, RanNot, RanSaid, moment, refused};
ghost use Rattle.xpush.specs.Forms.{Form, IsLawful, IsSaid, form_of, have_options, hub_form};

use crate::hub_words::{HubCommand, hub_command_of};
use crate::plain::plain;
use px_feed::Status;
use px_io::{Gate, Sink, Source};
use px_options::OptionsError;
use px_parallel::{feed as answer_feed, load};
use std::alloc::Global;
use std::sync::Wait;
use std::thread::Threads;

/// Runs the command that the words are, from the source to the sink, and answers its status.
///
/// `feed` is answered over a hub, with the output of `serial` for every number of workers, and
/// `load` writes the sums over such an output. The other commands need no runtime, and all that
/// `plain` promises of them is promised here.
pub fn run<R: Threads + Wait + Sync, S: Source, K: Sink, G: Gate>(
    rt: &R,
    alloc: Global,
    words: &[String],
    source: &mut S,
    sink: &mut K,
    gate: &G,
) -> Status
    ensures ran { IfSome (form_of (texts words.now)) (λ said. Ran said
        (moment (S.left source.old) (K.held sink.old) (S.faults source.old) (K.faults sink.old))
        (moment (S.left source.new) (K.held sink.new) (S.faults source.new) (K.faults sink.new))
        result) }
    ensures no_form { IsNone (form_of (texts words.now)) → RanNot (have_options (texts words.now))
        (moment (S.left source.old) (K.held sink.old) (S.faults source.old) (K.faults sink.old))
        (moment (S.left source.new) (K.held sink.new) (S.faults source.new) (K.faults sink.new))
        result }
{
    match hub_command_of(alloc, words) {
        Some(said) => run_said(rt, alloc, said, source, sink, gate),
        None => plain(alloc, words, source, sink),
    }
}

// Runs the command that was said, if one was.
fn run_said<R: Threads + Wait + Sync, S: Source, K: Sink, G: Gate>(
    rt: &R,
    alloc: Global,
    said: Result<HubCommand, OptionsError>,
    source: &mut S,
    sink: &mut K,
    gate: &G,
) -> Status
    requires lawful { IfOk said IsLawful }
    ensures { (form : Option Form) (has_options : Bool) → IsSaid hub_form form has_options said →
        RanSaid form has_options
        (moment (S.left source.old) (K.held sink.old) (S.faults source.old) (K.faults sink.old))
        (moment (S.left source.new) (K.held sink.new) (S.faults source.new) (K.faults sink.new))
        result }
{
    match said {
        Ok(command) => run_command(rt, alloc, command, source, sink, gate),
        Err(error) => refusal_of(error),
    }
}

// How a run ends whose words were not read.
fn refusal_of(error: OptionsError) -> Status
    ensures { result ≡ refused error }
{
    match error {
        OptionsError::Usage => Status::Usage,
        OptionsError::Memory => Status::Memory,
    }
}

// Runs the command from the source to the sink.
fn run_command<R: Threads + Wait + Sync, S: Source, K: Sink, G: Gate>(
    rt: &R,
    alloc: Global,
    command: HubCommand,
    source: &mut S,
    sink: &mut K,
    gate: &G,
) -> Status
    requires lawful { IsLawful command }
    ensures { Ran (hub_form command)
        (moment (S.left source.old) (K.held sink.old) (S.faults source.old) (K.faults sink.old))
        (moment (S.left source.new) (K.held sink.new) (S.faults source.new) (K.faults sink.new))
        result }
{
    match command {
        HubCommand::Feed { config } => answer_feed(rt, alloc, config, source, sink, gate),
        HubCommand::Load { feed, config } => load(rt, alloc, config, feed, sink, gate),
    }
}
