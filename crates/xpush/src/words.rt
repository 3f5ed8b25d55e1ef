//! Which command that needs no runtime the words of the command line are.

ghost use Rattle.std.specs.Prelude.{◌≡◌, false, true, option_map};
ghost use Rattle.px_options.specs.OptionAnswers.{texts};
ghost use Rattle.xpush.specs.Forms.{IsSaid, filter_form, form, have_plain_options, make_form, plain_form_of, serial_form};

use crate::options::{DOCUMENTS, FILTERS, SEED};
use px_options::{CommandOption, OptionsError, read_options};
use std::alloc::Global;

/// A command that needs no runtime, with what it is asked.
#[derive(Clone, Copy, Debug, Drop)]
pub enum Command<'a> {
    /// Whether a document matches the filter.
    Match {
        filter: &'a [u8],
    },
    /// How the filter is understood.
    Show {
        filter: &'a [u8],
    },
    /// Why a document matches the filter, or why it does not.
    Explain {
        filter: &'a [u8],
    },
    /// What a proof shows of the filter and a document.
    Verify {
        filter: &'a [u8],
    },
    /// The feed of a seed, with so many filters and documents.
    Make {
        seed: u32,
        filters: u32,
        documents: u32,
    },
    /// What a feed is answered, on one thread.
    Serial,
}

/// The options of `make`.
const MAKE_OPTIONS: [CommandOption; 3] = [SEED, FILTERS, DOCUMENTS];

/// The command that the words are, if they are in a form that needs no runtime: else `Usage`, but
/// where there was no memory to read options.
pub fn command_of(alloc: Global, words: &[String]) -> Result<Command<'_>, OptionsError>
    ensures { IsSaid form (plain_form_of (texts words.now)) (have_plain_options (texts words.now))
        result }
{
    let Some((name, rest)) = words.split_first() else {
        return Err(OptionsError::Usage);
    };
    if name.as_str() == "make" {
        make_command(alloc, rest)
    } else if name.as_str() == "serial" {
        or_usage(serial_command(rest))
    } else {
        or_usage(filter_command(name.as_str(), rest))
    }
}

// The command, if there is one.
fn or_usage(command: Option<Command<'_>>) -> Result<Command<'_>, OptionsError>
    ensures { IsSaid form (option_map form command.entry) false result }
{
    match command {
        Some(command) => Ok(command),
        None => Err(OptionsError::Usage),
    }
}

// The command of this name on the one filter that the words are.
fn filter_command<'a>(name: &str, words: &'a [String]) -> Option<Command<'a>>
    ensures { option_map form result ≡ filter_form name.now (texts words.now) }
{
    let [filter] = words else {
        return None;
    };
    let filter = filter.as_bytes();
    if name == "match" {
        Some(Command::Match { filter })
    } else if name == "show" {
        Some(Command::Show { filter })
    } else if name == "explain" {
        Some(Command::Explain { filter })
    } else if name == "verify" {
        Some(Command::Verify { filter })
    } else {
        None
    }
}

// The command `make` with the options that the words are.
fn make_command(alloc: Global, words: &[String]) -> Result<Command<'_>, OptionsError>
    ensures { IsSaid form (make_form (texts words.now)) true result }
{
    let mut values = [0; 3];
    match read_options(alloc, &MAKE_OPTIONS, words, &mut values) {
        Ok(()) => {
            let [seed, filters, documents] = values;
            Ok(Command::Make {
                seed,
                filters,
                documents,
            })
        }
        Err(error) => Err(error),
    }
}

// The command `serial`, which has no words behind its name.
fn serial_command(words: &[String]) -> Option<Command<'_>>
    ensures { option_map form result ≡ serial_form (texts words.now) }
{
    if words.is_empty() {
        Some(Command::Serial)
    } else {
        None
    }
}
