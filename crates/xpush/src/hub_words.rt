//! Which command over a hub the words of the command line are.
ghost use Rattle.std.specs.Prelude.{◌≡◌, ◌≤◌, true, None, IfOk, IfSome};
ghost use Rattle.px_options.specs.OptionAnswers.{texts};
ghost use Rattle.xpush.specs.Forms.{IsLawful, IsPlain, IsSaid, feed_form, form_of, have_options, hub_form, hub_of, load_form};

use crate::options::{BANKS, DOCUMENTS, FILTERS, NODE_BITS, SEED, STEP_BITS, WORKERS};
use px_hub::Config;
use px_options::{CommandOption, OptionsError, read_options};
use px_parallel::Generated;
use std::alloc::Global;

/// A command over a hub, with what it is asked.
#[derive(Clone, Copy, Debug, Drop)]
pub enum HubCommand {
    /// What a feed is answered, by any number of workers.
    Feed { config: Config },
    /// The sums over what a generated feed is answered.
    Load { feed: Generated, config: Config },
}

/// The options of `feed`.
const FEED_OPTIONS: [CommandOption; 4] = [WORKERS, BANKS, NODE_BITS, STEP_BITS];

/// The options of `load`.
const LOAD_OPTIONS: [CommandOption; 7] = [
    SEED, FILTERS, DOCUMENTS, WORKERS, BANKS, NODE_BITS, STEP_BITS,
];

/// The command over a hub that the words name, if they name one: else they are those of a command
/// that needs no runtime, or in no form.
pub(crate) fn hub_command_of(
    alloc: Global,
    words: &[String],
) -> Option<Result<HubCommand, OptionsError>>
    ensures said { IfSome result (IsSaid hub_form (form_of (texts words.now))
        (have_options (texts words.now))) }
    ensures lawful { IfSome result (λ said. IfOk said IsLawful) }
    ensures plain { result ≡ None → IsPlain (texts words.now) }
{
    let (name, rest) = words.split_first()?;
    if name.as_str() == "feed" {
        Some(feed_command(alloc, rest))
    } else if name.as_str() == "load" {
        Some(load_command(alloc, rest))
    } else {
        None
    }
}

// The command `feed` with the options that the words are.
fn feed_command(alloc: Global, words: &[String]) -> Result<HubCommand, OptionsError>
    ensures said { IsSaid hub_form (feed_form (texts words.now)) true result }
    ensures lawful { IfOk result IsLawful }
{
    let mut values = [0; 4];
    match read_options(alloc, &FEED_OPTIONS, words, &mut values) {
        Ok(()) => {
            let [workers, banks, node_bits, step_bits] = values;
            let config = config_of(workers, banks, node_bits, step_bits);
            Ok(HubCommand::Feed { config })
        }
        Err(error) => Err(error),
    }
}

// The command `load` with the options that the words are.
fn load_command(alloc: Global, words: &[String]) -> Result<HubCommand, OptionsError>
    ensures said { IsSaid hub_form (load_form (texts words.now)) true result }
    ensures lawful { IfOk result IsLawful }
{
    let mut values = [0; 7];
    match read_options(alloc, &LOAD_OPTIONS, words, &mut values) {
        Ok(()) => {
            let [
                seed,
                filters,
                documents,
                workers,
                banks,
                node_bits,
                step_bits,
            ] = values;
            let feed = Generated {
                seed,
                filters,
                documents,
            };
            let config = config_of(workers, banks, node_bits, step_bits);
            Ok(HubCommand::Load { feed, config })
        }
        Err(error) => Err(error),
    }
}

// A hub with a pass for each worker, and one that makes the changes.
fn config_of(workers: u32, banks: u32, node_bits: u32, step_bits: u32) -> Config
    requires { workers ≤ 64 }
    ensures { result ≡ hub_of workers banks node_bits step_bits }
{
    Config {
        passes: workers + 1,
        banks,
        node_bits,
        step_bits,
    }
}
