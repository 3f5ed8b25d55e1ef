//! The options of a command, read by `clap`: words in any order, each option at most once, spelt
//! `--name VALUE` or `--name=VALUE`.
#![tactic(auto)]

mod numbers;

ghost use Rattle.std.specs.Prelude.{◌≡◌, ◌≢◌, false, codes, IfOk, IsTrue, length, map, string_bytes};
ghost use Rattle.std.specs.List.{list_all};
ghost use Rattle.clap.specs.Words.{app_of, found_of, kind_of, rule_of as rule_of_arg};
ghost use Rattle.clap.specs.declared.error.kind.ErrorKind.TheVariants.{OutOfMemory};
ghost use Rattle.px_options.specs.Commands.{asked_app, asked_rule};
ghost use Rattle.px_options.specs.FoundValues.{value_found};
ghost use Rattle.px_options.specs.OptionAnswers.{HasWritten, ReadsValues, has_name, is_word, name_of, rule_of, texts};
ghost use Rattle.px_options.specs.OptionWords.{all_of, values_in};
ghost use Rattle.px_options.specs.declared.OptionsError.TheVariants.{Memory, Usage};

use crate::numbers::number_within;
use clap::error::ErrorKind;
use clap::{Arg, ArgAction, ArgMatches, Command};
use std::alloc::{AllocError, Global};

/// An option that a command takes.
#[derive(Clone, Copy, Debug, Drop)]
pub struct CommandOption {
    /// Its name, without the hyphens.
    pub name: &'static str,
    /// The least that its value may be.
    pub least: u32,
    /// The most that its value may be.
    pub most: u32,
    /// Its value where it is not given; without one it has to be given.
    pub default: Option<u32>,
}

/// Why no options were read.
#[derive(Clone, Copy, Debug, Drop, PartialEq, thiserror::Error)]
pub enum OptionsError {
    /// The words do not give each option its value.
    #[error("the words are no options of the command")]
    Usage,
    /// Memory was refused.
    #[error("out of memory")]
    Memory,
}

impl From<AllocError> for OptionsError {
    ghost from_gives = { λ _ e. e ≡ Memory };

    fn from(_error: AllocError) -> OptionsError {
        OptionsError::Memory
    }
}

/// Reads the words as uses of these options, and writes the value of each option at its place.
///
/// It answers `Usage` exactly where the words are not in that form, but for want of memory: a value
/// is one to ten ASCII digits and in the range, no option is given twice, and each without a
/// default is given. After an error the values written count for nothing.
pub fn read_options(
    alloc: Global,
    options: &[CommandOption],
    words: &[String],
    values: &mut [u32],
) -> Result<(), OptionsError>
    requires places { length options.now ≡ length values.old }
    requires named { IsTrue (list_all has_name options.now) }
    ensures { ReadsValues (values_in (map rule_of options.now) (texts words.now)) result
        values.new }
{
    if !are_words(words) {
        return Err(OptionsError::Usage);
    }
    let command = command_for(alloc, options)?;
    match command.try_get_matches_from(words) {
        Ok(matches) => {
            if write_values(options, &matches, values) {
                Ok(())
            } else {
                Err(OptionsError::Usage)
            }
        }
        Err(error) => Err(refusal_of(&error)),
    }
}

// What an error of `clap` comes to: each but want of memory is one of the words.
fn refusal_of(error: &clap::Error) -> OptionsError
    ensures usage { result ≡ Usage → kind_of error.now ≢ OutOfMemory }
    ensures memory { result ≡ Memory → kind_of error.now ≡ OutOfMemory }
{
    match error.kind() {
        ErrorKind::OutOfMemory => OptionsError::Memory,
        _ => OptionsError::Usage,
    }
}

// Whether no word is `--`, behind which `clap` reads no options.
fn are_words(words: &[String]) -> bool
    ensures { result ≡ list_all (λ word. is_word (string_bytes word)) words.now }
{
    words.iter().all(|word| is_option_word(word.as_str()))
}

// Whether the word is not `--`.
fn is_option_word(word: &str) -> bool
    ensures { result ≡ is_word word.now }
{
    word != "--"
}

// The command that takes these options.
fn command_for<'a>(alloc: Global, options: &[CommandOption]) -> Result<Command<'a>, AllocError>
    ensures { IfOk result (λ command. app_of command ≡
        asked_app (codes "xpush") (map name_of options.now)) }
{
    let mut command = Command::new(alloc, "xpush")
        .no_binary_name(true)
        .disable_help_flag(true);
    for option in options {
        command = command.arg(option_arg(alloc, option.name))?;
    }
    Ok(command)
}

// The argument that is spelt `--name` and takes one value.
fn option_arg<'a>(alloc: Global, name: &'a str) -> Arg<'a>
    ensures rule { rule_of_arg result ≡ asked_rule name.entry.now }
    ensures local { result.global ≡ false }
{
    Arg::new(alloc, name).long(name).action(ArgAction::Set)
}

// Writes the value of each option at its place, where each has one.
fn write_values(options: &[CommandOption], matches: &ArgMatches<'_>, values: &mut [u32]) -> bool
    requires { length options.now ≡ length values.old }
    ensures { HasWritten (all_of (map (value_found (found_of matches.now)) options.now)) result
        values.new }
{
    for (place, option) in options.iter().enumerate() {
        match value_of(option, matches) {
            Some(value) => values[place] = value,
            None => return false,
        }
    }
    true
}

// The value of the option: its text's, or its default.
fn value_of(option: &CommandOption, matches: &ArgMatches<'_>) -> Option<u32>
    ensures { result ≡ value_found (found_of matches.now) option.now }
{
    match matches.get_str(option.name) {
        Some(text) => number_within(option.least, option.most, text.as_bytes()),
        None => option.default,
    }
}
