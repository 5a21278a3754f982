// The arguments of the command line: which of them are options, each at most once and with a number, by a simple
// command of `clap`. It takes no abbreviation, no `--` and no help.
ghost use Rattle.std.specs.Prelude.{◌≡◌, ◌≤◌, Some, None, IfSome, IfOk, IfErr, IsErrOf, codes, map, option_map};
ghost use Rattle.std.specs.List.{list_all, list_any};
ghost use Rattle.std.specs.Char.{is_ascii_digit};
ghost use Rattle.std.specs.Str.{bytes_eq};
ghost use Rattle.std.specs.Option.{option_to_list};
ghost use Rattle.std.specs.String.{string_bytes};
ghost use Rattle.clap.specs.Words.{first_value, found_of, kind_of};
ghost use Rattle.command_line.specs.Words as spec;
ghost use Rattle.demo_data.specs.Demo.{greatest_demo};
ghost use Rattle.command_line.specs.Limits.{max_work};
ghost use Rattle.command_line.specs.Words.{options_of, options_of_numbers, word_texts};

use clap::error::ErrorKind;
use clap::{Arg, ArgAction, ArgMatches, Command, Error};
use demo_data::MAX_DEMO;
use std::alloc::{AllocError, Global};

/// The most units of work of a query, where the arguments give none: 2^62.
const MAX_WORK: u64 = 4611686018427387904;

/// What a command line asks for.
#[derive(Clone, Copy)]
pub struct Options {
    /// The most units of work of a query or an audit, from 0 to 2^62.
    pub max_work: u64,
    /// The number of the demonstration, from 1 to 2000, where it is to be shown.
    pub demo: Option<u32>,
}

/// Why the arguments give no options.
#[derive(Clone, Copy)]
pub enum WordsFault {
    /// They are no command line.
    BadWords,
    /// Out of memory.
    NoMemory,
}

impl From<AllocError> for WordsFault {
    ghost use Rattle.command_line.specs.declared.words.WordsFault.TheVariants.{NoMemory};

    ghost from_gives = { λ _ fault. fault ≡ NoMemory };

    fn from(_: AllocError) -> WordsFault {
        WordsFault::NoMemory
    }
}

// Each byte is a decimal digit.
fn are_digits(bytes: &[u8]) -> bool
    ensures { result ≡ list_all is_ascii_digit bytes.now }
{
    bytes.iter().all(|byte| byte.is_ascii_digit())
}

// The text is 1 to 19 decimal digits.
fn is_number(text: &str) -> bool
    ensures { result ≡ spec.is_number text.now }
{
    1 <= text.len() && text.len() <= 19 && are_digits(text.as_bytes())
}

// The number that the text is, within these bounds.
fn number_within(text: &str, least: u64, most: u64) -> Option<u64>
    ensures number { result ≡ spec.number_within least most text.now }
    ensures bounded { IfSome result (λ number. least ≤ number × number ≤ most) }
{
    if !is_number(text) {
        return None;
    }
    match text.parse::<u64>() {
        Ok(number) if least <= number && number <= most => Some(number),
        _ => None,
    }
}

// The number that is given, if one is.
fn number_given(text: Option<&str>, least: u64, most: u64) -> Result<Option<u64>, WordsFault>
    ensures given { IfOk result (λ number. spec.at_most_one_within least most
        (option_to_list (option_map (λ text. text.now) text.entry)) ≡ Some number) }
    ensures bounded { IfOk result (λ given. IfSome given (λ number.
        least ≤ number × number ≤ most)) }
    ensures refused { IfErr result (λ _. spec.at_most_one_within least most
        (option_to_list (option_map (λ text. text.now) text.entry)) ≡ None) }
{
    match text {
        None => Ok(None),
        Some(text) => match number_within(text, least, most) {
            Some(number) => Ok(Some(number)),
            None => Err(WordsFault::BadWords),
        },
    }
}

// Whether a word is `--`, which `clap` passes over.
fn has_hyphens(words: &[String]) -> bool
    ensures { result ≡ list_any (λ word. bytes_eq (string_bytes word) (codes "--")) words.now }
{
    words.iter().any(|word| word.as_str() == "--")
}

// What an error of `clap` means for a command line.
fn fault_of(error: &Error) -> WordsFault
    ensures { kind_of error.now ≡ ErrorKind.OutOfMemory → result ≡ WordsFault.NoMemory }
{
    match error.kind() {
        ErrorKind::OutOfMemory => WordsFault::NoMemory,
        _ => WordsFault::BadWords,
    }
}

// The texts that the words give for the options, as `clap` reads them.
fn matched<'a>(alloc: Global, words: &'a [String]) -> Result<ArgMatches<'a>, WordsFault>
    ensures matched { IfOk result (λ matches. options_of (word_texts words.now)
        ≡ options_of_numbers (option_to_list (first_value (found_of matches) (codes "max-work")))
        (option_to_list (first_value (found_of matches) (codes "demo")))) }
    ensures refused { IsErrOf result WordsFault.BadWords →
        options_of (word_texts words.now) ≡ None }
{
    if has_hyphens(words) {
        return Err(WordsFault::BadWords);
    }
    let max_work = Arg::new(alloc, "max-work")
        .long("max-work")
        .action(ArgAction::Set);
    let demo = Arg::new(alloc, "demo").long("demo").action(ArgAction::Set);
    let command = Command::new(alloc, "bouquet")
        .no_binary_name(true)
        .disable_help_flag(true)
        .arg(max_work)?
        .arg(demo)?;
    match command.try_get_matches_from(words) {
        Ok(matches) => Ok(matches),
        Err(error) => Err(fault_of(&error)),
    }
}

/// The options that the words give.
pub fn read_words(alloc: Global, words: &[String]) -> Result<Options, WordsFault>
    ensures read { IfOk result (λ options.
        options_of (word_texts words.now)
        ≡ Some (record { max_work = options.max_work; demo = options.demo })) }
    ensures refused { IsErrOf result WordsFault.BadWords →
        options_of (word_texts words.now) ≡ None }
    ensures most { IfOk result (λ options. options.max_work ≤ max_work) }
    ensures demo { IfOk result (λ options. IfSome options.demo (λ number.
        1 ≤ number × number ≤ greatest_demo)) }
{
    let matches = matched(alloc, words)?;
    let max_work = number_given(matches.get_str("max-work"), 0, MAX_WORK)?;
    let demo = number_given(matches.get_str("demo"), 1, MAX_DEMO as u64)?;
    Ok(Options {
        max_work: max_work.unwrap_or(MAX_WORK),
        demo: match demo {
            Some(number) => Some(number as u32),
            None => None,
        },
    })
}
