//! The options of `frcalc`.

ghost use Rattle.std.specs.Prelude.{◌≡◌, ◌≤◌, ◌∷◌, map, codes, false, IfOk, IfSome, IsErrOf, None, Some};
ghost use Rattle.clap.specs.Words.{app_of, rule_of, rows_of, found_of};
ghost use Rattle.fr_options.specs.Options as spec;
ghost use Rattle.fr_options.specs.declared.options.WordsFault.TheVariants as fault;

use crate::number::read_number;
use clap::error::ErrorKind;
use clap::parser::ValueSource;
use clap::{Arg, ArgAction, ArgMatches, Command};
use std::alloc::{AllocError, Global};

// The word that stands before the others, as `clap` expects it.
const PROGRAM: &str = "frcalc";

/// What the words say.
#[derive(Clone, Copy, Debug, PartialEq, Eq)]
pub struct Options {
    /// How many threads work, from 1 to 64; 4 where no word says it.
    pub workers: u16,
    /// How many questions a worker takes at a time, from 1 to 1,024; 1 where no word says it.
    pub grain: u16,
    /// The most that the script may be charged, from 1 to 1,048,576; 262,144 where no word says it.
    pub states: u32,
    /// Whether the count of what the store holds is asked for.
    pub census: bool,
    /// The seed of the demonstration, where one is asked for.
    pub demo: Option<u32>,
}

/// Why words are not read.
#[derive(Clone, Copy, Debug, PartialEq, Eq)]
pub enum WordsFault {
    /// They are not accepted.
    Usage,
    /// Memory ran out.
    NoMemory,
}

impl From<AllocError> for WordsFault {
    ghost use Rattle.std.specs.Prelude.{◌≡◌};
    ghost use Rattle.fr_options.specs.declared.options.WordsFault.TheVariants as fault;

    ghost from_gives = { λ _ e. e ≡ fault.NoMemory };

    fn from(_failed: AllocError) -> WordsFault {
        WordsFault::NoMemory
    }
}

/// The options that words give, which stand after the program's name: `--workers W`, `--grain K`, `--states N`, `--census`
/// and `--demo SEED`, each at most once and in any order.
///
/// Errors: `Usage` exactly where `clap` refuses the words for the command with these options, or a number is not one to
/// ten digits with a value in its range; `NoMemory`.
pub fn read_words(alloc: Global, words: &[String]) -> Result<Options, WordsFault>
    ensures options { IfOk result (λ o. spec.options_of (map (λ w. w.bytes.items) words.now) ≡ Some o) }
    ensures ranges { IfOk result spec.InRange }
    ensures usage { IsErrOf result fault.Usage → spec.options_of (map (λ w. w.bytes.items) words.now) ≡ None }
{
    let given = with_program(alloc, words)?;
    match command(alloc)?.try_get_matches_from(given.as_slice()) {
        Ok(matches) => read_options(&matches).ok_or(WordsFault::Usage),
        Err(error) => match error.kind() {
            ErrorKind::OutOfMemory => Err(WordsFault::NoMemory),
            _ => Err(WordsFault::Usage),
        },
    }
}

// The words behind the program's name.
fn with_program(alloc: Global, words: &[String]) -> Result<Vec<&str>, AllocError>
    ensures { IfOk result (λ given. map (λ w. w.now) given.items ≡ codes "frcalc" ∷ map (λ w. w.bytes.items) words.now) }
{
    let mut given = Vec::new(alloc);
    given.push(PROGRAM)?;
    for word in words {
        given.push(word.as_str())?;
    }
    Ok(given)
}

// The command with the options.
fn command<'a>(alloc: Global) -> Result<Command<'a>, AllocError>
    ensures { IfOk result (λ c. app_of c ≡ spec.program) }
{
    Command::new(alloc, PROGRAM)
        .arg(option(alloc, "workers"))?
        .arg(option(alloc, "grain"))?
        .arg(option(alloc, "states"))?
        .arg(flag(alloc, "census"))?
        .arg(option(alloc, "demo"))
}

// An option that takes a text.
fn option<'a>(alloc: Global, name: &'a str) -> Arg<'a>
    ensures rule { rule_of result ≡ spec.option_rule name.entry.now }
    ensures local { result.global ≡ false }
{
    Arg::new(alloc, name).long(name).action(ArgAction::Set)
}

// An option that takes nothing.
fn flag<'a>(alloc: Global, name: &'a str) -> Arg<'a>
    ensures rule { rule_of result ≡ spec.flag_rule name.entry.now }
    ensures local { result.global ≡ false }
{
    Arg::new(alloc, name).long(name).action(ArgAction::SetTrue)
}

// What matches say, if their texts are numbers in their ranges.
fn read_options(matches: &ArgMatches) -> Option<Options>
    ensures options { result ≡ spec.options_in (rows_of (found_of matches.now)) }
    ensures ranges { IfSome result spec.InRange }
{
    Some(Options {
        workers: number(matches, "workers", 4, 1, 64)? as u16,
        grain: number(matches, "grain", 1, 1, 1024)? as u16,
        states: number(matches, "states", 262_144, 1, 1_048_576)?,
        census: is_given(matches, "census"),
        demo: seed(matches, "demo")?,
    })
}

// The number of an option, if its text is one in the range; the usual one where it is not given.
fn number(matches: &ArgMatches, name: &str, usual: u32, least: u32, most: u32) -> Option<u32>
    requires least { least ≤ usual }
    requires most { usual ≤ most }
    ensures number { result ≡ spec.number_in (rows_of (found_of matches.now)) name.now usual least most }
    ensures range { IfSome result (λ n. (least ≤ n) × (n ≤ most)) }
{
    match matches.get_str(name) {
        Some(text) => read_number(text, least, most),
        None => Some(usual),
    }
}

// Whether words give an option.
fn is_given(matches: &ArgMatches, name: &str) -> bool
    ensures { result ≡ spec.is_given (rows_of (found_of matches.now)) name.now }
{
    matches.value_source(name) == Some(ValueSource::CommandLine)
}

// The seed that an option gives, if it is one; an inner `None` where the option is not given.
fn seed(matches: &ArgMatches, name: &str) -> Option<Option<u32>>
    ensures { result ≡ spec.seed_in (rows_of (found_of matches.now)) name.now }
{
    match matches.get_str(name) {
        Some(text) => read_number(text, 0, u32::MAX).map(Some),
        None => Some(None),
    }
}
