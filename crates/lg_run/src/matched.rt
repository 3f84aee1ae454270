//! The options of a command, taken by their names.
ghost use Rattle.std.specs.Prelude.{◌≡◌, ℕ, Bool, List, false, codes, IfOk, IfErr, map, string_bytes, option_map};
ghost use Rattle.clap.specs.Words.{kind_of, rule_of};
ghost use Rattle.lg_answer.specs.declared.options.Nulls.{Nulls as SeenNulls};
ghost use Rattle.lg_run.specs.declared.setup.Setup.{Setup};
ghost use Rattle.lg_run.specs.Words.{run_options, AreOptions, GivesNumber, GivesNulls, GivesSwitch, GivesWorkers, Gives, OptionsAre};
ghost use Rattle.lg_run.specs.Matched.{TellsSettings, option_rule};

use crate::options::{nulls_of, switch_of, workers_of};
use crate::setup::Setup;
use clap::error::ErrorKind;
use clap::{Arg, ArgAction, ArgMatches, Command, Error};
use lg_answer::{Nulls, Options};
use lg_base::NoMemory;
use lg_script::number_of;
use lg_text::Look;
use std::alloc::Global;

/// What the options in the words set. The words are options in form, so that only out of memory is an error.
pub(crate) fn read_setup(alloc: Global, words: &[String]) -> Result<Setup, NoMemory>
    requires { (setup : Setup) × OptionsAre run_options (map string_bytes words.now) setup }
    ensures { (setup : Setup) → OptionsAre run_options (map string_bytes words.now) setup → IfOk result (λ s. s ≡ setup) }
{
    match matches_of(alloc, words) {
        Ok(matches) => Ok(setup_in(&matches)),
        Err(_) => Err(NoMemory),
    }
}

// What clap finds in the words, which it refuses only where memory runs out.
fn matches_of(alloc: Global, words: &[String]) -> Result<ArgMatches<'_>, Error>
    requires { (settings : List (List ℕ × List ℕ)) × AreOptions run_options (map string_bytes words.now) settings }
    ensures ok { (settings : List (List ℕ × List ℕ)) → AreOptions run_options (map string_bytes words.now) settings → IfOk result (λ matches. TellsSettings matches settings) }
    ensures err { IfErr result (λ error. kind_of error ≡ ErrorKind.OutOfMemory) }
{
    let command = Command::new(alloc, "options")
        .no_binary_name(true)
        .disable_help_flag(true)
        .arg(option(alloc, "want"))?
        .arg(option(alloc, "examine"))?
        .arg(option(alloc, "nulls"))?
        .arg(option(alloc, "prune"))?
        .arg(option(alloc, "stats"))?
        .arg(option(alloc, "diagram"))?
        .arg(option(alloc, "workers"))?
        .arg(option(alloc, "idioms"))?
        .arg(option(alloc, "usage"))?;
    command.try_get_matches_from(words)
}

// An option with one value.
fn option<'a>(alloc: Global, name: &'a str) -> Arg<'a>
    ensures rule { rule_of result ≡ option_rule name.entry.now }
    ensures local { result.global ≡ false }
{
    Arg::new(alloc, name).long(name).action(ArgAction::Set)
}

fn setup_in(matches: &ArgMatches<'_>) -> Setup
    ensures { (settings : List (List ℕ × List ℕ)) (setup : Setup) → TellsSettings matches.now settings → Gives settings setup → result ≡ setup }
{
    let usual = Setup::default();
    let stats = switch_or(matches.get_str("stats"), usual.look.stats);
    Setup {
        listing: Options {
            want: number_or(matches.get_str("want"), usual.listing.want),
            examine: number_or(matches.get_str("examine"), usual.listing.examine),
            nulls: nulls_or(matches.get_str("nulls"), usual.listing.nulls),
            prune: switch_or(matches.get_str("prune"), usual.listing.prune),
            count: stats,
            workers: workers_or(matches.get_str("workers"), usual.listing.workers),
            idioms: switch_or(matches.get_str("idioms"), usual.listing.idioms),
        },
        look: Look {
            diagram: switch_or(matches.get_str("diagram"), usual.look.diagram),
            stats,
        },
        usage: switch_or(matches.get_str("usage"), usual.usage),
    }
}

// The number that the text writes, or the usual one where there is no text.
fn number_or(text: Option<&str>, usual: u64) -> u64
    ensures { (n : ℕ) → GivesNumber (option_map (λ t. t.now) text.entry) usual n → result ≡ n }
{
    text.and_then(|text| number_of(text.as_bytes()))
        .unwrap_or(usual)
}

// What the text says of unlinked words, or the usual where there is no text.
fn nulls_or(text: Option<&str>, usual: Nulls) -> Nulls
    ensures { (n : SeenNulls) → GivesNulls (option_map (λ t. t.now) text.entry) usual n → result ≡ n }
{
    text.and_then(nulls_of).unwrap_or(usual)
}

// Whether something is done, as the text says, or the usual where there is no text.
fn switch_or(text: Option<&str>, usual: bool) -> bool
    ensures { (b : Bool) → GivesSwitch (option_map (λ t. t.now) text.entry) usual b → result ≡ b }
{
    text.and_then(switch_of).unwrap_or(usual)
}

// The number of workers that the text writes, or the usual one where there is no text.
fn workers_or(text: Option<&str>, usual: u32) -> u32
    ensures { (n : ℕ) → GivesWorkers (option_map (λ t. t.now) text.entry) usual n → result ≡ n }
{
    text.and_then(workers_of).unwrap_or(usual)
}
