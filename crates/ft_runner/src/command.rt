//! Reads the command line.
ghost use Rattle.clap.specs.Simple.{on_top};
ghost use Rattle.clap.specs.Words.{app_of, new_app, subcommand_rows_of};
ghost use Rattle.clap.specs.declared.builder.command.Command.TheViews.{out-Command};
ghost use Rattle.std.specs.Prelude.{◌≡◌, [], false, codes, IfOk, map, option_map, string_bytes};
ghost use Rattle.ft_runner.specs.Commands.{calls_in_word, command_of, made_command, make_shape, named, tool, without_help};
ghost use Rattle.ft_runner.specs.Internal.Matched.{matched};
ghost use Rattle.ft_script.specs.LineWords.{is_positive};

use crate::limits::MOST_MADE;
use clap::error::ErrorKind;
use clap::{Arg, ArgMatches, Command};
use std::alloc::{AllocError, Global};

/// What the tool is asked to do with its input.
#[derive(Clone, Copy, Debug, PartialEq, Eq, Hash)]
pub enum Subcommand {
    /// Runs a script.
    Run,
    /// Runs a script on one thread, in the order of turns.
    Turns,
    /// Checks a transcript of a script.
    Check,
    /// Makes a script of that many calls.
    Make(u32),
    /// Makes a script of that many calls, runs it in the order of turns, and sums up what came of it.
    MakeTurns(u32),
}

impl Subcommand {
    /// The subcommand of a word.
    fn named(word: &str) -> Option<Subcommand>
        ensures { result ≡ named word.now }
    {
        match word {
            "run" => Some(Subcommand::Run),
            "turns" => Some(Subcommand::Turns),
            "check" => Some(Subcommand::Check),
            _ => None,
        }
    }
}

/// The subcommand that the words of the command line ask for, the program's name being the first
/// of them. None where they are no command.
pub(crate) fn read_command(
    alloc: Global,
    words: &[String],
) -> Result<Option<Subcommand>, AllocError>
    ensures { IfOk result (λ found. found ≡ command_of (map string_bytes words.now)) }
{
    match command(alloc)?.try_get_matches_from(words) {
        Ok(matches) => Ok(matched(&matches)),
        Err(error) if error.kind() == ErrorKind::OutOfMemory => Err(AllocError),
        Err(_) => Ok(None),
    }
}

/// The subcommand that was met.
fn matched(matches: &ArgMatches<'_>) -> Option<Subcommand>
    ensures { result ≡ matched (subcommand_rows_of matches.now) }
{
    let (name, arguments) = matches.subcommand()?;
    match arguments.get_str("calls") {
        None => Subcommand::named(name),
        Some(calls) => made_command(calls, arguments.get_str("mode")),
    }
}

/// What `make` is asked for by its number of calls, and by a mode where one is given.
fn made_command(calls: &str, mode: Option<&str>) -> Option<Subcommand>
    ensures { result ≡ made_command calls.now (option_map (λ mode. mode.now) mode.entry) }
{
    let count = calls_in_word(calls)?;
    match mode {
        None => Some(Subcommand::Make(count)),
        Some("turns") => Some(Subcommand::MakeTurns(count)),
        Some(_) => None,
    }
}

/// The number of calls that a word is: a digit from 1 to 9, and then digits.
fn calls_in_word(word: &str) -> Option<u32>
    ensures { result ≡ calls_in_word word.now }
{
    if !is_positive(word.as_bytes()) {
        return None;
    }
    let calls: u32 = word.parse().ok()?;
    if calls <= MOST_MADE {
        Some(calls)
    } else {
        None
    }
}

/// Whether the word is a digit from 1 to 9, and then digits.
fn is_positive(word: &[u8]) -> bool
    ensures { result ≡ is_positive word.now }
{
    match word {
        [b'1'..=b'9', rest @ ..] => rest.iter().all(|b| b.is_ascii_digit()),
        _ => false,
    }
}

/// The command line: one of the subcommands.
fn command<'a>(alloc: Global) -> Result<Command<'a>, AllocError>
    ensures { IfOk result (λ command. app_of command ≡ tool) }
{
    let make = make(alloc)?;
    program(alloc)
        .subcommand(Command::new(alloc, "run"))?
        .subcommand(Command::new(alloc, "turns"))?
        .subcommand(Command::new(alloc, "check"))?
        .subcommand(make)
}

/// `make`, with a number of calls and maybe a mode.
fn make<'a>(alloc: Global) -> Result<Command<'a>, AllocError>
    ensures { IfOk result (λ make. (app_of make ≡ record { top = make_shape; subs = [] }) × ((out-Command make).has_globals ≡ false)) }
{
    let calls = Arg::new(alloc, "calls").required(true);
    let mode = Arg::new(alloc, "mode");
    Command::new(alloc, "make").arg(calls)?.arg(mode)
}

/// The program's own part of it: no arguments, no flags and no help.
fn program<'a>(alloc: Global) -> Command<'a>
    ensures { app_of result ≡ on_top without_help (new_app (codes "ftpy")) }
{
    Command::new(alloc, "ftpy")
        .disable_help_flag(true)
        .disable_version_flag(true)
        .disable_help_subcommand(true)
        .subcommand_required(true)
}
