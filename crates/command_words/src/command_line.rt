ghost use Rattle.std.specs.Prelude.{◌≡◌, ◌≤◌, ◌^◌, ◌-◌, IfOk, IfSome, bytes_eq, codes, false, map, option_map};
ghost use Rattle.std.specs.List.{join_by};
ghost use Rattle.std.specs.Option.{option_map_or};
ghost use Rattle.std.specs.String.{string_bytes};
ghost use Rattle.clap.specs.Words.{all_of, first_of, found_of, kind_of, rows_of, subcommand_rows_of};
ghost use Rattle.command_words.specs.Words.{clerk_in, command_in, control_in, drill_in, half_in, kind_in, number_at, number_if_given, number_in, server_in, show_in};
ghost use Rattle.command_words.specs.Reading.{IsInRange, IsReading, greatest_of, id_of};
ghost use Rattle.command_words.specs.Finding.{Finds, FindsCommand, FindsIfRoom, refusal_of};

use crate::syntax::{
    LATEST_START, MOST_EVENTS, MOST_INACCURACY, MOST_SEED, MOST_TURNS, MOST_WORKERS, dts,
};
use clap::error::ErrorKind;
use clap::{ArgMatches, Error as ClapError};
use dts_base::{NoMemory, Text};
use line_reader::number_in;
use std::alloc::{AllocError, Global};
use std::fmt;
use thiserror::Error;

/// What the words of a command line ask for.
#[derive(Debug, PartialEq, Eq, Drop)]
pub enum CommandLine {
    /// Replays a capture.
    Replay {
        /// By the roster file.
        roster: bool,
    },
    /// Keeps a clock.
    Clerk(HalfOptions),
    /// Keeps a clock, and answers those who ask for the time.
    Server {
        /// What the sync half goes by.
        options: HalfOptions,
        /// How many halves answer.
        workers: u32,
    },
    /// Computes with timestamps.
    Utc,
    /// Orders the lines of several hosts.
    Order,
    /// Shows the fields of octets.
    Show(ShowKind),
    /// Replays a made capture.
    Drill {
        /// What the capture is made from.
        seed: u32,
        /// How many events it has.
        events: u32,
    },
    /// Sends a command.
    Control {
        /// Where to.
        address: Text,
        /// Its words, joined by single spaces.
        command: Text,
    },
}

/// What a sync half goes by.
#[derive(Clone, Copy, Debug, PartialEq, Eq)]
pub struct HalfOptions {
    /// How many turns it makes.
    pub turns: u64,
    /// The time that it starts with, in 100 ns since 1582-10-15.
    pub start: u64,
    /// How wrong that time may be, in 100 ns; unknown where there is none.
    pub inaccuracy: Option<u64>,
}

/// What `show` shows.
#[derive(Clone, Copy, Debug, PartialEq, Eq)]
pub enum ShowKind {
    /// A PDU.
    Pdu,
    /// An NTP packet.
    Ntp,
    /// A timestamp.
    Utc,
}

/// A number that a command takes.
#[derive(Clone, Copy, Debug, PartialEq, Eq)]
pub enum NumberName {
    /// How many turns a half makes.
    Turns,
    /// The time that a half starts with.
    Start,
    /// How wrong that time may be.
    Inaccuracy,
    /// How many halves answer.
    Workers,
    /// What a capture is made from.
    Seed,
    /// How many events it has.
    Events,
}

impl NumberName {
    /// Its name in the words and in messages.
    pub fn id(self) -> &'static str
        ensures id { result.now ≡ id_of self }
    {
        match self {
            NumberName::Turns => "turns",
            NumberName::Start => "start",
            NumberName::Inaccuracy => "inaccuracy",
            NumberName::Workers => "workers",
            NumberName::Seed => "seed",
            NumberName::Events => "events",
        }
    }

    /// The greatest that it may be.
    pub fn greatest(self) -> u64
        ensures greatest { result ≡ greatest_of self }
    {
        match self {
            NumberName::Turns => MOST_TURNS,
            NumberName::Start => LATEST_START,
            NumberName::Inaccuracy => MOST_INACCURACY,
            NumberName::Workers => MOST_WORKERS,
            NumberName::Seed => MOST_SEED,
            NumberName::Events => MOST_EVENTS,
        }
    }
}

impl fmt::Display for NumberName {
    fn fmt<W: fmt::Write>(&self, f: &mut fmt::Formatter<W>) -> fmt::Result {
        f.write_str(self.id())
    }
}

/// Why words are no command. Its text is for the user.
#[derive(Debug, Drop, Error)]
pub enum NoCommand {
    /// They ask for the help or for the version: the text.
    #[error("{0}")]
    Shown(ClapError),
    /// No command takes them.
    #[error("{0}")]
    Refused(ClapError),
    /// This number has not its form.
    #[error("{0}: a number is in decimal, without a sign and leading zeros")]
    Number(NumberName),
    /// `show` does not know the kind.
    #[error("KIND is pdu, ntp or utc")]
    Kind,
    /// A word that the command needs is not there.
    #[error("a word is missing")]
    Missing,
    /// No memory was found.
    #[error("out of memory")]
    NoMemory,
}

impl From<ClapError> for NoCommand {
    ghost from_gives = { λ error result. result ≡ refusal_of (kind_of error) error };

    fn from(error: ClapError) -> NoCommand {
        match error.kind() {
            ErrorKind::OutOfMemory => NoCommand::NoMemory,
            ErrorKind::DisplayHelp | ErrorKind::DisplayVersion => NoCommand::Shown(error),
            _ => NoCommand::Refused(error),
        }
    }
}

impl From<AllocError> for NoCommand {
    ghost use Rattle.command_words.specs.declared.command_line.NoCommand.{NoCommand};

    ghost from_gives = { λ error result. result ≡ NoCommand.NoMemory };

    fn from(_error: AllocError) -> NoCommand {
        NoCommand::NoMemory
    }
}

impl From<NoMemory> for NoCommand {
    ghost use Rattle.command_words.specs.declared.command_line.NoCommand.{NoCommand};

    ghost from_gives = { λ error result. result ≡ NoCommand.NoMemory };

    fn from(_error: NoMemory) -> NoCommand {
        NoCommand::NoMemory
    }
}

/// Reads the words after the program's name.
pub fn read_words(alloc: Global, words: &[String]) -> Result<CommandLine, NoCommand>
    ensures read { IsReading (map string_bytes words.now) result }
    ensures in_range { IfOk result IsInRange }
{
    let matches = match dts(alloc)?.try_get_matches_from(words) {
        Ok(matches) => matches,
        Err(error) => return Err(NoCommand::from(error)),
    };
    found(alloc, &matches)
}

// The command that was found, if its values have their forms.
#[tactic(auto, using(crate::proofs::WordFacts::pair_found, crate::proofs::WordFacts::none_found))]
fn found(alloc: Global, matches: &ArgMatches<'_>) -> Result<CommandLine, NoCommand>
    ensures found { FindsCommand (subcommand_rows_of matches.now) result }
    ensures in_range { IfOk result IsInRange }
{
    match matches.subcommand() {
        Some((name, matches)) => command_line(alloc, name, matches),
        None => Err(NoCommand::Missing),
    }
}

// The command of this name, with what was given to it.
fn command_line(
    alloc: Global,
    name: &str,
    matches: &ArgMatches<'_>,
) -> Result<CommandLine, NoCommand>
    ensures line { FindsIfRoom (command_in name.now (rows_of (found_of matches.now))) (rows_of (found_of matches.now)) result }
    ensures in_range { IfOk result IsInRange }
{
    match name {
        "replay" => Ok(CommandLine::Replay {
            roster: is_given(matches, "roster"),
        }),
        "clerk" => clerk(matches),
        "server" => server(matches),
        "utc" => Ok(CommandLine::Utc),
        "order" => Ok(CommandLine::Order),
        "show" => show(matches),
        "drill" => drill(matches),
        "control" => control(alloc, matches),
        _ => Err(NoCommand::Missing),
    }
}

// The flag was given.
fn is_given(matches: &ArgMatches<'_>, flag: &str) -> bool
    ensures { result ≡ option_map_or (λ text. bytes_eq text (codes "true")) (first_of flag.now (rows_of (found_of matches.now))) false }
{
    match text(matches, flag) {
        Some(text) => text == "true",
        None => false,
    }
}

fn clerk(matches: &ArgMatches<'_>) -> Result<CommandLine, NoCommand>
    ensures line { Finds (clerk_in (rows_of (found_of matches.now))) (rows_of (found_of matches.now)) result }
    ensures in_range { IfOk result IsInRange }
{
    Ok(CommandLine::Clerk(half_options(matches)?))
}

fn server(matches: &ArgMatches<'_>) -> Result<CommandLine, NoCommand>
    ensures line { Finds (server_in (rows_of (found_of matches.now))) (rows_of (found_of matches.now)) result }
    ensures in_range { IfOk result IsInRange }
{
    Ok(CommandLine::Server {
        options: half_options(matches)?,
        workers: small_number(matches, NumberName::Workers)?,
    })
}

fn half_options(matches: &ArgMatches<'_>) -> Result<HalfOptions, NoCommand>
    ensures { Finds (half_in (rows_of (found_of matches.now))) (rows_of (found_of matches.now)) result }
{
    Ok(HalfOptions {
        turns: number(matches, NumberName::Turns)?,
        start: number(matches, NumberName::Start)?,
        inaccuracy: number_if_given(matches, NumberName::Inaccuracy)?,
    })
}

fn show(matches: &ArgMatches<'_>) -> Result<CommandLine, NoCommand>
    ensures line { Finds (show_in (rows_of (found_of matches.now))) (rows_of (found_of matches.now)) result }
    ensures in_range { IfOk result IsInRange }
{
    let kind = text(matches, "kind").ok_or(NoCommand::Missing)?;
    Ok(CommandLine::Show(show_kind(kind).ok_or(NoCommand::Kind)?))
}

fn show_kind(text: &str) -> Option<ShowKind>
    ensures { result ≡ kind_in text.now }
{
    match text {
        "pdu" => Some(ShowKind::Pdu),
        "ntp" => Some(ShowKind::Ntp),
        "utc" => Some(ShowKind::Utc),
        _ => None,
    }
}

fn drill(matches: &ArgMatches<'_>) -> Result<CommandLine, NoCommand>
    ensures line { Finds (drill_in (rows_of (found_of matches.now))) (rows_of (found_of matches.now)) result }
    ensures in_range { IfOk result IsInRange }
{
    Ok(CommandLine::Drill {
        seed: small_number(matches, NumberName::Seed)?,
        events: small_number(matches, NumberName::Events)?,
    })
}

fn control(alloc: Global, matches: &ArgMatches<'_>) -> Result<CommandLine, NoCommand>
    ensures line { FindsIfRoom (control_in (rows_of (found_of matches.now))) (rows_of (found_of matches.now)) result }
    ensures in_range { IfOk result IsInRange }
{
    let address = text(matches, "address").ok_or(NoCommand::Missing)?;
    let words = texts(matches, "words").ok_or(NoCommand::Missing)?;
    Ok(CommandLine::Control {
        address: Text::from_slice(alloc, address.as_bytes())?,
        command: joined(alloc, words)?,
    })
}

// Words with a space between them.
#[tactic(auto, using(crate::proofs::WordFacts::texts_joined))]
fn joined(alloc: Global, words: &[&str]) -> Result<Text, NoMemory>
    ensures { IfOk result (λ text. text ≡ join_by (λ word. word) (codes " ") (map (λ word. word.now) words.now)) }
{
    let text = words.join(alloc, " ")?;
    Text::from_slice(alloc, text.as_bytes())
}

// The number of this name that was given, or stands for it.
fn number(matches: &ArgMatches<'_>, name: NumberName) -> Result<u64, NoCommand>
    ensures number { Finds (number_at (id_of name) (greatest_of name) (rows_of (found_of matches.now))) (rows_of (found_of matches.now)) result }
    ensures bound { IfOk result (λ n. n ≤ greatest_of name) }
{
    let text = text(matches, name.id()).ok_or(NoCommand::Missing)?;
    plain_number(text, name.greatest()).ok_or(NoCommand::Number(name))
}

// The same of one of 32 bits.
fn small_number(matches: &ArgMatches<'_>, name: NumberName) -> Result<u32, NoCommand>
    requires { greatest_of name ≤ 2 ^ 32 - 1 }
    ensures number { Finds (number_at (id_of name) (greatest_of name) (rows_of (found_of matches.now))) (rows_of (found_of matches.now)) result }
    ensures bound { IfOk result (λ n. n ≤ greatest_of name) }
{
    Ok(number(matches, name)? as u32)
}

// The same of one that may be left out.
fn number_if_given(matches: &ArgMatches<'_>, name: NumberName) -> Result<Option<u64>, NoCommand>
    ensures { Finds (number_if_given (id_of name) (greatest_of name) (rows_of (found_of matches.now))) (rows_of (found_of matches.now)) result }
{
    match text(matches, name.id()) {
        Some(text) => match plain_number(text, name.greatest()) {
            Some(number) => Ok(Some(number)),
            None => Err(NoCommand::Number(name)),
        },
        None => Ok(None),
    }
}

// What was given under a name, or stands for it.
fn text<'a>(matches: &ArgMatches<'a>, name: &str) -> Option<&'a str>
    ensures { option_map (λ s. s.now) result ≡ first_of name.now (rows_of (found_of matches.now)) }
{
    matches.get_str(name)
}

// All that was given under a name.
fn texts<'m, 'a>(matches: &'m ArgMatches<'a>, name: &str) -> Option<&'m [&'a str]>
    ensures { option_map (λ s. map (λ v. v.now) s.now) result ≡ all_of name.now (rows_of (found_of matches.now)) }
{
    matches.get_strs(name)
}

// The number up to `most` that a text writes in plain decimal.
fn plain_number(text: &str, most: u64) -> Option<u64>
    ensures number { result ≡ number_in most text.now }
    ensures bound { IfSome result (λ n. n ≤ most) }
{
    match number_in(text.as_bytes(), 0, most.into()) {
        Ok(number) => Some(number as u64),
        Err(_) => None,
    }
}
