//! The words of the program, as `clap` reads them: each command with its options and its other words, and what the help
//! says of them. A further command is one more function here, and one more line in `dts`. Our own choice.
ghost use Rattle.std.specs.Prelude.{◌≡◌, IfOk, Some, codes};
ghost use Rattle.clap.specs.Words.{app_of};
ghost use Rattle.clap.specs.declared.builder.ValueParser.TheVariants as parser;
ghost use Rattle.command_words.specs.Shapes.{HasRule, HasShape};
ghost use Rattle.command_words.specs.Syntax.{clerk_shape, control_shape, drill_shape, dts, number_of, option_of, program, replay_shape, server_shape, show_shape, order_shape, utc_shape, with_default, word_of, words_of};

use clap::builder::ValueParser;
use clap::{Arg, ArgAction, Command};
use std::alloc::{AllocError, Global};

/// The most turns that a half makes, and how many it makes where the words don't say.
pub const MOST_TURNS: u64 = 1 << 48;

/// The latest time to start with, in 100 ns since 1582-10-15.
pub const LATEST_START: u64 = (1 << 61) - (1 << 48);

/// The greatest inaccuracy to start with, in 100 ns.
pub const MOST_INACCURACY: u64 = (1 << 48) - 2;

/// The most halves that answer at the same time.
pub const MOST_WORKERS: u64 = 4;

/// The greatest number that a capture is made from.
pub const MOST_SEED: u64 = (1 << 32) - 1;

/// The most events of a made capture.
pub const MOST_EVENTS: u64 = 1_000_000;

const NAME: &str = "dts";

const VERSION: &str = "0.1.0";

const ABOUT: &str = "A time service whose clock knows how wrong it may be.";

const EXAMPLES: &str = "Examples:
  dts replay < examples/morning.capture
  echo 'add 1970-01-01-00:00:00 00-01:00:00' | dts utc

A command that is not built yet ends with the status 1, as wrong words do.";

// The words of the whole program.
pub fn dts<'a>(alloc: Global) -> Result<Command<'a>, AllocError>
    ensures app { IfOk result (λ command. app_of command ≡ dts) }
{
    program(alloc)?
        .subcommand(replay(alloc)?)?
        .subcommand(clerk(alloc)?)?
        .subcommand(server(alloc)?)?
        .subcommand(utc(alloc)?)?
        .subcommand(order(alloc)?)?
        .subcommand(show(alloc)?)?
        .subcommand(drill(alloc)?)?
        .subcommand(control(alloc)?)
}

// The program, before it has commands.
fn program<'a>(alloc: Global) -> Result<Command<'a>, AllocError>
    ensures app { IfOk result (λ command. app_of command ≡ program) }
{
    Command::new(alloc, NAME)
        .version(VERSION)
        .about(ABOUT)
        .after_help(EXAMPLES)
        .no_binary_name(true)
        .disable_help_subcommand(true)
        .subcommand_required(true)
        .bin_name(NAME)
}

fn replay<'a>(alloc: Global) -> Result<Command<'a>, AllocError>
    ensures shape { IfOk result (λ command. HasShape command replay_shape) }
{
    let roster = Arg::new(alloc, "roster")
        .long("roster")
        .action(ArgAction::SetTrue)
        .help("Go by the settings and servers of dts.toml in the current folder");
    Command::new(alloc, "replay")
        .about("Reads a capture from the input, and writes the log of its history")
        .arg(roster)
}

fn clerk<'a>(alloc: Global) -> Result<Command<'a>, AllocError>
    ensures shape { IfOk result (λ command. HasShape command clerk_shape) }
{
    Command::new(alloc, "clerk")
        .about("Keeps a clock by the servers of dts.toml")
        .arg(turns(alloc))?
        .arg(start(alloc))?
        .arg(inaccuracy(alloc))
}

fn server<'a>(alloc: Global) -> Result<Command<'a>, AllocError>
    ensures shape { IfOk result (λ command. HasShape command server_shape) }
{
    Command::new(alloc, "server")
        .about("Keeps a clock, and answers those who ask for the time")
        .arg(turns(alloc))?
        .arg(start(alloc))?
        .arg(inaccuracy(alloc))?
        .arg(workers(alloc))
}

fn utc<'a>(alloc: Global) -> Result<Command<'a>, AllocError>
    ensures shape { IfOk result (λ command. HasShape command utc_shape) }
{
    Ok(Command::new(alloc, "utc").about(
        "Reads lines that ask for operations on timestamps, and writes an answer to each",
    ))
}

fn order<'a>(alloc: Global) -> Result<Command<'a>, AllocError>
    ensures shape { IfOk result (λ command. HasShape command order_shape) }
{
    Ok(Command::new(alloc, "order").about(
        "Reads lines of several hosts, each with a moment and its inaccuracy, and writes them in their order",
    ))
}

fn show<'a>(alloc: Global) -> Result<Command<'a>, AllocError>
    ensures shape { IfOk result (λ command. HasShape command show_shape) }
{
    Command::new(alloc, "show")
        .about("Reads a line of hex digits, and writes its fields")
        .arg(word(alloc, "kind", "KIND", "What the line is: pdu, ntp or utc"))
}

fn drill<'a>(alloc: Global) -> Result<Command<'a>, AllocError>
    ensures shape { IfOk result (λ command. HasShape command drill_shape) }
{
    let seed = word(
        alloc,
        "seed",
        "SEED",
        "The number that the capture is made from, 0 to 4294967295",
    );
    let events = word(
        alloc,
        "events",
        "EVENTS",
        "How many events it has, 0 to 1000000",
    );
    Command::new(alloc, "drill")
        .about("Replays a capture that is made from a number, and writes its summary")
        .arg(number(seed, 0, MOST_SEED))?
        .arg(number(events, 0, MOST_EVENTS))
}

fn control<'a>(alloc: Global) -> Result<Command<'a>, AllocError>
    ensures shape { IfOk result (λ command. HasShape command control_shape) }
{
    Command::new(alloc, "control")
        .about("Sends a command to a clerk or a server, and writes the reply")
        .arg(word(
            alloc,
            "address",
            "ADDRESS",
            "Where it listens, as 127.0.0.1:7001",
        ))?
        .arg(words(
            alloc,
            "words",
            "WORD",
            "The words of the command, which are sent with a space between them",
        ))
}

fn turns<'a>(alloc: Global) -> Arg<'a>
    ensures rule { HasRule result (with_default (codes "281474976710656") (number_of 1 MOST_TURNS (option_of (codes "turns")))) }
{
    let turns = option(
        alloc,
        "turns",
        "N",
        "Stop after so many turns, 1 to 281474976710656",
    );
    number(turns, 1, MOST_TURNS).default_value("281474976710656")
}

fn start<'a>(alloc: Global) -> Arg<'a>
    ensures rule { HasRule result (with_default (codes "137971296000000000") (number_of 0 LATEST_START (option_of (codes "start")))) }
{
    let start = option(
        alloc,
        "start",
        "V",
        "The time to start with, in 100 ns since 1582-10-15, 0 to 2305561534236983296",
    );
    number(start, 0, LATEST_START).default_value("137971296000000000")
}

fn inaccuracy<'a>(alloc: Global) -> Arg<'a>
    ensures rule { HasRule result (number_of 0 MOST_INACCURACY (option_of (codes "inaccuracy"))) }
{
    let inaccuracy = option(
        alloc,
        "inaccuracy",
        "I",
        "How wrong that time may be, in 100 ns, 0 to 281474976710654 [default: unknown]",
    );
    number(inaccuracy, 0, MOST_INACCURACY)
}

fn workers<'a>(alloc: Global) -> Arg<'a>
    ensures rule { HasRule result (with_default (codes "1") (number_of 1 MOST_WORKERS (option_of (codes "workers")))) }
{
    let workers = option(
        alloc,
        "workers",
        "K",
        "How many halves answer at the same time, 1 to 4",
    );
    number(workers, 1, MOST_WORKERS).default_value("1")
}

// An option `--name VALUE`.
fn option<'a>(alloc: Global, name: &'a str, value: &'a str, help: &'a str) -> Arg<'a>
    ensures rule { HasRule result (option_of name.entry.now) }
{
    Arg::new(alloc, name)
        .long(name)
        .value_name(value)
        .help(help)
}

// A word that has to be there, at its place.
fn word<'a>(alloc: Global, name: &'a str, value: &'a str, help: &'a str) -> Arg<'a>
    ensures rule { HasRule result (word_of name.entry.now) }
{
    Arg::new(alloc, name)
        .required(true)
        .value_name(value)
        .help(help)
}

// The last words, one or more.
fn words<'a>(alloc: Global, name: &'a str, value: &'a str, help: &'a str) -> Arg<'a>
    ensures rule { HasRule result (words_of name.entry.now) }
{
    word(alloc, name, value, help).num_args(1..)
}

// An option or a word whose value is a number from `least` to `most`.
fn number<'a>(arg: Arg<'a>, least: u64, most: u64) -> Arg<'a>
    ensures parser { result ≡ record arg.entry { value_parser = Some (parser.Unsigned least most) } }
{
    arg.value_parser(ValueParser::unsigned(least, most))
}
