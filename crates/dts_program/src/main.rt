//! The program of the time service: its commands over the outside that is handed in. Its commands, their statuses and
//! the numbers that it ends with are our own choice.
#![tactic(auto)]

ghost use Rattle.std.specs.Prelude.{◌≡◌, IfOk, vec_len};

mod command;
mod outside;
mod status;

use crate::outside::{Outside, ServeSide, run};
use crate::status::{SinkName, SourceName, Status};
use command_words::{NoCommand, read_words};
use dts_base::{MemoryLink, MemoryOscillator, MemorySink, MemoryWords, NoMemory};
use dts_edge::{FileSource, ReaderSource, WriterSink};
use std::alloc::Global;
use std::env;
use std::io::{self, ErrorKind, Stdin, Stdout};
use std::process::ExitCode;

/// The roster file, in the current folder.
const ROSTER: &str = "dts.toml";

type Side = ServeSide<MemorySink, MemoryLink, MemoryOscillator>;

// A serve side in memory.
fn side(alloc: Global) -> Result<Side, NoMemory> {
    Ok(ServeSide {
        link: MemoryLink::new(alloc, Vec::new(alloc), &[], &[])?,
        osc: MemoryOscillator::new(alloc, &[])?,
        capture: MemorySink::new(alloc, &[])?,
        log: MemorySink::new(alloc, &[])?,
    })
}

// The four serve sides.
fn sides(alloc: Global) -> Result<Vec<Side>, NoMemory>
    ensures four { IfOk result (λ sides. vec_len sides ≡ 4) }
{
    let mut sides = Vec::new(alloc);
    for _ in 0..4usize {
        sides.push(side(alloc)?)?;
    }
    Ok(sides)
}

// The words after the program's name. Words that are no text are no command line.
fn words(rt: &HostRuntime) -> Result<Vec<String>, Status> {
    let words = match env::args(rt) {
        Ok(words) => words,
        Err(error) if error.kind() == ErrorKind::OutOfMemory => return Err(Status::NoMemory),
        Err(_) => return Err(Status::Usage),
    };
    match words.skip(1).collect(rt.alloc()) {
        Ok(words) => Ok(words),
        Err(_) => Err(Status::NoMemory),
    }
}

/// The real standard streams and roster file, and all else in memory.
type Real<'a> = Outside<
    ReaderSource<Stdin>,
    FileSource<'a, HostRuntime>,
    WriterSink<Stdout>,
    MemorySink,
    MemoryLink,
    MemoryOscillator,
    MemoryWords,
>;

fn real_outside(rt: &HostRuntime) -> Result<Real<'_>, NoMemory>
    ensures four { IfOk result (λ out. vec_len out.serve ≡ 4) }
{
    let alloc = rt.alloc();
    Ok(Outside {
        input: ReaderSource::new(rt.stdin()),
        roster_file: FileSource::new(rt, ROSTER),
        output: WriterSink::new(rt.stdout()),
        sync_capture: MemorySink::new(alloc, &[])?,
        sync_link: MemoryLink::new(alloc, Vec::new(alloc), &[], &[])?,
        sync_osc: MemoryOscillator::new(alloc, &[])?,
        random: MemoryWords::new(alloc, &[])?,
        serve: sides(alloc)?,
    })
}

// What the system said of the call behind a status, where it is one of a fault.
fn said(out: &Real, status: &Status) -> Option<ErrorKind> {
    match status {
        Status::ReadFault {
            which: SourceName::Input,
        } => out.input.fault(),
        Status::ReadFault {
            which: SourceName::RosterFile,
        } => out.roster_file.fault(),
        Status::WriteFault {
            which: SinkName::Output,
        } => out.output.fault(),
        _ => None,
    }
}

// Says on standard error how the program ended, where it did not do what the words ask for.
fn say(rt: &HostRuntime, words: &[String], out: &Real, status: &Status) -> io::Result<()> {
    match status {
        Status::Done => Ok(()),
        Status::Usage => say_usage(rt, words),
        status => match said(out, status) {
            Some(kind) => eprintln!(rt; "dts: {status}: {kind}"),
            None => eprintln!(rt; "dts: {status}"),
        },
    }
}

// Says why the words are no command.
fn say_usage(rt: &HostRuntime, words: &[String]) -> io::Result<()> {
    match read_words(rt.alloc(), words) {
        Ok(_line) => eprintln!(rt; "dts: this command is not built yet"),
        Err(NoCommand::Refused(error)) => eprint!(rt; "dts: {error}"),
        Err(NoCommand::Shown(error)) => eprint!(rt; "{error}"),
        Err(wrong) => eprintln!(rt; "dts: {wrong}"),
    }
}

// Says a status on standard error.
fn told(rt: &HostRuntime, status: Status) -> Status {
    let _ = eprintln!(rt; "dts: {status}");
    status
}

fn main(rt: HostRuntime) -> ExitCode {
    let status = match (words(&rt), real_outside(&rt)) {
        (Ok(words), Ok(mut out)) => {
            let status = run(&rt, rt.alloc(), words.as_slice(), &mut out);
            let _ = say(&rt, words.as_slice(), &out, &status);
            status
        }
        (Err(status), _) => told(&rt, status),
        (_, Err(NoMemory)) => told(&rt, Status::NoMemory),
    };
    ExitCode::from(status.number())
}
