use assertions::{assert_at, assert_equal_at};
use command_words::{CommandLine, HalfOptions, NoCommand, NumberName, ShowKind, read_words};
use dts_base::Text;
use std::alloc::{AllocError, Global};
use std::io::Eprint;
use std::process::Abort;
use std::test::Fail;

// What `read_words` makes of the words of a line.
fn read(alloc: Global, line: &str) -> Result<Result<CommandLine, NoCommand>, AllocError> {
    let mut words = Vec::new(alloc);
    for word in line.split_whitespace() {
        words.push(String::from_str(alloc, word)?)?;
    }
    Ok(read_words(alloc, words.as_slice()))
}

// The words of a line mean a command.
fn mean(
    rt: &(impl Abort + Eprint),
    alloc: Global,
    line: &str,
    want: CommandLine,
) -> Result<(), AllocError> {
    assert_at!(rt; line, read(alloc, line)?.is_ok_and(|got| got == want));
    Ok(())
}

#[test]
fn words_mean_their_command(rt: HostRuntime) -> Result<(), Fail> {
    let alloc = rt.alloc();
    let usual = HalfOptions {
        turns: 281_474_976_710_656,
        start: 137_971_296_000_000_000,
        inaccuracy: None,
    };
    let given = HalfOptions {
        turns: 1,
        start: 2_305_561_534_236_983_296,
        inaccuracy: Some(281_474_976_710_654),
    };
    let command = CommandLine::Replay { roster: true };
    mean(&rt, alloc, "replay --roster", command)?;
    mean(&rt, alloc, "clerk", CommandLine::Clerk(usual))?;
    let line =
        "server --workers 4 --start=2305561534236983296 --turns 1 --inaccuracy 281474976710654";
    let command = CommandLine::Server {
        options: given,
        workers: 4,
    };
    mean(&rt, alloc, line, command)?;
    mean(&rt, alloc, "show ntp", CommandLine::Show(ShowKind::Ntp))?;
    let command = CommandLine::Drill {
        seed: 4_294_967_295,
        events: 1_000_000,
    };
    mean(&rt, alloc, "drill 4294967295 1000000", command)?;
    let command = CommandLine::Control {
        address: Text::from_slice(alloc, b"127.0.0.1:7001")?,
        command: Text::from_slice(alloc, b"show time")?,
    };
    mean(&rt, alloc, "control 127.0.0.1:7001 show time", command)?;
    Ok(())
}

// Why words are no command.
#[derive(Clone, Copy, Debug, PartialEq, Eq)]
enum Wrong {
    Refused,
    Number(NumberName),
    Kind,
}

// Why the words of a line are no command; none where they are one, or ask for the help or the version.
fn refusal(alloc: Global, line: &str) -> Result<Option<Wrong>, AllocError> {
    Ok(match read(alloc, line)? {
        Err(NoCommand::Refused(_)) => Some(Wrong::Refused),
        Err(NoCommand::Number(name)) => Some(Wrong::Number(name)),
        Err(NoCommand::Kind) => Some(Wrong::Kind),
        _ => None,
    })
}

// Words that no command takes, a line each; the first has none.
const REFUSED: &str = "
x
Replay
UTC
help
--roster replay
replay x
replay x --help
replay utc
replay --turns 1
replay --roster --roster
utc x
clerk --turns
clerk --turns 1 --turns 2
clerk --turns 0
clerk --turns 281474976710657
clerk --turns -1
clerk --turns=-1
clerk --turns 1.0
clerk --start 2305561534236983297
clerk --start 18446744073709551616
clerk --inaccuracy 281474976710655
clerk --workers 1
server --workers 0
server --workers 5
show
show pdu utc
drill 1
drill 1 2 3
drill 4294967296 0
drill 0 1000001
control
control 127.0.0.1:7001";

#[test]
fn wrong_words_are_refused(rt: HostRuntime) -> Result<(), Fail> {
    for line in REFUSED.lines() {
        assert_equal_at!(rt; line, refusal(rt.alloc(), line)?, Some(Wrong::Refused));
    }
    for (line, name) in [
        ("clerk --turns 01", NumberName::Turns),
        ("clerk --turns +1", NumberName::Turns),
        ("clerk --start 00", NumberName::Start),
        ("clerk --turns 1 --inaccuracy +0", NumberName::Inaccuracy),
        ("server --start +0", NumberName::Start),
        ("server --turns 2 --workers 01", NumberName::Workers),
        ("drill 00 0", NumberName::Seed),
        ("drill 0 00", NumberName::Events),
        ("drill 7 +1", NumberName::Events),
    ] {
        assert_equal_at!(rt; line, refusal(rt.alloc(), line)?, Some(Wrong::Number(name)));
    }
    assert_equal_at!(rt; "show x", refusal(rt.alloc(), "show x")?, Some(Wrong::Kind));
    for line in [
        "replay --roster",
        "--help",
        "-h",
        "--version",
        "drill --help",
    ] {
        assert_equal_at!(rt; line, refusal(rt.alloc(), line)?, None);
    }
    Ok(())
}
