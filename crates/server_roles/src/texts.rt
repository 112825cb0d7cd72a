//! The texts that commands are answered with.

ghost use Rattle.std.specs.Prelude.{◌≡◌, ◌≤◌, ◌++◌, IfOk, IsTrue, OnOk, codes};
ghost use Rattle.std.specs.Option.{ForSome};
ghost use Rattle.slew_clock.specs.declared.limits.TheConstants.{GREATEST_INACCURACY};
ghost use Rattle.dts_capture.specs.Writing.{Adds, spaced};
ghost use Rattle.ndr.specs.Strings.{is_text};
ghost use Rattle.roster.specs.Values.{is_name};
ghost use Rattle.server_roles.specs.Answering.{shown, time_words, settings_text, rates_words, counts_words, role_name, reply_to, known};

use crate::words::Words;
use crate::{Counts, RIGHT_STATUS, UNKNOWN_STATUS};
use dts_base::{NoMemory, Text};
use roster::{Role, Roster, Settings};
use slew_clock::Reading;
use std::alloc::Global;
use time_wire::CommandReply;

/// What a command is answered with. The text can be a string where the node's name is right.
pub(crate) fn reply_to(
    alloc: Global,
    r: &Roster,
    c: &Counts,
    rd: &Reading,
    command: &[u8],
) -> Result<CommandReply, NoMemory>
    requires { IsTrue (is_name r.now.settings.name) }
    ensures reply { IfOk result (λ reply. reply ≡ reply_to r.now c.now (shown rd.now) command.now) }
    ensures printed { IfOk result (λ reply. IsTrue (is_text reply.text)) }
{
    if command == b"show time".as_slice() {
        return Ok(known(time_text(alloc, rd.value, rd.inaccuracy, rd.step, rd.number)?));
    }
    if command == b"show settings".as_slice() {
        return Ok(known(settings_text(alloc, r.settings())?));
    }
    if command == b"show counts".as_slice() {
        return Ok(known(counts_text(alloc, c.lane, c.asks, c.refused, c.connections)?));
    }
    Ok(CommandReply {
        text: Text::from_slice(alloc, b"unknown command")?,
        status: UNKNOWN_STATUS,
    })
}

// The answer to a command that is known.
fn known(text: Text) -> CommandReply
    ensures { result ≡ known text }
{
    CommandReply {
        text,
        status: RIGHT_STATUS,
    }
}

// A reading as a text.
fn time_text(
    alloc: Global,
    value: i64,
    inaccuracy: Option<u64>,
    step: u64,
    number: u64,
) -> Result<Text, NoMemory>
    requires { ForSome inaccuracy (λ i. i ≤ GREATEST_INACCURACY) }
    ensures text { IfOk result (λ text. text ≡ codes "time" ++ spaced (time_words value inaccuracy step number)) }
    ensures printed { IfOk result (λ text. IsTrue (is_text text)) }
{
    let mut words = Words::new(alloc, "time")?;
    words.number(value)?;
    words.number_or_dash(inaccuracy)?;
    words.number(step)?;
    words.number(number)?;
    Ok(words.end())
}

// The settings as a text.
fn settings_text(alloc: Global, s: &Settings) -> Result<Text, NoMemory>
    requires { IsTrue (is_name s.now.name) }
    ensures text { IfOk result (λ text. text ≡ settings_text s.now) }
    ensures printed { IfOk result (λ text. IsTrue (is_text text)) }
{
    let mut words = Words::new(alloc, "settings")?;
    words.word(s.name.as_slice())?;
    words.word(role_name(s.role).as_bytes())?;
    words.labelled("epoch", u64::from(s.epoch))?;
    words.labelled("required", s.required)?;
    rates_words(&mut words, s)?;
    Ok(words.end())
}

// Adds the rates of the clock.
fn rates_words(words: &mut Words, s: &Settings) -> Result<(), NoMemory>
    ensures { OnOk result (Adds words.old words.new (rates_words s.now)) }
{
    words.labelled("drift", s.drift_ppm)?;
    words.labelled("resolution", s.resolution)?;
    words.labelled("lease", s.lease)?;
    words.labelled("slew", s.slew_ppm)?;
    words.labelled("tolerance", s.tolerance)?;
    Ok(())
}

// The word for a role.
fn role_name(role: Role) -> &'static str
    ensures { result.now ≡ role_name role }
{
    match role {
        Role::Clerk => "clerk",
        Role::Server => "server",
    }
}

// The counts of a lane as a text.
fn counts_text(
    alloc: Global,
    lane: u32,
    asks: u64,
    refused: u64,
    connections: u32,
) -> Result<Text, NoMemory>
    ensures text { IfOk result (λ text. text ≡ codes "counts" ++ spaced (counts_words lane asks refused connections)) }
    ensures printed { IfOk result (λ text. IsTrue (is_text text)) }
{
    let mut words = Words::new(alloc, "counts")?;
    words.number(lane)?;
    words.labelled("asks", asks)?;
    words.labelled("refused", refused)?;
    words.labelled("connections", connections)?;
    Ok(words.end())
}
