//! Reads the input.

ghost use Rattle.std.specs.Prelude.{◌≡◌, ◌≤◌, ◌++◌, ℕ, List, length, take, Some, Ok, IfOk, IfErr, OnOk, MatchResult};
ghost use Rattle.dts_base.specs.Told.{Told};
ghost use Rattle.dts_base.specs.Streams.{Reads};
ghost use Rattle.wire_show.specs.Showing.{HasHeld, HasStopped, IsReadStop, StopCause};

use crate::ShowEnd;
use dts_base::Source;
use rpc_pdu::MAX_FRAGMENT;
use std::alloc::Global;

/// The most octets of an input: two digits for each octet of the longest fragment, and a line feed.
pub const MAX_INPUT: usize = 2 * MAX_FRAGMENT + 1;

/// How many octets are read at once.
pub const PIECE: usize = 4096;

/// Reads the input to its end, or so much of it that it is too long.
pub(crate) fn read_input<I: Source>(alloc: Global, input: &mut I) -> Result<Vec<u8>, ShowEnd>
    ensures read { (octets : List ℕ) → I.left input.old ≡ Some octets →
        MatchResult result (λ held. HasHeld octets (I.left input.new) held.items) (λ _. HasStopped octets (I.left input.new)) }
    ensures stops { IfErr result IsReadStop }
    ensures cause { StopCause ShowEnd.ReadFault (I.faults input.old) (I.faults input.new) result }
{
    let mut held = Vec::new(alloc);
    let mut piece = [0; PIECE];
    while held.len() <= MAX_INPUT {
        let count = read_piece(input, &mut piece)?;
        if count == 0 {
            break;
        }
        hold(&mut held, &piece[..count])?;
    }
    Ok(held)
}

// Reads once, and answers how many octets came.
fn read_piece<I: Source>(input: &mut I, piece: &mut [u8]) -> Result<usize, ShowEnd>
    ensures count { IfOk result (λ n. n ≤ length piece.new) }
    ensures told { Told (I.left input.old) (I.left input.new) (Reads result piece.new) }
    ensures stops { IfErr result (λ stop. stop ≡ ShowEnd.ReadFault) }
    ensures cause { StopCause ShowEnd.ReadFault (I.faults input.old) (I.faults input.new) result }
{
    match input.read(piece) {
        Ok(count) => Ok(count),
        Err(_) => Err(ShowEnd::ReadFault),
    }
}

// Holds what was read.
fn hold(held: &mut Vec<u8>, piece: &[u8]) -> Result<(), ShowEnd>
    ensures held { OnOk result (held.new.items ≡ held.old.items ++ piece.now) }
    ensures memory { IfErr result (λ stop. stop ≡ ShowEnd.NoMemory) }
{
    match held.extend_from_slice(piece) {
        Ok(()) => Ok(()),
        Err(_) => Err(ShowEnd::NoMemory),
    }
}
