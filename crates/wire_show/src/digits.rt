//! The octets that hex digits are.

ghost use Rattle.std.specs.Prelude.{◌≡◌, ◌≤◌, ◌<◌, [], ◌∷◌, ◌++◌, length, Ok, OnOk, MatchResult};
ghost use Rattle.hex.specs.Hex.{hex_digit_value};
ghost use Rattle.wire_show.specs.Input.{octet_of, pair_at, refused_at, octets_from, octets_in};
ghost use Rattle.wire_show.specs.Showing.{IsFaultOf};

use dts_base::{Field, NoMemory, Refused, WireCause};
use ndr::DecodeFault;
use rpc_pdu::MAX_FRAGMENT;
use std::alloc::Global;

/// The line feed that may end an input.
const LINE_FEED: u8 = b'\n';

// The value of a hex digit, in either case.
fn value_of(digit: u8) -> Option<u8>
    ensures { result ≡ hex_digit_value digit }
{
    match digit {
        b'0'..=b'9' => Some(digit - b'0'),
        b'a'..=b'f' => Some(digit - b'a' + 10),
        b'A'..=b'F' => Some(digit - b'A' + 10),
        _ => None,
    }
}

// The octet of two digits.
fn octet_of(high: u8, low: u8) -> Option<u8>
    ensures { result ≡ octet_of high low }
{
    match (value_of(high), value_of(low)) {
        (Some(high), Some(low)) => Some(high * 16 + low),
        _ => None,
    }
}

// The octet of a pair of digits behind so many others, as long as there may be more.
fn pair_at(at: usize, high: u8, low: u8) -> Option<u8>
    ensures { result ≡ pair_at at high low }
{
    if at < MAX_FRAGMENT {
        octet_of(high, low)
    } else {
        None
    }
}

// The refusal of what begins with this octet behind so many pairs of digits.
fn refused_at(at: usize, first: u8) -> DecodeFault
    requires { at ≤ MAX_FRAGMENT }
    ensures { result ≡ DecodeFault.Wrong (refused_at at first) }
{
    let cause = if at == MAX_FRAGMENT && value_of(first).is_some() {
        WireCause::Long
    } else {
        WireCause::Value
    };
    DecodeFault::Wrong(Refused {
        field: Field::Input,
        offset: at as u32,
        cause,
    })
}

// What stands behind the last pair is nothing or a line feed.
fn check_end(at: usize, left: &[u8]) -> Result<(), DecodeFault>
    requires few { at ≤ MAX_FRAGMENT }
    requires short { length left.now < 2 }
    ensures { MatchResult result (λ _. octets_from at left.now ≡ Ok []) (IsFaultOf (octets_from at left.now)) }
{
    if left.is_empty() {
        return Ok(());
    }
    if left[0] == LINE_FEED {
        return Ok(());
    }
    Err(refused_at(at, left[0]))
}

// Puts an octet behind others.
fn push(octets: &mut Vec<u8>, octet: u8) -> Result<(), NoMemory>
    ensures { OnOk result (octets.new.items ≡ octets.old.items ++ octet ∷ []) }
{
    octets.push(octet)?;
    Ok(())
}

/// The octets that an input spells.
pub(crate) fn octets_of(alloc: Global, text: &[u8]) -> Result<Vec<u8>, DecodeFault>
    ensures { MatchResult result (λ octets. octets_in text.now ≡ Ok octets.items) (IsFaultOf (octets_in text.now)) }
{
    let mut octets = Vec::new(alloc);
    let mut left = text;
    while left.len() >= 2 {
        let Some(octet) = pair_at(octets.len(), left[0], left[1]) else {
            return Err(refused_at(octets.len(), left[0]));
        };
        push(&mut octets, octet)?;
        let (_, rest) = left.split_at(2);
        left = rest;
    }
    check_end(octets.len(), left)?;
    Ok(octets)
}
