//! Reads what stands in front of a line's text.

ghost use Rattle.std.specs.Prelude.{◌≡◌, ℕ, ◌+◌, ◌<◌, [], drop, slice_index_or, IsTrue, ◌↔◌, IfOk, IfErr, MatchOption, length};
ghost use Rattle.utc_order.specs.Lines.{IsHost, Spells, Misspells};

use crate::{MAX_HOST, OrderCause};
use line_reader::{Fields, number_in};
use utc_text::parse_abs;
use utc_value::Utc;

/// The host and the moment of a line.
#[derive(Clone, Copy, Debug)]
pub(crate) struct Heading {
    /// The number of the host.
    pub(crate) host: u8,
    /// The moment.
    pub(crate) time: Utc,
}

impl Heading {
    /// Reads the heading of a line. A line with no text behind it is refused too.
    pub(crate) fn read(octets: &[u8]) -> Result<Heading, OrderCause>
        ensures line { IfOk result (λ h. Spells octets.now (record { host = h.host; time = h.time; octets = octets.now })) }
        ensures refused { IfErr result (Misspells octets.now) }
    {
        let mut fields = Fields::new(octets);
        let Some(host) = host_in(next_field(&mut fields)) else {
            return Err(OrderCause::Host);
        };
        let time = match parse_abs(next_field(&mut fields)) {
            Ok(time) => time,
            Err(fault) => return Err(OrderCause::Time(fault)),
        };
        match fields.next() {
            Some(_) => Ok(Heading { host, time }),
            None => Err(OrderCause::Text),
        }
    }
}

// Takes the next field, which is empty behind the last one.
fn next_field<'a>(fields: &mut Fields<'a>) -> &'a [u8]
    ensures field { result.now ≡ slice_index_or fields.old.left 0 [] }
    ensures left { fields.new.left ≡ drop 1 fields.old.left }
{
    match fields.next() {
        Some(field) => field,
        None => &[],
    }
}

// The host whose number a field writes.
fn host_in(field: &[u8]) -> Option<u8>
    ensures { MatchOption result ((host : ℕ) → IsHost field.now host → ⊥) (IsHost field.now) }
{
    match number_in(field, 0, i128::from(MAX_HOST)) {
        Ok(host) => Some(host as u8),
        Err(_) => None,
    }
}
