//! A timestamp of 128 bits: a time with a stated inaccuracy, as DCE's time service has it (C310).
//!
//! Times are counted in units of 100 ns. An absolute time counts from 1582-10-15 00:00:00 UTC. Where the fields
//! stand in the sixteen octets, what the versions mean and how large a time differential factor may be is our
//! own choice, after C310.
#![tactic(auto)]

ghost use Rattle.std.specs.Prelude.{◌≡◌, ◌≢◌, ◌+◌, ◌-◌, ◌*◌, ◌%◌, ◌^◌, ◌<◌, ◌≤◌, ◌↔◌, ℕ, ℤ, drop, slice_index, ◌⊎◌, IfOk, IfErr, OkIff, IsTrue};
ghost use Rattle.utc_value.specs.Stamp.{Stamp, IsInaccuracy, IsTdf, IsTdfOf, IsInRange, absolute_stamp, relative_stamp};
ghost use Rattle.std.specs.Option.{unwrap_or};
ghost use Rattle.std.specs.Int.{w64, cast_unsigned};
ghost use Rattle.byteorder.specs.Endian.{little_number};
ghost use Rattle.utc_value.specs.Members.{earliest_of, latest_of};
ghost use Rattle.utc_value.specs.Octets.{octets_of, version_of, version_in, tdf_in, twos_complement, signed_of, IsVersion, IsTdfOfVersion, RefusesOctets};

use byteorder::{ByteOrder, LittleEndian};
use std::marker::Model;
use thiserror::Error;

mod laws;

pub use laws::{members_are_from_the_earliest_to_the_latest, one_timestamp_of_octets};

/// The greatest inaccuracy that can be stated, in units of 100 ns: 2^48 − 2, about 326 days.
pub const MAX_INACCURACY: u64 = 281_474_976_710_654;

/// The greatest time differential factor, in minutes: a minute less than a day.
pub const MAX_TDF: i16 = 1439;

// The 48 bits that stand for an unspecified inaccuracy: all ones.
const UNSPECIFIED: u64 = 281_474_976_710_655;

/// Whether a timestamp is a moment or a length of time.
#[derive(Clone, Copy, Debug, PartialEq, Eq)]
pub enum Kind {
    /// A moment: a count from 1582-10-15 00:00:00 UTC.
    Absolute,
    /// A length of time, which may be negative.
    Relative,
}

/// Why parts make no timestamp.
#[derive(Clone, Copy, Debug, PartialEq, Eq, Error)]
pub enum ValueFault {
    /// The inaccuracy is above [`MAX_INACCURACY`].
    #[error("the inaccuracy is above {MAX_INACCURACY}")]
    InaccuracyRange,
    /// The time differential factor is a day or more, either way.
    #[error("the time differential factor is a day or more")]
    TdfRange,
}

/// Why sixteen octets are no timestamp.
#[derive(Clone, Copy, Debug, PartialEq, Eq, Error)]
pub enum BytesFault {
    /// The version is neither 1 (absolute) nor 2 (relative).
    #[error("version {found} is neither 1 nor 2")]
    Version {
        /// The version that was found, 0 to 15.
        found: u8,
    },
    /// The time differential factor is a day or more, or not 0 in a relative timestamp.
    #[error("a time differential factor of {found} minutes")]
    Tdf {
        /// The minutes that were found, -2048 to 2047.
        found: i16,
    },
}

/// A timestamp. A contract sees a `Stamp`: its time, inaccuracy, time differential factor and
/// kind, which every accessor promises to be in range.
#[derive(Clone, Copy, Debug, PartialEq, Eq)]
pub struct Utc {
    time: i64,
    inaccuracy: Option<u64>,
    tdf: i16,
    kind: Kind,
}

impl Model for Utc {
    ghost use Rattle.utc_value.specs.Stamp.{Stamp, IsInRange};

    ghost Value = { Stamp };

    ghost view = { λ u. record { time = u.time; inaccuracy = u.inaccuracy; tdf = u.tdf; kind = u.kind } };

    ghost invariant = { λ u. IsInRange (record { time = u.time; inaccuracy = u.inaccuracy; tdf = u.tdf; kind = u.kind }) };

    ghost inverse = { λ s. record { time = s.time; inaccuracy = s.inaccuracy; tdf = s.tdf; kind = s.kind } };
}

impl Utc {
    /// The moment `time` units after 1582-10-15 00:00:00 UTC, at most `inaccuracy` units off (`None`
    /// where that is unspecified), as it is shown `tdf` minutes ahead of UTC.
    ///
    /// `InaccuracyRange` comes before `TdfRange`.
    pub fn absolute(time: i64, inaccuracy: Option<u64>, tdf: i16) -> Result<Utc, ValueFault>
        ensures ok { OkIff result (IsInaccuracy inaccuracy × IsTdf tdf) (absolute_stamp time inaccuracy tdf) }
        ensures inaccuracy { (result ≡ Err ValueFault.InaccuracyRange) ↔ (¬ IsInaccuracy inaccuracy) }
        ensures tdf { (result ≡ Err ValueFault.TdfRange) ↔ (IsInaccuracy inaccuracy × (¬ IsTdf tdf)) }
    {
        if !is_inaccuracy(inaccuracy) {
            return Err(ValueFault::InaccuracyRange);
        }
        if !is_tdf(tdf) {
            return Err(ValueFault::TdfRange);
        }
        Ok(Utc {
            time,
            inaccuracy,
            tdf,
            kind: Kind::Absolute,
        })
    }

    /// The length of `time` units, at most `inaccuracy` units off (`None` where that is
    /// unspecified).
    pub fn relative(time: i64, inaccuracy: Option<u64>) -> Result<Utc, ValueFault>
        ensures ok { OkIff result (IsInaccuracy inaccuracy) (relative_stamp time inaccuracy) }
        ensures inaccuracy { (result ≡ Err ValueFault.InaccuracyRange) ↔ (¬ IsInaccuracy inaccuracy) }
        ensures tdf { result ≢ Err ValueFault.TdfRange }
    {
        if !is_inaccuracy(inaccuracy) {
            return Err(ValueFault::InaccuracyRange);
        }
        Ok(Utc {
            time,
            inaccuracy,
            tdf: 0,
            kind: Kind::Relative,
        })
    }

    /// The time, in units of 100 ns.
    pub fn time(self) -> i64
        ensures value { result ≡ self.time }
        ensures in_range { IsInRange self }
    {
        self.time
    }

    /// How far the time may be off on either side, in units of 100 ns; `None` where that is
    /// unspecified.
    pub fn inaccuracy(self) -> Option<u64>
        ensures value { result ≡ self.inaccuracy }
        ensures in_range { IsInRange self }
    {
        self.inaccuracy
    }

    /// The time differential factor: the minutes that local time is ahead of UTC.
    pub fn tdf(self) -> i16
        ensures value { result ≡ self.tdf }
        ensures in_range { IsInRange self }
    {
        self.tdf
    }

    /// Whether it is a moment or a length of time.
    pub fn kind(self) -> Kind
        ensures value { result ≡ self.kind }
        ensures in_range { IsInRange self }
    {
        self.kind
    }

    /// The time minus the inaccuracy, in units of 100 ns. `None` exactly where the inaccuracy is
    /// unspecified.
    pub fn earliest(self) -> Option<i128>
        ensures value { result ≡ earliest_of self }
        ensures in_range { IsInRange self }
    {
        match self.inaccuracy {
            Some(inaccuracy) => Some(i128::from(self.time) - i128::from(inaccuracy)),
            None => None,
        }
    }

    /// The time plus the inaccuracy, in units of 100 ns. `None` exactly where the inaccuracy is
    /// unspecified.
    pub fn latest(self) -> Option<i128>
        ensures value { result ≡ latest_of self }
        ensures in_range { IsInRange self }
    {
        match self.inaccuracy {
            Some(inaccuracy) => Some(i128::from(self.time) + i128::from(inaccuracy)),
            None => None,
        }
    }

    /// The sixteen octets: time, inaccuracy, and time differential factor with version, each with
    /// its least octet first.
    #[tactic(auto, unfolding(crate::specs::Octets::octets_of))]
    pub fn to_bytes(self) -> [u8; 16]
        ensures octets { result ≡ octets_of self }
        ensures in_range { IsInRange self }
    {
        let mut octets = [0; 16];
        LittleEndian::write_i64(&mut octets, self.time);
        LittleEndian::write_u48(&mut octets[8..], self.inaccuracy.unwrap_or(UNSPECIFIED));
        LittleEndian::write_u16(&mut octets[14..], last_field(self.kind, self.tdf));
        octets
    }

    /// The timestamp whose sixteen octets these are.
    ///
    /// The version is looked at first: `Version` exactly where it is neither 1 (absolute) nor 2
    /// (relative), and else `Tdf` exactly where the time differential factor is a day or more, or
    /// not 0 in version 2.
    pub fn from_bytes(octets: [u8; 16]) -> Result<Utc, BytesFault>
        ensures spelled { (s : Stamp) → (result ≡ Ok s) ↔ (IsInRange s × (octets_of s ≡ octets)) }
        ensures refused { (fault : BytesFault) → (result ≡ Err fault) ↔ RefusesOctets octets fault }
    {
        Self::read_octets(octets)
    }

    // Reads the fields of sixteen octets, the version before the time differential factor.
    #[tactic(auto, unfolding(crate::specs::Octets::octets_of))]
    fn read_octets(octets: [u8; 16]) -> Result<Utc, BytesFault>
        ensures ok { IfOk result (λ u. octets_of u ≡ octets) }
        ensures in_range { IfOk result IsInRange }
        ensures reads_back { (s : Stamp) → IsInRange s → octets_of s ≡ octets → result ≡ Ok s }
        ensures version { (found : ℕ) → (result ≡ Err (BytesFault.Version found))
            ↔ ((found ≡ version_in octets) × (¬ IsVersion found)) }
        ensures tdf { (found : ℤ) → (result ≡ Err (BytesFault.Tdf found))
            ↔ ((found ≡ tdf_in octets) × IsVersion (version_in octets) × (¬ IsTdfOfVersion (version_in octets) found)) }
    {
        let fields = fields_of(&octets);
        let kind = kind_of_version((fields.last >> 12) as u8)?;
        let tdf = low_12_signed(fields.last);
        if !is_tdf_of(kind, tdf) {
            return Err(BytesFault::Tdf { found: tdf });
        }
        Ok(Utc {
            time: fields.time,
            inaccuracy: specified(fields.inaccuracy),
            tdf,
            kind,
        })
    }
}

// The three fields of sixteen octets.
#[derive(Drop)]
struct Fields {
    time: i64,
    inaccuracy: u64,
    last: u16,
}

// Reads the fields, each with its least octet first.
fn fields_of(octets: &[u8; 16]) -> Fields
    ensures time { cast_unsigned w64 result.time ≡ little_number 8 octets.now }
    ensures inaccuracy { result.inaccuracy ≡ little_number 6 (drop 8 octets.now) }
    ensures last { result.last ≡ little_number 2 (drop 14 octets.now) }
    ensures octets { (i : ℕ) → slice_index octets.now i < 256 }
{
    Fields {
        time: LittleEndian::read_i64(octets),
        inaccuracy: LittleEndian::read_u48(&octets[8..]),
        last: LittleEndian::read_u16(&octets[14..]),
    }
}

// The last two octets as a number: the version in the high 4 bits, and below it the time
// differential factor in two's complement of 12 bits.
fn last_field(kind: Kind, tdf: i16) -> u16
    requires { IsTdfOf kind tdf }
    ensures value { result ≡ version_of kind * 2 ^ 12 + twos_complement 12 tdf }
{
    let version: u16 = match kind {
        Kind::Absolute => 1,
        Kind::Relative => 2,
    };
    (version << 12) + (tdf.cast_unsigned() & 0x0fff)
}

// The kind whose version this is.
fn kind_of_version(version: u8) -> Result<Kind, BytesFault>
    ensures ok { IfOk result (λ kind. version_of kind ≡ version) }
    ensures err { IfErr result (λ fault. (fault ≡ BytesFault.Version version) × (¬ IsVersion version)) }
{
    match version {
        1 => Ok(Kind::Absolute),
        2 => Ok(Kind::Relative),
        found => Err(BytesFault::Version { found }),
    }
}

// The signed number whose bits in two's complement are the low 12 of these.
fn low_12_signed(bits: u16) -> i16
    ensures { result ≡ signed_of 12 (bits % 2 ^ 12) }
{
    let low = (bits & 0x0fff) as i16;
    if low < 0x0800 { low } else { low - 0x1000 }
}

// Whether a timestamp of that kind may have the time differential factor.
fn is_tdf_of(kind: Kind, tdf: i16) -> bool
    ensures { IsTrue result ↔ IsTdfOf kind tdf }
{
    match kind {
        Kind::Absolute => is_tdf(tdf),
        Kind::Relative => tdf == 0,
    }
}

// The inaccuracy that the 48 bits stand for.
fn specified(bits: u64) -> Option<u64>
    requires { bits < 2 ^ 48 }
    ensures in_range { IsInaccuracy result }
    ensures value { unwrap_or result UNSPECIFIED ≡ bits }
{
    if bits == UNSPECIFIED {
        None
    } else {
        Some(bits)
    }
}

// Whether an inaccuracy can be stated.
fn is_inaccuracy(inaccuracy: Option<u64>) -> bool
    ensures { IsTrue result ↔ IsInaccuracy inaccuracy }
{
    match inaccuracy {
        Some(units) => units <= MAX_INACCURACY,
        None => true,
    }
}

// Whether a time differential factor is less than a day either way.
fn is_tdf(tdf: i16) -> bool
    ensures { IsTrue result ↔ IsTdf tdf }
{
    -MAX_TDF <= tdf && tdf <= MAX_TDF
}
