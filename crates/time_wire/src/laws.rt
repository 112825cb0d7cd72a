//! Laws of the stubs. Each function does nothing: its contract is the law.

ghost use Rattle.std.specs.Prelude.{◌≡◌, ◌<◌, ◌≤◌, ◌^◌, ◌⊎◌, ℕ, true, false, List, Ok, Err};
ghost use Rattle.dts_base.specs.declared.wire.Refused.{Refused};
ghost use Rattle.ndr.specs.declared.endian.Endian.{Endian};
ghost use Rattle.ndr.specs.Reading.{Cursor, finish};
ghost use Rattle.ndr.specs.Strings.{is_text};
ghost use Rattle.ndr.specs.Stubs.{Entry, Value, some_octets, IsFirstWrong, read_entries, read_stub};
ghost use Rattle.utc_value.specs.declared.BytesFault.{BytesFault};
ghost use Rattle.utc_value.specs.Octets.{octets_of, RefusesOctets};
ghost use Rattle.utc_value.specs.Stamp.{Stamp, IsInRange};
ghost use Rattle.time_wire.specs.Layouts.{get_time, time_reply, info_reply, command, command_reply, is_timestamp};
ghost use Rattle.time_wire.specs.Spelling.{Spells, spelling};
ghost use Rattle.time_wire.specs.declared.TheConstants.{WIRE_VERSION, MAX_ROLE, MAX_COURIER};
ghost use Rattle.time_wire.specs.declared.message.GetTime.{GetTime};
ghost use Rattle.time_wire.specs.declared.message.TimeReply.{TimeReply};
ghost use Rattle.time_wire.specs.declared.message.InfoReply.{InfoReply};
ghost use Rattle.time_wire.specs.declared.message.CommandReply.{CommandReply};

/// A message whose fields are right reads back from what is written of it.
pub fn encoded_is_decoded()
    ensures get_time { (e : Endian) (m : GetTime) → m.epoch < 2 ^ 8 → Spells get_time e (spelling get_time e m) m }
    ensures time_reply { (e : Endian) (m : TimeReply) → m.version ≡ WIRE_VERSION → m.epoch < 2 ^ 8 → IsInRange m.utc → m.status < 2 ^ 32
        → Spells time_reply e (spelling time_reply e m) m }
    ensures info_reply { (e : Endian) (m : InfoReply) → m.role ≤ MAX_ROLE → m.courier ≤ MAX_COURIER → m.epoch < 2 ^ 8 → m.number < 2 ^ 64
        → m.step < 2 ^ 64 → is_text m.name ≡ true → Spells info_reply e (spelling info_reply e m) m }
    ensures command { (e : Endian) (text : List ℕ) → is_text text ≡ true → Spells command e (spelling command e text) text }
    ensures command_reply { (e : Endian) (m : CommandReply) → is_text m.text ≡ true → m.status < 2 ^ 32
        → Spells command_reply e (spelling command_reply e m) m }
{}

/// What octets spell has right fields: so it is written, and reads back, in either byte order.
pub fn decoded_is_right()
    ensures time_reply { (e : Endian) (b : List ℕ) (m : TimeReply) → Spells time_reply e b m → m.version ≡ WIRE_VERSION }
    ensures info_reply { (e : Endian) (b : List ℕ) (m : InfoReply) → Spells info_reply e b m
        → (m.role ≤ MAX_ROLE) × (m.courier ≤ MAX_COURIER) × (is_text m.name ≡ true) }
    ensures command { (e : Endian) (b : List ℕ) (text : List ℕ) → Spells command e b text → is_text text ≡ true }
    ensures command_reply { (e : Endian) (b : List ℕ) (m : CommandReply) → Spells command_reply e b m → is_text m.text ≡ true }
{}

/// Octets spell one message.
pub fn stubs_have_one_reading()
    ensures get_time { (e : Endian) (b : List ℕ) (m n : GetTime) → Spells get_time e b m → Spells get_time e b n → m ≡ n }
    ensures time_reply { (e : Endian) (b : List ℕ) (m n : TimeReply) → IsInRange m.utc → IsInRange n.utc → Spells time_reply e b m
        → Spells time_reply e b n → m ≡ n }
    ensures info_reply { (e : Endian) (b : List ℕ) (m n : InfoReply) → Spells info_reply e b m → Spells info_reply e b n → m ≡ n }
    ensures command { (e : Endian) (b : List ℕ) (text other : List ℕ) → Spells command e b text → Spells command e b other → text ≡ other }
    ensures command_reply { (e : Endian) (b : List ℕ) (m n : CommandReply) → Spells command_reply e b m → Spells command_reply e b n
        → m ≡ n }
{}

/// A stub is refused at the first field that is not whole or not right, or else where an octet is left.
pub fn refused_at_the_first_wrong_field()
    ensures { (fields : List Entry) (e : Endian) (b : List ℕ) (refused : Refused) → read_stub fields e b ≡ Err refused
        → IsFirstWrong fields (record { endian = e; stub = b; at = 0 }) refused
        ⊎ ((values : List Value) × (at : Cursor) × (read_entries fields (record { endian = e; stub = b; at = 0 }) ≡ Ok (values, at))
        × (finish at ≡ Err refused)) }
{}

/// The octets of each timestamp are right, and those that utc_value refuses are not.
pub fn timestamps_are_those_of_utc_value()
    ensures timestamp { (s : Stamp) → IsInRange s → is_timestamp (some_octets (octets_of s)) ≡ true }
    ensures refused { (os : List ℕ) (fault : BytesFault) → RefusesOctets os fault → is_timestamp (some_octets os) ≡ false }
{}
