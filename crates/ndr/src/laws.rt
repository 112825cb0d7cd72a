//! Laws over the definitions: each is the contract of a call that does nothing.
ghost use Rattle.std.specs.Prelude.{◌≡◌, List, Ok, Err};
ghost use Rattle.dts_base.specs.declared.wire.Refused.{Refused};
ghost use Rattle.ndr.specs.declared.endian.Endian.{Endian};
ghost use Rattle.ndr.specs.Reading.{Cursor};
ghost use Rattle.ndr.specs.Stubs.{Entry, Value, AllFit, IsFirstWrong, stub_octets, read_stub, read_entries};

/// What was written as a list of fields reads back as that list, with nothing left.
pub fn written_reads_back()
    ensures { (e : Endian) (entries : List Entry) (values : List Value) → AllFit entries values → read_stub entries e (stub_octets e 0 entries values) ≡ Ok values }
{}

/// A list of fields is refused at the first one that is not whole or not right.
pub fn one_refusal()
    ensures { (entries : List Entry) (c : Cursor) (refused : Refused) → read_entries entries c ≡ Err refused → IsFirstWrong entries c refused }
{}
