ghost use Rattle.std.specs.Prelude.{◌≤◌, Option};
ghost use Rattle.dts_base.specs.Told.{Told};
ghost use Rattle.dts_base.specs.Numbers.{Script, GivesNext};

/// The greatest reading of an oscillator: 2^60 units of 100 ns, over 3,600 years.
pub const MAX_OSC: u64 = 1 << 60;

/// An oscillator: a count of units of 100 ns whose beginning is left open.
pub trait Oscillator {
    /// The readings left and the last one given, where the object tells them.
    ghost readings: { Self → Option Script };

    /// One reading, at most 2^60.
    fn read(&mut self) -> u64
        ensures bound { result ≤ MAX_OSC }
        ensures told { Told (readings self.old) (readings self.new) (GivesNext result) };
}

/// A source of random words.
pub trait Words {
    /// The words left and the last one given, where the object tells them.
    ghost words: { Self → Option Script };

    /// One word.
    fn next(&mut self) -> u64
        ensures told { Told (words self.old) (words self.new) (GivesNext result) };
}
