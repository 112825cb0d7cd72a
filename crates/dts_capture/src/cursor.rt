//! Reads a line field by field.

ghost use Rattle.std.specs.Prelude.{◌≡◌, ◌-◌, ◌^◌, ◌≤◌, ℕ, List, ◌∷◌, Result, Err, MatchResult, IfOk, IfSome, Some, true, codes, ◌≢◌, length};
ghost use Rattle.std.specs.Bool.{MatchBool};
ghost use Rattle.line_reader.specs.Fields.{fields_of, column_of};
ghost use Rattle.dts_capture.specs.declared.line.Line.{Line};
ghost use Rattle.dts_capture.specs.declared.line.LineFault.{LineFault};
ghost use Rattle.dts_capture.specs.Kinds.{greatest_count, Kind, value_of, Natural, RecordNumber, Count, NotBelow, Word, Octets};
ghost use Rattle.dts_capture.specs.Grammar.{Form, Ends, Field, Choice, NoWord, FromHere, Served, at_osc, ends, first_interval};
ghost use Rattle.dts_capture.specs.Parsing.{Parses, Reading, Chooses, IsHere, HasNumber, HasTime, AsNumber, HexFault, number_cause};

use crate::limits::{FIRST_CONNECTION, GREATEST_COUNT};
use crate::{Line, LineCause, LineFault};
use dts_base::{Bytes, Interval};
use hex::{FromHex, FromHexError};
use line_reader::{Fields, MAX_LINE, NumberFault, number_in};
use slew_clock::GREATEST_OSC;
use std::alloc::Global;
use std::marker::Model;

/// The fields of a line that were not read yet. Clauses see the line, these fields, and the column of the word that a
/// cause may speak of.
#[derive(Drop)]
pub struct Cursor<'a> {
    behind: Fields<'a>,
    here: Option<&'a [u8]>,
    word: usize,
}

impl<'a> Model for Cursor<'a> {
    ghost use Rattle.std.specs.Prelude.{option_copied};
    ghost use Rattle.dts_capture.specs.Parsing.{Place, from_here};
    ghost use Rattle.dts_capture.specs.Cursors.{IsAtItsField};

    ghost Value = { Place };

    ghost view = { λ c. record { line = c.behind.line; left = from_here (option_copied c.here) c.behind.left; word = c.word } };

    ghost invariant = { IsAtItsField };
}

impl<'a> Cursor<'a> {
    /// The fields of a line, of which none was read.
    pub fn new(line: &'a [u8]) -> Cursor<'a>
        requires { length line.now ≤ MAX_LINE }
        ensures { result ≡ record { line = line.now; left = fields_of line.now; word = 1 } }
    {
        let mut behind = Fields::new(line);
        let here = behind.next();
        Cursor {
            behind,
            here,
            word: 1,
        }
    }

    // What is wrong here.
    fn wrong(&self, cause: LineCause) -> LineFault
        ensures { result ≡ LineFault.Wrong (column_of self.now.line self.now.left) cause }
    {
        LineFault::Wrong {
            column: self.behind.column() as u32,
            cause,
        }
    }

    // The field that stands here; none may be empty.
    #[tactic(auto, unfolding(crate::specs::Parsing::Parses))]
    fn field(&self) -> Result<&'a [u8], LineFault>
        ensures { MatchResult result (λ field. IsHere self.now field.now) (λ fault. (kind : Kind) (more : value_of kind → Form) → Parses (Field kind more) self.now (Err fault)) }
    {
        let Some(field) = self.here else {
            return Err(self.wrong(LineCause::Missing));
        };
        if field.is_empty() {
            return Err(self.wrong(LineCause::Missing));
        }
        Ok(field)
    }

    // Goes on behind the field that stands here.
    fn advance(&mut self)
        ensures { (field : List ℕ) (rest : List (List ℕ)) → self.old.left ≡ field ∷ rest → self.new ≡ record self.old { left = rest } }
    {
        self.here = self.behind.next();
    }

    // What is wrong with a field that is no number of its range.
    fn wrong_number(&self, fault: NumberFault) -> LineFault
        ensures { result ≡ LineFault.Wrong (column_of self.now.line self.now.left) (number_cause fault) }
    {
        match fault {
            NumberFault::Form => self.wrong(LineCause::Number),
            NumberFault::Range => self.wrong(LineCause::Range),
        }
    }

    // What is wrong where octets are not decoded.
    fn wrong_hex(&self, fault: FromHexError) -> LineFault
        ensures { HexFault self.now fault result }
    {
        match fault {
            FromHexError::OutOfMemory => LineFault::NoMemory,
            _ => self.wrong(LineCause::Hex),
        }
    }

    // The number of this range that stands here.
    fn number_here(&self, from: u64, to: u64) -> Result<u64, LineFault>
        ensures read { MatchResult result (HasNumber from to self.now) (λ fault. (kind : Kind) (more : value_of kind → Form) → AsNumber from to kind → Parses (Field kind more) self.now (Err fault)) }
        ensures bounds { IfOk result (λ n. (from ≤ n) × (n ≤ to)) }
    {
        let field = self.field()?;
        match number_in(field, i128::from(from), i128::from(to)) {
            Ok(number) => Ok(number as u64),
            Err(fault) => Err(self.wrong_number(fault)),
        }
    }

    // The time count that stands here.
    fn time_here(&self) -> Result<i64, LineFault>
        ensures { MatchResult result (HasTime self.now) (λ fault. (kind : Kind) (more : value_of kind → Form) → AsNumber 0 greatest_count kind → Parses (Field kind more) self.now (Err fault)) }
    {
        let count = self.number_here(0, GREATEST_COUNT)?;
        Ok(count as i64)
    }

    /// Reads a number of this range.
    pub fn natural(&mut self, from: u64, to: u64) -> Result<u64, LineFault>
        ensures read { Reading (Field (Natural from to)) self.old self.new result }
        ensures bounds { IfOk result (λ n. (from ≤ n) × (n ≤ to)) }
    {
        let number = self.number_here(from, to)?;
        self.advance();
        Ok(number)
    }

    /// Reads an oscillator reading.
    pub fn osc(&mut self) -> Result<u64, LineFault>
        ensures { Reading at_osc self.old self.new result }
    {
        self.natural(0, GREATEST_OSC)
    }

    /// Reads a number of 32 bits, from this one on.
    pub fn number32(&mut self, from: u32) -> Result<u32, LineFault>
        ensures read { Reading (Field (Natural from (2 ^ 32 - 1))) self.old self.new result }
        ensures bound { IfOk result (λ n. from ≤ n) }
    {
        Ok(self.natural(u64::from(from), u64::from(u32::MAX))? as u32)
    }

    /// Reads the number of a record: of this one, where one is given.
    pub fn record_number(&mut self, expected: Option<u64>) -> Result<u64, LineFault>
        ensures { Reading (Field (RecordNumber expected)) self.old self.new result }
    {
        let number = self.number_here(0, u64::MAX)?;
        if !is_expected(expected, number) {
            return Err(self.wrong(LineCause::At));
        }
        self.advance();
        Ok(number)
    }

    /// Reads a time count.
    pub fn count(&mut self) -> Result<i64, LineFault>
        ensures { Reading (Field Count) self.old self.new result }
    {
        let count = self.time_here()?;
        self.advance();
        Ok(count)
    }

    // Reads the high end of an interval with this low end.
    fn not_below(&mut self, lo: i64) -> Result<Interval, LineFault>
        ensures { Reading (Field (NotBelow lo)) self.old self.new result }
    {
        let hi = self.time_here()?;
        if hi < lo {
            return Err(self.wrong(LineCause::Order));
        }
        self.advance();
        Ok(Interval { lo, hi })
    }

    /// Reads the ends of an interval.
    pub fn interval(&mut self) -> Result<Interval, LineFault>
        ensures { Reading ends self.old self.new result }
    {
        let lo = self.count()?;
        self.not_below(lo)
    }

    /// Reads the ends of a first interval, or the word that there is none.
    pub fn first(&mut self) -> Result<Option<Interval>, LineFault>
        ensures { Reading first_interval self.old self.new result }
    {
        if self.takes("unknown")? {
            return Ok(None);
        }
        Ok(Some(self.interval()?))
    }

    /// Reads a word of 64 bits.
    pub fn word(&mut self) -> Result<u64, LineFault>
        ensures { Reading (Field Word) self.old self.new result }
    {
        let field = self.field()?;
        match <[u8; 8] as FromHex>::from_hex(field) {
            Ok(octets) => {
                self.advance();
                Ok(u64::from_be_bytes(octets))
            }
            Err(_) => Err(self.wrong(LineCause::Hex)),
        }
    }

    /// Reads octets, at least one, or `-` for none where that may be.
    pub fn octets(&mut self, alloc: Global, may_be_empty: bool) -> Result<Bytes, LineFault>
        ensures { Reading (Field (Octets may_be_empty)) self.old self.new result }
    {
        let field = self.field()?;
        if writes_none(field, may_be_empty) {
            self.advance();
            return Ok(Bytes::from_vec(Vec::new(alloc)));
        }
        match hex::decode(alloc, field) {
            Ok(octets) => {
                self.advance();
                Ok(Bytes::from_vec(octets))
            }
            Err(fault) => Err(self.wrong_hex(fault)),
        }
    }

    /// Goes behind this word, where it stands here.
    #[tactic(auto, unfolding(crate::specs::Parsing::Parses))]
    pub fn takes(&mut self, word: &str) -> Result<bool, LineFault>
        ensures { MatchResult result (λ there. Chooses word.now there self.old self.new) (λ fault. (chosen other : Form) → Parses (Choice word.now chosen other) self.old (Err fault)) }
    {
        let Some(field) = self.here else {
            return Err(self.wrong(LineCause::Missing));
        };
        let there = field == word.as_bytes();
        if there {
            self.advance();
        }
        Ok(there)
    }

    /// None of the words that might stand here does.
    #[tactic(auto, unfolding(crate::specs::Parsing::Parses))]
    pub fn no_word(&self, empty: LineCause, unknown: LineCause) -> LineFault
        ensures { Parses (NoWord empty unknown) self.now (Err result) }
    {
        match self.here {
            None => self.wrong(LineCause::Missing),
            Some([]) => self.wrong(empty),
            Some(_) => self.wrong(unknown),
        }
    }

    /// The word that a cause may speak of stands here.
    #[tactic(auto, unfolding(crate::specs::Parsing::Parses))]
    pub fn mark_word(&mut self)
        ensures { (form : Form) (r : Result Line LineFault) → Parses form self.new r → Parses (FromHere form) self.old r }
    {
        self.word = self.behind.column();
    }

    /// The peer is a connection that a client made, or the word is wrong.
    #[tactic(auto, unfolding(crate::specs::Parsing::Parses))]
    pub fn served(&self, peer: u32) -> Result<(), LineFault>
        ensures { MatchResult result (λ _. (form : Form) (r : Result Line LineFault) → Parses form self.now r → Parses (Served peer form) self.now r) (λ fault. (form : Form) → Parses (Served peer form) self.now (Err fault)) }
    {
        if peer < FIRST_CONNECTION {
            return Err(LineFault::Wrong {
                column: self.word as u32,
                cause: LineCause::At,
            });
        }
        Ok(())
    }

    /// The line ends here, and says this.
    #[tactic(auto, unfolding(crate::specs::Parsing::Parses))]
    pub fn says(&self, said: Line) -> Result<Line, LineFault>
        ensures { Parses (Ends said) self.now result }
    {
        match self.here {
            None => Ok(said),
            Some([]) => Err(self.wrong(LineCause::Missing)),
            Some(_) => Err(self.wrong(LineCause::Extra)),
        }
    }
}

// The number is the one that is asked for, if one is.
fn is_expected(expected: Option<u64>, number: u64) -> bool
    ensures { MatchBool result (IfSome expected (λ k. number ≡ k)) ((k : ℕ) × (expected ≡ Some k) × (number ≢ k)) }
{
    match expected {
        Some(expected) => number == expected,
        None => true,
    }
}

// The field writes no octets, where that may be.
fn writes_none(field: &[u8], may_be_empty: bool) -> bool
    ensures { MatchBool result ((may_be_empty ≡ true) × (field.now ≡ codes "-")) ((may_be_empty ≡ true) × (field.now ≡ codes "-") → ⊥) }
{
    may_be_empty && field == "-".as_bytes()
}
