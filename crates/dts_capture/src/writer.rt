//! Writes a line of a log or a capture field by field.

ghost use Rattle.std.specs.Prelude.{◌≡◌, [], ◌∷◌, ◌++◌, IfOk, OnOk, codes, decimal};
ghost use Rattle.hex.specs.Hex.{encode_lower};
ghost use Rattle.dts_capture.specs.Log.{number_or_dash, hex_or_dash};
ghost use Rattle.dts_capture.specs.Writing.{Adds};

use dts_base::{NoMemory, Text};
use itoa::{Buffer, Integer};
use std::alloc::Global;
use std::marker::Model;

/// A line has mostly fewer octets than this.
const USUAL_LENGTH: usize = 160;

/// A line that is being written: its fields, joined by single spaces. Clauses see its octets.
#[derive(Drop)]
pub struct LineWriter {
    octets: Vec<u8>,
}

impl Model for LineWriter {
    ghost use Rattle.std.specs.Prelude.{List, ℕ};

    ghost Value = { List ℕ };

    ghost view = { λ w. w.octets.items };
}

impl LineWriter {
    /// A line that begins with this word.
    pub fn new(alloc: Global, word: &str) -> Result<LineWriter, NoMemory>
        ensures { IfOk result (λ line. line ≡ word.now) }
    {
        let mut octets = Vec::with_capacity(alloc, USUAL_LENGTH)?;
        octets.extend_from_slice(word.as_bytes())?;
        Ok(LineWriter { octets })
    }

    /// Adds a field of these octets.
    pub fn octets(&mut self, field: &[u8]) -> Result<(), NoMemory>
        ensures { OnOk result (Adds self.old self.new (field.now ∷ [])) }
    {
        self.octets.push(b' ')?;
        self.octets.extend_from_slice(field)?;
        Ok(())
    }

    /// Adds a word.
    pub fn word(&mut self, word: &str) -> Result<(), NoMemory>
        ensures { OnOk result (Adds self.old self.new (word.now ∷ [])) }
    {
        self.octets(word.as_bytes())
    }

    /// Adds a number in decimal.
    pub fn number<I: Integer>(&mut self, n: I) -> Result<(), NoMemory>
        ensures { OnOk result (Adds self.old self.new (I.text n ∷ [])) }
    {
        let mut buffer = Buffer::new();
        self.octets(buffer.format(n).as_bytes())
    }

    /// Adds a number, or '-' where there is none.
    pub fn number_or_dash(&mut self, n: Option<u64>) -> Result<(), NoMemory>
        ensures { OnOk result (Adds self.old self.new (number_or_dash n ∷ [])) }
    {
        match n {
            None => self.word("-"),
            Some(n) => self.number(n),
        }
    }

    /// Adds octets in hex, in lower case.
    pub fn hex(&mut self, octets: &[u8]) -> Result<(), NoMemory>
        ensures { OnOk result (Adds self.old self.new (encode_lower octets.now ∷ [])) }
    {
        let alloc = *self.octets.allocator();
        let text = hex::encode(alloc, octets)?;
        self.octets(text.as_bytes())
    }

    /// Adds octets in hex, or '-' where there are none.
    pub fn hex_or_dash(&mut self, octets: &[u8]) -> Result<(), NoMemory>
        ensures { OnOk result (Adds self.old self.new (hex_or_dash octets.now ∷ [])) }
    {
        if octets.is_empty() {
            self.word("-")
        } else {
            self.hex(octets)
        }
    }

    /// Ends the line with a line feed.
    pub fn end_of_line(mut self) -> Result<Text, NoMemory>
        ensures { IfOk result (λ text. text ≡ self ++ 10 ∷ []) }
    {
        self.octets.push(b'\n')?;
        Ok(Text::from_vec(self.octets))
    }

    /// Ends the line where it is.
    pub fn end(self) -> Text
        ensures { result ≡ self }
    {
        Text::from_vec(self.octets)
    }
}
