//! Writes the text of an answer word by word.

ghost use Rattle.std.specs.Prelude.{◌≡◌, [], ◌∷◌, IfOk, OnOk};
ghost use Rattle.dts_capture.specs.Log.{number_or_dash};
ghost use Rattle.dts_capture.specs.Writing.{Adds};

use dts_base::{NoMemory, Text};
use itoa::{Buffer, Integer};
use std::alloc::Global;
use std::marker::Model;

// A text has mostly fewer octets than this.
const USUAL_LENGTH: usize = 160;

/// A text that is being written: words, joined by single spaces. Clauses see its octets.
#[derive(Drop)]
pub(crate) struct Words {
    octets: Vec<u8>,
}

impl Model for Words {
    ghost use Rattle.std.specs.Prelude.{List, ℕ};

    ghost Value = { List ℕ };

    ghost view = { λ w. w.octets.items };
}

impl Words {
    /// A text that begins with this word.
    pub(crate) fn new(alloc: Global, word: &str) -> Result<Words, NoMemory>
        ensures { IfOk result (λ words. words ≡ word.now) }
    {
        let mut octets = Vec::with_capacity(alloc, USUAL_LENGTH)?;
        octets.extend_from_slice(word.as_bytes())?;
        Ok(Words { octets })
    }

    /// Adds a word of these octets.
    pub(crate) fn word(&mut self, word: &[u8]) -> Result<(), NoMemory>
        ensures { OnOk result (Adds self.old self.new (word.now ∷ [])) }
    {
        self.octets.push(b' ')?;
        self.octets.extend_from_slice(word)?;
        Ok(())
    }

    /// Adds a number in decimal.
    pub(crate) fn number<I: Integer>(&mut self, n: I) -> Result<(), NoMemory>
        ensures { OnOk result (Adds self.old self.new (I.text n ∷ [])) }
    {
        let mut buffer = Buffer::new();
        self.word(buffer.format(n).as_bytes())
    }

    /// Adds a number, or '-' where there is none.
    pub(crate) fn number_or_dash(&mut self, n: Option<u64>) -> Result<(), NoMemory>
        ensures { OnOk result (Adds self.old self.new (number_or_dash n ∷ [])) }
    {
        match n {
            None => self.word(b"-"),
            Some(n) => self.number(n),
        }
    }

    /// Adds a number behind the word that says what it counts.
    pub(crate) fn labelled<I: Integer>(&mut self, label: &str, n: I) -> Result<(), NoMemory>
        ensures { OnOk result (Adds self.old self.new (label.now ∷ I.text n ∷ [])) }
    {
        self.word(label.as_bytes())?;
        self.number(n)
    }

    /// Ends the text where it is.
    pub(crate) fn end(self) -> Text
        ensures { result ≡ self }
    {
        Text::from_vec(self.octets)
    }
}
