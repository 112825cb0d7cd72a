ghost use Rattle.std.specs.Prelude.{◌≡◌, ◌==◌, [], ◌∷◌, MatchOption, position, ◌≤◌, length};
ghost use Rattle.line_reader.specs.Fields.{fields_of, column_of};

use std::marker::Model;

/// The fields of a line, which single spaces join, one after the other. Clauses see the line, the fields that were
/// not taken yet, and the column of the one that was asked for last.
#[derive(Drop)]
pub struct Fields<'a> {
    line: &'a [u8],
    rest: Option<&'a [u8]>,
    before: usize,
}

impl<'a> Model for Fields<'a> {
    ghost use Rattle.std.specs.Prelude.{◌+◌, option_copied};
    ghost use Rattle.line_reader.specs.Fields.{Cut, fields_left};
    ghost use Rattle.line_reader.specs.Columns.{IsCut};

    ghost Value = { Cut };

    ghost view = { λ fields. record { line = fields.line.now; left = fields_left (option_copied fields.rest); column = fields.before + 1 } };

    ghost invariant = { IsCut };
}

impl<'a> Fields<'a> {
    /// All fields of a line, which are cut at each space. An empty line has one empty field.
    pub fn new(line: &'a [u8]) -> Self
        ensures { result ≡ record { line = line.now; left = fields_of line.now; column = 1 } }
    {
        Fields {
            line,
            rest: Some(line),
            before: 0,
        }
    }

    /// Takes the next field, where there is one.
    pub fn next(&mut self) -> Option<&'a [u8]>
        ensures line { self.new.line ≡ self.old.line }
        ensures column { self.new.column ≡ column_of self.old.line self.old.left }
        ensures next { MatchOption result ((self.old.left ≡ []) × (self.new.left ≡ [])) (λ field. self.old.left ≡ field.now ∷ self.new.left) }
    {
        match self.rest {
            Some(rest) => {
                self.before = self.line.len() - rest.len();
                Some(self.first_of(rest))
            }
            None => {
                self.before = self.line.len();
                None
            }
        }
    }

    // Takes the first field of the rest.
    fn first_of(&mut self, rest: &'a [u8]) -> &'a [u8]
        requires { length rest.now ≤ length self.old.line }
        ensures line { self.new.line ≡ self.old.line }
        ensures column { self.new.column ≡ self.old.column }
        ensures first { fields_of rest.now ≡ result.now ∷ self.new.left }
    {
        match first_space(rest) {
            Some(end) => {
                self.rest = Some(&rest[end + 1..]);
                &rest[..end]
            }
            None => {
                self.rest = None;
                rest
            }
        }
    }

    /// The column, from 1, of the first octet of the field that [`Fields::next`] gave last; where it gave none, one
    /// past the line's end.
    pub fn column(&self) -> usize
        ensures { result ≡ self.now.column }
    {
        self.before + 1
    }
}

// Where the first space stands.
fn first_space(text: &[u8]) -> Option<usize>
    ensures { result ≡ position (λ octet. octet == 32) text.now }
{
    text.iter().position(|octet| *octet == b' ')
}
