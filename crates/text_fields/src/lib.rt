// The fields of a line of replay text, from left to right. Defined in crates/replay_text/specs/Field.antt.
#![tactic(auto)]

mod name;
mod number;

ghost use Rattle.std.specs.Prelude.{◌≡◌, ◌∷◌, ◌==◌, [], List, ℕ, Option, MatchOption};
ghost use Rattle.std.specs.List.{position};
ghost use Rattle.replay_text.specs.Bytes.{tab};
ghost use Rattle.replay_text.specs.Field.{fields_of, is};
ghost use Rattle.text_fields.specs.Fields.{fields_in, next_value, last_value, after_next};
ghost use Rattle.text_fields.specs.Place.{first_of};

pub use name::{direction_at, part_at, table_at};
use replay_text::{BadLine, TAB};
use std::marker::Model;

/// A value that a field can hold.
pub trait FieldValue: Copy {
    // What the text of a field says.
    ghost read: { List ℕ → Option Self };

    // The value that a text says; none where it says no such value.
    fn in_text(text: &[u8]) -> Option<Self>
        ensures { result ≡ read text.now };
}

/// The fields of a line that are left to read.
#[derive(Drop)]
pub struct Fields<'a> {
    // From the first byte of the next field on; none after the last field.
    rest: Option<&'a [u8]>,
}

impl<'a> Model for Fields<'a> {
    ghost use Rattle.std.specs.Prelude.{List, ℕ};
    ghost use Rattle.text_fields.specs.Fields.{fields_in};

    ghost Value = { List (List ℕ) };

    ghost view = { λ f. fields_in f.rest };
}

impl<'a> Fields<'a> {
    /// The fields of a line, which has one more than it has tabs.
    pub fn of(line: &'a [u8]) -> Fields<'a>
        ensures { result ≡ fields_of line.now }
    {
        Fields { rest: Some(line) }
    }

    /// The text of the next field; none after the last one.
    pub fn text(&mut self) -> Option<&'a [u8]>
        ensures { MatchOption result ((self.old ≡ []) × (self.new ≡ [])) (λ text. self.old ≡ text.now ∷ self.new) }
    {
        let line = self.rest?;
        match tab_in(line) {
            Some(end) => {
                self.rest = Some(&line[end + 1..]);
                Some(&line[..end])
            }
            None => {
                self.rest = None;
                Some(line)
            }
        }
    }

    /// The value of the next field; a bad line where there is none, or its text is no such value.
    pub fn next<T: FieldValue>(&mut self) -> Result<T, BadLine>
        ensures value { result ≡ next_value T.read self.old }
        ensures left { self.new ≡ after_next self.old }
    {
        let text = self.text().ok_or(BadLine)?;
        T::in_text(text).ok_or(BadLine)
    }

    /// The value of the one field that is left; a bad line where there is none or another after it, or its text is no such value.
    pub fn last<T: FieldValue>(mut self) -> Result<T, BadLine>
        ensures { result ≡ last_value T.read self.entry }
    {
        let value = self.next()?;
        match self.rest {
            Some(_) => Err(BadLine),
            None => Ok(value),
        }
    }
}

/// The first field of a line, which has one at least: all of it where it has no tab.
#[tactic(auto, using(crate::proofs::PlaceLaws::first_is))]
pub fn first(line: &[u8]) -> &[u8]
    ensures { result.now ≡ first_of line.now }
{
    let end = tab_in(line).unwrap_or(line.len());
    &line[..end]
}

/// Whether a text is this word.
// Kept: a function, whose contract gives the equality of the definition; a `==` in place needs the lemma at each use.
#[tactic(auto, using(crate::proofs::NameLaws::is_equal))]
pub fn same(text: &[u8], word: &[u8]) -> bool
    ensures { result ≡ is text.now word.now }
{
    text == word
}

// The place of the first tab.
fn tab_in(line: &[u8]) -> Option<usize>
    ensures { result ≡ position (λ b. b == tab) line.now }
{
    line.iter().position(|byte| *byte == TAB)
}
