// An output as it is written: fields, and the lines that they make.
ghost use Rattle.std.specs.Prelude.{◌++◌, ◌≡◌, ◌+◌, ◌≤◌, ◌<◌, length};
ghost use Rattle.replay_text.specs.Bytes.{tab, line_feed};
ghost use Rattle.replay_text.specs.Digits.{decimal, hexadecimal, ended_by, decimal_room, hexadecimal_room};
ghost use Rattle.replay_text.specs.Name.{name_of};
ghost use Rattle.replay_text.specs.Text as spec;
ghost use Rattle.text_report.specs.Placed.{Wrote};
ghost use Rattle.text_report.specs.Output.{Writes};

use crate::digits::{HEXADECIMAL_DIGITS, places, put_digits};
use crate::names::name_text;
use kinds::answer::Numbers;
use replay_text::{LINE_FEED, TAB};

// The bytes of an output, and where the next one goes.
// Kept: each method asks for the room of its own text; a fact of the type would need a count of free bytes beside it, lowered at each call.
#[derive(Drop)]
pub(crate) struct Output<'a> {
    pub(crate) bytes: &'a mut [u8],
    pub(crate) at: usize,
}

impl<'a> Output<'a> {
    // Output line n: the answer in numbers.
    pub(crate) fn line(&mut self, n: u64, numbers: Numbers)
        requires { self.old.at + spec.line_most ≤ length self.old.bytes.now }
        ensures { Writes (spec.answer_line n numbers) self.old self.new }
    {
        self.head(n, numbers.name);
        self.tail(numbers.reason, numbers.value, numbers.words);
    }

    // The first two fields of a line.
    fn head(&mut self, n: u64, name: u64)
        requires { self.old.at + spec.head_most ≤ length self.old.bytes.now }
        ensures { Writes (spec.head_of n name) self.old self.new }
    {
        self.decimal(n, TAB);
        self.name(name);
    }

    // Its last three fields: reason, value and words.
    fn tail(&mut self, reason: u64, value: u64, words: u64)
        requires { self.old.at + spec.tail_most ≤ length self.old.bytes.now }
        ensures { Writes (spec.tail_of reason value words) self.old self.new }
    {
        self.decimal(reason, TAB);
        self.last(value, words);
    }

    // The last two: value and words.
    fn last(&mut self, value: u64, words: u64)
        requires { self.old.at + (hexadecimal_room + decimal_room) ≤ length self.old.bytes.now }
        ensures { Writes (ended_by tab (hexadecimal value) ++ ended_by line_feed (decimal words)) self.old self.new }
    {
        self.hexadecimal(value, TAB);
        self.decimal(words, LINE_FEED);
    }

    // The name of an answer, and a tab.
    fn name(&mut self, name: u64)
        requires { self.old.at + spec.name_room ≤ length self.old.bytes.now }
        ensures { Writes (ended_by tab (name_of name)) self.old self.new }
    {
        self.text(name_text(name), TAB);
    }

    // Number n in decimal, and the byte `end`.
    fn decimal(&mut self, n: u64, end: u8)
        requires { self.old.at + decimal_room ≤ length self.old.bytes.now }
        ensures { Writes (ended_by end (decimal n)) self.old self.new }
    {
        let at = self.at;
        self.at = put_digits(self.bytes, at, 10, places(n), n, end);
    }

    // Value v in 16 hexadecimal digits, and the byte `end`.
    fn hexadecimal(&mut self, v: u64, end: u8)
        requires { self.old.at + hexadecimal_room ≤ length self.old.bytes.now }
        ensures { Writes (ended_by end (hexadecimal v)) self.old self.new }
    {
        let at = self.at;
        self.at = put_digits(self.bytes, at, 16, HEXADECIMAL_DIGITS, v, end);
    }

    // All of `text`, and the byte `end`.
    pub(crate) fn text(&mut self, text: &[u8], end: u8)
        requires { self.old.at + length text.now < length self.old.bytes.now }
        ensures { Writes (ended_by end text.now) self.old self.new }
    {
        let at = self.at;
        self.at = put_text(self.bytes, at, text, end);
    }
}

// All of `text` from place `at` on, and the byte `end`; the place after them.
fn put_text(out: &mut [u8], at: usize, text: &[u8], end: u8) -> usize
    requires { at + length text.now < length out.old }
    ensures { Wrote (ended_by end text.now) out.old at out.new result }
{
    let past = at + text.len();
    out[at..past].copy_from_slice(text);
    out[past] = end;
    past + 1
}
