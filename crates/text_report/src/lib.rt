// The lines that a replay writes, as bytes in a lent slice. Defined in crates/replay_text/specs/Text.antt.
#![tactic(auto)]

mod digits;
mod names;
mod output;

ghost use Rattle.std.specs.Prelude.{◌++◌, ◌≡◌, ◌+◌, ◌≤◌, ◌<◌, leb, length};
ghost use Rattle.replay_text.specs.Text as spec;
ghost use Rattle.text_report.specs.Placed.{placed, Wrote};
ghost use Rattle.text_report.specs.Written.{written};

use kinds::answer::Numbers;
use output::Output;
use replay_text::{LINE_FEED, NoRoom};

/// No answer's line is longer: three decimal numbers of 20 digits, a name of 6 letters, 16 digits and the 5 bytes that end them.
pub const LINE_MOST: usize = 87;

const HEADER_LENGTH: usize = 28;

/// Output line n, after the header: the answer in numbers, or `bad`. The place after it; where too few bytes are free, none is written.
// Kept: this and `write_header` apart: each is one test of room around its own call; a closure for that call is no plainer.
pub fn write_line(out: &mut [u8], at: usize, n: u64, numbers: Numbers) -> Result<usize, NoRoom>
    ensures { (result ≡ placed spec.line_most out.old at (spec.answer_line n numbers)) × (out.new ≡ written spec.line_most out.old at (spec.answer_line n numbers)) }
{
    if has_room(out.len(), at, LINE_MOST) {
        Ok(put_line(out, at, n, numbers))
    } else {
        Err(NoRoom)
    }
}

/// The header. The place after it; where too few bytes are free, none is written.
pub fn write_header(out: &mut [u8], at: usize) -> Result<usize, NoRoom>
    ensures { (result ≡ placed (length spec.header) out.old at spec.header) × (out.new ≡ written (length spec.header) out.old at spec.header) }
{
    if has_room(out.len(), at, HEADER_LENGTH) {
        Ok(put_header(out, at))
    } else {
        Err(NoRoom)
    }
}

/// Whether `length` bytes have room for `most` from place `at` on.
pub fn has_room(length: usize, at: usize, most: usize) -> bool
    ensures { result ≡ leb (at + most) length }
{
    most <= length && at <= length - most
}

fn put_line(out: &mut [u8], at: usize, n: u64, numbers: Numbers) -> usize
    requires { at + spec.line_most ≤ length out.old }
    ensures { Wrote (spec.answer_line n numbers) out.old at out.new result }
{
    let mut output = Output { bytes: out, at };
    output.line(n, numbers);
    output.at
}

fn put_header(out: &mut [u8], at: usize) -> usize
    requires { at + length spec.header ≤ length out.old }
    ensures { Wrote spec.header out.old at out.new result }
{
    let mut output = Output { bytes: out, at };
    output.text(b"n\tanswer\treason\tvalue\twords", LINE_FEED);
    output.at
}
