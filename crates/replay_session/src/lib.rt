// A session of replay text: a line read, done on the lent tables and answered. Defined in crates/replay_session/specs/Standing.antt.
#![tactic(auto)]

pub mod run;

ghost use Rattle.std.specs.Prelude.{◌≡◌, ◌&&◌, ◌+◌, ◌≤◌, ◌<◌, ltb, leb, length, take};
ghost use Rattle.std.proofs.lemmas.List.Edits.{sets};
ghost use Rattle.replay_text.specs.Text.{answer_line, line_most};
ghost use Rattle.replay_text.specs.Replay.{text_of};
ghost use Rattle.replay_tables.specs.Whole.{Same};
ghost use Rattle.replay_session.specs.EndPromise.{EndedTo, RanTo, ended_at, ran_by, progress_after, at_after};
ghost use Rattle.replay_session.specs.Standing.{last_count, lent_buffers, standing};

use kinds::answer::Numbers;
use replay_tables::lent::Lent;
use replay_tables::{Extent, Replied};
use replay_text::NoRoom;
use text_lines;
use text_report;

/// Where a replay stands between two pieces: the extent of the tables, the bytes kept of the line that has not ended, and the count of output lines.
// Kept: values that are copied from piece to piece; what a piece is lent (tables, line, output) stands beside them in `end_line`, `replay_feed::feed` and `replay_feed::finish`, which may not change, and in what hands them on.
// `pending` counts bytes of the line, which is lent anew with each piece.
#[derive(Clone, Copy, Debug, PartialEq, Eq)]
pub struct Progress {
    pub extent: Extent,
    pub pending: usize,
    pub count: u64,
}

/// Where the replay stands after the end of a line, and the end of the output.
#[derive(Clone, Copy, Debug, PartialEq, Eq)]
pub struct Ended {
    pub progress: Progress,
    pub at: usize,
}

// Whether one more output line can be counted, and `length` bytes have room for it from place `at` on.
fn has_room(count: u64, length: usize, at: usize) -> bool
    ensures { result ≡ ltb count last_count && leb (at + line_most) length }
{
    count < u64::MAX && text_report::has_room(length, at, text_report::LINE_MOST)
}

// Output line `count` + 1; the place after it.
fn put_answer(out: &mut [u8], at: usize, count: u64, numbers: Numbers) -> usize
    requires { (at + line_most ≤ length out.old) × (count < last_count) }
    ensures { (result ≡ at + length (answer_line (count + 1) numbers)) × (out.new ≡ sets out.old at (answer_line (count + 1) numbers)) }
{
    text_report::write_line(out, at, count + 1, numbers).unwrap_or(at)
}

// No byte is pending after a line.
fn after_line(extent: Extent, count: u64, at: usize) -> Ended
    ensures { result ≡ ended_at extent count at }
{
    Ended {
        progress: Progress {
            extent,
            pending: 0,
            count,
        },
        at,
    }
}

// The end of a line that ran.
fn close_line(out: &mut [u8], at: usize, count: u64, replied: Replied) -> Result<Ended, NoRoom>
    requires { (at + line_most ≤ length out.old) × (count < last_count) }
    ensures { (result ≡ ran_by at count replied) × (out.new ≡ sets out.old at (text_of count replied.reply)) }
{
    let extent = replied.extent;
    match replied.reply? {
        Some(numbers) => {
            let end = put_answer(out, at, count, numbers);
            Ok(after_line(extent, count + 1, end))
        }
        None => Ok(after_line(extent, count, at)),
    }
}

// The first `pending` bytes of a line's buffer, or all where it has no more.
fn pending_bytes(line: &[u8], pending: usize) -> &[u8]
    ensures { result.now ≡ take pending line.now }
{
    &line[..pending.min(line.len())]
}

// The end of a line that the output and its count have room for: it is read, done and answered.
fn run_pending(
    progress: Progress,
    lent: &mut Lent<'_>,
    line: &[u8],
    out: &mut [u8],
    at: usize,
) -> Result<Ended, NoRoom>
    requires { (at + line_most ≤ length out.old) × (progress.count < last_count) }
    ensures ran { RanTo (standing progress (lent_buffers lent.old line.now out.old) at) result (standing (progress_after progress result) (lent_buffers lent.new line.now out.new) (at_after at result)) }
    ensures same { Same lent.old lent.new }
{
    let text = pending_bytes(line, progress.pending);
    let replied = run::run_line(progress.extent, lent, text_lines::parse(text));
    close_line(out, at, progress.count, replied)
}

/// The end of a line, whose first `progress.pending` bytes are in `line`. Where the output, the count of output lines or the tables have no room for it,
/// nothing is done.
pub fn end_line(
    progress: Progress,
    lent: &mut Lent<'_>,
    line: &[u8],
    out: &mut [u8],
    at: usize,
) -> Result<Ended, NoRoom>
    ensures ended { EndedTo (standing progress (lent_buffers lent.old line.now out.old) at) result (standing (progress_after progress result) (lent_buffers lent.new line.now out.new) (at_after at result)) }
    ensures same { Same lent.old lent.new }
{
    if has_room(progress.count, out.len(), at) {
        run_pending(progress, lent, line, out, at)
    } else {
        Err(NoRoom)
    }
}
