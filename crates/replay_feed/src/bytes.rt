// The reader: the bytes of a line of an input, and the line that they end.
ghost use Rattle.std.specs.Prelude.{◌≡◌, ◌^◌, ◌≤◌, ◌<◌, ◌==◌, length};
ghost use Rattle.std.specs.List.{position};
ghost use Rattle.replay_text.specs.Bytes.{line_feed};
ghost use Rattle.replay_tables.specs.Whole.{Same};
ghost use Rattle.replay_session.specs.Standing.{lent_buffers, standing};
ghost use Rattle.replay_text.specs.Stream.{before, line_kept};
ghost use Rattle.replay_feed.specs.Promise.{KeptTo, MovedTo, moved_by};

use crate::{Kept, LINE_KEPT, Moved};
use replay_session::{Ended, Progress, end_line};
use replay_tables::lent::Lent;
use replay_text::{LINE_FEED, NoRoom};

// The bytes of a line from place `from` of the input on, kept after those that are pending.
fn keep(line: &mut [u8], pending: usize, input: &[u8], from: usize) -> Kept
    requires { (length line.old ≡ line_kept) × (pending ≤ line_kept) × (from ≤ length input.now) }
    ensures { KeptTo (record { line = line.old; pending = pending }) input.now from result (record { line = line.new; pending = result.pending }) }
{
    let rest = &input[from..];
    let count = before(rest);
    let end = LINE_KEPT.min(pending + count);
    line[pending..end].copy_from_slice(&rest[..end - pending]);
    Kept {
        pending: end,
        next: from + count,
    }
}

// How many bytes there are before the first line feed; all where there is none.
#[tactic(auto, using(crate::proofs::TakeLaws::before_is))]
fn before(input: &[u8]) -> usize
    ensures { (result ≡ before input.now) × (result ≤ length input.now) }
{
    feed_in(input).unwrap_or(input.len())
}

// The place of the first line feed.
fn feed_in(input: &[u8]) -> Option<usize>
    ensures { result ≡ position (λ b. b == line_feed) input.now }
{
    input.iter().position(|byte| *byte == LINE_FEED)
}

// The line feed at place `next` of an input of `length` bytes was taken if its line could end; if not, no byte after it is.
fn moved_by(
    held: Progress,
    at: usize,
    ended: Result<Ended, NoRoom>,
    next: usize,
    length: usize,
) -> Moved
    requires { next < 2 ^ 63 }
    ensures { result ≡ moved_by held at ended next length }
{
    match ended {
        Ok(ended) => Moved {
            progress: ended.progress,
            at: ended.at,
            next: next + 1,
            limit: length,
        },
        Err(NoRoom) => Moved {
            progress: held,
            at,
            next,
            limit: next,
        },
    }
}

// The bytes of an input from place `from` on, up to the end of a line: the line is read, done and answered.
pub(crate) fn take_line(
    progress: Progress,
    lent: &mut Lent<'_>,
    line: &mut [u8],
    input: &[u8],
    from: usize,
    out: &mut [u8],
    at: usize,
) -> Moved
    requires { (length line.old ≡ line_kept) × (progress.pending ≤ line_kept) × (from < length input.now) }
    ensures moved { MovedTo (standing progress (lent_buffers lent.old line.old out.old) at) input.now from (standing result.progress (lent_buffers lent.new line.new out.new) result.at) result }
    ensures same { Same lent.old lent.new }
{
    let kept = keep(line, progress.pending, input, from);
    let held = Progress {
        pending: kept.pending,
        ..progress
    };
    let next = kept.next;
    if next < input.len() {
        let ended = end_line(held, lent, line, out, at);
        moved_by(held, at, ended, next, input.len())
    } else {
        Moved {
            progress: held,
            at,
            next,
            limit: input.len(),
        }
    }
}
