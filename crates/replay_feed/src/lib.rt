// Replay text in pieces of any length: bytes in, output lines out. Defined in crates/replay_feed/specs/Feed.antt.
#![tactic(auto)]

mod bytes;

ghost use Rattle.std.specs.Prelude.{◌≡◌, ◌&&◌, eqb, leb};
ghost use Rattle.replay_text.specs.Stream.{line_kept};
ghost use Rattle.replay_tables.specs.Whole.{Same};
ghost use Rattle.replay_session.specs.Standing.{lent_buffers, standing};
ghost use Rattle.replay_feed.specs.Feed.{end_bytes, end_of};
ghost use Rattle.replay_feed.specs.Promise.{FedAs, Started};

use bytes::take_line;
use kinds::record::Sizes;
use replay_session::Progress;
use replay_tables::Extent;
use replay_tables::lent::Lent;

// The bytes of a line that are kept: a longer line is bad, and so are its first bytes.
pub(crate) const LINE_KEPT: usize = 128;

/// What became of a piece: so many bytes of it were taken, and the output ends at `at`. Fewer bytes than there are: the next one ends a line, and the
/// output, the count of output lines or the tables have no room for it.
#[derive(Clone, Copy, Debug, PartialEq, Eq)]
pub struct Fed {
    pub progress: Progress,
    pub bytes: usize,
    pub at: usize,
}

/// No buffer of 128 bytes for the line, or more pending than it holds; nothing was done.
#[derive(Clone, Copy, Debug, PartialEq, Eq)]
pub struct Unfit;

// How many bytes of the line are kept, and the place of the input after them.
#[derive(Clone, Copy, Debug, PartialEq, Eq)]
pub(crate) struct Kept {
    pub(crate) pending: usize,
    pub(crate) next: usize,
}

// Where the replay stands after a line's bytes, the end of the output, the place of the input after those bytes, and the place up to which bytes can be taken:
// the end of the input, or `next` where the byte there is a line feed whose line could not end.
// Kept: a limit, which is all that the loop of `feed` tests; an Option would have to be turned into one there.
#[derive(Clone, Copy, Debug, PartialEq, Eq)]
pub(crate) struct Moved {
    pub(crate) progress: Progress,
    pub(crate) at: usize,
    pub(crate) next: usize,
    pub(crate) limit: usize,
}

/// Before the first byte. All lent tables may hold anything.
pub fn start() -> Progress
    ensures { Started result }
{
    Progress {
        extent: Extent {
            sizes: Sizes {
                pes: 0,
                interrupts: 0,
                requesters: 0,
            },
            memory: 0,
        },
        pending: 0,
        count: 0,
    }
}

// Whether the line's buffer has 128 bytes, and no more are pending.
fn fit(length: usize, pending: usize) -> bool
    ensures { result ≡ eqb length line_kept && leb pending line_kept }
{
    length == LINE_KEPT && pending <= LINE_KEPT
}

/// A piece of the input: its bytes, up to the first line that cannot end.
pub fn feed(
    mut progress: Progress,
    lent: &mut Lent<'_>,
    line: &mut [u8],
    input: &[u8],
    out: &mut [u8],
    mut at: usize,
) -> Result<Fed, Unfit>
    ensures fed { FedAs (standing progress (lent_buffers lent.old line.old out.old) at) input.now result (lent_buffers lent.new line.new out.new) }
    ensures same { Same lent.old lent.new }
{
    if !fit(line.len(), progress.pending) {
        return Err(Unfit);
    }
    let mut i = 0;
    let mut limit = input.len();
    // Kept: a turn takes the bytes of a whole line, and the last one may move the limit.
    while i < limit {
        let moved = take_line(progress, lent, line, input, i, out, at);
        progress = moved.progress;
        at = moved.at;
        i = moved.next;
        limit = moved.limit;
    }
    Ok(Fed {
        progress,
        bytes: i,
        at,
    })
}

/// The end of the input: a missing line feed where bytes are pending.
pub fn finish(
    progress: Progress,
    lent: &mut Lent<'_>,
    line: &mut [u8],
    out: &mut [u8],
    at: usize,
) -> Result<Fed, Unfit>
    ensures fed { FedAs (standing progress (lent_buffers lent.old line.old out.old) at) (end_of (standing progress (lent_buffers lent.old line.old out.old) at)) result (lent_buffers lent.new line.new out.new) }
    ensures same { Same lent.old lent.new }
{
    let missing = end_bytes(progress.pending);
    let end: &[u8] = b"\n";
    feed(progress, lent, line, &end[..missing], out, at)
}

// How many bytes the end of the input adds: a line feed where bytes are pending.
fn end_bytes(pending: usize) -> usize
    ensures { result ≡ end_bytes pending }
{
    usize::from(pending != 0)
}
