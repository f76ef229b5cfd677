// What a line does to the lent tables, and what it answers.
ghost use Rattle.std.specs.Prelude.{◌≡◌, ◌*◌, take, Ok};
ghost use Rattle.kinds.specs.Answer.{numbered};
ghost use Rattle.profile.specs.Step.{answered, after};
ghost use Rattle.tables.specs.Tables.{live};
ghost use Rattle.replay_text.specs.Results.{says};
ghost use Rattle.replay_tables.specs.Lent.{lent};
ghost use Rattle.replay_tables.specs.Promise.{set_reply};
ghost use Rattle.replay_tables.specs.Whole.{whole, Same};
ghost use Rattle.replay_session.specs.Promise.{RanLine, Requested, ServedParts};

use handle;
use kinds::answer::Numbers;
use kinds::record::Sizes;
use kinds::request::Request;
use profile::limits::{ENTRY_WORDS, INTERRUPT_WORDS, PEER_WORDS, SEGMENT_COUNT, WINDOW_WORDS};
use replay_tables::lent::Lent;
use replay_tables::{self, Extent, Replied};
use replay_text::{self, BadLine, INSTALLED, Line, Reply};
use table_lists::{once, used};
use tables::lent::{Live, Tables};

// The part of a table that is in use: its first `count` times `each` words, or all where it has no more.
// Kept: `count` and `each` beside the table, since it is lent longer than its words in use.
fn part<T: Copy>(table: &[T], count: u64, each: u64) -> &[T]
    ensures { result.now ≡ take (count * each) table.now }
{
    let end = used(count, each, table.len());
    &table[..end]
}

// A request, on tables of which only the parts in use are lent.
// Kept: state and interrupts and not a `Live`: one of parts of slices, made where they are cut, gets no proof.
fn serve_on(
    tables: &Tables<'_>,
    memory: &[u64],
    state: &mut [u64],
    interrupts: &mut [u64],
    request: Request,
) -> Numbers
    ensures answers { result ≡ numbered (answered tables.now memory.now (live state.old interrupts.old) request) }
    ensures leaves { live state.new interrupts.new ≡ after tables.now memory.now (live state.old interrupts.old) request }
{
    let mut live = Live { state, interrupts };
    Numbers::from(handle::handle(tables, memory, &mut live, request))
}

// A request, where of all tables but interrupts and state only the part in use is lent.
fn serve_parts(
    tables: &Tables<'_>,
    memory: &[u64],
    state: &mut [u64],
    interrupts: &mut [u64],
    request: Request,
) -> Numbers
    ensures { ServedParts tables.now memory.now (live state.old interrupts.old) request result (live state.new interrupts.new) }
{
    let sizes = tables.sizes;
    let state_end = replay_tables::state_used(sizes.pes, state.len());
    let interrupt_end = used(sizes.interrupts, INTERRUPT_WORDS, interrupts.len());
    serve_on(
        tables,
        memory,
        &mut state[..state_end],
        &mut interrupts[..interrupt_end],
        request,
    )
}

// A request, on the parts of the lists that are in use.
// Kept: lists and not a `Lent`: a `Tables` made of parts of its fields got no proof, since a part stays lent while the next field is read behind the same reference.
fn serve_lists(
    extent: Extent,
    requesters: &mut [u16],
    entries: &mut [u64],
    memory: &mut [u64],
    peers: &mut [u64],
    windows: &mut [u64],
    segments: &mut [u16],
    state: &mut [u64],
    interrupts: &mut [u64],
    request: Request,
) -> Numbers
    ensures { Requested (lent extent requesters.old entries.old memory.old peers.old interrupts.old windows.old segments.old state.old) request (says result) (lent extent requesters.new entries.new memory.new peers.new interrupts.new windows.new segments.new state.new) }
{
    let sizes = extent.sizes;
    let there = once(sizes.pes);
    let tables = Tables {
        sizes,
        installed: INSTALLED,
        requesters: part(requesters, sizes.requesters, 1),
        entries: part(entries, sizes.pes, ENTRY_WORDS),
        peers: part(peers, sizes.pes, PEER_WORDS),
        windows: part(windows, there, WINDOW_WORDS),
        segments: part(segments, there, SEGMENT_COUNT),
    };
    let words = part(memory, extent.memory, 1);
    serve_parts(&tables, words, state, interrupts, request)
}

// The same of the lent tables.
fn serve_in(extent: Extent, lent: &mut Lent<'_>, request: Request) -> Numbers
    ensures served { Requested (whole extent lent.old) request (says result) (whole extent lent.new) }
    ensures same { Same lent.old lent.new }
{
    serve_lists(
        extent,
        lent.requesters,
        lent.entries,
        lent.memory,
        lent.peers,
        lent.windows,
        lent.segments,
        lent.state,
        lent.interrupts,
        request,
    )
}

// What a set line writes: nothing, or the answer to a bad line.
// Kept: a match, which names both ends; `err` and `map` in its place are no plainer.
fn set_reply(ended: Result<(), BadLine>) -> Reply
    ensures { result ≡ set_reply ended }
{
    match ended {
        Ok(()) => Ok(None),
        Err(BadLine) => Ok(Some(replay_text::bad())),
    }
}

// A line that says something.
fn run_good(extent: Extent, lent: &mut Lent<'_>, line: Line) -> Replied
    ensures ran { RanLine (whole extent lent.old) (Ok line) result.reply (whole result.extent lent.new) }
    ensures same { Same lent.old lent.new }
{
    match line {
        Line::Size {
            pes,
            interrupts,
            requesters,
            memory,
        } => {
            let sizes = Sizes {
                pes,
                interrupts,
                requesters,
            };
            replay_tables::size_to(extent, lent, Extent { sizes, memory })
        }
        Line::Set {
            table,
            index,
            value,
        } => {
            let ended = replay_tables::set_in(extent, lent, table, index, value);
            Replied {
                extent,
                reply: set_reply(ended),
            }
        }
        Line::Request(request) => {
            let numbers = serve_in(extent, lent, request);
            Replied {
                extent,
                reply: Ok(Some(numbers)),
            }
        }
    }
}

/// Any line, on any lent tables.
pub fn run_line(extent: Extent, lent: &mut Lent<'_>, line: Result<Line, BadLine>) -> Replied
    ensures ran { RanLine (whole extent lent.old) line result.reply (whole result.extent lent.new) }
    ensures same { Same lent.old lent.new }
{
    match line {
        Ok(line) => run_good(extent, lent, line),
        Err(BadLine) => Replied {
            extent,
            reply: Ok(Some(replay_text::bad())),
        },
    }
}
