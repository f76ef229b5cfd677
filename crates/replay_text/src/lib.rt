// The replay text: its definition, in specs/ from Replay.antt down, the types that it shares with the code, and what a bad line answers.
#![tactic(auto)]

ghost use Rattle.std.specs.Prelude.{◌≡◌};
ghost use Rattle.replay_text.specs.Text.{bad_numbers};

use kinds::answer::Numbers;
use kinds::request::Request;

/// The byte that parts fields.
pub const TAB: u8 = b'\t';

/// The byte that ends a line.
pub const LINE_FEED: u8 = b'\n';

/// The installed size of every replay: 4 GiB.
pub const INSTALLED: u64 = 0x1_0000_0000;

// The number of the name `bad`.
// Kept: a number, as `Numbers.name` is in the words of C and in the definition `bad_numbers`.
const BAD: u64 = 7;

/// The tables, as a set line names them.
#[derive(Clone, Copy, Debug, PartialEq, Eq)]
pub enum Table {
    Requesters,
    Entries,
    Memory,
    Peers,
    Interrupts,
    Windows,
    Segments,
    State,
}

/// What a line says: a size line with the counts of PEs, interrupts, requesters and memory words, a set line with a word's place in its table, or a request.
#[derive(Clone, Copy, Debug, PartialEq, Eq)]
pub enum Line {
    Size {
        pes: u64,
        interrupts: u64,
        requesters: u64,
        memory: u64,
    },
    Set {
        table: Table,
        index: u64,
        value: u64,
    },
    Request(Request),
}

/// A line of none of these forms.
#[derive(Clone, Copy, Debug, PartialEq, Eq)]
pub struct BadLine;

/// What is lent has no room: the tables for a size line, the output for a line, or the count of output lines for one more. Nothing was done.
#[derive(Clone, Copy, Debug, PartialEq, Eq)]
pub struct NoRoom;

/// What a line writes: nothing, or an output line with these numbers.
pub type Reply = Result<Option<Numbers>, NoRoom>;

/// What a bad line answers.
pub fn bad() -> Numbers
    ensures { result ≡ bad_numbers }
{
    Numbers {
        name: BAD,
        reason: 0,
        value: 0,
        words: 0,
        pe: 0,
        server: 0,
        priority: 0,
        word: 0,
    }
}
