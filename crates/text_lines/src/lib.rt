// What a line of replay text says, from its bytes. Defined in crates/replay_text/specs/Line.antt.
#![tactic(auto)]

mod firmware;
mod request;

ghost use Rattle.std.specs.Prelude.{◌≡◌};
ghost use Rattle.replay_text.specs.Line as spec;

use replay_text::{BadLine, Line};
use request::read_request;
use text_fields::{Fields, same};

/// The most PEs that a size line can ask for, and at least one.
pub const MOST_PES: u64 = 16;

/// The most interrupts.
pub const MOST_INTERRUPTS: u64 = 64;

/// The most requesters, and at least one.
pub const MOST_REQUESTERS: u64 = 64;

/// The most words of memory.
pub const MOST_MEMORY: u64 = 4096;

/// What a line says, from its bytes without the line feed; a bad line where it is of no form, or a size is past its limit.
pub fn parse(line: &[u8]) -> Result<Line, BadLine>
    ensures { result ≡ spec.line_of line.now }
{
    let mut fields = Fields::of(line);
    let word = fields.text().ok_or(BadLine)?;
    read_line(word, fields)
}

// By its first field; `fields` are those after it.
// Kept: a chain of `same`, as the names in text_fields.
#[tactic(auto, using(replay_text::proofs::FormLaws::picks))]
fn read_line(word: &[u8], fields: Fields<'_>) -> Result<Line, BadLine>
    ensures { result ≡ spec.formed spec.forms word.now fields.entry }
{
    if same(word, b"size") {
        read_size(fields)
    } else if same(word, b"set") {
        read_set(fields)
    } else {
        read_request(word, fields)
    }
}

fn read_size(mut fields: Fields<'_>) -> Result<Line, BadLine>
    ensures { result ≡ spec.size_line fields.entry }
{
    let pes = fields.next()?;
    let interrupts = fields.next()?;
    let requesters = fields.next()?;
    let memory = fields.last()?;
    size_within(pes, interrupts, requesters, memory)
}

// The sizes, where they are within the limits.
#[tactic(auto, unfolding(replay_text::specs::Line::sized))]
fn size_within(pes: u64, interrupts: u64, requesters: u64, memory: u64) -> Result<Line, BadLine>
    ensures { result ≡ spec.sized pes interrupts requesters memory }
{
    let fits = (1..=MOST_PES).contains(&pes)
        && interrupts <= MOST_INTERRUPTS
        && (1..=MOST_REQUESTERS).contains(&requesters)
        && memory <= MOST_MEMORY;
    if fits {
        Ok(Line::Size {
            pes,
            interrupts,
            requesters,
            memory,
        })
    } else {
        Err(BadLine)
    }
}

fn read_set(mut fields: Fields<'_>) -> Result<Line, BadLine>
    ensures { result ≡ spec.set_line fields.entry }
{
    Ok(Line::Set {
        table: fields.next()?,
        index: fields.next()?,
        value: fields.last()?,
    })
}
