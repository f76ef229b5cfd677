// What a line of firmware says: a clear, an end of interrupt, a priority.
ghost use Rattle.std.specs.Prelude.{◌≡◌};
ghost use Rattle.replay_text.specs.Line as spec;

use kinds::request::Request;
use replay_text::{BadLine, Line};
use text_fields::{Fields, same};

// By its first field; `fields` are those after it.
// Kept: a chain of `same`, as the names in text_fields.
#[tactic(auto, using(replay_text::proofs::FormLaws::picks))]
pub(crate) fn read_firmware(word: &[u8], fields: Fields<'_>) -> Result<Line, BadLine>
    ensures { result ≡ spec.formed spec.firmware_forms word.now fields.entry }
{
    if same(word, b"clear") {
        read_clear(fields)
    } else if same(word, b"end") {
        read_end(fields)
    } else if same(word, b"prio") {
        read_priority(fields)
    } else {
        Err(BadLine)
    }
}

fn read_clear(mut fields: Fields<'_>) -> Result<Line, BadLine>
    ensures { result ≡ spec.clear_line fields.entry }
{
    let pe = fields.next()?;
    let part = fields.last()?;
    Ok(Line::Request(Request::Clear { pe, part }))
}

fn read_end(fields: Fields<'_>) -> Result<Line, BadLine>
    ensures { result ≡ spec.end_line fields.entry }
{
    let interrupt = fields.last()?;
    Ok(Line::Request(Request::End { interrupt }))
}

fn read_priority(mut fields: Fields<'_>) -> Result<Line, BadLine>
    ensures { result ≡ spec.priority_line fields.entry }
{
    let interrupt = fields.next()?;
    let priority = fields.last()?;
    Ok(Line::Request(Request::Priority {
        interrupt,
        priority,
    }))
}
