// What the line of a request says.
// Kept: `read_load` and `read_store`, and `read_error` here and `read_end` of firmware: they share their reads alone, and a function of both would need as many lines at each.
ghost use Rattle.std.specs.Prelude.{◌≡◌};
ghost use Rattle.replay_text.specs.Line as spec;

use crate::firmware::read_firmware;
use kinds::number::ByteAddress;
use kinds::request::{Direction, DmaRequest, Request};
use replay_text::{BadLine, Line};
use text_fields::{Fields, same};

// By its first field; `fields` are those after it.
// Kept: a chain of `same`, as the names in text_fields.
#[tactic(auto, using(replay_text::proofs::FormLaws::picks))]
pub(crate) fn read_request(word: &[u8], fields: Fields<'_>) -> Result<Line, BadLine>
    ensures { result ≡ spec.formed spec.request_forms word.now fields.entry }
{
    if same(word, b"dma") {
        read_dma(fields)
    } else if same(word, b"load") {
        read_load(fields)
    } else if same(word, b"store") {
        read_store(fields)
    } else if same(word, b"error") {
        read_error(fields)
    } else {
        read_firmware(word, fields)
    }
}

fn read_dma(mut fields: Fields<'_>) -> Result<Line, BadLine>
    ensures { result ≡ spec.dma_line fields.entry }
{
    let requester = fields.next()?;
    let direction = fields.next()?;
    let address = fields.next()?;
    let length = fields.next()?;
    let data = fields.last()?;
    dma(requester, direction, ByteAddress(address), length, data)
}

// A DMA, where its data are in 32 bits.
#[tactic(auto, unfolding(replay_text::specs::Line::dma))]
fn dma(
    requester: u64,
    direction: Direction,
    address: ByteAddress,
    length: u64,
    data: u64,
) -> Result<Line, BadLine>
    ensures { result ≡ spec.dma requester direction address.0 length «data» }
{
    let data = u32::try_from(data).map_err(|_| BadLine)?;
    Ok(Line::Request(Request::Dma(DmaRequest {
        requester,
        direction,
        address,
        length,
        data,
    })))
}

fn read_load(mut fields: Fields<'_>) -> Result<Line, BadLine>
    ensures { result ≡ spec.load_line fields.entry }
{
    let address = ByteAddress(fields.next()?);
    let width = fields.last()?;
    Ok(Line::Request(Request::Load { address, width }))
}

fn read_store(mut fields: Fields<'_>) -> Result<Line, BadLine>
    ensures { result ≡ spec.store_line fields.entry }
{
    let address = ByteAddress(fields.next()?);
    let width = fields.last()?;
    Ok(Line::Request(Request::Store { address, width }))
}

fn read_error(fields: Fields<'_>) -> Result<Line, BadLine>
    ensures { result ≡ spec.error_line fields.entry }
{
    let requester = fields.last()?;
    Ok(Line::Request(Request::Error { requester }))
}
