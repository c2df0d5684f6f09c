// Reading a frame to its end: refusals 7, 14, 15 and 8, and the whole frame.
#![tactic(auto)]

ghost use Rattle.std.specs.Prelude.{◌≡◌};
ghost use Rattle.frame_reading.specs.Reading.{ranged, totalled, numbered, measured, read_body_of, read_of};

use frame::{Fields, Refusal};

fn is_ranged(fields: Fields) -> bool
    ensures { result ≡ ranged fields }
{
    !frame::carries_areas(fields.code) || area::in_range(fields.areas)
}

fn is_totalled(fields: Fields) -> bool
    ensures { result ≡ totalled fields }
{
    fields.blocks as usize == block::blocks(fields.areas)
}

fn is_numbered(fields: Fields) -> bool
    ensures { result ≡ numbered fields }
{
    1 <= fields.block && fields.block <= fields.blocks
}

fn is_measured(given: usize, fields: Fields) -> bool
    ensures { result ≡ measured given fields }
{
    let size = fields.size as usize;
    let header = frame_data::header_part(given, size);
    size == block::block_length(fields.areas, fields.block) && matches!(header, 64..=96)
}

// Refusals 7, 14, 15 and 8, of a header that was read from so many octets.
pub fn read_body(given: usize, fields: Fields) -> Result<Fields, Refusal>
    ensures { result ≡ read_body_of given fields }
{
    let cyclic = frame::is_cyclic(fields.code);
    if !is_ranged(fields) {
        return Err(Refusal::Area);
    }
    if cyclic && !is_totalled(fields) {
        return Err(Refusal::Total);
    }
    if cyclic && !is_numbered(fields) {
        return Err(Refusal::Number);
    }
    if cyclic && !is_measured(given, fields) {
        return Err(Refusal::Block);
    }
    Ok(fields)
}

#[tactic(auto, unfolding(frame_reading::specs::Reading::read_of))]
pub fn read_frame(s: &[u8]) -> Result<Fields, Refusal>
    ensures { result ≡ read_of s.now }
{
    let header = frame_reading::read_header(s)?;
    read_body(s.len(), header)
}
