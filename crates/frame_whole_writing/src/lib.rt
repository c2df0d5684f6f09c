// Writing a whole frame: its fields with their fixed values, and the data behind the header.
#![tactic(auto)]

ghost use Rattle.std.specs.Prelude.{◌≡◌};
ghost use Rattle.frame_writing.specs.Writing.{whole_length, fixed_for, fixed, written_of, output_of};
ghost use Rattle.frame.specs.declared.Code.TheVariants.{Token, Request, Trigger};

use area::Areas;
use frame::{Code, Fields, Refusal};
use frame_writing::write_header;
use units::Milliseconds;

#[tactic(auto, using(crate::proofs::Sizes::data_within))]
pub fn whole_length(fields: Fields) -> usize
    ensures { result ≡ whole_length fields }
{
    64 + frame_data::data_size(fields)
}

// The fields of a cyclic frame: all as they are but TFL.
#[tactic(auto, using(crate::proofs::Sizes::data_within), unfolding(frame_writing::specs::Writing::fixed_for))]
fn fixed_cyclic(fields: Fields) -> Fields
    ensures { result ≡ fixed_for Token fields }
{
    Fields {
        length: whole_length(fields) as u32,
        ..fields
    }
}

#[tactic(auto, using(crate::proofs::Sizes::data_within), unfolding(frame_writing::specs::Writing::fixed_for))]
fn fixed_request(fields: Fields) -> Fields
    ensures { result ≡ fixed_for Request fields }
{
    Fields {
        length: whole_length(fields) as u32,
        destination: 0xff,
        block: 0,
        blocks: 0,
        size: 0x60,
        ..fields
    }
}

#[tactic(auto, unfolding(frame_writing::specs::Writing::fixed_for))]
fn fixed_trigger(fields: Fields) -> Fields
    ensures { result ≡ fixed_for Trigger fields }
{
    Fields {
        areas: Areas::default(),
        watch: Milliseconds(0),
        ..fixed_request(fields)
    }
}

#[tactic(auto, unfolding(frame_writing::specs::Writing::fixed_for))]
fn fixed_fields(fields: Fields) -> Fields
    ensures { result ≡ fixed fields }
{
    match fields.code {
        Code::Token | Code::Cyclic => fixed_cyclic(fields),
        Code::Request => fixed_request(fields),
        Code::Trigger => fixed_trigger(fields),
    }
}

#[tactic(auto, using(frame_writing::specs::Steps::in_two_steps))]
pub fn write_frame(fields: Fields, block: &[u8], output: &mut [u8]) -> Result<usize, Refusal>
    ensures value { result ≡ written_of fields block.now output.old }
    ensures output_after { output.new ≡ output_of fields block.now output.old }
{
    let size = frame_data::data_size(fields);
    let whole = whole_length(fields);
    if block.len() < size || output.len() < whole {
        return Err(Refusal::Buffer);
    }
    let fixed = fixed_fields(fields);
    write_header(
        fixed.length,
        fixed.source,
        fixed.destination,
        fixed.code,
        fixed.areas,
        fixed.block,
        fixed.blocks,
        fixed.size,
        fixed.watch,
        output,
    );
    copying::copy_into(&block[..size], output, 64);
    Ok(whole)
}
