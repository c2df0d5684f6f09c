// The frames that we send without data: the fields of our request and of our trigger, and how they are written.
#![tactic(auto)]

ghost use Rattle.std.specs.Prelude.{◌≡◌, ◌≤◌};
ghost use Rattle.laws.specs.Usual.{[], length};
ghost use Rattle.frame_reading.specs.Reading.{data_size};
ghost use Rattle.frame_round_trip.specs.Sent.{request_fields, trigger_fields};
ghost use Rattle.frame_writing.specs.Writing.{whole_length, output_of};

use frame::{Code, Fields};
use station::Settings;
use units::Milliseconds;

pub fn request_fields(own: Settings) -> Fields
    ensures { result ≡ request_fields own.number own.areas own.watch }
{
    let areas = own.areas;
    let watch = own.watch;
    Fields {
        length: 64,
        source: own.number,
        destination: 0xff,
        code: Code::Request,
        areas,
        block: 0,
        blocks: 0,
        size: 0x60,
        watch,
    }
}

pub fn trigger_fields(number: u8) -> Fields
    ensures { result ≡ trigger_fields number }
{
    let areas = state_parts::no_areas();
    Fields {
        length: 64,
        source: number,
        destination: 0xff,
        code: Code::Trigger,
        areas,
        block: 0,
        blocks: 0,
        size: 0x60,
        watch: Milliseconds(0),
    }
}

// Writes a frame that has its data in the block and its room in the output, so that writing does not refuse it.
fn write(fields: Fields, block: &[u8], output: &mut [u8]) -> usize
    requires fields_in_bounds { data_size fields ≤ length block.now }
    requires fields_in_bounds_2 { whole_length fields ≤ length output.old }
    ensures value { result ≡ whole_length fields }
    ensures output_after { output.new ≡ output_of fields block.now output.old }
{
    frame_whole_writing::write_frame(fields, block, output).unwrap_or(0)
}

// Writes a frame without data.
pub fn write_bare(fields: Fields, output: &mut [u8]) -> usize
    requires fields_value { data_size fields ≡ 0 }
    requires in_bounds { 1088 ≤ length output.old }
    ensures value { result ≡ whole_length fields }
    ensures output_after { output.new ≡ output_of fields [] output.old }
{
    let none = [0u8; 1];
    write(fields, &none[0..0], output)
}
