// A participant's block: its frame. On the parts of a state that it depends on, so that no list is passed by value.
#![tactic(auto)]

mod fields;
mod turn;

ghost use Rattle.std.specs.Prelude.{◌≡◌, ◌+◌, ◌≤◌};
ghost use Rattle.laws.specs.Usual.{true, length, drop};
ghost use Rattle.area.specs.Areas.{memory_octets};
ghost use Rattle.block.specs.Blocks.{start_of};
ghost use Rattle.frame_reading.specs.Reading.{data_size};
ghost use Rattle.station.specs.Rules.Asking.{placed_in, next_fields, turn_for};
ghost use Rattle.frame_writing.specs.Writing.{whole_length, fixed, output_of};

use fields::block_fields;
use frame::Fields;
use station::Settings;
use turn::make_turn;

// Writes the frame of a block that has its data in front of `octets`: what `frame_whole_writing::write_frame` would write, without a struct in memory.
fn write_block(fields: Fields, octets: &[u8], output: &mut [u8]) -> usize
    requires fields_value { fixed fields ≡ fields }
    requires fields_value_2 { data_size fields ≡ fields.size }
    requires fields_in_bounds { data_size fields ≤ length octets.now }
    requires fields_in_bounds_2 { whole_length fields ≤ length output.old }
    ensures value { result ≡ whole_length fields }
    ensures output_after { output.new ≡ output_of fields octets.now output.old }
{
    let size = fields.size as usize;
    let code = fields.code;
    let areas = fields.areas;
    let watch = fields.watch;
    frame_writing::write_header(
        fields.length,
        fields.source,
        fields.destination,
        code,
        areas,
        fields.block,
        fields.blocks,
        fields.size,
        watch,
        output,
    );
    copying::copy_into(&octets[0..size], output, 64);
    64 + size
}

// The next block of our turn, to `next`: writes its frame, and answers the frame's length. The turn is copied at the first block.
pub fn send_next(
    own: Settings,
    block: u8,
    next: u8,
    memory: &[u8],
    turn: &mut [u8],
    output: &mut [u8],
) -> usize
    requires block_value { placed_in own.areas block ≡ true }
    requires memory_len { length memory.now ≡ memory_octets }
    requires turn_len { length turn.old ≡ memory_octets }
    requires in_bounds { 1088 ≤ length output.old }
    ensures value { result ≡ whole_length (next_fields own block next) }
    ensures turn_after { turn.new ≡ turn_for own.areas block memory.now turn.old }
    ensures output_after { output.new ≡ output_of (next_fields own block next) (drop (start_of (block + 1)) (turn_for own.areas block memory.now turn.old)) output.old }
{
    let areas = own.areas;
    make_turn(areas, block, memory, turn);
    let start = block::BLOCK_OCTETS * block as usize;
    write_block(block_fields(own, block, next), &turn[start..], output)
}
