// Putting a turn's blocks together, and writing the turn to the common memory.
#![tactic(auto)]

ghost use Rattle.std.specs.Prelude.{◌≡◌, ◌+◌, ◌≤◌};
ghost use Rattle.laws.specs.Usual.{true, length};
ghost use Rattle.area.specs.Areas.{in_range, memory_octets};
ghost use Rattle.block.specs.Blocks.{start_of};
ghost use Rattle.station.specs.Rules.Data.{turn_written, storing, gathered_from};
ghost use Rattle.station.specs.Rules.State.{nothing};
ghost use Rattle.station.specs.declared.Data.TheVariants.{Dropped};

use area::{Area, Areas};
use frame::Fields;
use station::{Data, Gathering};

// What gathering one block leaves of the turn, and what became of the block.
#[derive(Clone, Copy)]
pub struct Stored {
    pub gathering: Gathering,
    pub outcome: Data,
}

// "A turn's data are the station's area 1 then its area 2": each goes to its place in the common memory by the table of areas.
fn write_turn(areas: Areas, turn: &[u8], memory: &mut [u8])
    requires areas_value { in_range areas ≡ true }
    requires turn_len { length turn.now ≡ memory_octets }
    requires memory_len { length memory.old ≡ memory_octets }
    ensures { memory.new ≡ turn_written areas turn.now memory.old }
{
    let one = area::span_of(Area::One, areas.one);
    let two = area::span_of(Area::Two, areas.two);
    let middle = one.length;
    let end = one.length + two.length;
    copying::copy_into(&turn[0..middle], memory, one.start);
    copying::copy_into(&turn[middle..end], memory, two.start);
}

// "On the last block everything is written to the source's listed areas; before that, nothing."
fn finish(listed: Areas, frame: Fields, assembly: &[u8], memory: &mut [u8]) -> Stored
    requires listed_value { in_range listed ≡ true }
    requires assembly_len { length assembly.now ≡ memory_octets }
    requires memory_len { length memory.old ≡ memory_octets }
    ensures gathering_value { result.gathering ≡ (storing listed frame assembly.now memory.old).gathering }
    ensures outcome_value { result.outcome ≡ (storing listed frame assembly.now memory.old).outcome }
    ensures memory_after { memory.new ≡ (storing listed frame assembly.now memory.old).memory }
{
    if frame.block == frame.blocks {
        write_turn(listed, assembly, memory);
        let gathering = state_parts::nothing();
        return Stored {
            gathering,
            outcome: Data::Written,
        };
    }
    let gathering = Gathering {
        source: frame.source,
        blocks: frame.block,
    };
    Stored {
        gathering,
        outcome: Data::Kept,
    }
}

// "drops what was gathered, and itself"
fn drop_both() -> Stored
    ensures gathering_value { result.gathering ≡ nothing }
    ensures outcome_value { result.outcome ≡ Dropped }
{
    let gathering = state_parts::nothing();
    Stored {
        gathering,
        outcome: Data::Dropped,
    }
}

// Passes a repeat over, stores the block where it follows what was gathered, else drops both.
pub fn gather(
    gathering: Gathering,
    listed: Areas,
    frame: Fields,
    octets: &[u8],
    assembly: &mut [u8],
    memory: &mut [u8],
) -> Stored
    requires areas_value { in_range frame.areas ≡ true }
    requires octets_bound { start_of frame.block + length octets.now ≤ memory_octets }
    requires assembly_len { length assembly.old ≡ memory_octets }
    requires memory_len { length memory.old ≡ memory_octets }
    ensures gathering_value { result.gathering ≡ (gathered_from gathering listed frame octets.now assembly.old memory.old).gathering }
    ensures outcome_value { result.outcome ≡ (gathered_from gathering listed frame octets.now assembly.old memory.old).outcome }
    ensures assembly_after { assembly.new ≡ (gathered_from gathering listed frame octets.now assembly.old memory.old).assembly }
    ensures memory_after { memory.new ≡ (gathered_from gathering listed frame octets.now assembly.old memory.old).memory }
{
    let areas = frame.areas;
    if !hearing_blocks::same_areas(areas, listed) {
        return drop_both();
    }
    if hearing_blocks::is_repeat(gathering, frame, octets, assembly) {
        return Stored {
            gathering,
            outcome: Data::Repeat,
        };
    }
    if hearing_blocks::is_next(gathering, frame) {
        copying::copy_into(octets, assembly, block::block_start(frame.block));
        return finish(listed, frame, assembly, memory);
    }
    drop_both()
}
