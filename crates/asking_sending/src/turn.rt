// The copy that our blocks are sent from.
ghost use Rattle.std.specs.Prelude.{◌≡◌, ◌+◌, ◌*◌, ◌≤◌};
ghost use Rattle.laws.specs.Usual.{true, length};
ghost use Rattle.area.specs.Areas.{in_area, in_range, memory_octets, span_of};
ghost use Rattle.station.specs.Rules.Asking.{turn_for};
ghost use Rattle.copying.specs.Pasted.{pasted};
ghost use Rattle.station.specs.Rules.Data.{octets_in, turn_of};

use area::{Area, Areas, Part};

// Copies what we have of one area into the turn, from octet `at` on.
fn copy_part(area: Area, part: Part, memory: &[u8], turn: &mut [u8], at: usize)
    requires part_value { in_area area part ≡ true }
    requires memory_len { length memory.now ≡ memory_octets }
    requires size_in_bounds { at + 2 * part.size ≤ length turn.old }
    ensures { turn.new ≡ pasted turn.old at (octets_in (span_of area part) memory.now) }
{
    let span = area::span_of(area, part);
    let start = span.start;
    let end = start + span.length;
    copying::copy_into(&memory[start..end], turn, at);
}

// "A turn's data are the station's area 1 then its area 2": each copied from where the table of areas has it (paper 01, list of forms).
fn copy_turn(areas: Areas, memory: &[u8], turn: &mut [u8])
    requires areas_value { in_range areas ≡ true }
    requires memory_len { length memory.now ≡ memory_octets }
    requires turn_len { length turn.old ≡ memory_octets }
    ensures { turn.new ≡ pasted turn.old 0 (turn_of areas memory.now) }
{
    let one = areas.one;
    let two = areas.two;
    copy_part(Area::One, one, memory, turn, 0);
    copy_part(Area::Two, two, memory, turn, 2 * one.size as usize);
}

// The copy is made at the first block of our turn.
pub fn make_turn(areas: Areas, block: u8, memory: &[u8], turn: &mut [u8])
    requires areas_value { in_range areas ≡ true }
    requires memory_len { length memory.now ≡ memory_octets }
    requires turn_len { length turn.old ≡ memory_octets }
    ensures { turn.new ≡ turn_for areas block memory.now turn.old }
{
    if block == 0 {
        copy_turn(areas, memory, turn);
    }
}
