// What a heard block is to what was gathered: of the listed areas, a repeat, the next one.
#![tactic(auto)]

ghost use Rattle.std.specs.Prelude.{◌≡◌, ◌+◌, ◌≤◌};
ghost use Rattle.laws.specs.Usual.{length};
ghost use Rattle.area.specs.Areas.{memory_octets};
ghost use Rattle.block.specs.Blocks.{start_of};
ghost use Rattle.station.specs.Rules.Data.{same_areas, is_repeat, is_next};

use area::Areas;
use frame::Fields;
use station::Gathering;

// "if the frame's areas differ from the listed ones"
pub fn same_areas(a: Areas, b: Areas) -> bool
    ensures { result ≡ same_areas a b }
{
    a == b
}

// "the same source, number, length and octets as the last one still gathered". The octets are compared where they stand, and only for such a number.
pub fn is_repeat(gathering: Gathering, frame: Fields, octets: &[u8], assembly: &[u8]) -> bool
    requires octets_bound { start_of frame.block + length octets.now ≤ memory_octets }
    requires assembly_len { length assembly.now ≡ memory_octets }
    ensures { result ≡ is_repeat gathering frame octets.now assembly.now }
{
    if (gathering.source == frame.source) & (gathering.blocks == frame.block) {
        let start = block::block_start(frame.block);
        let end = start + octets.len();
        return comparing::same(octets, &assembly[start..end]);
    }
    false
}

// "Block 1 starts afresh. A block that isn't the next of the same source drops what was gathered".
pub fn is_next(gathering: Gathering, frame: Fields) -> bool
    ensures { result ≡ is_next gathering frame }
{
    let follows = gathering.blocks as u16 + 1 == frame.block as u16;
    (frame.block == 1) | ((gathering.source == frame.source) & follows)
}
