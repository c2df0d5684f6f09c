// A new station, on the core in numbers and the list in arrays, both changed in place.
#![tactic(auto)]

ghost use Rattle.std.specs.Prelude.{◌≡◌};
ghost use Rattle.laws.specs.Usual.{replicate};
ghost use Rattle.boundary_core.specs.Crossing.{core_of};
ghost use Rattle.boundary_lists.specs.Lists.{members_in};
ghost use Rattle.boundary_places.specs.Places.{core_in};
ghost use Rattle.members.specs.Members.{no_members};
ghost use Rattle.station.specs.Rules.State.{never};

use boundary_keeping::keep;

// A station that was never started: all zeros, whatever stood there.
pub fn new(
    core: &mut [u32; boundary_places::NUMBERS],
    listed: &mut [bool; 256],
    areas: &mut [u16; boundary_lists::AREA_NUMBERS],
    watch: &mut [u8; 256],
    misses: &mut [u8; 256],
)
    ensures core_after { core_in core.new ≡ core_of never }
    ensures core_after_2 { core.new ≡ replicate 18 0 }
    ensures misses_after { members_in listed.new areas.new watch.new misses.new ≡ no_members }
{
    *core = [0; boundary_places::NUMBERS];
    keep(core, boundary_showing::new(listed, areas, watch, misses));
}
