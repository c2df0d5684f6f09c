// A participant's cyclic frame that is accepted, heard with the list in place.
#![tactic(auto)]

ghost use Rattle.std.specs.Prelude.{Ok, ◌≡◌};
ghost use Rattle.laws.specs.Usual.{true, false, get_or};
ghost use Rattle.boundary_core.specs.Crossing.{core_of, station_in};
ghost use Rattle.boundary_told.specs.Told.{heard_told};
ghost use Rattle.boundary_participant.specs.Quick.{is_accepted};
ghost use Rattle.boundary_lists.specs.Lists.{members_in};
ghost use Rattle.frame_reading.specs.Reading.{read_of};
ghost use Rattle.station.specs.Rules.Hearing.{lent_right, hear_of};

use boundary_core::{Core, Outcome};
use boundary_heard::hear_accepted;
use frame::Fields;

// The numbers of source and destination are given apart, for the places that they have in the list.
pub fn hear(
    core: Core,
    listed: &mut [bool; 256],
    areas: &mut [u16; boundary_lists::AREA_NUMBERS],
    watch: &mut [u8; 256],
    misses: &mut [u8; 256],
    source: u8,
    destination: u8,
    frame: Fields,
    octets: &[u8],
    memory: &mut [u8],
    assembly: &mut [u8],
) -> Outcome
    requires frame_value { is_accepted core (get_or listed.old frame.source false) (get_or listed.old frame.destination false) frame ≡ true }
    requires assembly_value { lent_right memory.old assembly.old ≡ true }
    requires octets_value { read_of octets.now ≡ Ok frame }
    requires source_value { source ≡ frame.source }
    requires destination_value { destination ≡ frame.destination }
    ensures core_value { result.core ≡ core_of (hear_of (station_in core listed.old areas.old watch.old misses.old) octets.now memory.old assembly.old).station }
    ensures answer_value { result.answer ≡ heard_told octets.now (hear_of (station_in core listed.old areas.old watch.old misses.old) octets.now memory.old assembly.old).answer }
    ensures memory_after { memory.new ≡ (hear_of (station_in core listed.old areas.old watch.old misses.old) octets.now memory.old assembly.old).memory }
    ensures assembly_after { assembly.new ≡ (hear_of (station_in core listed.old areas.old watch.old misses.old) octets.now memory.old assembly.old).assembly }
    ensures misses_after { members_in listed.new areas.new watch.new misses.new ≡ (hear_of (station_in core listed.old areas.old watch.old misses.old) octets.now memory.old assembly.old).station.members }
{
    let entry = boundary_lists::entry_at(listed, areas, watch, misses, source);
    let parts = entry.areas;
    boundary_lists::clear(misses, source);
    hear_accepted(core, parts, frame, octets, memory, assembly)
}
