// Hearing, on the core in numbers and the list in arrays. A refused frame touches neither, but for number 6 before we participate.
#![tactic(auto)]

ghost use Rattle.std.specs.Prelude.{Ok, ◌≡◌, ◌&&◌};
ghost use Rattle.laws.specs.Usual.{true, false, not};
ghost use Rattle.boundary_answers.specs.Numbers.{heard_answer};
ghost use Rattle.boundary_core.specs.Crossing.{core_of, station_in};
ghost use Rattle.boundary_lists.specs.Lists.{members_in};
ghost use Rattle.boundary_places.specs.Places.{core_in, kept};
ghost use Rattle.boundary_refused.specs.Taken.{is_taken_by};
ghost use Rattle.boundary_told.specs.Told.{heard_told};
ghost use Rattle.frame_reading.specs.Reading.{read_header_of};
ghost use Rattle.station.specs.Rules.Hearing.{lent_right, hear_of};

use boundary_answers::refused;
use boundary_core::Answer;
use boundary_keeping::keep;
use boundary_reading::core_in;
use frame::{Fields, Refusal};
use station::Phase;

// A frame refused by 11 or 6, whatever its body.
fn hear_barred(
    core: &mut [u32; boundary_places::NUMBERS],
    listed: &mut [bool; 256],
    areas: &mut [u16; boundary_lists::AREA_NUMBERS],
    watch: &mut [u8; 256],
    misses: &mut [u8; 256],
    header: Fields,
    octets: &[u8],
    memory: &mut [u8],
    assembly: &mut [u8],
) -> Answer
    requires header_value { (lent_right memory.old assembly.old && not (is_taken_by (core_in core.old) header)) ≡ false }
    requires octets_value { read_header_of octets.now ≡ Ok header }
    ensures core_after { core_in core.new ≡ core_of (hear_of (station_in (core_in core.old) listed.old areas.old watch.old misses.old) octets.now memory.old assembly.old).station }
    ensures core_after_2 { core.new ≡ kept core.old (core_of (hear_of (station_in (core_in core.old) listed.old areas.old watch.old misses.old) octets.now memory.old assembly.old).station) }
    ensures value { result ≡ heard_answer (hear_of (station_in (core_in core.old) listed.old areas.old watch.old misses.old) octets.now memory.old assembly.old).answer }
    ensures memory_after { memory.new ≡ (hear_of (station_in (core_in core.old) listed.old areas.old watch.old misses.old) octets.now memory.old assembly.old).memory }
    ensures assembly_after { assembly.new ≡ (hear_of (station_in (core_in core.old) listed.old areas.old watch.old misses.old) octets.now memory.old assembly.old).assembly }
    ensures misses_after { members_in listed.new areas.new watch.new misses.new ≡ (hear_of (station_in (core_in core.old) listed.old areas.old watch.old misses.old) octets.now memory.old assembly.old).station.members }
{
    let lent = (memory.len() == area::MEMORY_OCTETS) & (assembly.len() == area::MEMORY_OCTETS);
    let state = core_in(core);
    if !lent {
        return refused(Refusal::Buffer);
    }
    if state.is_in(Phase::Participating) {
        return refused(Refusal::Taken);
    }
    let stopped = boundary_running::stop(state, listed, areas, watch, misses);
    let after = stopped.core;
    keep(core, after);
    refused(Refusal::Taken)
}

// A frame whose header was read. What the numbers hold is read where it is needed, so that a refusal reads no more of it than its test does.
fn hear_read(
    core: &mut [u32; boundary_places::NUMBERS],
    listed: &mut [bool; 256],
    areas: &mut [u16; boundary_lists::AREA_NUMBERS],
    watch: &mut [u8; 256],
    misses: &mut [u8; 256],
    header: Fields,
    octets: &[u8],
    memory: &mut [u8],
    assembly: &mut [u8],
) -> Answer
    requires { read_header_of octets.now ≡ Ok header }
    ensures core_after { core_in core.new ≡ core_of (hear_of (station_in (core_in core.old) listed.old areas.old watch.old misses.old) octets.now memory.old assembly.old).station }
    ensures core_after_2 { core.new ≡ kept core.old (core_of (hear_of (station_in (core_in core.old) listed.old areas.old watch.old misses.old) octets.now memory.old assembly.old).station) }
    ensures value { result ≡ heard_told octets.now (hear_of (station_in (core_in core.old) listed.old areas.old watch.old misses.old) octets.now memory.old assembly.old).answer }
    ensures memory_after { memory.new ≡ (hear_of (station_in (core_in core.old) listed.old areas.old watch.old misses.old) octets.now memory.old assembly.old).memory }
    ensures assembly_after { assembly.new ≡ (hear_of (station_in (core_in core.old) listed.old areas.old watch.old misses.old) octets.now memory.old assembly.old).assembly }
    ensures misses_after { members_in listed.new areas.new watch.new misses.new ≡ (hear_of (station_in (core_in core.old) listed.old areas.old watch.old misses.old) octets.now memory.old assembly.old).station.members }
{
    let lent = (memory.len() == area::MEMORY_OCTETS) & (assembly.len() == area::MEMORY_OCTETS);
    let state = core_in(core);
    if lent & !boundary_refused::is_taken(state, header) {
        return match frame_body::read_body(octets.len(), header) {
            Ok(frame) => boundary_frames::hear_frame(
                core, listed, areas, watch, misses, frame, octets, memory, assembly,
            ),
            Err(refusal) => refused(refusal),
        };
    }
    let answer = hear_barred(
        core, listed, areas, watch, misses, header, octets, memory, assembly,
    );
    boundary_told::tell_header(answer, octets.len(), header)
}

pub fn hear(
    core: &mut [u32; boundary_places::NUMBERS],
    listed: &mut [bool; 256],
    areas: &mut [u16; boundary_lists::AREA_NUMBERS],
    watch: &mut [u8; 256],
    misses: &mut [u8; 256],
    octets: &[u8],
    memory: &mut [u8],
    assembly: &mut [u8],
) -> Answer
    ensures core_after { core_in core.new ≡ core_of (hear_of (station_in (core_in core.old) listed.old areas.old watch.old misses.old) octets.now memory.old assembly.old).station }
    ensures core_after_2 { core.new ≡ kept core.old (core_of (hear_of (station_in (core_in core.old) listed.old areas.old watch.old misses.old) octets.now memory.old assembly.old).station) }
    ensures value { result ≡ heard_told octets.now (hear_of (station_in (core_in core.old) listed.old areas.old watch.old misses.old) octets.now memory.old assembly.old).answer }
    ensures memory_after { memory.new ≡ (hear_of (station_in (core_in core.old) listed.old areas.old watch.old misses.old) octets.now memory.old assembly.old).memory }
    ensures assembly_after { assembly.new ≡ (hear_of (station_in (core_in core.old) listed.old areas.old watch.old misses.old) octets.now memory.old assembly.old).assembly }
    ensures misses_after { members_in listed.new areas.new watch.new misses.new ≡ (hear_of (station_in (core_in core.old) listed.old areas.old watch.old misses.old) octets.now memory.old assembly.old).station.members }
{
    let lent = (memory.len() == area::MEMORY_OCTETS) & (assembly.len() == area::MEMORY_OCTETS);
    match frame_reading::read_header(octets) {
        Ok(header) => hear_read(
            core, listed, areas, watch, misses, header, octets, memory, assembly,
        ),
        Err(refusal) => refused(boundary_refused::heard_refusal(lent, refusal)),
    }
}
