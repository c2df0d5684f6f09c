// A frame that was read: its effect on the core in numbers and on the list in arrays. The state that a function is given is what the numbers
// hold.
#![tactic(auto)]

ghost use Rattle.std.specs.Prelude.{Ok, ◌≡◌};
ghost use Rattle.laws.specs.Usual.{true, false, get_or};
ghost use Rattle.boundary_answers.specs.Numbers.{heard_answer};
ghost use Rattle.boundary_core.specs.Crossing.{core_of, station_in};
ghost use Rattle.boundary_lists.specs.Lists.{members_in};
ghost use Rattle.boundary_participant.specs.Quick.{is_accepted};
ghost use Rattle.boundary_places.specs.Places.{core_in, kept};
ghost use Rattle.boundary_refused.specs.Taken.{is_taken_by};
ghost use Rattle.boundary_told.specs.Told.{route_of, with_frame, heard_told};
ghost use Rattle.frame_reading.specs.Reading.{read_of};
ghost use Rattle.station.specs.Rules.Hearing.{lent_right, enters, enters_answer, hear_of};

use boundary_core::{Answer, Core};
use boundary_keeping::keep;
use boundary_reading::core_in;
use boundary_told::tell_read;
use frame::{Fields, Refusal};
use station::Phase;

// A cyclic frame that a participant accepts.
fn hear_cyclic(
    core: &mut [u32; boundary_places::NUMBERS],
    state: Core,
    listed: &mut [bool; 256],
    areas: &mut [u16; boundary_lists::AREA_NUMBERS],
    watch: &mut [u8; 256],
    misses: &mut [u8; 256],
    frame: Fields,
    octets: &[u8],
    memory: &mut [u8],
    assembly: &mut [u8],
) -> Answer
    requires frame_value { is_accepted state (get_or listed.old frame.source false) (get_or listed.old frame.destination false) frame ≡ true }
    requires assembly_value { lent_right memory.old assembly.old ≡ true }
    requires octets_value { read_of octets.now ≡ Ok frame }
    ensures core_after { core_in core.new ≡ core_of (hear_of (station_in state listed.old areas.old watch.old misses.old) octets.now memory.old assembly.old).station }
    ensures core_after_2 { core.new ≡ kept core.old (core_of (hear_of (station_in state listed.old areas.old watch.old misses.old) octets.now memory.old assembly.old).station) }
    ensures value { result ≡ heard_told octets.now (hear_of (station_in state listed.old areas.old watch.old misses.old) octets.now memory.old assembly.old).answer }
    ensures memory_after { memory.new ≡ (hear_of (station_in state listed.old areas.old watch.old misses.old) octets.now memory.old assembly.old).memory }
    ensures assembly_after { assembly.new ≡ (hear_of (station_in state listed.old areas.old watch.old misses.old) octets.now memory.old assembly.old).assembly }
    ensures misses_after { members_in listed.new areas.new watch.new misses.new ≡ (hear_of (station_in state listed.old areas.old watch.old misses.old) octets.now memory.old assembly.old).station.members }
{
    let heard = boundary_in_place::hear(
        state,
        listed,
        areas,
        watch,
        misses,
        frame.source,
        frame.destination,
        frame,
        octets,
        memory,
        assembly,
    );
    let answer = heard.answer;
    let after = heard.core;
    keep(core, after);
    answer
}

// A frame that is not refused, and that no participant takes as a cyclic one. It is called from two places, so that the compiler keeps it
// apart: else every frame would pay for the room that it needs.
fn hear_seldom(
    core: &mut [u32; boundary_places::NUMBERS],
    state: Core,
    listed: &mut [bool; 256],
    areas: &mut [u16; boundary_lists::AREA_NUMBERS],
    watch: &mut [u8; 256],
    misses: &mut [u8; 256],
    frame: Fields,
) -> Answer
    ensures core_after { core_in core.new ≡ core_of (enters state.phase frame.code (station_in state listed.old areas.old watch.old misses.old) frame) }
    ensures core_after_2 { core.new ≡ kept core.old (core_of (enters state.phase frame.code (station_in state listed.old areas.old watch.old misses.old) frame)) }
    ensures value { result ≡ with_frame (heard_answer (enters_answer state.phase frame.code)) (route_of frame) }
    ensures misses_after { members_in listed.new areas.new watch.new misses.new ≡ (enters state.phase frame.code (station_in state listed.old areas.old watch.old misses.old) frame).members }
{
    let heard = boundary_entering::hear(state, listed, areas, watch, misses, frame);
    let answer = heard.answer;
    let after = heard.core;
    keep(core, after);
    tell_read(answer, frame)
}

pub fn hear_frame(
    core: &mut [u32; boundary_places::NUMBERS],
    listed: &mut [bool; 256],
    areas: &mut [u16; boundary_lists::AREA_NUMBERS],
    watch: &mut [u8; 256],
    misses: &mut [u8; 256],
    frame: Fields,
    octets: &[u8],
    memory: &mut [u8],
    assembly: &mut [u8],
) -> Answer
    requires frame_value { is_taken_by (core_in core.old) frame ≡ false }
    requires assembly_value { lent_right memory.old assembly.old ≡ true }
    requires octets_value { read_of octets.now ≡ Ok frame }
    ensures core_after { core_in core.new ≡ core_of (hear_of (station_in (core_in core.old) listed.old areas.old watch.old misses.old) octets.now memory.old assembly.old).station }
    ensures core_after_2 { core.new ≡ kept core.old (core_of (hear_of (station_in (core_in core.old) listed.old areas.old watch.old misses.old) octets.now memory.old assembly.old).station) }
    ensures value { result ≡ heard_told octets.now (hear_of (station_in (core_in core.old) listed.old areas.old watch.old misses.old) octets.now memory.old assembly.old).answer }
    ensures memory_after { memory.new ≡ (hear_of (station_in (core_in core.old) listed.old areas.old watch.old misses.old) octets.now memory.old assembly.old).memory }
    ensures assembly_after { assembly.new ≡ (hear_of (station_in (core_in core.old) listed.old areas.old watch.old misses.old) octets.now memory.old assembly.old).assembly }
    ensures misses_after { members_in listed.new areas.new watch.new misses.new ≡ (hear_of (station_in (core_in core.old) listed.old areas.old watch.old misses.old) octets.now memory.old assembly.old).station.members }
{
    let state = core_in(core);
    if !state.is_in(Phase::Participating) {
        return hear_seldom(core, state, listed, areas, watch, misses, frame);
    }
    let source = frame.source;
    let destination = frame.destination;
    let sender = boundary_lists::is_listed(listed, source);
    let taker = boundary_lists::is_listed(listed, destination);
    if boundary_participant::is_accepted(state, sender, taker, frame) {
        return hear_cyclic(
            core, state, listed, areas, watch, misses, frame, octets, memory, assembly,
        );
    }
    if boundary_refused::is_strange(state, sender, taker, frame) {
        return tell_read(boundary_answers::refused(Refusal::Stranger), frame);
    }
    hear_seldom(core, state, listed, areas, watch, misses, frame)
}
