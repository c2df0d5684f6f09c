// Asking, on the core in numbers and the list in arrays. A refused asking touches neither. The state that the functions below the call are
// given is what the numbers hold.
#![tactic(auto)]

ghost use Rattle.std.specs.Prelude.{Ok, ◌≡◌, ◌≤◌};
ghost use Rattle.laws.specs.Usual.{true, [], length};
ghost use Rattle.boundary_bare.specs.Bare.{bare_fields, after_bare};
ghost use Rattle.boundary_core.specs.Crossing.{core_of, station_in};
ghost use Rattle.boundary_lists.specs.Lists.{members_in};
ghost use Rattle.boundary_holder.specs.Held.{holds_block};
ghost use Rattle.boundary_places.specs.Places.{core_in, kept};
ghost use Rattle.boundary_told.specs.Told.{asked_told};
ghost use Rattle.frame_writing.specs.Writing.{whole_length, output_of};
ghost use Rattle.station.specs.Rules.Asking.{lent_right, ask_of};

use boundary_core::{Answer, Core};
use boundary_keeping::keep;

// A holder's block.
fn ask_block(
    core: &mut [u32; boundary_places::NUMBERS],
    state: Core,
    listed: &mut [bool; 256],
    areas: &mut [u16; boundary_lists::AREA_NUMBERS],
    watch: &mut [u8; 256],
    misses: &mut [u8; 256],
    memory: &[u8],
    turn: &mut [u8],
    output: &mut [u8],
) -> Answer
    requires state_value { holds_block state ≡ true }
    requires output_value { lent_right memory.now turn.old output.old ≡ true }
    ensures core_after { core_in core.new ≡ core_of (ask_of (station_in state listed.old areas.old watch.old misses.old) memory.now turn.old output.old).station }
    ensures core_after_2 { core.new ≡ kept core.old (core_of (ask_of (station_in state listed.old areas.old watch.old misses.old) memory.now turn.old output.old).station) }
    ensures value { result ≡ asked_told (ask_of (station_in state listed.old areas.old watch.old misses.old) memory.now turn.old output.old).output (ask_of (station_in state listed.old areas.old watch.old misses.old) memory.now turn.old output.old).answer }
    ensures turn_after { turn.new ≡ (ask_of (station_in state listed.old areas.old watch.old misses.old) memory.now turn.old output.old).turn }
    ensures output_after { output.new ≡ (ask_of (station_in state listed.old areas.old watch.old misses.old) memory.now turn.old output.old).output }
    ensures misses_after { members_in listed.new areas.new watch.new misses.new ≡ (ask_of (station_in state listed.old areas.old watch.old misses.old) memory.now turn.old output.old).station.members }
{
    let asked = boundary_sending::ask(state, listed, areas, watch, misses, memory, turn, output);
    let answer = asked.answer;
    let after = asked.core;
    keep(core, after);
    answer
}

// A frame without data.
fn ask_bare(
    core: &mut [u32; boundary_places::NUMBERS],
    state: Core,
    listed: &mut [bool; 256],
    areas: &mut [u16; boundary_lists::AREA_NUMBERS],
    watch: &mut [u8; 256],
    misses: &mut [u8; 256],
    output: &mut [u8],
) -> Answer
    requires { 1088 ≤ length output.old }
    ensures core_after { core_in core.new ≡ core_of (after_bare state (members_in listed.old areas.old watch.old misses.old)) }
    ensures core_after_2 { core.new ≡ kept core.old (core_of (after_bare state (members_in listed.old areas.old watch.old misses.old))) }
    ensures value { result ≡ asked_told (output_of (bare_fields state) [] output.old) (Ok (whole_length (bare_fields state))) }
    ensures output_after { output.new ≡ output_of (bare_fields state) [] output.old }
    ensures misses_after { members_in listed.new areas.new watch.new misses.new ≡ (after_bare state (members_in listed.old areas.old watch.old misses.old)).members }
{
    let asked = boundary_bare::send(state, listed, areas, watch, misses, output);
    let answer = asked.answer;
    let after = asked.core;
    keep(core, after);
    boundary_written::tell_written(answer, output)
}

pub fn ask(
    core: &mut [u32; boundary_places::NUMBERS],
    listed: &mut [bool; 256],
    areas: &mut [u16; boundary_lists::AREA_NUMBERS],
    watch: &mut [u8; 256],
    misses: &mut [u8; 256],
    memory: &[u8],
    turn: &mut [u8],
    output: &mut [u8],
) -> Answer
    ensures core_after { core_in core.new ≡ core_of (ask_of (station_in (core_in core.old) listed.old areas.old watch.old misses.old) memory.now turn.old output.old).station }
    ensures core_after_2 { core.new ≡ kept core.old (core_of (ask_of (station_in (core_in core.old) listed.old areas.old watch.old misses.old) memory.now turn.old output.old).station) }
    ensures value { result ≡ asked_told (ask_of (station_in (core_in core.old) listed.old areas.old watch.old misses.old) memory.now turn.old output.old).output (ask_of (station_in (core_in core.old) listed.old areas.old watch.old misses.old) memory.now turn.old output.old).answer }
    ensures turn_after { turn.new ≡ (ask_of (station_in (core_in core.old) listed.old areas.old watch.old misses.old) memory.now turn.old output.old).turn }
    ensures output_after { output.new ≡ (ask_of (station_in (core_in core.old) listed.old areas.old watch.old misses.old) memory.now turn.old output.old).output }
    ensures misses_after { members_in listed.new areas.new watch.new misses.new ≡ (ask_of (station_in (core_in core.old) listed.old areas.old watch.old misses.old) memory.now turn.old output.old).station.members }
{
    let lent = asking_placing::is_lent_right(memory, turn, output);
    let state = boundary_reading::core_in(core);
    if boundary_holder::holds_block(state) & lent {
        return ask_block(
            core, state, listed, areas, watch, misses, memory, turn, output,
        );
    }
    if !(lent & boundary_due::is_due(state)) {
        return boundary_answers::refused(boundary_due::ask_refusal(lent));
    }
    ask_bare(core, state, listed, areas, watch, misses, output)
}
