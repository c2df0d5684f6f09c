// The station's calls for C. include/flnet_station.h declares them. Core and station list are lent as arrays of numbers, and changed in place.
#![tactic(auto)]

ghost use Rattle.std.specs.Prelude.{List, ◌≡◌, replicate, ℕ};
ghost use Rattle.boundary_core.specs.Crossing.{core_of, station_in, figure_in};
ghost use Rattle.boundary_answers.specs.Numbers.{switched_answer, ticked_answer};
ghost use Rattle.boundary_told.specs.Told.{heard_told, asked_told};
ghost use Rattle.boundary_figure.specs.Figures.{figure_numbers};
ghost use Rattle.boundary_lists.specs.Lists.{members_in};
ghost use Rattle.boundary_places.specs.Places.{core_in, kept};
ghost use Rattle.boundary_quiet.specs.Numbers.{quiet_numbers};
ghost use Rattle.members.specs.Members.{no_members};
ghost use Rattle.ticking_quiet.specs.Many.{ticks_of};
ghost use Rattle.ticking_quiet.specs.Quiet.{quiet_of};
ghost use Rattle.station.specs.Rules.Asking.{ask_of};
ghost use Rattle.station.specs.Rules.Hearing.{hear_of};
ghost use Rattle.station.specs.Rules.Starting.{start_of, stop_of};
ghost use Rattle.station.specs.Rules.State.{never};
ghost use Rattle.station.specs.Rules.Ticking.{tick_of};

use boundary_core::Answer;
use boundary_figure::Shown;
use boundary_quiet::Quiet;
use station::Settings;

// A station that was never started: its core is all zeros, its list empty.
#[unsafe(no_mangle)]
pub extern "C" fn flnet_new(
    core: &mut [u32; boundary_places::NUMBERS],
    listed: &mut [bool; 256],
    areas: &mut [u16; boundary_lists::AREA_NUMBERS],
    watch: &mut [u8; 256],
    misses: &mut [u8; 256],
)
    ensures core_after { core_in core.new ≡ core_of never }
    ensures core_after_2 { core.new ≡ replicate 18 0 }
    ensures misses_after { members_in listed.new areas.new watch.new misses.new ≡ no_members }
{
    boundary_new::new(core, listed, areas, watch, misses);
}

#[unsafe(no_mangle)]
pub extern "C" fn flnet_start(
    core: &mut [u32; boundary_places::NUMBERS],
    listed: &mut [bool; 256],
    areas: &mut [u16; boundary_lists::AREA_NUMBERS],
    watch: &mut [u8; 256],
    misses: &mut [u8; 256],
    own: Settings,
) -> Answer
    ensures core_after { core_in core.new ≡ core_of (start_of (station_in (core_in core.old) listed.old areas.old watch.old misses.old) own).station }
    ensures core_after_2 { core.new ≡ kept core.old (core_of (start_of (station_in (core_in core.old) listed.old areas.old watch.old misses.old) own).station) }
    ensures value { result ≡ switched_answer (start_of (station_in (core_in core.old) listed.old areas.old watch.old misses.old) own).answer }
    ensures misses_after { members_in listed.new areas.new watch.new misses.new ≡ (start_of (station_in (core_in core.old) listed.old areas.old watch.old misses.old) own).station.members }
{
    boundary_switching::start(core, listed, areas, watch, misses, own)
}

#[unsafe(no_mangle)]
pub extern "C" fn flnet_stop(
    core: &mut [u32; boundary_places::NUMBERS],
    listed: &mut [bool; 256],
    areas: &mut [u16; boundary_lists::AREA_NUMBERS],
    watch: &mut [u8; 256],
    misses: &mut [u8; 256],
) -> Answer
    ensures core_after { core_in core.new ≡ core_of (stop_of (station_in (core_in core.old) listed.old areas.old watch.old misses.old)).station }
    ensures core_after_2 { core.new ≡ kept core.old (core_of (stop_of (station_in (core_in core.old) listed.old areas.old watch.old misses.old)).station) }
    ensures value { result ≡ switched_answer (stop_of (station_in (core_in core.old) listed.old areas.old watch.old misses.old)).answer }
    ensures misses_after { members_in listed.new areas.new watch.new misses.new ≡ (stop_of (station_in (core_in core.old) listed.old areas.old watch.old misses.old)).station.members }
{
    boundary_switching::stop(core, listed, areas, watch, misses)
}

#[unsafe(no_mangle)]
pub extern "C" fn flnet_tick(
    core: &mut [u32; boundary_places::NUMBERS],
    listed: &mut [bool; 256],
    areas: &mut [u16; boundary_lists::AREA_NUMBERS],
    watch: &mut [u8; 256],
    misses: &mut [u8; 256],
) -> Answer
    ensures core_after { core_in core.new ≡ core_of (tick_of (station_in (core_in core.old) listed.old areas.old watch.old misses.old)).station }
    ensures core_after_2 { core.new ≡ kept core.old (core_of (tick_of (station_in (core_in core.old) listed.old areas.old watch.old misses.old)).station) }
    ensures value { result ≡ ticked_answer (tick_of (station_in (core_in core.old) listed.old areas.old watch.old misses.old)).answer }
    ensures misses_after { members_in listed.new areas.new watch.new misses.new ≡ (tick_of (station_in (core_in core.old) listed.old areas.old watch.old misses.old)).station.members }
{
    boundary_ticks::tick(core, listed, areas, watch, misses)
}

// So many ticks one after the other.
#[unsafe(no_mangle)]
pub extern "C" fn flnet_ticks(
    core: &mut [u32; boundary_places::NUMBERS],
    listed: &mut [bool; 256],
    areas: &mut [u16; boundary_lists::AREA_NUMBERS],
    watch: &mut [u8; 256],
    misses: &mut [u8; 256],
    count: u32,
) -> Answer
    ensures core_after { core_in core.new ≡ core_of (ticks_of count (station_in (core_in core.old) listed.old areas.old watch.old misses.old)).station }
    ensures core_after_2 { core.new ≡ kept core.old (core_of (ticks_of count (station_in (core_in core.old) listed.old areas.old watch.old misses.old)).station) }
    ensures value { result ≡ ticked_answer (ticks_of count (station_in (core_in core.old) listed.old areas.old watch.old misses.old)).answer }
    ensures misses_after { members_in listed.new areas.new watch.new misses.new ≡ (ticks_of count (station_in (core_in core.old) listed.old areas.old watch.old misses.old)).station.members }
{
    boundary_ticks::ticks(core, listed, areas, watch, misses, count)
}

// How many ticks can come, with no call between, before one brings news. Of the list only the flags and the watch times matter to it.
#[unsafe(no_mangle)]
pub extern "C" fn flnet_quiet(
    core: &[u32; boundary_places::NUMBERS],
    listed: &[bool; 256],
    watch: &[u8; 256],
) -> Quiet
    ensures { (areas misses : List ℕ) → result ≡ quiet_numbers (quiet_of (station_in (core_in core.now) listed.now areas watch.now misses)) }
{
    boundary_inspecting::quiet_ticks(core, listed, watch)
}

#[unsafe(no_mangle)]
pub extern "C" fn flnet_hear(
    core: &mut [u32; boundary_places::NUMBERS],
    listed: &mut [bool; 256],
    areas: &mut [u16; boundary_lists::AREA_NUMBERS],
    watch: &mut [u8; 256],
    misses: &mut [u8; 256],
    octets: &[u8],
    memory: &mut [u8],
    assembly: &mut [u8],
) -> Answer
    ensures core_after { core_in core.new ≡ core_of (hear_of (station_in (core_in core.old) listed.old areas.old watch.old misses.old) octets.now memory.old assembly.old).station }
    ensures core_after_2 { core.new ≡ kept core.old (core_of (hear_of (station_in (core_in core.old) listed.old areas.old watch.old misses.old) octets.now memory.old assembly.old).station) }
    ensures value { result ≡ heard_told octets.now (hear_of (station_in (core_in core.old) listed.old areas.old watch.old misses.old) octets.now memory.old assembly.old).answer }
    ensures memory_after { memory.new ≡ (hear_of (station_in (core_in core.old) listed.old areas.old watch.old misses.old) octets.now memory.old assembly.old).memory }
    ensures assembly_after { assembly.new ≡ (hear_of (station_in (core_in core.old) listed.old areas.old watch.old misses.old) octets.now memory.old assembly.old).assembly }
    ensures misses_after { members_in listed.new areas.new watch.new misses.new ≡ (hear_of (station_in (core_in core.old) listed.old areas.old watch.old misses.old) octets.now memory.old assembly.old).station.members }
{
    boundary_hearing::hear(core, listed, areas, watch, misses, octets, memory, assembly)
}

#[unsafe(no_mangle)]
pub extern "C" fn flnet_ask(
    core: &mut [u32; boundary_places::NUMBERS],
    listed: &mut [bool; 256],
    areas: &mut [u16; boundary_lists::AREA_NUMBERS],
    watch: &mut [u8; 256],
    misses: &mut [u8; 256],
    memory: &[u8],
    turn: &mut [u8],
    output: &mut [u8],
) -> Answer
    ensures core_after { core_in core.new ≡ core_of (ask_of (station_in (core_in core.old) listed.old areas.old watch.old misses.old) memory.now turn.old output.old).station }
    ensures core_after_2 { core.new ≡ kept core.old (core_of (ask_of (station_in (core_in core.old) listed.old areas.old watch.old misses.old) memory.now turn.old output.old).station) }
    ensures value { result ≡ asked_told (ask_of (station_in (core_in core.old) listed.old areas.old watch.old misses.old) memory.now turn.old output.old).output (ask_of (station_in (core_in core.old) listed.old areas.old watch.old misses.old) memory.now turn.old output.old).answer }
    ensures turn_after { turn.new ≡ (ask_of (station_in (core_in core.old) listed.old areas.old watch.old misses.old) memory.now turn.old output.old).turn }
    ensures output_after { output.new ≡ (ask_of (station_in (core_in core.old) listed.old areas.old watch.old misses.old) memory.now turn.old output.old).output }
    ensures misses_after { members_in listed.new areas.new watch.new misses.new ≡ (ask_of (station_in (core_in core.old) listed.old areas.old watch.old misses.old) memory.now turn.old output.old).station.members }
{
    boundary_asking::ask(core, listed, areas, watch, misses, memory, turn, output)
}

// What the front panel shows. The list does not matter to it.
#[unsafe(no_mangle)]
pub extern "C" fn flnet_show(core: &[u32; boundary_places::NUMBERS]) -> Shown
    ensures { result ≡ figure_numbers (figure_in (core_in core.now)) }
{
    boundary_inspecting::show(core)
}
