// One tick and many, on the core in numbers and the list in arrays, both changed in place.
#![tactic(auto)]

ghost use Rattle.std.specs.Prelude.{◌≡◌};
ghost use Rattle.boundary_answers.specs.Numbers.{ticked_answer};
ghost use Rattle.boundary_core.specs.Crossing.{core_of, station_in};
ghost use Rattle.boundary_lists.specs.Lists.{members_in};
ghost use Rattle.boundary_places.specs.Places.{core_in, kept};
ghost use Rattle.station.specs.Rules.Ticking.{tick_of};
ghost use Rattle.ticking_quiet.specs.Many.{ticks_of};

use boundary_core::Answer;
use boundary_handing::keep_outcome;
use boundary_keeping::keep;
use boundary_reading::core_in;

// A tick that only counts is made here and not in the function that many ticks go by too, so that the compiler puts it into the call.
pub fn tick(
    core: &mut [u32; boundary_places::NUMBERS],
    listed: &mut [bool; 256],
    areas: &mut [u16; boundary_lists::AREA_NUMBERS],
    watch: &mut [u8; 256],
    misses: &mut [u8; 256],
) -> Answer
    ensures core_after { core_in core.new ≡ core_of (tick_of (station_in (core_in core.old) listed.old areas.old watch.old misses.old)).station }
    ensures core_after_2 { core.new ≡ kept core.old (core_of (tick_of (station_in (core_in core.old) listed.old areas.old watch.old misses.old)).station) }
    ensures value { result ≡ ticked_answer (tick_of (station_in (core_in core.old) listed.old areas.old watch.old misses.old)).answer }
    ensures misses_after { members_in listed.new areas.new watch.new misses.new ≡ (tick_of (station_in (core_in core.old) listed.old areas.old watch.old misses.old)).station.members }
{
    let state = core_in(core);
    let time = boundary_watch::watch_time(state, listed, watch);
    if boundary_calm::counts(state, time) {
        keep(core, boundary_calm::count(state, time));
        return boundary_answers::done();
    }
    keep_outcome(
        core,
        boundary_counting::tick(state, listed, areas, watch, misses),
    )
}

pub fn ticks(
    core: &mut [u32; boundary_places::NUMBERS],
    listed: &mut [bool; 256],
    areas: &mut [u16; boundary_lists::AREA_NUMBERS],
    watch: &mut [u8; 256],
    misses: &mut [u8; 256],
    count: u32,
) -> Answer
    ensures core_after { core_in core.new ≡ core_of (ticks_of count (station_in (core_in core.old) listed.old areas.old watch.old misses.old)).station }
    ensures core_after_2 { core.new ≡ kept core.old (core_of (ticks_of count (station_in (core_in core.old) listed.old areas.old watch.old misses.old)).station) }
    ensures value { result ≡ ticked_answer (ticks_of count (station_in (core_in core.old) listed.old areas.old watch.old misses.old)).answer }
    ensures misses_after { members_in listed.new areas.new watch.new misses.new ≡ (ticks_of count (station_in (core_in core.old) listed.old areas.old watch.old misses.old)).station.members }
{
    keep_outcome(
        core,
        boundary_many_ticks::ticks(core_in(core), listed, areas, watch, misses, count),
    )
}
