// Start and stop, on the core in numbers and the list in arrays, both changed in place.
#![tactic(auto)]

ghost use Rattle.std.specs.Prelude.{◌≡◌};
ghost use Rattle.boundary_answers.specs.Numbers.{switched_answer};
ghost use Rattle.boundary_core.specs.Crossing.{core_of, station_in};
ghost use Rattle.boundary_lists.specs.Lists.{members_in};
ghost use Rattle.boundary_places.specs.Places.{core_in, kept};
ghost use Rattle.station.specs.Rules.Starting.{start_of, stop_of};

use boundary_core::Answer;
use boundary_handing::keep_outcome;
use boundary_reading::core_in;
use station::Settings;

pub fn start(
    core: &mut [u32; boundary_places::NUMBERS],
    listed: &mut [bool; 256],
    areas: &mut [u16; boundary_lists::AREA_NUMBERS],
    watch: &mut [u8; 256],
    misses: &mut [u8; 256],
    own: Settings,
) -> Answer
    ensures core_after { core_in core.new ≡ core_of (start_of (station_in (core_in core.old) listed.old areas.old watch.old misses.old) own).station }
    ensures core_after_2 { core.new ≡ kept core.old (core_of (start_of (station_in (core_in core.old) listed.old areas.old watch.old misses.old) own).station) }
    ensures value { result ≡ switched_answer (start_of (station_in (core_in core.old) listed.old areas.old watch.old misses.old) own).answer }
    ensures misses_after { members_in listed.new areas.new watch.new misses.new ≡ (start_of (station_in (core_in core.old) listed.old areas.old watch.old misses.old) own).station.members }
{
    keep_outcome(
        core,
        boundary_running::start(core_in(core), listed, areas, watch, misses, own),
    )
}

pub fn stop(
    core: &mut [u32; boundary_places::NUMBERS],
    listed: &mut [bool; 256],
    areas: &mut [u16; boundary_lists::AREA_NUMBERS],
    watch: &mut [u8; 256],
    misses: &mut [u8; 256],
) -> Answer
    ensures core_after { core_in core.new ≡ core_of (stop_of (station_in (core_in core.old) listed.old areas.old watch.old misses.old)).station }
    ensures core_after_2 { core.new ≡ kept core.old (core_of (stop_of (station_in (core_in core.old) listed.old areas.old watch.old misses.old)).station) }
    ensures value { result ≡ switched_answer (stop_of (station_in (core_in core.old) listed.old areas.old watch.old misses.old)).answer }
    ensures misses_after { members_in listed.new areas.new watch.new misses.new ≡ (stop_of (station_in (core_in core.old) listed.old areas.old watch.old misses.old)).station.members }
{
    keep_outcome(
        core,
        boundary_running::stop(core_in(core), listed, areas, watch, misses),
    )
}
