// A tick: on the core alone where it only counts, with the list in place where it ends a watch or a wait.
#![tactic(auto)]

ghost use Rattle.std.specs.Prelude.{◌≡◌};
ghost use Rattle.boundary_core.specs.Crossing.{core_of, station_in};
ghost use Rattle.boundary_answers.specs.Numbers.{ticked_answer};
ghost use Rattle.boundary_lists.specs.Lists.{members_in};
ghost use Rattle.station.specs.Rules.Ticking.{tick_of};

use boundary_core::{Core, Outcome};
use station::{Phase, Ticked};

pub fn tick(
    core: Core,
    listed: &mut [bool; 256],
    areas: &mut [u16; boundary_lists::AREA_NUMBERS],
    watch: &mut [u8; 256],
    misses: &mut [u8; 256],
) -> Outcome
    ensures core_value { result.core ≡ core_of (tick_of (station_in core listed.old areas.old watch.old misses.old)).station }
    ensures answer_value { result.answer ≡ ticked_answer (tick_of (station_in core listed.old areas.old watch.old misses.old)).answer }
    ensures misses_after { members_in listed.new areas.new watch.new misses.new ≡ (tick_of (station_in core listed.old areas.old watch.old misses.old)).station.members }
{
    let time = boundary_watch::watch_time(core, listed, watch);
    if boundary_calm::counts(core, time) {
        return Outcome {
            core: boundary_calm::count(core, time),
            answer: boundary_answers::done(),
        };
    }
    if core.is_in(Phase::Participating) {
        return boundary_silence::tick(core, listed, areas, watch, misses);
    }
    if core.is_in(Phase::Startup) {
        return boundary_startup::tick_startup(core, listed, areas, watch, misses);
    }
    if core.is_in(Phase::Joining) {
        return boundary_ending::tick_joining(core, listed, areas, watch, misses);
    }
    Outcome {
        core,
        answer: boundary_numbers::ticked_answer(Ticked::Off),
    }
}
