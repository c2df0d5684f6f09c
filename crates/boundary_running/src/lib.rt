// Start and stop. A refused one leaves the list alone, any other empties it; what stood there is not looked at.
#![tactic(auto)]

ghost use Rattle.std.specs.Prelude.{◌≡◌};
ghost use Rattle.boundary_core.specs.Crossing.{core_of, station_in};
ghost use Rattle.boundary_answers.specs.Numbers.{switched_answer, refused_answer};
ghost use Rattle.boundary_lists.specs.Lists.{members_in};
ghost use Rattle.station.specs.Rules.Starting.{start_of, stop_of};

use boundary_core::{Core, Outcome};
use frame::Refusal;
use station::{Phase, Settings};

fn refuse(core: Core, refusal: Refusal) -> Outcome
    ensures core_value { result.core ≡ core }
    ensures answer_value { result.answer ≡ refused_answer refusal }
{
    let answer = boundary_answers::refused(refusal);
    Outcome { core, answer }
}

pub fn start(
    core: Core,
    listed: &mut [bool; 256],
    areas: &mut [u16; boundary_lists::AREA_NUMBERS],
    watch: &mut [u8; 256],
    misses: &mut [u8; 256],
    own: Settings,
) -> Outcome
    ensures core_value { result.core ≡ core_of (start_of (station_in core listed.old areas.old watch.old misses.old) own).station }
    ensures answer_value { result.answer ≡ switched_answer (start_of (station_in core listed.old areas.old watch.old misses.old) own).answer }
    ensures misses_after { members_in listed.new areas.new watch.new misses.new ≡ (start_of (station_in core listed.old areas.old watch.old misses.old) own).station.members }
{
    match starting::start_answer(core.phase, own) {
        Ok(()) => Outcome {
            core: boundary_beginning::begin(Phase::Listening, own, listed, areas, watch, misses),
            answer: boundary_answers::done(),
        },
        Err(refusal) => refuse(core, refusal),
    }
}

pub fn stop(
    core: Core,
    listed: &mut [bool; 256],
    areas: &mut [u16; boundary_lists::AREA_NUMBERS],
    watch: &mut [u8; 256],
    misses: &mut [u8; 256],
) -> Outcome
    ensures core_value { result.core ≡ core_of (stop_of (station_in core listed.old areas.old watch.old misses.old)).station }
    ensures answer_value { result.answer ≡ switched_answer (stop_of (station_in core listed.old areas.old watch.old misses.old)).answer }
    ensures misses_after { members_in listed.new areas.new watch.new misses.new ≡ (stop_of (station_in core listed.old areas.old watch.old misses.old)).station.members }
{
    if state_tests::is_off(core.phase) {
        return refuse(core, Refusal::NotDue);
    }
    let number = core.own.number;
    Outcome {
        core: boundary_beginning::turn_off(number, listed, areas, watch, misses),
        answer: boundary_answers::done(),
    }
}
