// A tick that ends a wait in joining, with the list in place.
#![tactic(auto)]

ghost use Rattle.std.specs.Prelude.{◌≡◌};
ghost use Rattle.laws.specs.Usual.{false};
ghost use Rattle.boundary_answers.specs.Numbers.{ticked_answer};
ghost use Rattle.boundary_core.specs.Crossing.{core_of, station_in};
ghost use Rattle.boundary_lists.specs.Lists.{members_in};
ghost use Rattle.boundary_waiting.specs.Waiting.{is_waiting};
ghost use Rattle.station.specs.Rules.Ticking.{tick_of};
ghost use Rattle.station.specs.declared.Ticked.TheVariants.{Done};
ghost use Rattle.station.specs.declared.Phase.TheVariants.{Joining};

use boundary_core::{Core, Outcome};
use station::Phase;

// A tick that ends a wait before we participate answers as one that only counts.
pub fn done(core: Core) -> Outcome
    ensures core_value { result.core ≡ core }
    ensures answer_value { result.answer ≡ ticked_answer Done }
{
    let answer = boundary_answers::done();
    Outcome { core, answer }
}

// The token detection wait ends, or our request falls due.
pub fn tick_joining(
    core: Core,
    listed: &mut [bool; 256],
    areas: &mut [u16; boundary_lists::AREA_NUMBERS],
    watch: &mut [u8; 256],
    misses: &mut [u8; 256],
) -> Outcome
    requires phase_value { core.phase ≡ Joining }
    requires core_value { is_waiting core ≡ false }
    ensures core_value_2 { result.core ≡ core_of (tick_of (station_in core listed.old areas.old watch.old misses.old)).station }
    ensures answer_value { result.answer ≡ ticked_answer (tick_of (station_in core listed.old areas.old watch.old misses.old)).answer }
    ensures misses_after { members_in listed.new areas.new watch.new misses.new ≡ (tick_of (station_in core listed.old areas.old watch.old misses.old)).station.members }
{
    let own = core.own;
    let core = boundary_waiting::count(core);
    let wait = waits_lengths::detection_wait();
    let elapsed = core.elapsed;
    if wait.0 <= elapsed.0 {
        let after = boundary_beginning::begin(Phase::Listening, own, listed, areas, watch, misses);
        return done(after);
    }
    done(boundary_falling_due::fall_due(core, listed, areas, watch, misses))
}
