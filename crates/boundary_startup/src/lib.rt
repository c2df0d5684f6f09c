// A tick that ends a wait in ring startup, with the list in place.
#![tactic(auto)]

ghost use Rattle.std.specs.Prelude.{◌≡◌};
ghost use Rattle.laws.specs.Usual.{false};
ghost use Rattle.boundary_answers.specs.Numbers.{ticked_answer};
ghost use Rattle.boundary_core.specs.Crossing.{core_of, station_in};
ghost use Rattle.boundary_lists.specs.Lists.{members_in};
ghost use Rattle.boundary_waiting.specs.Waiting.{is_waiting};
ghost use Rattle.members.specs.Members.{numbers_of};
ghost use Rattle.station.specs.Rules.Starting.{started_up};
ghost use Rattle.station.specs.Rules.Ticking.{tick_of};
ghost use Rattle.station.specs.declared.Phase.TheVariants.{Startup};

use boundary_core::{Core, Outcome};
use station::{Phase, Settings};

// The acceptance time has ended.
fn start_up(
    own: Settings,
    listed: &mut [bool; 256],
    areas: &mut [u16; boundary_lists::AREA_NUMBERS],
    watch: &mut [u8; 256],
    misses: &mut [u8; 256],
) -> Core
    ensures value { result ≡ core_of (started_up own (members_in listed.old areas.old watch.old misses.old) (numbers_of (members_in listed.old areas.old watch.old misses.old))) }
    ensures misses_after { members_in listed.new areas.new watch.new misses.new ≡ (started_up own (members_in listed.old areas.old watch.old misses.old) (numbers_of (members_in listed.old areas.old watch.old misses.old))).members }
{
    let number = own.number as usize;
    if boundary_flags::first_listed(listed, 0, 256) < 256 {
        let smallest = boundary_flags::first_listed(listed, 0, number) as u8;
        return boundary_beginning::participate(own, smallest);
    }
    boundary_beginning::begin(Phase::Listening, own, listed, areas, watch, misses)
}

// The acceptance time ends, or our request falls due.
pub fn tick_startup(
    core: Core,
    listed: &mut [bool; 256],
    areas: &mut [u16; boundary_lists::AREA_NUMBERS],
    watch: &mut [u8; 256],
    misses: &mut [u8; 256],
) -> Outcome
    requires phase_value { core.phase ≡ Startup }
    requires core_value { is_waiting core ≡ false }
    ensures core_value_2 { result.core ≡ core_of (tick_of (station_in core listed.old areas.old watch.old misses.old)).station }
    ensures answer_value { result.answer ≡ ticked_answer (tick_of (station_in core listed.old areas.old watch.old misses.old)).answer }
    ensures misses_after { members_in listed.new areas.new watch.new misses.new ≡ (tick_of (station_in core listed.old areas.old watch.old misses.old)).station.members }
{
    let own = core.own;
    let core = boundary_waiting::count(core);
    let time = waits_lengths::acceptance_time();
    let elapsed = core.elapsed;
    if time.0 <= elapsed.0 {
        return boundary_ending::done(start_up(own, listed, areas, watch, misses));
    }
    boundary_ending::done(boundary_falling_due::fall_due(core, listed, areas, watch, misses))
}
