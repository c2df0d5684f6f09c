// A phase that begins, on the core and the arrays that hold the list: with an empty list, and what stood in them is not looked at; or
// participating, with the list as it stands.
#![tactic(auto)]

ghost use Rattle.std.specs.Prelude.{◌≡◌};
ghost use Rattle.boundary_core.specs.Crossing.{core_of};
ghost use Rattle.boundary_lists.specs.Lists.{members_in};
ghost use Rattle.frame_writing.specs.Writing.{no_areas, no_watch};
ghost use Rattle.members.specs.Members.{no_members};
ghost use Rattle.station.specs.Rules.State.{fresh as fresh_of, begun};
ghost use Rattle.station.specs.declared.Phase.TheVariants.{Off};

use boundary_core::Core;
use station::{Phase, Settings};
use units::{Milliseconds, Ticks};

// The core at the beginning of a phase.
fn fresh(phase: Phase, own: Settings) -> Core
    ensures { result ≡ core_of (fresh_of phase own) }
{
    let gathering = state_parts::nothing();
    let panel = panel::blank();
    Core {
        phase,
        own,
        view: 0,
        block: 0,
        elapsed: Ticks(0),
        waited: Ticks(0),
        rounds: 0,
        sent: false,
        gathering,
        panel,
    }
}

pub fn begin(
    phase: Phase,
    own: Settings,
    listed: &mut [bool; 256],
    areas: &mut [u16; boundary_lists::AREA_NUMBERS],
    watch: &mut [u8; 256],
    misses: &mut [u8; 256],
) -> Core
    ensures value { result ≡ core_of (fresh_of phase own) }
    ensures misses_after { members_in listed.new areas.new watch.new misses.new ≡ no_members }
{
    boundary_storing::empty(listed, areas, watch, misses);
    fresh(phase, own)
}

// Off, with nothing left but a number.
pub fn turn_off(
    number: u8,
    listed: &mut [bool; 256],
    areas: &mut [u16; boundary_lists::AREA_NUMBERS],
    watch: &mut [u8; 256],
    misses: &mut [u8; 256],
) -> Core
    ensures value { result ≡ core_of (fresh_of Off (record { number = number; areas = no_areas; watch = no_watch })) }
    ensures misses_after { members_in listed.new areas.new watch.new misses.new ≡ no_members }
{
    let parts = state_parts::no_areas();
    let own = Settings {
        number,
        areas: parts,
        watch: Milliseconds(0),
    };
    begin(Phase::Off, own, listed, areas, watch, misses)
}

// We begin to participate. The list stays.
pub fn participate(own: Settings, view: u8) -> Core
    ensures { result ≡ core_of (begun own no_members view) }
{
    let gathering = state_parts::nothing();
    let panel = state_parts::taken_if(view == own.number, panel::blank());
    Core {
        phase: Phase::Participating,
        own,
        view,
        block: 0,
        elapsed: Ticks(0),
        waited: Ticks(0),
        rounds: 0,
        sent: false,
        gathering,
        panel,
    }
}
