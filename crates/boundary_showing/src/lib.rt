// A new station, and what a station's front panel shows.
#![tactic(auto)]

ghost use Rattle.std.specs.Prelude.{◌≡◌};
ghost use Rattle.boundary_core.specs.Crossing.{core_of, figure_in};
ghost use Rattle.boundary_figure.specs.Figures.{figure_numbers};
ghost use Rattle.boundary_lists.specs.Lists.{members_in};
ghost use Rattle.members.specs.Members.{no_members};
ghost use Rattle.station.specs.Rules.State.{never};

use boundary_core::Core;
use boundary_figure::Shown;

// A station that was never started: its state, and its list, which is empty.
pub fn new(
    listed: &mut [bool; 256],
    areas: &mut [u16; boundary_lists::AREA_NUMBERS],
    watch: &mut [u8; 256],
    misses: &mut [u8; 256],
) -> Core
    ensures value { result ≡ core_of never }
    ensures misses_after { members_in listed.new areas.new watch.new misses.new ≡ no_members }
{
    boundary_beginning::turn_off(0, listed, areas, watch, misses)
}

// What the front panel shows. The list does not matter to it.
pub fn show(core: Core) -> Shown
    ensures { result ≡ figure_numbers (figure_in core) }
{
    let panel = core.panel;
    boundary_figure::figure_shown(phases_participating::figure_in(core.phase, panel))
}
