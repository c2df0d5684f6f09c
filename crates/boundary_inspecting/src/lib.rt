// The calls that read the core in numbers and change nothing: how long ticks bring no news, and what the panel shows.
#![tactic(auto)]

ghost use Rattle.std.specs.Prelude.{◌≡◌};
ghost use Rattle.laws.specs.Usual.{List, ℕ};
ghost use Rattle.boundary_core.specs.Crossing.{station_in, figure_in};
ghost use Rattle.boundary_figure.specs.Figures.{figure_numbers};
ghost use Rattle.boundary_places.specs.Places.{core_in};
ghost use Rattle.boundary_quiet.specs.Numbers.{quiet_numbers};
ghost use Rattle.ticking_quiet.specs.Quiet.{quiet_of};

use boundary_figure::Shown;
use boundary_quiet::Quiet;
use boundary_reading::core_in;

pub fn quiet_ticks(
    core: &[u32; boundary_places::NUMBERS],
    listed: &[bool; 256],
    watch: &[u8; 256],
) -> Quiet
    ensures { (areas misses : List ℕ) → result ≡ quiet_numbers (quiet_of (station_in (core_in core.now) listed.now areas watch.now misses)) }
{
    boundary_quiet::quiet_ticks(core_in(core), listed, watch)
}

pub fn show(core: &[u32; boundary_places::NUMBERS]) -> Shown
    ensures { result ≡ figure_numbers (figure_in (core_in core.now)) }
{
    boundary_showing::show(core_in(core))
}
