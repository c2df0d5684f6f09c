// A participant's watch, on its core: the time that it runs for, by two of the list's arrays, and a tick that does not end it.
#![tactic(auto)]

ghost use Rattle.std.specs.Prelude.{◌≡◌};
ghost use Rattle.laws.specs.Usual.{List, ℕ};
ghost use Rattle.boundary_core.specs.Crossing.{station_in};
ghost use Rattle.station.specs.Rules.Ticking.{watch_time};
ghost use Rattle.boundary_watch.specs.Watch.{is_quiet, quiet_after};

use boundary_core::Core;
use station::Phase;
use units::Milliseconds;

// Of the list only the flag and the time of the station in view matter.
pub fn watch_time(core: Core, listed: &[bool; 256], watch: &[u8; 256]) -> Milliseconds
    ensures { (areas misses : List ℕ) → result ≡ watch_time (station_in core listed.now areas watch.now misses) }
{
    let own = core.own;
    let place = core.view as usize;
    let held = core.view == own.number;
    let there = listed[place];
    let time = watch[place];
    waits_watch::watch_time(held, there, own.watch, Milliseconds(time))
}

// Whether a participant's next tick does not end its watch, which runs for a time.
pub fn is_quiet(core: Core, time: Milliseconds) -> bool
    ensures { result ≡ is_quiet core time }
{
    let elapsed = core.elapsed;
    core.is_in(Phase::Participating) & !waits_watch::watch_ends(time, elapsed)
}

// The core after such a tick.
pub fn quiet(core: Core) -> Core
    ensures { result ≡ quiet_after core }
{
    let before = core.elapsed;
    let counter = core.panel;
    let elapsed = waits::later(waits_watch::longest_watch(), before);
    let panel = panel::tick(counter);
    Core {
        elapsed,
        panel,
        ..core
    }
}
