// A tick that only counts, on the core alone, of a participant or of a station that does not participate yet.
#![tactic(auto)]

ghost use Rattle.std.specs.Prelude.{◌≡◌};
ghost use Rattle.boundary_calm.specs.Calm.{only_counts, counted_core};

use boundary_core::Core;
use units::Milliseconds;

// Whether the next tick only counts, where the watch runs for a time.
pub fn counts(core: Core, time: Milliseconds) -> bool
    ensures { result ≡ only_counts core time }
{
    if boundary_watch::is_quiet(core, time) {
        return true;
    }
    boundary_waiting::is_waiting(core)
}

// The core after a tick that only counts.
pub fn count(core: Core, time: Milliseconds) -> Core
    ensures { result ≡ counted_core core time }
{
    if boundary_watch::is_quiet(core, time) {
        return boundary_watch::quiet(core);
    }
    boundary_waiting::count(core)
}
