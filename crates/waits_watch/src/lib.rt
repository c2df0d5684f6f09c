// How long the watch runs, in milliseconds and in ticks, and when it ends.
#![tactic(auto)]

ghost use Rattle.std.specs.Prelude.{◌≡◌, ◌||◌, ◌+◌};
ghost use Rattle.laws.specs.Usual.{cond, not, leb};
ghost use Rattle.station.specs.Rules.Waits.{watch_ticks, counts_as, longest_watch};

use units::{Milliseconds, Ticks, Wait};

// "a listed TW of 0 counts as 1 ms"
fn counts_as(watch: Milliseconds) -> Milliseconds
    ensures { result ≡ counts_as watch }
{
    Milliseconds(watch.0.max(1))
}

// The time that the watch runs for, by whether we hold, whether the station in view is listed, our own time and the listed one.
pub fn watch_time(held: bool, listed: bool, own: Milliseconds, time: Milliseconds) -> Milliseconds
    ensures { result ≡ cond (held || not listed) own (counts_as time) }
{
    if held | !listed { own } else { counts_as(time) }
}

pub fn watch_ticks(watch: Milliseconds) -> Ticks
    ensures { result.0 ≡ watch_ticks watch }
{
    Ticks::from(Wait::from(watch))
}

pub fn longest_watch() -> Ticks
    ensures { result.0 ≡ longest_watch }
{
    watch_ticks(Milliseconds(255))
}

// Whether the next tick ends the watch.
pub fn watch_ends(time: Milliseconds, elapsed: Ticks) -> bool
    ensures { result ≡ leb (watch_ticks time) (elapsed.0 + 1) }
{
    watch_ticks(time).0 <= elapsed.0.saturating_add(1)
}
