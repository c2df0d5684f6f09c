// A wait counted tick by tick, and when it ends.
#![tactic(auto)]

ghost use Rattle.std.specs.Prelude.{◌≡◌, ◌+◌};
ghost use Rattle.station.specs.Rules.Ticking.{later as later_of, wait_ends, waited_then};

use units::Ticks;
use waits_lengths::number_wait;

// One tick more, up to a limit.
pub fn later(most: Ticks, ticks: Ticks) -> Ticks
    ensures { result ≡ later_of most.0 ticks }
{
    Ticks(ticks.0.saturating_add(1).min(most.0))
}

// Whether a tick that took a wait from one count to another ends the wait for our number.
pub fn wait_ends(number: u8, before: Ticks, after: Ticks) -> bool
    ensures { result ≡ wait_ends number before after }
{
    let wait = number_wait(number);
    before < wait && wait <= after
}

// In joining, the wait for our number runs from the end of the third round.
pub fn waited_then(number: u8, rounds: u8, waited: Ticks) -> Ticks
    ensures { result ≡ waited_then number rounds waited }
{
    if rounds == 3 {
        later(number_wait(number), waited)
    } else {
        waited
    }
}
