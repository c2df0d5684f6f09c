// When the cycle lets a message go, and the number that a message gets when it first goes.
#![tactic(auto)]

ghost use Rattle.std.specs.Prelude.{◌≡◌};
ghost use Rattle.message_rules.specs.Rules.Again.{number_after};
ghost use Rattle.message_rules.specs.Rules.Cycle.{cycle_lets};

use message::Cycle;
use units::Ticks;

// "With the cycle .. at most nine tenths of the allowed one .., a message goes. Above that and below the allowed one, it goes only if none went last
// turn." In 64 bits, ten times a cycle always fits.
pub fn lets(cycle: Ticks, allowed: Cycle, went_last: bool) -> bool
    ensures { result ≡ cycle_lets cycle.0 allowed.0 went_last }
{
    let ticks = u64::from(cycle.0);
    let most = u64::from(allowed.0);
    ticks < most && (10 * ticks <= 9 * most || !went_last)
}

// From 1, and 1 after the largest: 0 is no number.
pub fn number_after(last: u32) -> u32
    ensures { result ≡ number_after last }
{
    last.checked_add(1).unwrap_or(1)
}
