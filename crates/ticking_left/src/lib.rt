// The ticks before the next end of a wait or of the watch.
#![tactic(auto)]

ghost use Rattle.std.specs.Prelude.{◌≡◌, ◌&&◌};
ghost use Rattle.laws.specs.Usual.{not, eqb};
ghost use Rattle.station.specs.Rules.Waits.{detection_wait, acceptance_time, number_wait};
ghost use Rattle.ticking_quiet.specs.Quiet.{before as before_of, before_request, runs as runs_of, left_in};

use station::Phase;
use units::{Milliseconds, Ticks};

// The ticks that come before the one in which a wait ends.
fn before(wait: Ticks, elapsed: Ticks) -> u32
    ensures { result ≡ before_of wait.0 elapsed.0 }
{
    wait.0.saturating_sub(elapsed.0).saturating_sub(1)
}

// A flag beside a count, and no Option: so the definition has it, and a test and its count are worked out apart.
fn before_request(awaited: bool, request: u32, ticks: u32) -> u32
    ensures { result ≡ before_request awaited request ticks }
{
    if awaited { ticks.min(request) } else { ticks }
}

fn runs(number: u8, count: Ticks) -> bool
    ensures { result ≡ runs_of number count }
{
    count < waits_lengths::number_wait(number)
}

fn startup_left(number: u8, sent: bool, elapsed: Ticks) -> u32
    ensures { result ≡ before_request (not sent && runs_of number elapsed) (before_of (number_wait number) elapsed.0) (before_of acceptance_time elapsed.0) }
{
    let awaited = !sent & runs(number, elapsed);
    let request = before(waits_lengths::number_wait(number), elapsed);
    before_request(
        awaited,
        request,
        before(waits_lengths::acceptance_time(), elapsed),
    )
}

fn joining_left(number: u8, rounds: u8, elapsed: Ticks, waited: Ticks) -> u32
    ensures { result ≡ before_request (eqb rounds 3 && runs_of number waited) (before_of (number_wait number) waited.0) (before_of detection_wait elapsed.0) }
{
    let awaited = (rounds == 3) & runs(number, waited);
    let request = before(waits_lengths::number_wait(number), waited);
    before_request(
        awaited,
        request,
        before(waits_lengths::detection_wait(), elapsed),
    )
}

// The ticks before the next end in a phase, where the watch runs for a time.
pub fn left_in(
    phase: Phase,
    number: u8,
    time: Milliseconds,
    sent: bool,
    rounds: u8,
    elapsed: Ticks,
    waited: Ticks,
) -> u32
    ensures { result ≡ left_in phase number time sent rounds elapsed waited }
{
    match phase {
        Phase::Off => 0,
        Phase::Listening => before(waits_lengths::listening_time(number), elapsed),
        Phase::Startup => startup_left(number, sent, elapsed),
        Phase::Joining => joining_left(number, rounds, elapsed, waited),
        Phase::Participating => before(waits_watch::watch_ticks(time), elapsed),
    }
}
