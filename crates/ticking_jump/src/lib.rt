// Ticks jumped over at once, on the counts of a station alone.
#![tactic(auto)]

ghost use Rattle.std.specs.Prelude.{◌≡◌, ◌<◌};
ghost use Rattle.station.specs.Rules.Waits.{watch_ticks};
ghost use Rattle.ticking_jump.specs.Jump.{skipped, round_after, jump_in};

use station::Phase;
use ticking_calm::Counts;
use units::{Milliseconds, Ticks};

// The counts after the ticks that were jumped over, and the ticks that are still to come.
#[derive(Clone, Copy)]
pub struct Jumped {
    pub counts: Counts,
    pub ticks: u32,
}

// The next ticks that only count, `count` at most.
fn skip(
    phase: Phase,
    number: u8,
    time: Milliseconds,
    rounds: u8,
    counts: Counts,
    count: u32,
) -> Jumped
    ensures { result ≡ skipped phase number time rounds counts count }
{
    let elapsed = counts.elapsed;
    let waited = counts.waited;
    let calm = ticking_calm::calm_in(phase, number, time, rounds, elapsed, waited, count);
    let after = ticking_calm::counts_after(phase, number, rounds, calm, counts);
    let ticks = count - calm;
    Jumped {
        counts: after,
        ticks,
    }
}

// Ticks around the watch.
fn go_round(time: Milliseconds, counts: Counts, count: u32) -> Counts
    requires { counts.elapsed.0 < watch_ticks time }
    ensures { result ≡ round_after time counts count }
{
    let before = counts.elapsed;
    let watch = waits_watch::watch_ticks(time);
    let place = (before.0 as u64 + count as u64) % watch.0 as u64;
    let after = ticking_calm::counts_after(Phase::Participating, 0, 0, count, counts);
    let elapsed = Ticks(place as u32);
    Counts { elapsed, ..after }
}

// Some of the next `count` ticks: those that only count, or all of a station that holds and is alone.
pub fn jump(
    alone: bool,
    phase: Phase,
    number: u8,
    time: Milliseconds,
    rounds: u8,
    counts: Counts,
    count: u32,
) -> Jumped
    ensures { result ≡ jump_in alone phase number time rounds counts count }
{
    let elapsed = counts.elapsed;
    let watch = waits_watch::watch_ticks(time);
    if alone & (elapsed.0 < watch.0) {
        return Jumped {
            counts: go_round(time, counts, count),
            ticks: 0,
        };
    }
    skip(phase, number, time, rounds, counts, count)
}
