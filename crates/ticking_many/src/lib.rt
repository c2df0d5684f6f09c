// Many ticks in one call.
#![tactic(auto)]

ghost use Rattle.std.specs.Prelude.{◌≡◌, ◌-◌, ◌≤◌};
ghost use Rattle.ticking_quiet.specs.Many.{after_ticks, ticks_of};
ghost use Rattle.ticking_jump.specs.Jump.{is_alone};

use station::{Answered, Station, Ticked};
use ticking_calm::Counts;

// A station, and the ticks that are still to come.
#[derive(Clone, Copy)]
struct Left {
    station: Station,
    ticks: u32,
}

// A participant that holds and is alone, which the ends of its watch leave so.
fn is_alone(station: Station) -> bool
    ensures { result ≡ is_alone station }
{
    let phase = station.phase;
    let own = station.own;
    let members = station.members;
    let number = own.number;
    if !(state_tests::is_participating(phase) & state_tests::holds(station)) {
        return false;
    }
    let next = members_searching::next_after(number, members, number);
    (next == number) & !members::is_listed(members, number)
}

// Some of the next `count` ticks jumped over: those that only count, or all of a station that holds and is alone, which go round its watch.
fn jump(station: Station, count: u32) -> Left
    ensures ticks_le_count { result.ticks ≤ count }
    ensures station_value { result.station ≡ after_ticks (count - result.ticks) station }
{
    let phase = station.phase;
    let own = station.own;
    let before = station.elapsed;
    let since = station.waited;
    let counter = station.panel;
    let counts = Counts {
        elapsed: before,
        waited: since,
        panel: counter,
    };
    let alone = is_alone(station);
    let time = ticking_watch::watch_time(station);
    let rounds = station.rounds;
    let jumped = ticking_jump::jump(alone, phase, own.number, time, rounds, counts, count);
    let after = jumped.counts;
    let elapsed = after.elapsed;
    let waited = after.waited;
    let panel = after.panel;
    Left {
        station: Station {
            elapsed,
            waited,
            panel,
            ..station
        },
        ticks: jumped.ticks,
    }
}

// So many ticks one after the other: those that only count are jumped over.
pub fn ticks(station: Station, count: u32) -> Answered<Ticked>
    ensures station_value { result.station ≡ (ticks_of count station).station }
    ensures answer_value { result.answer ≡ (ticks_of count station).answer }
{
    let phase = station.phase;
    let answer = ticking_answer::answer_in(phase);
    let mut after = station;
    let mut left = count;
    // No `for`: how many ticks a step jumps over the step itself tells.
    while 0 < left {
        let jumped = jump(after, left - 1);
        let before = jumped.station;
        let ticking = ticking::tick(before);
        after = ticking.station;
        left = jumped.ticks;
    }
    Answered {
        station: after,
        answer,
    }
}
