// Many ticks in one call: on the core alone where they only count, else jumped over or made with the list in place.
#![tactic(auto)]

ghost use Rattle.std.specs.Prelude.{◌≡◌, ◌-◌, ◌≤◌};
ghost use Rattle.laws.specs.Usual.{List, ℕ};
ghost use Rattle.boundary_answers.specs.Numbers.{ticked_answer};
ghost use Rattle.boundary_core.specs.Crossing.{core_of, station_in};
ghost use Rattle.boundary_lists.specs.Lists.{members_in};
ghost use Rattle.ticking_quiet.specs.Many.{after_ticks, ticks_of};
ghost use Rattle.boundary_many_ticks.specs.Calm.{counts_in, recounted, is_calm, calm_core};
ghost use Rattle.boundary_many_ticks.specs.Jump.{alone_in};

use boundary_core::{Core, Outcome};
use boundary_numbers::ticked_answer;
use boundary_watch::watch_time;
use ticking_calm::Counts;
use units::Milliseconds;

// A core, and the ticks that are still to come.
#[derive(Clone, Copy)]
struct Left {
    core: Core,
    ticks: u32,
}

fn counts_in(core: Core) -> Counts
    ensures { result ≡ counts_in core }
{
    let elapsed = core.elapsed;
    let waited = core.waited;
    let panel = core.panel;
    Counts {
        elapsed,
        waited,
        panel,
    }
}

fn with_counts(core: Core, counts: Counts) -> Core
    ensures { result ≡ recounted core counts }
{
    let elapsed = counts.elapsed;
    let waited = counts.waited;
    let panel = counts.panel;
    Core {
        elapsed,
        waited,
        panel,
        ..core
    }
}

// All of the next `count` ticks only count, where the watch runs for a time.
fn is_calm(core: Core, time: Milliseconds, count: u32) -> bool
    ensures { result ≡ is_calm core time count }
{
    let elapsed = core.elapsed;
    let waited = core.waited;
    let calm = ticking_calm::calm_in(
        core.phase,
        core.own.number,
        time,
        core.rounds,
        elapsed,
        waited,
        count,
    );
    calm == count
}

// The core after so many ticks that only count.
fn count_on(core: Core, count: u32) -> Core
    ensures { result ≡ calm_core count core }
{
    let number = core.own.number;
    let counts = ticking_calm::counts_after(
        core.phase,
        number,
        core.rounds,
        count,
        counts_in(core),
    );
    with_counts(core, counts)
}

// A participant that holds and is alone: of the list only the flags matter.
fn is_alone(core: Core, listed: &[bool; 256]) -> bool
    ensures { result ≡ alone_in core listed.now }
{
    let number = core.own.number;
    if !(state_tests::is_participating(core.phase) & (core.view == number)) {
        return false;
    }
    let next = boundary_next::next_after(number, listed, number);
    (next == number) & !boundary_lists::is_listed(listed, number)
}

// Some of the next `count` ticks jumped over, which leaves the list as it is.
fn jump(core: Core, listed: &[bool; 256], watch: &[u8; 256], count: u32) -> Left
    ensures ticks_le_count { result.ticks ≤ count }
    ensures by_index { (areas misses : List ℕ) → station_in result.core listed.now areas watch.now misses ≡ after_ticks (count - result.ticks) (station_in core listed.now areas watch.now misses) }
{
    let number = core.own.number;
    let rounds = core.rounds;
    let phase = core.phase;
    let alone = is_alone(core, listed);
    let time = watch_time(core, listed, watch);
    let counts = counts_in(core);
    let jumped = ticking_jump::jump(alone, phase, number, time, rounds, counts, count);
    let after = jumped.counts;
    Left {
        core: with_counts(core, after),
        ticks: jumped.ticks,
    }
}

// Jumps over some ticks and makes the next, until those that are left only count.
pub fn ticks(
    core: Core,
    listed: &mut [bool; 256],
    areas: &mut [u16; boundary_lists::AREA_NUMBERS],
    watch: &mut [u8; 256],
    misses: &mut [u8; 256],
    count: u32,
) -> Outcome
    ensures core_value { result.core ≡ core_of (ticks_of count (station_in core listed.old areas.old watch.old misses.old)).station }
    ensures answer_value { result.answer ≡ ticked_answer (ticks_of count (station_in core listed.old areas.old watch.old misses.old)).answer }
    ensures misses_after { members_in listed.new areas.new watch.new misses.new ≡ (ticks_of count (station_in core listed.old areas.old watch.old misses.old)).station.members }
{
    let mut after = core;
    let mut left = count;
    // No `for`: how many ticks a turn makes the turn itself tells.
    while !is_calm(after, watch_time(after, listed, watch), left) {
        let jumped = jump(after, listed, watch, left - 1);
        let before = jumped.core;
        let outcome = boundary_counting::tick(before, listed, areas, watch, misses);
        after = outcome.core;
        left = jumped.ticks;
    }
    Outcome {
        core: count_on(after, left),
        answer: ticked_answer(ticking_answer::answer_in(core.phase)),
    }
}
