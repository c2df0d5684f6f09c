// Ticks that only count, many at once.
#![tactic(auto)]

ghost use Rattle.std.specs.Prelude.{◌≡◌};
ghost use Rattle.laws.specs.Usual.{cond, eqb};
ghost use Rattle.station.specs.Rules.Waits.{number_wait};
ghost use Rattle.ticking_calm.specs.Calm.{calm_in, later_by, ticked_by, counts_after};

use panel::Panel;
use station::Phase;
use ticking_left::left_in;
use units::{Milliseconds, Ticks};

// What a station counts by its ticks.
#[derive(Clone, Copy)]
pub struct Counts {
    pub elapsed: Ticks,
    pub waited: Ticks,
    pub panel: Panel,
}

// How many of the next `count` ticks only count.
pub fn calm_in(
    phase: Phase,
    number: u8,
    time: Milliseconds,
    rounds: u8,
    elapsed: Ticks,
    waited: Ticks,
    count: u32,
) -> u32
    ensures { result ≡ calm_in phase number time rounds elapsed waited count }
{
    let calm = count.min(left_in(phase, number, time, false, rounds, elapsed, waited));
    match phase {
        Phase::Off | Phase::Listening => count,
        Phase::Startup | Phase::Joining | Phase::Participating => calm,
    }
}

// So many ticks more, up to a limit.
#[tactic(auto, using(crate::specs::Sums::later_sum))]
fn later_by(most: Ticks, count: u32, ticks: Ticks) -> Ticks
    ensures { result ≡ later_by most.0 count ticks }
{
    if count == 0 {
        return ticks;
    }
    Ticks(ticks.0.saturating_add(count).min(most.0))
}

#[tactic(auto, using(crate::specs::Sums::ticked_by_lem))]
fn panel_by(count: u32, panel: Panel) -> Panel
    ensures { result ≡ ticked_by count panel }
{
    Panel {
        running: later_by(Ticks(65536), count, panel.running),
        ..panel
    }
}

fn waited_by(number: u8, rounds: u8, count: u32, waited: Ticks) -> Ticks
    ensures { result ≡ cond (eqb rounds 3) (later_by (number_wait number) count waited) waited }
{
    if rounds == 3 {
        later_by(waits_lengths::number_wait(number), count, waited)
    } else {
        waited
    }
}

// The counts after so many ticks that only count.
pub fn counts_after(phase: Phase, number: u8, rounds: u8, count: u32, counts: Counts) -> Counts
    ensures { result ≡ counts_after phase number rounds count counts }
{
    let elapsed = counts.elapsed;
    let waited = counts.waited;
    let panel = counts.panel;
    match phase {
        Phase::Off => counts,
        Phase::Listening => Counts {
            elapsed: later_by(waits_lengths::listening_time(number), count, elapsed),
            waited,
            panel,
        },
        Phase::Startup => Counts {
            elapsed: later_by(waits_lengths::acceptance_time(), count, elapsed),
            waited,
            panel,
        },
        Phase::Joining => Counts {
            elapsed: later_by(waits_lengths::detection_wait(), count, elapsed),
            waited: waited_by(number, rounds, count, waited),
            panel,
        },
        Phase::Participating => Counts {
            elapsed: later_by(waits_watch::longest_watch(), count, elapsed),
            waited,
            panel: panel_by(count, panel),
        },
    }
}
