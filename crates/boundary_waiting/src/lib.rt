// The ticks of a station that does not participate yet, on its core alone, where they only count.
#![tactic(auto)]

ghost use Rattle.std.specs.Prelude.{◌≡◌};
ghost use Rattle.laws.specs.Usual.{cond};
ghost use Rattle.boundary_core.specs.Crossing.{is_in};
ghost use Rattle.station.specs.declared.Phase.TheVariants.{Joining};
ghost use Rattle.boundary_waiting.specs.Waiting.{limit_of, waited_joining, startup_ends, joining_ends, is_waiting, waited_core};

use boundary_core::Core;
use station::Phase;
use units::Ticks;

// What the phase's ticks are counted up to.
fn limit(phase: Phase, number: u8) -> Ticks
    ensures { result.0 ≡ limit_of phase number }
{
    match phase {
        Phase::Listening => waits_lengths::listening_time(number),
        Phase::Startup => waits_lengths::acceptance_time(),
        Phase::Off | Phase::Joining | Phase::Participating => waits_lengths::detection_wait(),
    }
}

fn startup_ends(core: Core) -> bool
    ensures { result ≡ startup_ends core }
{
    let number = core.own.number;
    let before = core.elapsed;
    let time = waits_lengths::acceptance_time();
    let after = waits::later(time, before);
    (time.0 <= after.0) | waits::wait_ends(number, before, after)
}

fn joining_ends(core: Core) -> bool
    ensures { result ≡ joining_ends core }
{
    let number = core.own.number;
    let elapsed = core.elapsed;
    let waited = core.waited;
    let time = waits_lengths::detection_wait();
    let after = waits::later(time, elapsed);
    (time.0 <= after.0)
        | waits::wait_ends(
            number,
            waited,
            waits::waited_then(number, core.rounds, waited),
        )
}

// Whether the next tick only counts.
pub fn is_waiting(core: Core) -> bool
    ensures { result ≡ is_waiting core }
{
    core.is_in(Phase::Listening)
        | ((core.is_in(Phase::Startup) & !startup_ends(core))
            | (core.is_in(Phase::Joining) & !joining_ends(core)))
}

fn waited_by(core: Core) -> Ticks
    ensures { result ≡ cond (is_in Joining core) (waited_joining core) core.waited }
{
    let number = core.own.number;
    let waited = core.waited;
    if core.is_in(Phase::Joining) {
        waits::waited_then(number, core.rounds, waited)
    } else {
        waited
    }
}

// The core after a tick that only counts.
pub fn count(core: Core) -> Core
    ensures { result ≡ waited_core core }
{
    let number = core.own.number;
    let before = core.elapsed;
    let elapsed = waits::later(limit(core.phase, number), before);
    let waited = waited_by(core);
    Core {
        elapsed,
        waited,
        ..core
    }
}
