// How many ticks are quiet, by the core and two of the list's arrays.
#![tactic(auto)]

ghost use Rattle.std.specs.Prelude.{◌≡◌};
ghost use Rattle.laws.specs.Usual.{cond, List, ℕ};
ghost use Rattle.boundary_core.specs.Crossing.{station_in};
ghost use Rattle.ticking_quiet.specs.Quiet.{never, till, quiet_of};
ghost use Rattle.boundary_quiet.specs.Numbers.{quiet_numbers};

use boundary_core::Core;
use station::Phase;

// Whether news ever comes with no call between, and the ticks that come before the one that brings it. A flag and no Option: C reads both.
#[repr(C)]
#[derive(Clone, Copy)]
pub struct Quiet {
    pub ends: bool,
    pub ticks: u32,
}

// The ticks that are left, unless none of them brings news.
fn unless(stays: bool, ticks: u32) -> Quiet
    ensures { result ≡ quiet_numbers (cond stays never (till ticks)) }
{
    if stays {
        return Quiet {
            ends: false,
            ticks: 0,
        };
    }
    Quiet { ends: true, ticks }
}

// Of the list only the flags and the watch times matter.
pub fn quiet_ticks(core: Core, listed: &[bool; 256], watch: &[u8; 256]) -> Quiet
    ensures { (areas misses : List ℕ) → result ≡ quiet_numbers (quiet_of (station_in core listed.now areas watch.now misses)) }
{
    let phase = core.phase;
    let elapsed = core.elapsed;
    let waited = core.waited;
    let number = core.own.number;
    let view = core.view;
    let time = boundary_watch::watch_time(core, listed, watch);
    let left = ticking_left::left_in(phase, number, time, core.sent, core.rounds, elapsed, waited);
    match phase {
        Phase::Off => unless(true, left),
        Phase::Listening => unless(waits_lengths::listening_time(number).0 <= elapsed.0, left),
        Phase::Startup => unless(false, left),
        Phase::Joining => unless(false, left),
        Phase::Participating => unless(
            boundary_next::next_after(number, listed, view) == view,
            left,
        ),
    }
}
