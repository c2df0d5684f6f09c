// The state of a station that is off, and at the beginning of a phase with an empty list.
#![tactic(auto)]

ghost use Rattle.std.specs.Prelude.{◌≡◌};
ghost use Rattle.station.specs.Rules.State.{fresh as fresh_of, stopped as stopped_of, never as never_of};
ghost use Rattle.station.specs.declared.Phase.TheVariants.{Off};
ghost use Rattle.frame_writing.specs.Writing.{no_areas, no_watch};

use state_parts::{no_areas, nothing};
use station::{Phase, Settings, Station};
use units::{Milliseconds, Ticks};

// A phase that begins with an empty list.
pub fn fresh(phase: Phase, own: Settings) -> Station
    ensures { result ≡ fresh_of phase own }
{
    let members = members::no_members();
    let gathering = nothing();
    let panel = panel::blank();
    Station {
        phase,
        own,
        members,
        elapsed: Ticks(0),
        waited: Ticks(0),
        rounds: 0,
        sent: false,
        view: 0,
        block: 0,
        gathering,
        panel,
    }
}

// Off, with nothing left but a number.
fn off(number: u8) -> Station
    ensures { result ≡ fresh_of Off (record { number = number; areas = no_areas; watch = no_watch }) }
{
    let areas = no_areas();
    let own = Settings {
        number,
        areas,
        watch: Milliseconds(0),
    };
    fresh(Phase::Off, own)
}

pub fn stopped(station: Station) -> Station
    ensures { result ≡ stopped_of station }
{
    let own = station.own;
    off(own.number)
}

pub fn never() -> Station
    ensures { result ≡ never_of }
{
    off(0)
}
