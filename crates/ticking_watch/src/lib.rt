// The time that a station's watch runs for.
#![tactic(auto)]

ghost use Rattle.std.specs.Prelude.{◌≡◌};
ghost use Rattle.station.specs.Rules.Ticking.{watch_time};

use station::Station;
use units::Milliseconds;

pub fn watch_time(station: Station) -> Milliseconds
    ensures { result ≡ watch_time station }
{
    let own = station.own;
    let members = station.members;
    let held = state_tests::holds(station);
    let entry = members::entry_of(members, station.view);
    waits_watch::watch_time(held, entry.listed, own.watch, entry.watch)
}
