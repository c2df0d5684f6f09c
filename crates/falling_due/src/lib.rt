// When our trigger and our request are due, and what of our areas then.
#![tactic(auto)]

ghost use Rattle.std.specs.Prelude.{◌≡◌};
ghost use Rattle.station.specs.Rules.Starting.{trigger_due, request_fallen, ours_due, own_due};

use area::Areas;
use members::Members;
use station::{Phase, Settings, Station};

pub fn trigger_due(station: Station) -> bool
    ensures { result ≡ trigger_due station }
{
    let own = station.own;
    let elapsed = station.elapsed;
    let wait = waits_lengths::listening_time(own.number);
    wait.0 <= elapsed.0
}

// Whether our request has fallen due.
pub fn request_fallen(station: Station) -> bool
    ensures { result ≡ request_fallen station.phase station }
{
    let phase = station.phase;
    let own = station.own;
    let elapsed = station.elapsed;
    let waited = station.waited;
    let wait = waits_lengths::number_wait(own.number);
    match phase {
        Phase::Off => false,
        Phase::Listening => false,
        Phase::Startup => wait.0 <= elapsed.0,
        Phase::Joining => (station.rounds == 3) & (wait.0 <= waited.0),
        Phase::Participating => true,
    }
}

// Our areas once our request has fallen due, else areas that overlap nothing.
pub fn ours_due(station: Station) -> Areas
    ensures { result ≡ ours_due station }
{
    let own = station.own;
    if request_fallen(station) {
        own.areas
    } else {
        state_parts::no_areas()
    }
}

// Our settings when our request falls due: with both sizes 0 where our areas overlap a listed one.
pub fn own_due(own: Settings, members: Members) -> Settings
    ensures { result ≡ own_due own members }
{
    let areas = own.areas;
    if members_listing::overlaps_listed(members, areas) {
        let areas = members_listing::bare(areas);
        return Settings { areas, ..own };
    }
    own
}
