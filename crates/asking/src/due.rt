// When a frame is due.
ghost use Rattle.std.specs.Prelude.{◌≡◌};
ghost use Rattle.station.specs.Rules.Asking.{due_in};

use station::{Phase, Station};

pub fn is_due(station: Station) -> bool
    ensures { result ≡ due_in station.phase station }
{
    let phase = station.phase;
    let own = station.own;
    match phase {
        Phase::Off => false,
        Phase::Listening => falling_due::trigger_due(station),
        Phase::Startup => falling_due::request_fallen(station) & !station.sent,
        Phase::Joining => falling_due::request_fallen(station),
        Phase::Participating => state_tests::holds(station)
            & asking_placing::is_placed(own, station.block),
    }
}
