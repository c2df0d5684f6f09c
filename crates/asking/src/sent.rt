// The state after a frame is sent.
ghost use Rattle.std.specs.Prelude.{◌≡◌};
ghost use Rattle.laws.specs.Usual.{true};
ghost use Rattle.station.specs.Rules.State.{request_sent};
ghost use Rattle.station.specs.Rules.Asking.{is_placed, next_station, block_sent};

use station::{Phase, Station};
use units::Ticks;

pub fn request_sent(station: Station) -> Station
    ensures { result ≡ request_sent station }
{
    Station {
        sent: true,
        ..station
    }
}

pub fn block_sent(station: Station, next: u8) -> Station
    requires station_value { is_placed station ≡ true }
    requires next_value { next ≡ next_station station }
    ensures { result ≡ block_sent station }
{
    let own = station.own;
    let panel = station.panel;
    let after = asking_placing::after_block(own, station.view, station.block, panel, next);
    let panel = after.panel;
    Station {
        phase: Phase::Participating,
        elapsed: Ticks(0),
        view: after.view,
        block: after.block,
        panel,
        ..station
    }
}
