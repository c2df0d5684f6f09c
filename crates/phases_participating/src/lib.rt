// A station that participates: its beginning, the restart of its watch, and what its panel shows.
#![tactic(auto)]

ghost use Rattle.std.specs.Prelude.{◌≡◌};
ghost use Rattle.laws.specs.Usual.{cond};
ghost use Rattle.panel.specs.Panel.{figure_of};
ghost use Rattle.panel.specs.declared.Figure.TheVariants.{Nothing};
ghost use Rattle.station.specs.Rules.Showing.{figure_shown};
ghost use Rattle.station.specs.Rules.State.{is_participating, begun};
ghost use Rattle.station.specs.Rules.Token.{restarted};

use members::Members;
use panel::{Figure, Panel};
use state_parts::{nothing, place_kept, taken_if};
use state_tests::{is_participating, takes};
use station::{Gathering, Phase, Settings, Station};
use units::Ticks;

// A participant whose watch restarts, with another list, view and gathering.
pub fn restart(
    station: Station,
    members: Members,
    view: u8,
    gathering: Gathering,
    panel: Panel,
) -> Station
    ensures { result ≡ restarted station members view gathering panel }
{
    let own = station.own;
    let waited = station.waited;
    let number = own.number;
    let block = place_kept(view, number, station.block);
    let elapsed = Ticks(0);
    let panel = taken_if(takes(number, station.view, view), panel);
    Station {
        phase: Phase::Participating,
        own,
        members,
        elapsed,
        waited,
        rounds: station.rounds,
        sent: station.sent,
        view,
        block,
        gathering,
        panel,
    }
}

// We begin to participate.
pub fn begin(own: Settings, members: Members, view: u8) -> Station
    ensures { result ≡ begun own members view }
{
    let gathering = nothing();
    let panel = taken_if(view == own.number, panel::blank());
    Station {
        phase: Phase::Participating,
        own,
        members,
        elapsed: Ticks(0),
        waited: Ticks(0),
        rounds: 0,
        sent: false,
        view,
        block: 0,
        gathering,
        panel,
    }
}

// What the panel shows in a phase.
pub fn figure_in(phase: Phase, panel: Panel) -> Figure
    ensures { result ≡ cond (is_participating phase) (figure_of panel) Nothing }
{
    if is_participating(phase) {
        panel::figure_of(panel)
    } else {
        Figure::Nothing
    }
}

pub fn show(station: Station) -> Figure
    ensures { result ≡ figure_shown station }
{
    let phase = station.phase;
    let panel = station.panel;
    figure_in(phase, panel)
}
