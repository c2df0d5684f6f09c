// A tick.
#![tactic(auto)]

ghost use Rattle.std.specs.Prelude.{◌≡◌, ◌&&◌};
ghost use Rattle.laws.specs.Usual.{cond};
ghost use Rattle.members.specs.Members.{numbers_of, is_listed, strikes};
ghost use Rattle.station.specs.Rules.Data.{without as without_of};
ghost use Rattle.station.specs.Rules.Starting.{started_up};
ghost use Rattle.station.specs.Rules.State.{counted};
ghost use Rattle.station.specs.Rules.Ticking.{falls_due, startup_tick, joining_tick, watch_ended, participant_tick, ticked_by, tick_of};
ghost use Rattle.station.specs.declared.Phase.TheVariants as phases;

use members::Members;
use panel::Panel;
use station::{Answered, Gathering, Phase, Settings, Station, Ticked};
use units::Ticks;
use waits::{wait_ends, waited_then};
use waits_watch::watch_ends;

// A station with its counts of ticks, its own settings and its panel changed.
fn count(station: Station, own: Settings, elapsed: Ticks, waited: Ticks, panel: Panel) -> Station
    ensures { result ≡ counted station own elapsed waited panel }
{
    Station {
        own,
        elapsed,
        waited,
        panel,
        ..station
    }
}

// Our settings after a tick that took a wait from one count to another.
fn falls_due(station: Station, before: Ticks, after: Ticks) -> Settings
    ensures { result ≡ falls_due station before after }
{
    let own = station.own;
    let members = station.members;
    if wait_ends(own.number, before, after) {
        falling_due::own_due(own, members)
    } else {
        own
    }
}

// The acceptance time has ended.
fn start_up(own: Settings, members: Members) -> Station
    ensures { result ≡ started_up own members (numbers_of members) }
{
    if members_searching::is_empty(members) {
        return phases::fresh(Phase::Listening, own);
    }
    let smallest = members_searching::smallest(own.number, members);
    phases_participating::begin(own, members, smallest)
}

fn startup_tick(station: Station, elapsed: Ticks) -> Station
    ensures { result ≡ startup_tick station elapsed }
{
    let own = station.own;
    let members = station.members;
    let limit = waits_lengths::acceptance_time();
    if limit.0 <= elapsed.0 {
        return start_up(own, members);
    }
    let before = station.elapsed;
    let due = falls_due(station, before, elapsed);
    let waited = station.waited;
    let panel = station.panel;
    count(station, due, elapsed, waited, panel)
}

fn joining_tick(station: Station, elapsed: Ticks) -> Station
    ensures { result ≡ joining_tick station elapsed }
{
    let own = station.own;
    let limit = waits_lengths::detection_wait();
    if limit.0 <= elapsed.0 {
        return phases::fresh(Phase::Listening, own);
    }
    let before = station.waited;
    let after = waited_then(own.number, station.rounds, before);
    let due = falls_due(station, before, after);
    let panel = station.panel;
    count(station, due, elapsed, after, panel)
}

// What is left of a gathering when the station in view gets a miss: a station that is struck loses what was gathered from it.
fn left(station: Station) -> Gathering
    ensures { result ≡ cond (is_listed station.members station.view && strikes station.members station.view) (without_of station.view station.gathering) station.gathering }
{
    let members = station.members;
    let gathering = station.gathering;
    let view = station.view;
    if members::is_listed(members, view) & members_misses::strikes(members, view) {
        state_parts::without(view, gathering)
    } else {
        gathering
    }
}

fn watch_ended(station: Station) -> Station
    ensures { result ≡ watch_ended station }
{
    let own = station.own;
    let members = station.members;
    let view = station.view;
    let panel = station.panel;
    let next = members_searching::next_after(own.number, members, view);
    let gathering = left(station);
    phases_participating::restart(
        station,
        members_misses::miss(members, view),
        next,
        gathering,
        panel::tick(panel),
    )
}

fn participant_tick(station: Station, elapsed: Ticks) -> Station
    ensures { result ≡ participant_tick station elapsed }
{
    let own = station.own;
    let before = station.elapsed;
    if watch_ends(ticking_watch::watch_time(station), before) {
        return watch_ended(station);
    }
    let waited = station.waited;
    let panel = station.panel;
    count(station, own, elapsed, waited, panel::tick(panel))
}

fn listening_tick(station: Station) -> Station
    ensures { result ≡ ticked_by phases.Listening station }
{
    let own = station.own;
    let before = station.elapsed;
    let waited = station.waited;
    let panel = station.panel;
    let elapsed = waits::later(waits_lengths::listening_time(own.number), before);
    count(station, own, elapsed, waited, panel)
}

fn tick_on(station: Station) -> Station
    ensures { result ≡ ticked_by station.phase station }
{
    let phase = station.phase;
    let elapsed = station.elapsed;
    match phase {
        Phase::Off => station,
        Phase::Listening => listening_tick(station),
        Phase::Startup => startup_tick(
            station,
            waits::later(waits_lengths::acceptance_time(), elapsed),
        ),
        Phase::Joining => joining_tick(
            station,
            waits::later(waits_lengths::detection_wait(), elapsed),
        ),
        Phase::Participating => participant_tick(
            station,
            waits::later(waits_watch::longest_watch(), elapsed),
        ),
    }
}

pub fn tick(station: Station) -> Answered<Ticked>
    ensures station_value { result.station ≡ (tick_of station).station }
    ensures answer_value { result.answer ≡ (tick_of station).answer }
{
    Answered {
        station: tick_on(station),
        answer: ticking_answer::answer_in(station.phase),
    }
}
