// What a frame does before we participate, and a request at a participant.
#![tactic(auto)]

ghost use Rattle.std.specs.Prelude.{◌≡◌};
ghost use Rattle.laws.specs.Usual.{cond, ltb};
ghost use Rattle.members.specs.Listing.{listing};
ghost use Rattle.station.specs.Rules.Hearing.{requested, enters};
ghost use Rattle.station.specs.Rules.Starting.{joined_by};
ghost use Rattle.station.specs.Rules.State.{fresh, relisted};
ghost use Rattle.station.specs.declared.Phase.TheVariants as phases;
ghost use Rattle.frame_writing.specs.Writing.{no_areas};

use frame::{Code, Fields};
use members::Members;
use station::{Gathering, Phase, Station};

fn relist(station: Station, members: Members, gathering: Gathering) -> Station
    ensures { result ≡ relisted station members gathering }
{
    Station {
        members,
        gathering,
        ..station
    }
}

// A request that is listed.
fn request(station: Station, frame: Fields) -> Station
    ensures { result ≡ requested station frame }
{
    let members = station.members;
    let gathering = station.gathering;
    let areas = frame.areas;
    let watch = frame.watch;
    let ours = falling_due::ours_due(station);
    let listed = members_listing::list(members, frame.source, areas, watch, ours);
    relist(
        station,
        listed,
        state_parts::without(frame.source, gathering),
    )
}

// "Joining learns source, areas and watch time from cyclic frames for three rounds."
fn learn(station: Station, frame: Fields) -> Members
    ensures { result ≡ cond (ltb station.rounds 3) (listing station.members frame.source frame.areas frame.watch no_areas) station.members }
{
    let members = station.members;
    let areas = frame.areas;
    let watch = frame.watch;
    if station.rounds < 3 {
        members_listing::list(members, frame.source, areas, watch, state_parts::no_areas())
    } else {
        members
    }
}

fn join(station: Station, frame: Fields) -> Station
    ensures { result ≡ joined_by station frame }
{
    let members = learn(station, frame);
    let before = station.elapsed;
    let elapsed = hearing_joining::elapsed_after(before, frame);
    let rounds = hearing_joining::rounds_after(station.rounds, frame);
    let view = hearing_joining::destination_after(station.view, frame);
    Station {
        phase: Phase::Joining,
        members,
        elapsed,
        rounds,
        sent: false,
        view,
        block: 0,
        ..station
    }
}

// The first frame read in joining, which begins with an empty list.
fn begin_joining(station: Station, frame: Fields) -> Station
    ensures { result ≡ joined_by (fresh phases.Joining station.own) frame }
{
    let own = station.own;
    join(phases::fresh(Phase::Joining, own), frame)
}

fn listening_hears(station: Station, frame: Fields) -> Station
    ensures { result ≡ enters phases.Listening frame.code station frame }
{
    let code = frame.code;
    let own = station.own;
    match code {
        Code::Token => begin_joining(station, frame),
        Code::Cyclic => station,
        Code::Request => station,
        Code::Trigger => phases::fresh(Phase::Startup, own),
    }
}

fn startup_hears(station: Station, frame: Fields) -> Station
    ensures { result ≡ enters phases.Startup frame.code station frame }
{
    let code = frame.code;
    match code {
        Code::Token => begin_joining(station, frame),
        Code::Cyclic => station,
        Code::Request => request(station, frame),
        Code::Trigger => station,
    }
}

fn joining_hears(station: Station, frame: Fields) -> Station
    ensures { result ≡ enters phases.Joining frame.code station frame }
{
    let code = frame.code;
    match code {
        Code::Token => join(station, frame),
        Code::Cyclic => join(station, frame),
        Code::Request => station,
        Code::Trigger => station,
    }
}

// A participant takes cyclic frames otherwise: here only a request changes it.
fn member_hears(station: Station, frame: Fields) -> Station
    ensures { result ≡ enters phases.Participating frame.code station frame }
{
    let code = frame.code;
    match code {
        Code::Token => station,
        Code::Cyclic => station,
        Code::Request => request(station, frame),
        Code::Trigger => station,
    }
}

pub fn enter(station: Station, frame: Fields) -> Station
    ensures { result ≡ enters station.phase frame.code station frame }
{
    let phase = station.phase;
    match phase {
        Phase::Off => station,
        Phase::Listening => listening_hears(station, frame),
        Phase::Startup => startup_hears(station, frame),
        Phase::Joining => joining_hears(station, frame),
        Phase::Participating => member_hears(station, frame),
    }
}
