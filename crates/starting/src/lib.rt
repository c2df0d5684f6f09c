// Starting and stopping a station.
#![tactic(auto)]

ghost use Rattle.std.specs.Prelude.{◌≡◌, ◌&&◌};
ghost use Rattle.laws.specs.Usual.{ltb};
ghost use Rattle.frame_reading.specs.Reading.{is_station};
ghost use Rattle.station.specs.Rules.Starting.{start_of, stop_of};
ghost use Rattle.starting.specs.Answers.{start_answer};

use frame::Refusal;
use station::{Answered, Phase, Settings, Station};

// Our own number is a station's, and our watch time is not 0.
fn is_numbered(own: Settings) -> bool
    ensures { result ≡ is_station own.number && ltb 0 own.watch.0 }
{
    frame_reading::is_station(own.number) && 0 < own.watch.0
}

// What a start is answered. The list does not matter to it.
pub fn start_answer(phase: Phase, own: Settings) -> Result<(), Refusal>
    ensures { result ≡ start_answer phase own }
{
    if !state_tests::is_off(phase) {
        return Err(Refusal::NotDue);
    }
    if !is_numbered(own) {
        return Err(Refusal::Address);
    }
    if !area::in_range(own.areas) {
        return Err(Refusal::Area);
    }
    Ok(())
}

pub fn start(station: Station, own: Settings) -> Answered<Result<(), Refusal>>
    ensures station_value { result.station ≡ (start_of station own).station }
    ensures answer_value { result.answer ≡ (start_of station own).answer }
{
    let answer = start_answer(station.phase, own);
    let station = match answer {
        Ok(()) => phases::fresh(Phase::Listening, own),
        Err(_) => station,
    };
    Answered { station, answer }
}

pub fn stop(station: Station) -> Answered<Result<(), Refusal>>
    ensures station_value { result.station ≡ (stop_of station).station }
    ensures answer_value { result.answer ≡ (stop_of station).answer }
{
    if state_tests::is_off(station.phase) {
        return Answered {
            station,
            answer: Err(Refusal::NotDue),
        };
    }
    Answered {
        station: phases::stopped(station),
        answer: Ok(()),
    }
}
