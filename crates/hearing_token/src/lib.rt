// What a frame does to the token view, and what is answered to it.
#![tactic(auto)]

ghost use Rattle.std.specs.Prelude.{◌≡◌};
ghost use Rattle.hearing_token.specs.Parts.{outcome_by};
ghost use Rattle.station.specs.Rules.Hearing.{enters_answer};
ghost use Rattle.station.specs.Rules.Token.{view_after, view_heard};

use frame::{Code, Fields};
use station::{Data, Heard, Phase, Token};

// "if the source is our view, the view becomes the destination. Otherwise the view becomes the smaller of view and destination."
fn view_after(view: u8, source: u8, destination: u8) -> u8
    ensures { result ≡ view_after view source destination }
{
    if source == view {
        return destination;
    }
    view.min(destination)
}

pub fn view_heard(view: u8, frame: Fields) -> u8
    ensures { result ≡ view_heard view frame }
{
    if frame::is_token(frame.code) {
        view_after(view, frame.source, frame.destination)
    } else {
        view
    }
}

// The answer of a participant with its own number and its view before.
pub fn outcome_of(own: u8, before: u8, frame: Fields, outcome: Data) -> Token
    ensures { result ≡ outcome_by own before frame outcome }
{
    let after = view_heard(before, frame);
    if !frame::is_token(frame.code) {
        return Token::None(outcome);
    }
    if state_tests::takes(own, before, after) {
        return Token::OursNow(outcome);
    }
    if frame.source == before {
        return Token::PassedOn(outcome);
    }
    if after != before {
        return Token::RivalWon(outcome);
    }
    Token::RivalPassedOver(outcome)
}

// The answer to a frame that is not a cyclic one heard by a participant.
pub fn answer(phase: Phase, code: Code) -> Heard
    ensures { result ≡ enters_answer phase code }
{
    if state_tests::is_off(phase) {
        return Heard::Off;
    }
    if frame::is_cyclic(code) {
        return Heard::Cyclic(Token::None(Data::Dropped));
    }
    Heard::Done
}
