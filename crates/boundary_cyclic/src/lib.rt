// The answer to a cyclic frame as numbers, for C.
#![tactic(auto)]

ghost use Rattle.std.specs.Prelude.{◌≡◌};
ghost use Rattle.boundary_answers.specs.Numbers.{cyclic_answer};
ghost use Rattle.station.specs.Rules.Answers.{data_number, token_number, data_of};

use boundary_answers::{Answer, NO_FRAME};
use station::{Data, Token};

fn data_number(outcome: Data) -> u8
    ensures { result ≡ data_number outcome }
{
    match outcome {
        Data::Kept => 0,
        Data::Written => 1,
        Data::Dropped => 2,
        Data::Repeat => 3,
    }
}

fn token_number(token: Token) -> u8
    ensures { result ≡ token_number token }
{
    match token {
        Token::None(_) => 0,
        Token::PassedOn(_) => 1,
        Token::OursNow(_) => 2,
        Token::RivalPassedOver(_) => 3,
        Token::RivalWon(_) => 4,
    }
}

fn data_of(token: Token) -> Data
    ensures { result ≡ data_of token }
{
    match token {
        Token::None(outcome) => outcome,
        Token::PassedOn(outcome) => outcome,
        Token::OursNow(outcome) => outcome,
        Token::RivalPassedOver(outcome) => outcome,
        Token::RivalWon(outcome) => outcome,
    }
}

pub fn cyclic(token: Token) -> Answer
    ensures { result ≡ cyclic_answer token }
{
    let outcome = data_of(token);
    Answer {
        word: 2,
        refusal: 0,
        token: token_number(token),
        outcome: data_number(outcome),
        frame: NO_FRAME,
        octets: 0,
    }
}
