// The answers of a tick and of a hearing as numbers, for C.
#![tactic(auto)]

ghost use Rattle.std.specs.Prelude.{◌≡◌};
ghost use Rattle.boundary_answers.specs.Numbers.{ticked_answer, heard_answer};

use boundary_answers::{Answer, done, off, refused};
use boundary_cyclic::cyclic;
use station::{Heard, Ticked};

pub fn ticked_answer(answer: Ticked) -> Answer
    ensures { result ≡ ticked_answer answer }
{
    match answer {
        Ticked::Off => off(),
        Ticked::Done => done(),
    }
}

pub fn heard_answer(answer: Heard) -> Answer
    ensures { result ≡ heard_answer answer }
{
    match answer {
        Heard::Off => off(),
        Heard::Done => done(),
        Heard::Cyclic(token) => cyclic(token),
        Heard::Refused(refusal) => refused(refusal),
    }
}
