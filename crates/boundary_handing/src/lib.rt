// What a call hands back: its core in the numbers that C keeps, with its answer.
#![tactic(auto)]

ghost use Rattle.std.specs.Prelude.{◌≡◌};
ghost use Rattle.laws.specs.Usual.{length};
ghost use Rattle.boundary_places.specs.Places.{core_in, kept};

use boundary_core::{Answer, Outcome};
use boundary_keeping::keep;
use boundary_places::NUMBERS;

// Puts the core that a call leaves into the numbers, and hands its answer on.
pub fn keep_outcome(numbers: &mut [u32; NUMBERS], outcome: Outcome) -> Answer
    ensures numbers_after { numbers.new ≡ kept numbers.old outcome.core }
    ensures numbers_after_2 { core_in numbers.new ≡ outcome.core }
    ensures numbers_len { length numbers.new ≡ 18 }
    ensures value { result ≡ outcome.answer }
{
    let answer = outcome.answer;
    let after = outcome.core;
    keep(numbers, after);
    answer
}
