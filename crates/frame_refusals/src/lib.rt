// The numbers that a station refuses with.
#![tactic(auto)]

ghost use Rattle.std.specs.Prelude.{◌≡◌};
ghost use Rattle.frame_refusals.specs.Refusals.{number_of};

use frame::Refusal;

// A function, and no `From`: an impl would have to stand in crate `frame`, below the definitions of the numbers.
pub fn number_of(refusal: Refusal) -> u8
    ensures { result ≡ number_of refusal }
{
    match refusal {
        Refusal::Cut => 1,
        Refusal::Mark => 2,
        Refusal::Length => 3,
        Refusal::Code => 4,
        Refusal::Address => 5,
        Refusal::Taken => 6,
        Refusal::Area => 7,
        Refusal::Block => 8,
        Refusal::Stranger => 9,
        Refusal::NotDue => 10,
        Refusal::Buffer => 11,
        Refusal::Message => 12,
        Refusal::Waiting => 13,
        Refusal::Total => 14,
        Refusal::Number => 15,
    }
}
