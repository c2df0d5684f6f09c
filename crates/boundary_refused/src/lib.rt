// Frames that are refused, on the core alone.
#![tactic(auto)]

ghost use Rattle.std.specs.Prelude.{◌≡◌};
ghost use Rattle.boundary_refused.specs.Unheard.{heard_refusal};
ghost use Rattle.boundary_refused.specs.Taken.{is_taken_by};
ghost use Rattle.boundary_refused.specs.Strange.{is_strange};

use boundary_core::Core;
use frame::{Fields, Refusal};
use station::Phase;

// 11 before those of the frame.
pub fn heard_refusal(lent: bool, refusal: Refusal) -> Refusal
    ensures { result ≡ heard_refusal lent refusal }
{
    if lent { refusal } else { Refusal::Buffer }
}

// Number 6: the source is our own number, which an off station does not ask.
pub fn is_taken(core: Core, frame: Fields) -> bool
    ensures { result ≡ is_taken_by core frame }
{
    !state_tests::is_off(core.phase) & (frame.source == core.own.number)
}

// Whether a participant refuses a cyclic frame that was read by number 9, by whether its source and its destination are listed.
pub fn is_strange(core: Core, source: bool, destination: bool, frame: Fields) -> bool
    ensures { result ≡ is_strange core source destination frame }
{
    let code = frame.code;
    let number = core.own.number;
    let cyclic = core.is_in(Phase::Participating) & frame::is_cyclic(code);
    let known = source & (!frame::is_token(code) | ((frame.destination == number) | destination));
    cyclic & ((frame.source != number) & !known)
}
