// Tests of a message that was heard, on the core alone: the refusals, and whether it is for us.
#![tactic(auto)]

ghost use Rattle.std.specs.Prelude.{◌≡◌};
ghost use Rattle.boundary_answers.specs.Numbers.{heard_answer};
ghost use Rattle.message_letter_tests.specs.Tests.{is_taken_by, turns_off_by, is_for_us_by, is_received_by, passed_by};
ghost use Rattle.station.specs.Rules.State.{is_participating};

use boundary_answers::{Answer, done, off, refused};
use boundary_core::Core;
use frame::Refusal;
use frame_reading::is_station;
use message::Letter;
use message_reading::is_measured;
use station::Phase;

fn is_participant(core: Core) -> bool
    ensures { result ≡ is_participating core.phase }
{
    core.is_in(Phase::Participating)
}

// Number 6: the source is our own number, which an off station does not ask.
fn is_taken(core: Core, letter: Letter) -> bool
    ensures { result ≡ is_taken_by core letter }
{
    !state_tests::is_off(core.phase) & (letter.source == core.own.number)
}

// Number 6 before we participate.
pub fn turns_off(core: Core, letter: Letter) -> bool
    ensures { result ≡ turns_off_by core letter }
{
    is_station(letter.source) & (is_taken(core, letter) & !is_participant(core))
}

fn is_for_us(core: Core, letter: Letter) -> bool
    ensures { result ≡ is_for_us_by core letter }
{
    let message = letter.message;
    is_participant(core)
        & ((message.destination == core.own.number) | message_tests::to_all(message.destination))
}

// Whether no refusal meets it and it is for us, by whether its source is listed.
pub fn is_received(core: Core, known: bool, given: usize, letter: Letter) -> bool
    ensures { result ≡ is_received_by core known given letter }
{
    is_station(letter.source)
        & (!is_taken(core, letter)
            & (is_measured(given, letter)
                & (!(is_participant(core) & !known) & is_for_us(core, letter))))
}

// What is answered to one that is not received: 5, 6, 8 or 9, the first that applies, or off or done.
pub fn answer_to(core: Core, known: bool, given: usize, letter: Letter) -> Answer
    ensures { result ≡ heard_answer (passed_by core known given letter) }
{
    if !is_station(letter.source) {
        return refused(Refusal::Address);
    }
    if is_taken(core, letter) {
        return refused(Refusal::Taken);
    }
    if !is_measured(given, letter) {
        return refused(Refusal::Block);
    }
    if is_participant(core) & !known {
        return refused(Refusal::Stranger);
    }
    if state_tests::is_off(core.phase) {
        return off();
    }
    done()
}
