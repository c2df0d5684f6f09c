// The answers about messages as numbers, for C.
#![tactic(auto)]

ghost use Rattle.std.specs.Prelude.{◌≡◌};
ghost use Rattle.laws.specs.Usual.{List, ℕ};
ghost use Rattle.message.specs.declared.Received.TheVariants.{Message as HandedOver};
ghost use Rattle.message_answers.specs.Numbers.{received_told};
ghost use Rattle.message_rules.specs.Rules.State.{no_message};

use boundary_answers::{Answer, Route};
use message::{Delivery, Message};

// The word of an answer that is a message, for C.
const MESSAGE: u8 = 5;

// What a hearing answers. Where no message is handed over, its message is all zeros.
#[repr(C)]
#[derive(Clone, Copy)]
pub struct Reception {
    pub answer: Answer,
    pub message: Message,
}

// An answer of the base.
pub fn told(answer: Answer) -> Reception
    ensures { result ≡ record { answer = answer; message = no_message } }
{
    let message = Message {
        destination: 0,
        code: 0,
        size: 0,
        address: 0,
        result: 0,
    };
    Reception { answer, message }
}

// A message that is handed over.
pub fn handed_over(delivery: Delivery) -> Reception
    ensures { (octets : List ℕ) → result ≡ received_told octets (HandedOver delivery) }
{
    let message = delivery.message;
    let frame = Route {
        code: message.code,
        source: delivery.source,
        destination: message.destination,
    };
    let answer = Answer {
        word: MESSAGE,
        refusal: 0,
        token: 0,
        outcome: 0,
        frame,
        octets: delivery.octets as usize,
    };
    Reception { answer, message }
}
