// What becomes of the outgoing side by a message that goes, and the frame that it goes in. None of it depends on what is owed and what is known of the
// sources.
#![tactic(auto)]

ghost use Rattle.std.specs.Prelude.{◌≡◌, ◌+◌};
ghost use Rattle.laws.specs.Usual.{cond, List, [], min};
ghost use Rattle.message.specs.Codes.{to_all};
ghost use Rattle.message.specs.declared.Confirmation.{Confirmation};
ghost use Rattle.message.specs.declared.Mail.TheVariants.{Sent, Unconfirmed};
ghost use Rattle.message_places.specs.Outgoing.{outgoing_of, messages_of};
ghost use Rattle.message_rules.specs.Rules.Again.{is_waiting, new_number, number_going, slot_gone, resends_most, gone as gone_of, letter_going};
ghost use Rattle.message_rules.specs.Rules.State.{Sources, no_sources};

use message::{Letter, Mail, Message, Slot};
use message_places::{Given, Outgoing, Went};
use message_slots::RESENDS_MOST;

// The number of a message that goes for the first time.
fn new_number(outgoing: Outgoing) -> u32
    ensures { result ≡ new_number (messages_of outgoing [] no_sources) }
{
    let given = outgoing.given;
    let last = if message_tests::to_all(outgoing.slot.message.destination) {
        given.all
    } else {
        given.one
    };
    message_cycle::number_after(last)
}

// A resend keeps its number.
fn number_going(outgoing: Outgoing) -> u32
    ensures { result ≡ number_going (messages_of outgoing [] no_sources) }
{
    let slot = outgoing.slot;
    if message_tests::is_waiting(slot.mail) {
        new_number(outgoing)
    } else {
        slot.number
    }
}

// How often it was sent again, this time counted.
fn resends_after(mail: Mail, resends: u8) -> u8
    ensures { result ≡ cond (is_waiting mail) 0 (min resends_most (resends + 1)) }
{
    if message_tests::is_waiting(mail) {
        0
    } else {
        resends.saturating_add(1).min(RESENDS_MOST)
    }
}

// To all it is sent, never again; one to one it waits for its confirmation.
fn mail_after(message: Message) -> Mail
    ensures { result ≡ cond (to_all message.destination) Sent Unconfirmed }
{
    if message_tests::to_all(message.destination) {
        Mail::Sent
    } else {
        Mail::Unconfirmed
    }
}

fn slot_gone(outgoing: Outgoing) -> Slot
    ensures { result ≡ slot_gone (messages_of outgoing [] no_sources) }
{
    let slot = outgoing.slot;
    Slot {
        mail: mail_after(slot.message),
        number: number_going(outgoing),
        ticks: 0,
        takings: 0,
        asked: false,
        resends: resends_after(slot.mail, slot.resends),
        ..slot
    }
}

// The numbers last given, each in its line: a resend gives none.
fn given_after(outgoing: Outgoing) -> Given
    ensures { result ≡ (outgoing_of (gone_of (messages_of outgoing [] no_sources))).given }
{
    let slot = outgoing.slot;
    let given = outgoing.given;
    if !message_tests::is_waiting(slot.mail) {
        return given;
    }
    let number = new_number(outgoing);
    if message_tests::to_all(slot.message.destination) {
        Given {
            all: number,
            ..given
        }
    } else {
        Given {
            one: number,
            ..given
        }
    }
}

// By a message that goes.
pub fn gone(outgoing: Outgoing) -> Outgoing
    ensures { (owed : List Confirmation) (sources : Sources) → messages_of result owed sources ≡ gone_of (messages_of outgoing owed sources) }
{
    Outgoing {
        slot: slot_gone(outgoing),
        given: given_after(outgoing),
        went: Went {
            now: true,
            ..outgoing.went
        },
        ..outgoing
    }
}

pub fn letter_going(source: u8, outgoing: Outgoing) -> Letter
    ensures { (owed : List Confirmation) (sources : Sources) → result ≡ letter_going source (messages_of outgoing owed sources) }
{
    let slot = outgoing.slot;
    let number = number_going(outgoing);
    Letter {
        source,
        version: outgoing.version,
        number,
        message: slot.message,
        octets: slot.octets,
    }
}
