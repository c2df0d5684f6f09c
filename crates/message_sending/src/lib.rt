// What becomes of the outgoing side of messages by a tick, by a taking, by a confirmation and by a message that is handed in. None of it depends on what is
// owed and what is known of the sources.
#![tactic(auto)]

ghost use Rattle.std.specs.Prelude.{◌≡◌};
ghost use Rattle.laws.specs.Usual.{true, List};
ghost use Rattle.message.specs.declared.Confirmation.{Confirmation};
ghost use Rattle.message_places.specs.Outgoing.{messages_of};
ghost use Rattle.message_rules.specs.Rules.Again.{ticked as ticked_of, turned as turned_of};
ghost use Rattle.message_rules.specs.Rules.Confirming.{confirmed as confirmed_of};
ghost use Rattle.message_rules.specs.Rules.Posting.{waiting};
ghost use Rattle.message_rules.specs.Rules.State.{Sources, with_slot};

use message::{Confirmation, Message};
use message_places::{Outgoing, Went};

// By a tick.
pub fn ticked(outgoing: Outgoing) -> Outgoing
    ensures { (owed : List Confirmation) (sources : Sources) → messages_of result owed sources ≡ ticked_of (messages_of outgoing owed sources) }
{
    Outgoing {
        slot: message_slots::ticked(outgoing.slot),
        ..outgoing
    }
}

// By a taking, which begins a turn.
pub fn turned(outgoing: Outgoing) -> Outgoing
    ensures { (owed : List Confirmation) (sources : Sources) → messages_of result owed sources ≡ turned_of true (messages_of outgoing owed sources) }
{
    Outgoing {
        slot: message_slots::taken(outgoing.slot),
        went: Went {
            now: false,
            last: outgoing.went.now,
        },
        ..outgoing
    }
}

// By a confirmation in a frame of this source.
pub fn confirmed(own: u8, outgoing: Outgoing, source: u8, confirmation: Confirmation) -> Outgoing
    ensures { (owed : List Confirmation) (sources : Sources) → messages_of result owed sources ≡ confirmed_of own (messages_of outgoing owed sources) source confirmation }
{
    let slot = outgoing.slot;
    if message_judging::speaks_of(own, outgoing.version, slot, source, confirmation) {
        Outgoing {
            slot: message_slots::answered(slot, confirmation.status),
            ..outgoing
        }
    } else {
        outgoing
    }
}

// By a message that is handed in, with so many octets of data.
pub fn handed_in(outgoing: Outgoing, message: Message, octets: u16) -> Outgoing
    ensures { (owed : List Confirmation) (sources : Sources) → messages_of result owed sources ≡ with_slot (messages_of outgoing owed sources) (waiting message octets) }
{
    Outgoing {
        slot: message_slots::waiting(message, octets),
        ..outgoing
    }
}
