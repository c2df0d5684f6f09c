// What becomes of the slot of a message by a tick, by a taking, by a status that comes for it, and by a new message.
#![tactic(auto)]

ghost use Rattle.std.specs.Prelude.{◌≡◌, ◌+◌};
ghost use Rattle.laws.specs.Usual.{min};
ghost use Rattle.message.specs.declared.Mail.TheVariants.{Unconfirmed};
ghost use Rattle.message_rules.specs.Rules.Again.{or_failed, slot_with, where_unconfirmed, slot_ticked, slot_taken, slot_answered, confirmation_wait, takings_wait};
ghost use Rattle.message_rules.specs.Rules.Posting.{waiting as waiting_of};

use message::{Mail, Message, Slot};
use message_tests::{CONFIRMATION_WAIT, TAKINGS_WAIT};

// How often a message is sent again.
pub const RESENDS_MOST: u8 = 3;

// "After three resends", what would make a fourth due makes the message failed.
pub fn or_failed(slot: Slot) -> Slot
    ensures { result ≡ or_failed slot }
{
    if message_tests::is_unconfirmed(slot.mail)
        && message_tests::is_due(slot)
        && RESENDS_MOST <= slot.resends
    {
        Slot {
            mail: Mail::Failed,
            ..slot
        }
    } else {
        slot
    }
}

// A message that is still unconfirmed, with what has come since it went; or one that fails by it.
fn unconfirmed(slot: Slot, ticks: u16, takings: u8, asked: bool) -> Slot
    ensures { result ≡ or_failed (slot_with slot Unconfirmed ticks takings asked) }
{
    or_failed(Slot {
        mail: Mail::Unconfirmed,
        ticks,
        takings,
        asked,
        ..slot
    })
}

// The ticks and the takings since it went, which count only where it is unconfirmed.
fn counted(slot: Slot, ticks: u16, takings: u8) -> Slot
    ensures { result ≡ where_unconfirmed slot (slot_with slot Unconfirmed ticks takings slot.asked) }
{
    if message_tests::is_unconfirmed(slot.mail) {
        unconfirmed(slot, ticks, takings, slot.asked)
    } else {
        slot
    }
}

pub fn ticked(slot: Slot) -> Slot
    ensures { result ≡ slot_ticked slot }
{
    let ticks = slot.ticks.saturating_add(1).min(CONFIRMATION_WAIT);
    counted(slot, ticks, slot.takings)
}

pub fn taken(slot: Slot) -> Slot
    ensures { result ≡ slot_taken slot }
{
    let takings = slot.takings.saturating_add(1).min(TAKINGS_WAIT);
    counted(slot, slot.ticks, takings)
}

// By a status that came for the message: 1 confirms it, any other asks for a resend.
pub fn answered(slot: Slot, status: u8) -> Slot
    ensures { result ≡ slot_answered slot status }
{
    if status == 1 {
        Slot {
            mail: Mail::Confirmed,
            ..slot
        }
    } else {
        unconfirmed(slot, slot.ticks, slot.takings, true)
    }
}

// A message that is handed in, with so many octets of data.
pub fn waiting(message: Message, octets: u16) -> Slot
    ensures { result ≡ waiting_of message octets }
{
    Slot {
        mail: Mail::Waiting,
        message,
        octets,
        ..Slot::default()
    }
}
