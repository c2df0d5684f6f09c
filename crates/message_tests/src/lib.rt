// Tests of a message: of its destination and of its slot.
#![tactic(auto)]

ghost use Rattle.std.specs.Prelude.{◌≡◌};
ghost use Rattle.message.specs.Codes.{to_all};
ghost use Rattle.message_rules.specs.Rules.Again.{is_waiting, is_unconfirmed, is_open, is_due, is_to_go};

use message::{Mail, Slot};

// AWT, the wait for a confirmation: 100 ms, in ticks.
pub const CONFIRMATION_WAIT: u16 = 1000;

// The takings that a resend waits for too.
pub const TAKINGS_WAIT: u8 = 3;

pub fn to_all(destination: u8) -> bool
    ensures { result ≡ to_all destination }
{
    destination == 255
}

pub fn is_waiting(mail: Mail) -> bool
    ensures { result ≡ is_waiting mail }
{
    mail == Mail::Waiting
}

pub fn is_unconfirmed(mail: Mail) -> bool
    ensures { result ≡ is_unconfirmed mail }
{
    mail == Mail::Unconfirmed
}

// Whether no other message can be handed in yet.
pub fn is_open(mail: Mail) -> bool
    ensures { result ≡ is_open mail }
{
    is_waiting(mail) || is_unconfirmed(mail)
}

// Whether a resend is due: by a status that came, or by both waits.
pub fn is_due(slot: Slot) -> bool
    ensures { result ≡ is_due slot }
{
    slot.asked || (CONFIRMATION_WAIT <= slot.ticks && TAKINGS_WAIT <= slot.takings)
}

// Whether the message goes for the first time or again, where the cycle lets it.
pub fn is_to_go(slot: Slot) -> bool
    ensures { result ≡ is_to_go slot }
{
    is_waiting(slot.mail) || (is_unconfirmed(slot.mail) && is_due(slot))
}
