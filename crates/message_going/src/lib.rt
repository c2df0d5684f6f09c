// Whether a message may go, and how the outgoing side begins.
#![tactic(auto)]

ghost use Rattle.std.specs.Prelude.{◌≡◌};
ghost use Rattle.message_going.specs.Going.{may_go};
ghost use Rattle.message_places.specs.Outgoing.{outgoing_of};
ghost use Rattle.message_rules.specs.Rules.Cycle.{is_writable};
ghost use Rattle.message_rules.specs.Rules.State.{no_messages, begun as begun_of};

use message::{Allowance, Slot};
use message_places::Outgoing;
use panel::Panel;

// The octets of data that a frame can hold.
const DATA_MOST: u16 = 1024;

fn is_writable(slot: Slot) -> bool
    ensures { result ≡ is_writable slot }
{
    slot.octets <= DATA_MOST && message_codes::is_message(slot.message.code)
}

// Where a block is due and none of the turn has been sent.
pub fn may_go(panel: Panel, outgoing: Outgoing) -> bool
    ensures { result ≡ may_go panel outgoing }
{
    let went = outgoing.went;
    !went.now
        && 2 <= panel.takings
        && message_cycle::lets(panel.gap, outgoing.allowed, went.last)
        && message_tests::is_to_go(outgoing.slot)
        && is_writable(outgoing.slot)
}

// A start's: no message, none gone and no number given. Version 0 is none yet to those who hear us.
pub fn begun(allowance: Allowance) -> Outgoing
    ensures { result ≡ outgoing_of (begun_of allowance) }
{
    Outgoing {
        allowed: allowance.cycle,
        version: allowance.version.max(1),
        ..Outgoing::default()
    }
}

// An off station's.
pub fn nothing() -> Outgoing
    ensures { result ≡ outgoing_of no_messages }
{
    Outgoing::default()
}
