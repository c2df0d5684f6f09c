// The outgoing side in numbers, by a tick, by a taking and by a confirmation, in place. None of it depends on what is owed and known.
#![tactic(auto)]

ghost use Rattle.std.specs.Prelude.{◌≡◌};
ghost use Rattle.laws.specs.Usual.{List};
ghost use Rattle.message.specs.declared.Confirmation.{Confirmation};
ghost use Rattle.message_places.specs.Outgoing.{outgoing_of, messages_of};
ghost use Rattle.message_places.specs.Places.{outgoing_in, kept_outgoing};
ghost use Rattle.message_rules.specs.Rules.Again.{ticked as ticked_of, turned as turned_of};
ghost use Rattle.message_rules.specs.Rules.Confirming.{confirmed as confirmed_of};
ghost use Rattle.message_rules.specs.Rules.State.{Sources};

use message::Confirmation;
use message_kept::{keep, outgoing_in};
use message_places::{OUTGOING_NUMBERS, Outgoing};

// With a turn begun, where one begins.
fn turned_where(begins: bool, outgoing: Outgoing) -> Outgoing
    ensures { (owed : List Confirmation) (sources : Sources) → messages_of result owed sources ≡ turned_of begins (messages_of outgoing owed sources) }
{
    if begins {
        message_sending::turned(outgoing)
    } else {
        outgoing
    }
}

// By a tick, and by the taking that it brings. Where neither counts, only the mail's number is looked at.
pub fn tick(taking: bool, numbers: &mut [u32; OUTGOING_NUMBERS])
    ensures sources_after { (owed : List Confirmation) (sources : Sources) → messages_of (outgoing_in numbers.new) owed sources ≡ turned_of taking (ticked_of (messages_of (outgoing_in numbers.old) owed sources)) }
    ensures numbers_after { (owed : List Confirmation) (sources : Sources) → numbers.new ≡ kept_outgoing numbers.old (outgoing_of (turned_of taking (ticked_of (messages_of (outgoing_in numbers.old) owed sources)))) }
{
    let outgoing = outgoing_in(numbers);
    if taking | message_tests::is_unconfirmed(outgoing.slot.mail) {
        keep(
            numbers,
            turned_where(taking, message_sending::ticked(outgoing)),
        );
    }
}

// By a taking.
pub fn turn(taking: bool, numbers: &mut [u32; OUTGOING_NUMBERS])
    ensures sources_after { (owed : List Confirmation) (sources : Sources) → messages_of (outgoing_in numbers.new) owed sources ≡ turned_of taking (messages_of (outgoing_in numbers.old) owed sources) }
    ensures numbers_after { (owed : List Confirmation) (sources : Sources) → numbers.new ≡ kept_outgoing numbers.old (outgoing_of (turned_of taking (messages_of (outgoing_in numbers.old) owed sources))) }
{
    let outgoing = outgoing_in(numbers);
    if taking {
        keep(numbers, message_sending::turned(outgoing));
    }
}

// By a confirmation in a frame of this source, and then by the taking that the same frame brings.
pub fn confirm(
    taking: bool,
    own: u8,
    source: u8,
    confirmation: Confirmation,
    numbers: &mut [u32; OUTGOING_NUMBERS],
)
    ensures sources_after { (owed : List Confirmation) (sources : Sources) → messages_of (outgoing_in numbers.new) owed sources ≡ turned_of taking (confirmed_of own (messages_of (outgoing_in numbers.old) owed sources) source confirmation) }
    ensures numbers_after { (owed : List Confirmation) (sources : Sources) → numbers.new ≡ kept_outgoing numbers.old (outgoing_of (turned_of taking (confirmed_of own (messages_of (outgoing_in numbers.old) owed sources) source confirmation))) }
{
    let outgoing = outgoing_in(numbers);
    let after = message_sending::confirmed(own, outgoing, source, confirmation);
    keep(numbers, turned_where(taking, after));
}
