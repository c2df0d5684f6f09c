// Handing in a message, on the core in numbers, the flags of the list and the outgoing side in numbers. A refused one touches nothing.
#![tactic(auto)]

ghost use Rattle.std.specs.Prelude.{◌≡◌};
ghost use Rattle.laws.specs.Usual.{List, ℕ};
ghost use Rattle.boundary_places.specs.Places.{core_in};
ghost use Rattle.message.specs.declared.Confirmation.{Confirmation};
ghost use Rattle.message_answers.specs.Numbers.{posted_answer};
ghost use Rattle.message_places.specs.Outgoing.{outgoing_of, messages_of};
ghost use Rattle.message_places.specs.Places.{outgoing_in, kept_outgoing};
ghost use Rattle.message_posting.specs.Sendable.{sendable_by, post_in};
ghost use Rattle.message_rules.specs.Rules.State.{Sources};

use boundary_answers::{Answer, done, off, refused};
use boundary_places::NUMBERS;
use frame::Refusal;
use message::Message;
use message_places::{MAIL_OCTETS, OUTGOING_NUMBERS};

fn is_sendable(listed: &[bool; 256], message: Message, octets: usize) -> bool
    ensures { result ≡ sendable_by listed.now message octets }
{
    (octets <= MAIL_OCTETS)
        & (message_codes::is_message(message.code)
            & (boundary_lists::is_listed(listed, message.destination)
                | message_tests::to_all(message.destination)))
}

pub fn post(
    core: &[u32; NUMBERS],
    listed: &[bool; 256],
    outgoing: &mut [u32; OUTGOING_NUMBERS],
    message: Message,
    octets: &[u8],
    mail: &mut [u8],
) -> Answer
    ensures by_index { (areas watch misses : List ℕ) (owed : List Confirmation) (sources : Sources) → result ≡ posted_answer (post_in (core_in core.now) listed.now (outgoing_in outgoing.old) message octets.now mail.old areas watch misses owed sources).answer }
    ensures by_index_2 { (areas watch misses : List ℕ) (owed : List Confirmation) (sources : Sources) → messages_of (outgoing_in outgoing.new) owed sources ≡ (post_in (core_in core.now) listed.now (outgoing_in outgoing.old) message octets.now mail.old areas watch misses owed sources).messages }
    ensures by_index_3 { (areas watch misses : List ℕ) (owed : List Confirmation) (sources : Sources) → outgoing.new ≡ kept_outgoing outgoing.old (outgoing_of (post_in (core_in core.now) listed.now (outgoing_in outgoing.old) message octets.now mail.old areas watch misses owed sources).messages) }
    ensures by_index_4 { (areas watch misses : List ℕ) (owed : List Confirmation) (sources : Sources) → mail.new ≡ (post_in (core_in core.now) listed.now (outgoing_in outgoing.old) message octets.now mail.old areas watch misses owed sources).mail }
{
    let state = message_kept::outgoing_in(outgoing);
    let slot = state.slot;
    let before = slot.mail;
    if mail.len() != MAIL_OCTETS {
        return refused(Refusal::Buffer);
    }
    if !is_sendable(listed, message, octets.len()) {
        return refused(Refusal::Message);
    }
    if message_tests::is_open(before) {
        return refused(Refusal::Waiting);
    }
    if state_tests::is_off(boundary_reading::core_in(core).phase) {
        return off();
    }
    let waiting = message_sending::handed_in(state, message, octets.len() as u16);
    message_kept::keep(outgoing, waiting);
    copying::copy_into(octets, mail, 0);
    done()
}
