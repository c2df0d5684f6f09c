// Asking of a station with messages, on what C lends: a message that goes in the place of the block that is due, or what the base writes, with the oldest
// confirmation in our token frame. A refused asking touches nothing.
#![tactic(auto)]

ghost use Rattle.std.specs.Prelude.{◌≡◌, ◌≤◌};
ghost use Rattle.laws.specs.Usual.{true, cond, length};
ghost use Rattle.boundary_answers.specs.Numbers.{frame_answer};
ghost use Rattle.boundary_core.specs.Crossing.{core_of};
ghost use Rattle.boundary_lists.specs.Lists.{members_in};
ghost use Rattle.boundary_places.specs.Places.{core_in, kept};
ghost use Rattle.boundary_told.specs.Told.{asked_told, written_told};
ghost use Rattle.message_asking.specs.Asking.{carried_where, block_in, ask_in};
ghost use Rattle.message_places.specs.Outgoing.{outgoing_of, messages_of};
ghost use Rattle.message_places.specs.Owed.{owed_in, kept_owed};
ghost use Rattle.message_places.specs.Places.{outgoing_in, kept_outgoing};
ghost use Rattle.message_rules.specs.Rules.Confirming.{carried_in};
ghost use Rattle.message_rules.specs.Rules.State.{Sources};

use boundary_answers::{Answer, FRAME, frame_answer};
use boundary_lists::AREA_NUMBERS;
use boundary_places::NUMBERS;
use boundary_reading::core_in;
use message_places::{MAIL_OCTETS, OUTGOING_NUMBERS, OWED_NUMBERS};
use message_taking::is_holder;

// Nothing is done to the numbers. A proof is told here how many they are.
fn leave(core: &[u32; NUMBERS], outgoing: &[u32; OUTGOING_NUMBERS], owed: &[u32; OWED_NUMBERS])
    ensures core_len { length core.now ≡ 18 }
    ensures outgoing_len { length outgoing.now ≡ 18 }
    ensures owed_len { length owed.now ≡ 25 }
{
    message_kept::leave(outgoing);
    message_owed::leave(owed);
}

// Puts the oldest confirmation into the frame that stands in front in the output, where that is our token frame.
fn carry_where(
    token: bool,
    owed: &mut [u32; OWED_NUMBERS],
    answer: Answer,
    output: &mut [u8],
) -> Answer
    requires le_octets { token ≡ true → 64 ≤ answer.octets }
    requires octets_bound { token ≡ true → answer.octets ≤ 1088 }
    requires octets_in_bounds { token ≡ true → answer.octets ≤ length output.old }
    ensures value { result ≡ cond token (written_told output.new (frame_answer (carried_in (owed_in owed.old) answer.octets output.old).count)) answer }
    ensures output_after { output.new ≡ (carried_where token (owed_in owed.old) answer.octets output.old).output }
    ensures owed_after { owed_in owed.new ≡ (carried_where token (owed_in owed.old) answer.octets output.old).owed }
    ensures owed_after_2 { owed.new ≡ kept_owed owed.old (carried_where token (owed_in owed.old) answer.octets output.old).owed }
{
    if token {
        let count = message_carried::carry_oldest(owed, answer.octets, output);
        return boundary_written::tell_written(frame_answer(count), output);
    }
    message_owed::leave(owed);
    answer
}

// What the base writes or refuses. A holder's frame after which no block of the turn is sent is its token frame, and begins a turn where we hold again.
fn ask_block(
    core: &mut [u32; NUMBERS],
    listed: &mut [bool; 256],
    areas: &mut [u16; AREA_NUMBERS],
    watch: &mut [u8; 256],
    misses: &mut [u8; 256],
    outgoing: &mut [u32; OUTGOING_NUMBERS],
    owed: &mut [u32; OWED_NUMBERS],
    memory: &[u8],
    turn: &mut [u8],
    output: &mut [u8],
) -> Answer
    ensures core_after { (sources : Sources) → core_in core.new ≡ core_of (block_in core.old listed.old areas.old watch.old misses.old outgoing.old owed.old memory.now turn.old output.old sources).both.ring }
    ensures core_after_2 { (sources : Sources) → core.new ≡ kept core.old (core_of (block_in core.old listed.old areas.old watch.old misses.old outgoing.old owed.old memory.now turn.old output.old sources).both.ring) }
    ensures misses_after { (sources : Sources) → members_in listed.new areas.new watch.new misses.new ≡ (block_in core.old listed.old areas.old watch.old misses.old outgoing.old owed.old memory.now turn.old output.old sources).both.ring.members }
    ensures sources_after { (sources : Sources) → messages_of (outgoing_in outgoing.new) (owed_in owed.new) sources ≡ (block_in core.old listed.old areas.old watch.old misses.old outgoing.old owed.old memory.now turn.old output.old sources).both.messages }
    ensures outgoing_after { (sources : Sources) → outgoing.new ≡ kept_outgoing outgoing.old (outgoing_of (block_in core.old listed.old areas.old watch.old misses.old outgoing.old owed.old memory.now turn.old output.old sources).both.messages) }
    ensures owed_after { (sources : Sources) → owed.new ≡ kept_owed owed.old (block_in core.old listed.old areas.old watch.old misses.old outgoing.old owed.old memory.now turn.old output.old sources).both.messages.owed }
    ensures turn_after { (sources : Sources) → turn.new ≡ (block_in core.old listed.old areas.old watch.old misses.old outgoing.old owed.old memory.now turn.old output.old sources).turn }
    ensures output_after { (sources : Sources) → output.new ≡ (block_in core.old listed.old areas.old watch.old misses.old outgoing.old owed.old memory.now turn.old output.old sources).output }
    ensures value { (sources : Sources) → result ≡ asked_told (block_in core.old listed.old areas.old watch.old misses.old outgoing.old owed.old memory.now turn.old output.old sources).output (block_in core.old listed.old areas.old watch.old misses.old outgoing.old owed.old memory.now turn.old output.old sources).answer }
{
    let held = is_holder(core);
    let answer = boundary_asking::ask(core, listed, areas, watch, misses, memory, turn, output);
    let ended = (answer.word == FRAME) & (core_in(core).block == 0);
    message_turns::turn(is_holder(core) & (!held | ended), outgoing);
    carry_where(held & ended, owed, answer, output)
}

pub fn ask(
    core: &mut [u32; NUMBERS],
    listed: &mut [bool; 256],
    areas: &mut [u16; AREA_NUMBERS],
    watch: &mut [u8; 256],
    misses: &mut [u8; 256],
    outgoing: &mut [u32; OUTGOING_NUMBERS],
    owed: &mut [u32; OWED_NUMBERS],
    memory: &[u8],
    turn: &mut [u8],
    output: &mut [u8],
    mail: &[u8],
) -> Answer
    ensures core_after { (sources : Sources) → core_in core.new ≡ core_of (ask_in core.old listed.old areas.old watch.old misses.old outgoing.old owed.old memory.now turn.old output.old mail.now sources).both.ring }
    ensures core_after_2 { (sources : Sources) → core.new ≡ kept core.old (core_of (ask_in core.old listed.old areas.old watch.old misses.old outgoing.old owed.old memory.now turn.old output.old mail.now sources).both.ring) }
    ensures misses_after { (sources : Sources) → members_in listed.new areas.new watch.new misses.new ≡ (ask_in core.old listed.old areas.old watch.old misses.old outgoing.old owed.old memory.now turn.old output.old mail.now sources).both.ring.members }
    ensures sources_after { (sources : Sources) → messages_of (outgoing_in outgoing.new) (owed_in owed.new) sources ≡ (ask_in core.old listed.old areas.old watch.old misses.old outgoing.old owed.old memory.now turn.old output.old mail.now sources).both.messages }
    ensures outgoing_after { (sources : Sources) → outgoing.new ≡ kept_outgoing outgoing.old (outgoing_of (ask_in core.old listed.old areas.old watch.old misses.old outgoing.old owed.old memory.now turn.old output.old mail.now sources).both.messages) }
    ensures owed_after { (sources : Sources) → owed.new ≡ kept_owed owed.old (ask_in core.old listed.old areas.old watch.old misses.old outgoing.old owed.old memory.now turn.old output.old mail.now sources).both.messages.owed }
    ensures turn_after { (sources : Sources) → turn.new ≡ (ask_in core.old listed.old areas.old watch.old misses.old outgoing.old owed.old memory.now turn.old output.old mail.now sources).turn }
    ensures output_after { (sources : Sources) → output.new ≡ (ask_in core.old listed.old areas.old watch.old misses.old outgoing.old owed.old memory.now turn.old output.old mail.now sources).output }
    ensures value { (sources : Sources) → result ≡ asked_told (ask_in core.old listed.old areas.old watch.old misses.old outgoing.old owed.old memory.now turn.old output.old mail.now sources).output (ask_in core.old listed.old areas.old watch.old misses.old outgoing.old owed.old memory.now turn.old output.old mail.now sources).answer }
{
    leave(core, outgoing, owed);
    if mail.len() != MAIL_OCTETS {
        return boundary_answers::refused(frame::Refusal::Buffer);
    }
    if asking_placing::is_lent_right(memory, turn, output)
        & message_asked_letter::is_going(core, outgoing)
    {
        return message_asked_letter::send(core, outgoing, mail, output);
    }
    ask_block(
        core, listed, areas, watch, misses, outgoing, owed, memory, turn, output,
    )
}
