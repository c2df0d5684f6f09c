// A message that an asking writes in the place of the block that is due.
#![tactic(auto)]

ghost use Rattle.std.specs.Prelude.{Ok, ◌≡◌, ◌≤◌};
ghost use Rattle.laws.specs.Usual.{true, List, [], length};
ghost use Rattle.boundary_core.specs.Crossing.{station_of};
ghost use Rattle.boundary_places.specs.Places.{core_in};
ghost use Rattle.boundary_told.specs.Told.{asked_told};
ghost use Rattle.members.specs.Members.{no_members};
ghost use Rattle.message.specs.declared.Confirmation.{Confirmation};
ghost use Rattle.message_frames.specs.Frames.{whole_length, output_of};
ghost use Rattle.message_places.specs.Outgoing.{outgoing_of, messages_of};
ghost use Rattle.message_places.specs.Places.{outgoing_in, kept_outgoing};
ghost use Rattle.message_rules.specs.Rules.Again.{gone, letter_going};
ghost use Rattle.message_rules.specs.Rules.Cycle.{goes};
ghost use Rattle.message_rules.specs.Rules.State.{Sources, no_sources};
ghost use Rattle.station.specs.Types.{Members};

use boundary_answers::{Answer, frame_answer};
use boundary_places::NUMBERS;
use boundary_reading::core_in;
use message_kept::{keep, outgoing_in};
use message_places::OUTGOING_NUMBERS;

// Where no message waits or is unconfirmed, nothing else is looked at: a ring that runs asks for blocks all day.
pub fn is_going(core: &[u32; NUMBERS], outgoing: &[u32; OUTGOING_NUMBERS]) -> bool
    ensures { (members : Members) (owed : List Confirmation) (sources : Sources) → result ≡ goes (station_of (core_in core.now) members) (messages_of (outgoing_in outgoing.now) owed sources) }
{
    let side = outgoing_in(outgoing);
    let slot = side.slot;
    let mail = slot.mail;
    if !message_tests::is_open(mail) {
        return false;
    }
    let state = core_in(core);
    let counter = state.panel;
    (boundary_holder::holds_block(state) & (state.block == 0))
        & message_going::may_go(counter, side)
}

// The list does not matter to whether it goes, nor what is owed and what is known of the sources.
pub fn send(
    core: &[u32; NUMBERS],
    outgoing: &mut [u32; OUTGOING_NUMBERS],
    mail: &[u8],
    output: &mut [u8],
) -> Answer
    requires no_sources_value { goes (station_of (core_in core.now) no_members) (messages_of (outgoing_in outgoing.old) [] no_sources) ≡ true }
    requires mail_len { length mail.now ≡ 1024 }
    requires in_bounds { 1088 ≤ length output.old }
    ensures value { (owed : List Confirmation) (sources : Sources) → result ≡ asked_told output.new (Ok (whole_length (letter_going (core_in core.now).own.number (messages_of (outgoing_in outgoing.old) owed sources)))) }
    ensures output_after { (owed : List Confirmation) (sources : Sources) → output.new ≡ output_of (letter_going (core_in core.now).own.number (messages_of (outgoing_in outgoing.old) owed sources)) mail.now output.old }
    ensures sources_after { (owed : List Confirmation) (sources : Sources) → messages_of (outgoing_in outgoing.new) owed sources ≡ gone (messages_of (outgoing_in outgoing.old) owed sources) }
    ensures outgoing_after { (owed : List Confirmation) (sources : Sources) → outgoing.new ≡ kept_outgoing outgoing.old (outgoing_of (gone (messages_of (outgoing_in outgoing.old) owed sources))) }
{
    let side = outgoing_in(outgoing);
    let own = core_in(core).own;
    let letter = message_gone::letter_going(own.number, side);
    keep(outgoing, message_gone::gone(side));
    message_writing::write(letter, mail, output);
    boundary_written::tell_written(frame_answer(64 + letter.octets as usize), output)
}
