// The message part as it begins: an outgoing side, nothing owed, and no source known.
#![tactic(auto)]

ghost use Rattle.std.specs.Prelude.{◌≡◌};
ghost use Rattle.laws.specs.Usual.{[], replicate};
ghost use Rattle.message_beginning.specs.Begun.{begun_where};
ghost use Rattle.message_places.specs.Outgoing.{outgoing_of};
ghost use Rattle.message_places.specs.Owed.{owed_in, kept_owed};
ghost use Rattle.message_places.specs.Places.{outgoing_in, kept_outgoing, messages_lent};

use message_places::{OUTGOING_NUMBERS, OWED_NUMBERS, Outgoing};

fn begin(
    begun: Outgoing,
    outgoing: &mut [u32; OUTGOING_NUMBERS],
    owed: &mut [u32; OWED_NUMBERS],
    versions: &mut [u32; 256],
    one_to_one: &mut [u32; 256],
    to_all: &mut [u32; 256],
)
    ensures outgoing_after { outgoing_in outgoing.new ≡ begun }
    ensures outgoing_after_2 { outgoing.new ≡ kept_outgoing outgoing.old begun }
    ensures owed_after { owed_in owed.new ≡ [] }
    ensures owed_after_2 { owed.new ≡ kept_owed owed.old [] }
    ensures versions_after { versions.new ≡ replicate 256 0 }
    ensures one_to_one_after { one_to_one.new ≡ replicate 256 0 }
    ensures to_all_after { to_all.new ≡ replicate 256 0 }
{
    message_kept::keep(outgoing, begun);
    message_owed::forget(owed);
    message_sources::forget(versions, one_to_one, to_all);
}

// Where the message part begins anew; else all of it is left alone.
#[tactic(auto, using(message_owed::specs::Laws::owed_same))]
pub fn begin_where(
    begins: bool,
    begun: Outgoing,
    outgoing: &mut [u32; OUTGOING_NUMBERS],
    owed: &mut [u32; OWED_NUMBERS],
    versions: &mut [u32; 256],
    one_to_one: &mut [u32; 256],
    to_all: &mut [u32; 256],
)
    ensures to_all_after { messages_lent outgoing.new owed.new versions.new one_to_one.new to_all.new ≡ begun_where begins begun (messages_lent outgoing.old owed.old versions.old one_to_one.old to_all.old) }
    ensures outgoing_after { outgoing.new ≡ kept_outgoing outgoing.old (outgoing_of (begun_where begins begun (messages_lent outgoing.old owed.old versions.old one_to_one.old to_all.old))) }
    ensures owed_after { owed.new ≡ kept_owed owed.old (begun_where begins begun (messages_lent outgoing.old owed.old versions.old one_to_one.old to_all.old)).owed }
{
    if begins {
        begin(begun, outgoing, owed, versions, one_to_one, to_all);
    }
}
