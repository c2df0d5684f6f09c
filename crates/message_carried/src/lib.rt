// The oldest confirmation owed, put into our token frame.
#![tactic(auto)]

ghost use Rattle.std.specs.Prelude.{◌≡◌, ◌≤◌};
ghost use Rattle.laws.specs.Usual.{length};
ghost use Rattle.message_places.specs.Owed.{owed_in, kept_owed};
ghost use Rattle.message_rules.specs.Rules.Confirming.{carried_in};

use message_places::OWED_NUMBERS;

// The octets of a confirmation.
const CONFIRMATION_OCTETS: usize = 20;

// `count` octets of the frame stand in front in the output. Answers how many there are with the confirmation in. Where it does not fit, it stays owed.
#[tactic(auto, using(message_owed::specs::Laws::owed_same))]
pub fn carry_oldest(owed: &mut [u32; OWED_NUMBERS], count: usize, output: &mut [u8]) -> usize
    requires le_count { 64 ≤ count }
    requires count_bound { count ≤ 1088 }
    requires count_in_bounds { count ≤ length output.old }
    ensures value { result ≡ (carried_in (owed_in owed.old) count output.old).count }
    ensures output_after { output.new ≡ (carried_in (owed_in owed.old) count output.old).output }
    ensures owed_after { owed_in owed.new ≡ (carried_in (owed_in owed.old) count output.old).owed }
    ensures owed_after_2 { owed.new ≡ kept_owed owed.old (carried_in (owed_in owed.old) count output.old).owed }
{
    let Some(oldest) = message_owed::first_owed(owed) else {
        return count;
    };
    if output.len() < count + CONFIRMATION_OCTETS {
        return count;
    }
    message_carrying::carry(oldest, count, output);
    message_owed::drop_oldest(owed);
    count + CONFIRMATION_OCTETS
}
