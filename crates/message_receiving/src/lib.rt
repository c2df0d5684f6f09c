// A message that is for us and that no refusal met: what is owed and known after it, in the numbers that C keeps, and what is answered.
#![tactic(auto)]

ghost use Rattle.std.specs.Prelude.{◌≡◌};
ghost use Rattle.message_places.specs.Owed.{owed_in, kept_owed};
ghost use Rattle.message_receiving.specs.Receiving.{is_held_by, owed_after, taken_by, received_answer};
ghost use Rattle.message_rules.specs.Rules.Hearing.{answer_to};
ghost use Rattle.message_sources.specs.Sources.{sources_in};

use boundary_answers::done;
use message::{Delivery, Judged, Letter};
use message_answers::{Reception, handed_over, told};
use message_judging::confirmation_of;
use message_places::OWED_NUMBERS;

// Whether its confirmation would be the ninth.
fn is_held(owed: &[u32; OWED_NUMBERS], judged: Judged, letter: Letter) -> bool
    ensures { result ≡ is_held_by (owed_in owed.now) judged letter }
{
    !message_tests::to_all(letter.message.destination)
        && message_owed::is_full(owed, confirmation_of(judged, letter))
}

// One to all isn't confirmed.
#[tactic(auto, using(message_owed::specs::Laws::owed_same))]
fn owe_for(owed: &mut [u32; OWED_NUMBERS], judged: Judged, letter: Letter)
    ensures owed_after { owed_in owed.new ≡ owed_after (owed_in owed.old) judged letter }
    ensures owed_after_2 { owed.new ≡ kept_owed owed.old (owed_after (owed_in owed.old) judged letter) }
{
    if !message_tests::to_all(letter.message.destination) {
        message_owed::owe(owed, confirmation_of(judged, letter));
    }
}

// Only a new message is handed over.
fn answer_to(judged: Judged, letter: Letter) -> Reception
    ensures { result ≡ received_answer (answer_to judged letter) }
{
    match judged {
        Judged::Abnormal | Judged::OtherVersion | Judged::Repeat => told(done()),
        Judged::New => handed_over(Delivery {
            source: letter.source,
            message: letter.message,
            octets: letter.octets,
        }),
    }
}

// One whose confirmation would be the ninth changes nothing and isn't handed over: its sender sends it again.
#[tactic(auto, using(message_owed::specs::Laws::owed_same), unfolding(crate::specs::Receiving::taken_by))]
pub fn receive(
    owed: &mut [u32; OWED_NUMBERS],
    versions: &mut [u32; 256],
    one_to_one: &mut [u32; 256],
    to_all: &mut [u32; 256],
    letter: Letter,
) -> Reception
    ensures value { result ≡ received_answer (taken_by (owed_in owed.old) (sources_in versions.old one_to_one.old to_all.old) letter).answer }
    ensures owed_after { owed_in owed.new ≡ (taken_by (owed_in owed.old) (sources_in versions.old one_to_one.old to_all.old) letter).owed }
    ensures owed_after_2 { owed.new ≡ kept_owed owed.old (taken_by (owed_in owed.old) (sources_in versions.old one_to_one.old to_all.old) letter).owed }
    ensures versions_after { versions.new ≡ (taken_by (owed_in owed.old) (sources_in versions.old one_to_one.old to_all.old) letter).sources.versions }
    ensures one_to_one_after { one_to_one.new ≡ (taken_by (owed_in owed.old) (sources_in versions.old one_to_one.old to_all.old) letter).sources.one_to_one }
    ensures to_all_after { to_all.new ≡ (taken_by (owed_in owed.old) (sources_in versions.old one_to_one.old to_all.old) letter).sources.to_all }
{
    let judged = message_sources::judge(versions, one_to_one, to_all, letter);
    if is_held(owed, judged, letter) {
        return told(done());
    }
    owe_for(owed, judged, letter);
    message_sources::note(versions, one_to_one, to_all, judged, letter);
    answer_to(judged, letter)
}
