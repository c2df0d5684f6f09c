// What is known of the sources, in three arrays of numbers with a place for each octet. They stay three parameters: C lends `message_hearing::hear` each apart.
#![tactic(auto)]

ghost use Rattle.std.specs.Prelude.{◌≡◌};
ghost use Rattle.laws.specs.Usual.{replicate};
ghost use Rattle.message.specs.declared.Judged.TheVariants.{OtherVersion, New};
ghost use Rattle.message_rules.specs.Rules.Hearing.{judge as judge_of};
ghost use Rattle.message_rules.specs.Rules.State.{known_of};
ghost use Rattle.message_sources.specs.Sources.{sources_in, sources_after};

use message::{Judged, Letter};
use message_tests::to_all as is_to_all;

pub fn judge(
    versions: &[u32; 256],
    one_to_one: &[u32; 256],
    to_all: &[u32; 256],
    letter: Letter,
) -> Judged
    ensures { result ≡ judge_of (known_of (sources_in versions.now one_to_one.now to_all.now) letter.source) letter }
{
    let place = usize::from(letter.source);
    message_judging::judge(versions[place], one_to_one[place], to_all[place], letter)
}

// Another version is registered, with no number yet.
fn register(
    versions: &mut [u32; 256],
    one_to_one: &mut [u32; 256],
    to_all: &mut [u32; 256],
    letter: Letter,
)
    ensures versions_after { versions.new ≡ (sources_after (sources_in versions.old one_to_one.old to_all.old) OtherVersion letter).versions }
    ensures one_to_one_after { one_to_one.new ≡ (sources_after (sources_in versions.old one_to_one.old to_all.old) OtherVersion letter).one_to_one }
    ensures to_all_after { to_all.new ≡ (sources_after (sources_in versions.old one_to_one.old to_all.old) OtherVersion letter).to_all }
{
    let place = usize::from(letter.source);
    versions[place] = letter.version;
    one_to_one[place] = 0;
    to_all[place] = 0;
}

fn note_new(
    versions: &mut [u32; 256],
    one_to_one: &mut [u32; 256],
    to_all: &mut [u32; 256],
    letter: Letter,
)
    ensures versions_after { versions.new ≡ (sources_after (sources_in versions.old one_to_one.old to_all.old) New letter).versions }
    ensures one_to_one_after { one_to_one.new ≡ (sources_after (sources_in versions.old one_to_one.old to_all.old) New letter).one_to_one }
    ensures to_all_after { to_all.new ≡ (sources_after (sources_in versions.old one_to_one.old to_all.old) New letter).to_all }
{
    let place = usize::from(letter.source);
    versions[place] = letter.version;
    if is_to_all(letter.message.destination) {
        to_all[place] = letter.number;
    } else {
        one_to_one[place] = letter.number;
    }
}

// What is known of the source after its message, by how that was judged.
pub fn note(
    versions: &mut [u32; 256],
    one_to_one: &mut [u32; 256],
    to_all: &mut [u32; 256],
    judged: Judged,
    letter: Letter,
)
    ensures versions_after { versions.new ≡ (sources_after (sources_in versions.old one_to_one.old to_all.old) judged letter).versions }
    ensures one_to_one_after { one_to_one.new ≡ (sources_after (sources_in versions.old one_to_one.old to_all.old) judged letter).one_to_one }
    ensures to_all_after { to_all.new ≡ (sources_after (sources_in versions.old one_to_one.old to_all.old) judged letter).to_all }
{
    match judged {
        Judged::Abnormal | Judged::Repeat => {}
        Judged::OtherVersion => register(versions, one_to_one, to_all, letter),
        Judged::New => note_new(versions, one_to_one, to_all, letter),
    }
}

pub fn forget(versions: &mut [u32; 256], one_to_one: &mut [u32; 256], to_all: &mut [u32; 256])
    ensures versions_after { versions.new ≡ replicate 256 0 }
    ensures one_to_one_after { one_to_one.new ≡ replicate 256 0 }
    ensures to_all_after { to_all.new ≡ replicate 256 0 }
{
    *versions = [0; 256];
    *one_to_one = [0; 256];
    *to_all = [0; 256];
}
