// Judging a message that came for us, its confirmation, and which message a confirmation speaks of.
#![tactic(auto)]

ghost use Rattle.std.specs.Prelude.{◌≡◌};
ghost use Rattle.laws.specs.Usual.{cond};
ghost use Rattle.message.specs.Codes.{to_all as is_to_all};
ghost use Rattle.message.specs.Words.{status_of, mail_number};
ghost use Rattle.message_judging.specs.Parts.{speaks_by};
ghost use Rattle.message_rules.specs.Rules.Confirming.{same_confirmation};
ghost use Rattle.message_rules.specs.Rules.Hearing.{judge as judge_of, confirmation_of};

use message::{Confirmation, Judged, Letter, Mail, Slot};

// The number that a message is held against.
fn last_of(one_to_one: u32, to_all: u32, letter: Letter) -> u32
    ensures { result ≡ cond (is_to_all letter.message.destination) to_all one_to_one }
{
    if message_tests::to_all(letter.message.destination) {
        to_all
    } else {
        one_to_one
    }
}

// By what is known of its source: the version, and the last number one to one and to all.
pub fn judge(version: u32, one_to_one: u32, to_all: u32, letter: Letter) -> Judged
    ensures { result ≡ judge_of (record { version = version; one_to_one = one_to_one; to_all = to_all }) letter }
{
    if letter.version == 0 || letter.number == 0 {
        Judged::Abnormal
    } else if version != 0 && version != letter.version {
        Judged::OtherVersion
    } else if letter.number == last_of(one_to_one, to_all, letter) {
        Judged::Repeat
    } else {
        Judged::New
    }
}

// R_STS. Several answers have one status, so this is a function of the judging and no `From`.
pub fn status_of(judged: Judged) -> u8
    ensures { result ≡ status_of judged }
{
    match judged {
        Judged::Abnormal => 6,
        Judged::OtherVersion => 5,
        Judged::Repeat => 1,
        Judged::New => 1,
    }
}

// What became of a message, for the host and for C. A `From<Mail> for u8` would have to stand in `message`, and be this `match`.
pub fn mail_number(mail: Mail) -> u8
    ensures { result ≡ mail_number mail }
{
    match mail {
        Mail::Nothing => 0,
        Mail::Waiting => 1,
        Mail::Unconfirmed => 2,
        Mail::Confirmed => 3,
        Mail::Sent => 4,
        Mail::Failed => 5,
    }
}

pub fn confirmation_of(judged: Judged, letter: Letter) -> Confirmation
    ensures { result ≡ confirmation_of judged letter }
{
    Confirmation {
        status: status_of(judged),
        source: letter.source,
        code: letter.message.code,
        version: letter.version,
        number: letter.number,
    }
}

pub fn same(a: Confirmation, b: Confirmation) -> bool
    ensures { result ≡ same_confirmation a b }
{
    a == b
}

// Whether a confirmation in a frame of this source speaks of the message in our slot, by our number and our version.
pub fn speaks_of(own: u8, version: u32, slot: Slot, source: u8, confirmation: Confirmation) -> bool
    ensures { result ≡ speaks_by own version slot source confirmation }
{
    message_tests::is_unconfirmed(slot.mail)
        && slot.message.destination == source
        && slot.message.code == confirmation.code
        && slot.number == confirmation.number
        && own == confirmation.source
        && version == confirmation.version
}
