// The confirmations owed, in the numbers that C keeps: how many, then three numbers for each, the oldest first.
#![tactic(auto)]

ghost use Rattle.std.specs.Prelude.{◌≡◌, ◌∷◌, ◌++◌, ◌+◌, ◌<◌, ◌≤◌};
ghost use Rattle.laws.specs.Usual.{false, List, [], length, take, drop};
ghost use Rattle.message_owed.specs.Owing.{owing_where_free, is_owing, confirmation_at};
ghost use Rattle.message_places.specs.Owed.{head_of, count_in, owed_in, kept_owed};
ghost use Rattle.message_rules.specs.Rules.Confirming.{is_owed, is_full};

use low_parts::octet_of;
use message::Confirmation;
use message_judging::same;
use message_places::OWED_NUMBERS;

// As many as one cyclic transmission may carry.
const MOST: u32 = 8;

// Nothing is done to the numbers. A proof is told here how many they are.
pub fn leave(owed: &[u32; OWED_NUMBERS])
    ensures { length owed.now ≡ 25 }
{}

fn count_in(number: u32) -> u32
    ensures { result ≡ count_in number }
{
    number.min(MOST)
}

fn head_of(confirmation: Confirmation) -> u32
    ensures { result ≡ head_of confirmation }
{
    u32::from(confirmation.status)
        + 256 * u32::from(confirmation.source)
        + 65536 * u32::from(confirmation.code)
}

// The confirmation from a place on.
fn confirmation_at(numbers: &[u32], at: usize) -> Confirmation
    requires { at + 2 < length numbers.now }
    ensures { result ≡ confirmation_at numbers.now at }
{
    let head = numbers[at];
    Confirmation {
        status: octet_of(head),
        source: octet_of(head / 256),
        code: (head / 65536) as u16,
        version: numbers[at + 1],
        number: numbers[at + 2],
    }
}

fn is_owed(owed: &[u32; OWED_NUMBERS], confirmation: Confirmation) -> bool
    ensures { result ≡ is_owed confirmation (owed_in owed.now) }
{
    let count = count_in(owed[0]) as usize;
    owed[1..1 + 3 * count]
        .chunks_exact(3)
        .any(|row| same(confirmation, confirmation_at(row, 0)))
}

pub fn is_full(owed: &[u32; OWED_NUMBERS], confirmation: Confirmation) -> bool
    ensures { result ≡ is_full confirmation (owed_in owed.now) }
{
    MOST <= owed[0] && !is_owed(owed, confirmation)
}

// Puts one that is not owed yet behind the others, where there are fewer than eight.
fn add(owed: &mut [u32; OWED_NUMBERS], confirmation: Confirmation)
    requires { is_owed confirmation (owed_in owed.old) ≡ false }
    ensures { owed.new ≡ kept_owed owed.old (owing_where_free confirmation (owed_in owed.old)) }
{
    let count = owed[0];
    if count < MOST {
        let at = 1 + 3 * (count as usize);
        owed[at] = head_of(confirmation);
        owed[at + 1] = confirmation.version;
        owed[at + 2] = confirmation.number;
        owed[0] = count + 1;
    }
}

pub fn owe(owed: &mut [u32; OWED_NUMBERS], confirmation: Confirmation)
    ensures owed_after { owed_in owed.new ≡ owing_where_free confirmation (owed_in owed.old) }
    ensures owed_after_2 { owed.new ≡ kept_owed owed.old (owing_where_free confirmation (owed_in owed.old)) }
{
    if !is_owed(owed, confirmation) {
        add(owed, confirmation);
    }
}

pub fn is_owing(owed: &[u32; OWED_NUMBERS]) -> bool
    ensures { result ≡ is_owing (owed_in owed.now) }
{
    owed[0] != 0
}

// Of nothing it answers what stands in the first place.
pub fn oldest(owed: &[u32; OWED_NUMBERS]) -> Confirmation
    ensures { (first : Confirmation) (rest : List Confirmation) → owed_in owed.now ≡ first ∷ rest → result ≡ first }
{
    confirmation_at(owed, 1)
}

// The oldest one, where any is owed.
pub fn first_owed(owed: &[u32; OWED_NUMBERS]) -> Option<Confirmation>
    ensures value { (first : Confirmation) (rest : List Confirmation) → owed_in owed.now ≡ first ∷ rest → result ≡ Some first }
    ensures none { owed_in owed.now ≡ [] → result ≡ None }
{
    if is_owing(owed) {
        Some(oldest(owed))
    } else {
        None
    }
}

// Of nothing it drops nothing.
pub fn drop_oldest(owed: &mut [u32; OWED_NUMBERS])
    ensures owed_after { owed_in owed.new ≡ drop 1 (owed_in owed.old) }
    ensures owed_after_2 { owed.new ≡ kept_owed owed.old (drop 1 (owed_in owed.old)) }
{
    let count = count_in(owed[0]);
    if 0 < count {
        owed.copy_within(4..1 + 3 * (count as usize), 1);
        owed[0] = count - 1;
    }
}

pub fn forget(owed: &mut [u32; OWED_NUMBERS])
    ensures owed_after { owed_in owed.new ≡ [] }
    ensures owed_after_2 { owed.new ≡ kept_owed owed.old [] }
{
    owed[0] = 0;
}
