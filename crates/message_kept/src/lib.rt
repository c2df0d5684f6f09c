// The outgoing side taken out of the numbers that C keeps, and put into them in place.
#![tactic(auto)]

ghost use Rattle.std.specs.Prelude.{◌≡◌};
ghost use Rattle.laws.specs.Usual.{length};
ghost use Rattle.message_places.specs.Places.{mail_at, mail_in, message_in, slot_in, outgoing_in, with_mail, kept_outgoing};

use low_parts::{flag_of, octet_of, octets_of, with_flag, with_octet, with_octets};
use message::{Cycle, Mail, Message, Slot};
use message_judging::mail_number;
use message_places::{Given, OUTGOING_NUMBERS, Outgoing, Went};

// The largest of the numbers that a message's mail has.
const MAIL_LARGEST: u8 = 5;

fn mail_at(number: u8) -> Mail
    ensures { result ≡ mail_at number }
{
    match number {
        1 => Mail::Waiting,
        2 => Mail::Unconfirmed,
        3 => Mail::Confirmed,
        4 => Mail::Sent,
        5 => Mail::Failed,
        _ => Mail::Nothing,
    }
}

fn mail_in(number: u32) -> u8
    ensures { result ≡ mail_in number }
{
    let octet = octet_of(number);
    if octet <= MAIL_LARGEST { octet } else { 0 }
}

fn message_in(numbers: &[u32; OUTGOING_NUMBERS]) -> Message
    ensures { result ≡ message_in numbers.now }
{
    Message {
        destination: octet_of(numbers[3]),
        code: octets_of(numbers[4]),
        size: octets_of(numbers[5]),
        address: numbers[6],
        result: octet_of(numbers[7]),
    }
}

fn slot_in(numbers: &[u32; OUTGOING_NUMBERS]) -> Slot
    ensures { result ≡ slot_in numbers.now }
{
    Slot {
        mail: mail_at(mail_in(numbers[2])),
        message: message_in(numbers),
        octets: octets_of(numbers[8]),
        number: numbers[9],
        ticks: octets_of(numbers[10]),
        takings: octet_of(numbers[11]),
        asked: flag_of(numbers[12]),
        resends: octet_of(numbers[13]),
    }
}

#[tactic(auto, unfolding(message_places::specs::Places::outgoing_in))]
pub fn outgoing_in(numbers: &[u32; OUTGOING_NUMBERS]) -> Outgoing
    ensures value { result ≡ outgoing_in numbers.now }
    ensures numbers_len { length numbers.now ≡ 18 }
{
    Outgoing {
        allowed: Cycle(octets_of(numbers[0])),
        version: numbers[1],
        slot: slot_in(numbers),
        given: Given {
            one: numbers[14],
            all: numbers[15],
        },
        went: Went {
            now: flag_of(numbers[16]),
            last: flag_of(numbers[17]),
        },
    }
}

// Nothing is done to the numbers. A proof is told here how many they are.
pub fn leave(numbers: &[u32; OUTGOING_NUMBERS])
    ensures { length numbers.now ≡ 18 }
{}

fn with_mail(number: u32, mail: Mail) -> u32
    ensures { result ≡ with_mail number mail }
{
    let after = mail_number(mail);
    if mail_in(number) == after {
        number
    } else {
        with_octet(number, after)
    }
}

#[tactic(auto, unfolding(message_places::specs::Places::kept_outgoing))]
fn put(numbers: &mut [u32; OUTGOING_NUMBERS], outgoing: Outgoing)
    ensures { numbers.new ≡ kept_outgoing numbers.old outgoing }
{
    let slot = outgoing.slot;
    let message = slot.message;
    *numbers = [
        with_octets(numbers[0], outgoing.allowed.0),
        outgoing.version,
        with_mail(numbers[2], slot.mail),
        with_octet(numbers[3], message.destination),
        with_octets(numbers[4], message.code),
        with_octets(numbers[5], message.size),
        message.address,
        with_octet(numbers[7], message.result),
        with_octets(numbers[8], slot.octets),
        slot.number,
        with_octets(numbers[10], slot.ticks),
        with_octet(numbers[11], slot.takings),
        with_flag(numbers[12], slot.asked),
        with_octet(numbers[13], slot.resends),
        outgoing.given.one,
        outgoing.given.all,
        with_flag(numbers[16], outgoing.went.now),
        with_flag(numbers[17], outgoing.went.last),
    ];
}

// Puts an outgoing side into the numbers, which hold it then.
pub fn keep(numbers: &mut [u32; OUTGOING_NUMBERS], outgoing: Outgoing)
    ensures numbers_after { numbers.new ≡ kept_outgoing numbers.old outgoing }
    ensures numbers_after_2 { outgoing_in numbers.new ≡ outgoing }
{
    put(numbers, outgoing);
}
