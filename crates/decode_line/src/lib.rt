// One line of a capture: hexadecimal digits in, the frame's fields or a refusal out. The digits come one by one, so that a line of any length
// needs no more memory than the longest frame.
#![tactic(auto)]

ghost use Rattle.std.specs.Prelude.{◌≡◌};
ghost use Rattle.laws.specs.Usual.{length, take, set};
ghost use Rattle.frame_reading.specs.Reading.{read_of};
ghost use Rattle.decode_line.specs.Gathering.{fresh, octet_of, count_after, placed, stored, pushed, buffer_after, answered, begun};

use frame::{Fields, Refusal};
use text_hexadecimal::digit_of;
use text_scanning::Gathers;

// How far a line has come.
#[derive(Clone, Copy)]
pub enum Pending {
    // Every digit so far is half of an octet that is stored.
    Nothing,
    // A digit waits for the second half of its octet.
    Half(u8),
    // There was an octet that is no digit.
    Bad,
}

// A line so far: the number of octets stored at the front of the buffer, and what is pending.
#[derive(Clone, Copy)]
pub struct Gathered {
    pub count: usize,
    pub pending: Pending,
}

// What is answered to a line: one of the three words `frame`, `refused` and `bad`. An Option would leave the last without its name.
#[derive(Clone, Copy)]
pub enum Answer {
    Heard(Result<Fields, Refusal>),
    Bad,
}

pub fn start() -> Gathered
    ensures { result ≡ fresh }
{
    let pending = Pending::Nothing;
    Gathered { count: 0, pending }
}

// Stores an octet, where the buffer has room for it.
fn store(count: usize, octet: u8, buffer: &mut [u8]) -> usize
    ensures value { result ≡ count_after (length buffer.old) count }
    ensures buffer_after { buffer.new ≡ set buffer.old count octet }
{
    if count < buffer.len() {
        buffer[count] = octet;
        return count + 1;
    }
    count
}

fn octet_of(high: u8, low: u8) -> u8
    ensures { result ≡ octet_of high low }
{
    high % 16 * 16 + low % 16
}

fn place(count: usize, pending: Pending, digit: u8, buffer: &mut [u8]) -> Gathered
    ensures value { result ≡ placed (length buffer.old) count digit pending }
    ensures buffer_after { buffer.new ≡ stored count digit buffer.old pending }
{
    match pending {
        Pending::Nothing => Gathered {
            count,
            pending: Pending::Half(digit),
        },
        Pending::Half(high) => Gathered {
            count: store(count, octet_of(high, digit), buffer),
            pending: Pending::Nothing,
        },
        Pending::Bad => Gathered { count, pending },
    }
}

// Each pair of digits is stored as an octet.
impl Gathers for Gathered {
    ghost pushed = { pushed };

    ghost stored = { buffer_after };

    fn push(&mut self, octet: u8, buffer: &mut [u8]) {
        match digit_of(octet) {
            Some(digit) => *self = place(self.count, self.pending, digit, buffer),
            None => self.pending = Pending::Bad,
        }
    }
}

// What was stored at the front of the buffer, read as a frame.
fn hear(count: usize, buffer: &[u8]) -> Result<Fields, Refusal>
    ensures { result ≡ read_of (take count buffer.now) }
{
    frame_body::read_frame(buffer.get(..count).unwrap_or(buffer))
}

// The answer to a line that has come whole.
pub fn answer_to(gathered: Gathered, buffer: &[u8]) -> Answer
    ensures { result ≡ answered gathered buffer.now }
{
    let pending = gathered.pending;
    match pending {
        Pending::Nothing => Answer::Heard(hear(gathered.count, buffer)),
        Pending::Half(_) => Answer::Bad,
        Pending::Bad => Answer::Bad,
    }
}

// Whether any octet of the line has come.
pub fn has_begun(gathered: Gathered) -> bool
    ensures { result ≡ begun gathered }
{
    let pending = gathered.pending;
    match pending {
        Pending::Nothing => 0 < gathered.count,
        Pending::Half(_) => true,
        Pending::Bad => true,
    }
}
