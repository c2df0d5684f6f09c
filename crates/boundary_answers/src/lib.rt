// The answers as numbers, for C.
#![tactic(auto)]

ghost use Rattle.std.specs.Prelude.{◌≡◌};
ghost use Rattle.boundary_answers.specs.Numbers.{off_answer, done_answer, refused_answer, frame_answer};

use frame::Refusal;

// Where a frame comes from and goes to, and its code.
#[repr(C)]
#[derive(Clone, Copy)]
pub struct Route {
    pub code: u16,
    pub source: u8,
    pub destination: u8,
}

// An answer of any call, in numbers, as C has it (`flnet_answer`). What the word does not point to is 0.
#[repr(C)]
#[derive(Clone, Copy)]
pub struct Answer {
    pub word: u8,
    pub refusal: u8,
    pub token: u8,
    pub outcome: u8,
    pub frame: Route,
    pub octets: usize,
}

// The word of an answer that is a frame, and of one that is a refusal.
pub const FRAME: u8 = 3;

pub const REFUSED: u8 = 4;

// Of no frame.
pub const NO_FRAME: Route = Route {
    code: 0,
    source: 0,
    destination: 0,
};

pub fn off() -> Answer
    ensures { result ≡ off_answer }
{
    Answer {
        word: 0,
        refusal: 0,
        token: 0,
        outcome: 0,
        frame: NO_FRAME,
        octets: 0,
    }
}

pub fn done() -> Answer
    ensures { result ≡ done_answer }
{
    Answer {
        word: 1,
        refusal: 0,
        token: 0,
        outcome: 0,
        frame: NO_FRAME,
        octets: 0,
    }
}

pub fn refused(refusal: Refusal) -> Answer
    ensures { result ≡ refused_answer refusal }
{
    Answer {
        word: REFUSED,
        refusal: frame_refusals::number_of(refusal),
        token: 0,
        outcome: 0,
        frame: NO_FRAME,
        octets: 0,
    }
}

// A frame of so many octets.
pub fn frame_answer(octets: usize) -> Answer
    ensures { result ≡ frame_answer octets }
{
    Answer {
        word: FRAME,
        refusal: 0,
        token: 0,
        outcome: 0,
        frame: NO_FRAME,
        octets,
    }
}
