// The frames of FL-net: their fields, their codes, and what a station refuses.
#![tactic(auto)]

ghost use Rattle.std.specs.Prelude.{◌≡◌, ok_or};
ghost use Rattle.frame.specs.Codes.{code_of, code_number, is_token, is_cyclic, carries_areas};
ghost use Rattle.frame.specs.declared.Refusal.TheVariants as refusals;

use area::Areas;
use units::Milliseconds;

// The fields of a frame that the paper names, in the order of the header, each under the standard's symbol.
#[derive(Clone, Copy)]
pub struct Fields {
    // TFL
    pub length: u32,
    // SNA
    pub source: u8,
    // DNA
    pub destination: u8,
    // TCD
    pub code: Code,
    // C_AD1, C_SZ1, C_AD2, C_SZ2
    pub areas: Areas,
    // CBN
    pub block: u8,
    // TBN
    pub blocks: u8,
    // BSIZE
    pub size: u16,
    // TW
    pub watch: Milliseconds,
}

// 65000 cyclic with token, 65001 cyclic without, 65002 participation request, 65012 trigger.
#[derive(Clone, Copy, PartialEq, Eq)]
pub enum Code {
    Token,
    Cyclic,
    Request,
    Trigger,
}

// "Codes handled (document 003, B-9): 65000 cyclic with token": a match with single codes and ranges (paper 01, list of forms).
impl TryFrom<u16> for Code {
    type Error = Refusal;

    ghost try_from_gives = { λ number read. read ≡ ok_or (code_of number) refusals.Code };

    fn try_from(number: u16) -> Result<Self, Refusal> {
        match number {
            65000 => Ok(Code::Token),
            65001 => Ok(Code::Cyclic),
            65002 => Ok(Code::Request),
            65012 => Ok(Code::Trigger),
            0..=64999 | 65003..=65011 | 65013..=65535 => Err(Refusal::Code),
        }
    }
}

impl From<Code> for u16 {
    ghost from_gives = { λ code number. number ≡ code_number code };

    fn from(code: Code) -> Self {
        match code {
            Code::Token => 65000,
            Code::Cyclic => 65001,
            Code::Request => 65002,
            Code::Trigger => 65012,
        }
    }
}

pub fn is_token(code: Code) -> bool
    ensures { result ≡ is_token code }
{
    matches!(code, Code::Token)
}

pub fn is_cyclic(code: Code) -> bool
    ensures { result ≡ is_cyclic code }
{
    matches!(code, Code::Token | Code::Cyclic)
}

pub fn carries_areas(code: Code) -> bool
    ensures { result ≡ carries_areas code }
{
    code != Code::Trigger
}

// What the longest frame that we write takes: a header of 64 octets and a block of 1024. An output has room for it.
pub const OUTPUT_OCTETS: usize = 1088;

// Each refusal under the papers' word for it, in the order of the numbers.
#[derive(Clone, Copy, PartialEq, Eq)]
pub enum Refusal {
    Cut,
    Mark,
    Length,
    Code,
    Address,
    Taken,
    Area,
    Block,
    Stranger,
    NotDue,
    Buffer,
    Message,
    Waiting,
    Total,
    Number,
}
