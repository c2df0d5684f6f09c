// Reading a frame: its header, or the first of refusals 1 to 5 that applies.
#![tactic(auto)]

mod octets;
mod position;

ghost use Rattle.std.specs.Prelude.{◌≡◌, ◌≤◌};
ghost use Rattle.laws.specs.Usual.{length};
ghost use Rattle.frame_reading.specs.Reading.{marked, fields_of, is_station, addressed, read_header_of};

use area::{Areas, Part};
use frame::{Code, Fields, Refusal};
pub use octets::{long_at, word_at};
pub use position::{BSIZE, DNA, SNA, TCD, TFL};
use units::Milliseconds;

// The frame type mark, "FACN".
fn has_mark(s: &[u8]) -> bool
    ensures { result ≡ marked s.now }
{
    matches!(s, [b'F', b'A', b'C', b'N', ..])
}

#[tactic(auto, unfolding(crate::specs::Reading::fields_of))]
fn fields_of(code: Code, s: &[u8]) -> Fields
    requires { 64 ≤ length s.now }
    ensures { result ≡ fields_of code s.now }
{
    Fields {
        length: long_at(s, position::TFL),
        source: s[position::SNA],
        destination: s[position::DNA],
        code,
        areas: Areas {
            one: Part {
                address: word_at(s, position::C_AD1),
                size: word_at(s, position::C_SZ1),
            },
            two: Part {
                address: word_at(s, position::C_AD2),
                size: word_at(s, position::C_SZ2),
            },
        },
        block: s[position::CBN],
        blocks: s[position::TBN],
        size: word_at(s, position::BSIZE),
        watch: Milliseconds(s[position::TW]),
    }
}

pub fn is_station(number: u8) -> bool
    ensures { result ≡ is_station number }
{
    matches!(number, 1..=254)
}

fn is_addressed(fields: Fields) -> bool
    ensures { result ≡ addressed fields }
{
    is_station(fields.source) && (!frame::is_token(fields.code) || is_station(fields.destination))
}

// What it answers is not yet a frame: refusals 7, 14, 15 and 8 are asked by frame_body::read_body.
pub fn read_header(s: &[u8]) -> Result<Fields, Refusal>
    ensures { result ≡ read_header_of s.now }
{
    if !matches!(s.len(), 64..=1120) {
        return Err(Refusal::Cut);
    }
    if !has_mark(s) {
        return Err(Refusal::Mark);
    }
    if long_at(s, position::TFL) as usize != s.len() {
        return Err(Refusal::Length);
    }
    let code = Code::try_from(word_at(s, position::TCD))?;
    let fields = fields_of(code, s);
    if !is_addressed(fields) {
        return Err(Refusal::Address);
    }
    Ok(fields)
}
