// Reading the input of `settle`: the ring, or the number of the first bad line.
#![tactic(auto)]

ghost use Rattle.std.specs.Prelude.{◌≡◌};
ghost use Rattle.laws.specs.Usual.{length};
ghost use Rattle.settle_input.specs.Input.{number_in, place_in, entry_of, first_line, forms_of, read_of};

use settle_views::Ring;
use text_reading::decimal_in;

// What a line says.
#[derive(Clone, Copy)]
pub struct Entry {
    pub station: u8,
    pub view: u8,
}

// The number of the first bad line, or 0 where there is no line.
#[derive(Clone, Copy, Debug, PartialEq, Eq)]
pub struct BadLine(pub u32);

// The number that the octets are, where they are a number of 1 to 254 without leading zeros.
fn number_in(octets: &[u8]) -> Option<u8>
    ensures { result ≡ number_in octets.now }
{
    match decimal_in(octets, 254)? {
        0 => None,
        number => Some(number as u8),
    }
}

// The place of the first mark.
fn place_in(octets: &[u8], mark: u8) -> Option<usize>
    ensures { result ≡ place_in mark octets.now }
{
    octets.iter().position(|&octet| octet == mark)
}

// The length of the first line, its line feed included.
fn line_length(octets: &[u8]) -> usize
    ensures { result ≡ length (first_line octets.now) }
{
    match place_in(octets, b'\n') {
        Some(place) => place + 1,
        None => octets.len(),
    }
}

fn entry_of(line: &[u8]) -> Option<Entry>
    ensures { result ≡ entry_of line.now }
{
    let comma = place_in(line, b',')?;
    let rest = &line[comma + 1..];
    let end = place_in(rest, b'\n')?;
    let station = number_in(&line[..comma])?;
    let view = number_in(&rest[..end])?;
    Some(Entry { station, view })
}

// A loop, since slices have no `split_inclusive` here.
fn read_forms(input: &[u8]) -> Result<Ring, BadLine>
    ensures { result ≡ forms_of input.now }
{
    let mut views = [0u8; 256];
    let mut below: u8 = 0;
    let mut line: u32 = 1;
    let mut rest = input;
    while !rest.is_empty() {
        let (first, behind) = rest.split_at(line_length(rest));
        match entry_of(first) {
            Some(entry) if below < entry.station => {
                views[entry.station as usize] = entry.view;
                below = entry.station;
            }
            _ => return Err(BadLine(line)),
        }
        line += 1;
        rest = behind;
    }
    Ok(Ring { views })
}

pub fn read_ring(input: &[u8]) -> Result<Ring, BadLine>
    ensures { result ≡ read_of input.now }
{
    if input.is_empty() {
        return Err(BadLine(0));
    }
    let ring = read_forms(input)?;
    match settle_views::first_unlisted(ring) {
        Some(line) => Err(BadLine(line)),
        None => Ok(ring),
    }
}
