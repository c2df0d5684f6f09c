// The data of a frame that was read.
#![tactic(auto)]

ghost use Rattle.std.specs.Prelude.{◌≡◌, ◌-◌};
ghost use Rattle.frame_reading.specs.Reading.{data_size, data_of};

use frame::Fields;

// How many of the octets given stand before the last size of them.
pub fn header_part(given: usize, size: usize) -> usize
    ensures { result ≡ given - size }
{
    given.saturating_sub(size)
}

pub fn data_size(fields: Fields) -> usize
    ensures { result ≡ data_size fields }
{
    if frame::is_cyclic(fields.code) {
        fields.size as usize
    } else {
        0
    }
}

// "the data are the last BSIZE octets": a part of the frame's slice from its middle, handed on without a copy (paper 01, list of forms).
pub fn data_of(s: &[u8], fields: Fields) -> &[u8]
    ensures { result.now ≡ data_of s.now fields }
{
    let start = header_part(s.len(), data_size(fields));
    &s[start..]
}
