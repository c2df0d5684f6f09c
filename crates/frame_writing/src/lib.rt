// Writing a header of 64 octets.
#![tactic(auto)]

ghost use Rattle.std.specs.Prelude.{◌≡◌, ◌++◌, ◌≤◌};
ghost use Rattle.laws.specs.Usual.{length};
ghost use Rattle.copying.specs.Pasted.{pasted};
ghost use Rattle.frame_writing.specs.Parts.{front};
ghost use Rattle.frame_writing.specs.Writing.{words, back_of, header_of};

use area::{Areas, Part};
use frame::{Code, Fields, Refusal};
use units::Milliseconds;

// The first sixteen octets of a header, of a message's too: H_TYPE, TFL, SNA, DNA.
#[tactic(auto, using(crate::proofs::Octets::long_octets))]
pub fn header_front(whole: u32, source: u8, destination: u8) -> [u8; 16]
    ensures { result ≡ front whole source destination }
{
    let tfl = whole.to_be_bytes();
    [
        b'F',
        b'A',
        b'C',
        b'N',
        tfl[0],
        tfl[1],
        tfl[2],
        tfl[3],
        0,
        0,
        0,
        source,
        0,
        0,
        0,
        destination,
    ]
}

// An area's address and its size.
#[tactic(auto, using(crate::proofs::Octets::word_octets))]
fn part_octets(part: Part) -> [u8; 4]
    ensures { result ≡ words part.address part.size }
{
    let address = part.address.to_be_bytes();
    let size = part.size.to_be_bytes();
    [address[0], address[1], size[0], size[1]]
}

// The last twenty-four octets of the header: TCD, VER, the areas, MODE, P_TYPE, PRI, CBN, TBN, BSIZE, LKS, TW, RCT.
#[tactic(auto, using(crate::proofs::Octets::word_octets), unfolding(crate::specs::Writing::back_of))]
fn header_back(fields: Fields) -> [u8; 24]
    ensures { result ≡ back_of fields }
{
    let tcd = u16::from(fields.code).to_be_bytes();
    let one = part_octets(fields.areas.one);
    let two = part_octets(fields.areas.two);
    let size = fields.size.to_be_bytes();
    [
        tcd[0],
        tcd[1],
        0,
        0,
        one[0],
        one[1],
        one[2],
        one[3],
        two[0],
        two[1],
        two[2],
        two[3],
        0,
        0,
        0x80,
        0,
        fields.block,
        fields.blocks,
        size[0],
        size[1],
        0,
        fields.watch.0,
        0,
        0,
    ]
}

// Puts a header in front in the output, a message's too: its first sixteen octets, the next twenty-four, the last twenty-four.
#[tactic(auto, using(crate::proofs::Joined::joined))]
pub fn put_parts(front: &[u8; 16], between: &[u8; 24], back: &[u8; 24], output: &mut [u8])
    requires { 64 ≤ length output.old }
    ensures { output.new ≡ pasted output.old 0 ((front.now ++ between.now) ++ back.now) }
{
    copying::copy_into(front, output, 0);
    copying::copy_into(between, output, 16);
    copying::copy_into(back, output, 40);
}

#[tactic(auto, unfolding(crate::specs::Writing::front_of, crate::specs::Writing::header_of))]
fn put_header(fields: Fields, output: &mut [u8])
    requires { 64 ≤ length output.old }
    ensures { output.new ≡ pasted output.old 0 (header_of fields) }
{
    let front = header_front(fields.length, fields.source, fields.destination);
    let back = header_back(fields);
    put_parts(&front, &[0; 24], &back, output);
}

// Writes the header of these fields. They come one by one, in registers, for speed (docs/PERFORMANCE.md, "What was tried": asking took 56 ns in
// place of 67): a struct of them would be put together in memory, and reading its neighbouring numbers at once, right after, costs more than
// writing the header.
pub fn write_header(
    whole: u32,
    source: u8,
    destination: u8,
    code: Code,
    areas: Areas,
    block: u8,
    blocks: u8,
    size: u16,
    watch: Milliseconds,
    output: &mut [u8],
)
    requires { 64 ≤ length output.old }
    ensures { output.new ≡ pasted output.old 0 (header_of (record { length = whole; source = source; destination = destination; code = code; areas = areas; block = block; blocks = blocks; size = size; watch = watch })) }
{
    let fields = Fields {
        length: whole,
        source,
        destination,
        code,
        areas,
        block,
        blocks,
        size,
        watch,
    };
    put_header(fields, output);
}
