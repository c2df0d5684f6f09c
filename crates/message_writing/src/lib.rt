// Writing a message frame: a header of 64 octets, and the data behind it.
#![tactic(auto)]

ghost use Rattle.std.specs.Prelude.{◌≡◌, ◌+◌, ◌≤◌};
ghost use Rattle.laws.specs.Usual.{length};
ghost use Rattle.copying.specs.Pasted.{pasted};
ghost use Rattle.message_frames.specs.Frames.{control_of, header_of, output_of};
ghost use Rattle.message_writing.specs.Parts.{middle_of, back_of};

use message::Letter;
use message_octets::octets_of;

// The bits of M_CTL, in its first octet: a message to all, and one to one.
const BCT: u8 = 0x80;

const PPT: u8 = 0x40;

fn control_of(letter: Letter) -> u8
    ensures { result ≡ control_of letter }
{
    if letter.message.destination == 0xff {
        BCT
    } else {
        PPT
    }
}

// The twenty-four octets behind the first sixteen: V_SEQ, SEQ, M_CTL, ULS, M_SZ, M_ADD, MFT, M_RLT and two octets unused.
#[tactic(auto, using(frame_writing::proofs::Octets::word_octets), unfolding(crate::specs::Parts::middle_of))]
fn header_middle(letter: Letter) -> [u8; 24]
    ensures { result ≡ middle_of letter }
{
    let version = octets_of(letter.version);
    let number = octets_of(letter.number);
    let address = octets_of(letter.message.address);
    let size = letter.message.size.to_be_bytes();
    [
        version[0],
        version[1],
        version[2],
        version[3],
        number[0],
        number[1],
        number[2],
        number[3],
        control_of(letter),
        0,
        0,
        0,
        0,
        0,
        size[0],
        size[1],
        address[0],
        address[1],
        address[2],
        address[3],
        0,
        letter.message.result,
        0,
        0,
    ]
}

// The last twenty-four octets: TCD, VER, the areas, MODE, P_TYPE, PRI, CBN, TBN, BSIZE, LKS, TW, RCT.
#[tactic(auto, using(frame_writing::proofs::Octets::word_octets), unfolding(crate::specs::Parts::back_of))]
fn header_back(letter: Letter) -> [u8; 24]
    ensures { result ≡ back_of letter }
{
    let tcd = letter.message.code.to_be_bytes();
    let size = letter.octets.to_be_bytes();
    [
        tcd[0], tcd[1], 0, 0, 0, 0, 0, 0, 0, 0, 0, 0, 0, 0, 0x80, 0, 1, 1, size[0], size[1], 0, 0,
        0, 0,
    ]
}

#[tactic(auto, using(crate::specs::Parts::in_parts), unfolding(crate::specs::Parts::front_of))]
fn put_header(letter: Letter, output: &mut [u8])
    requires { 64 ≤ length output.old }
    ensures { output.new ≡ pasted output.old 0 (header_of letter) }
{
    let whole = 64 + letter.octets as u32;
    let front = frame_writing::header_front(whole, letter.source, letter.message.destination);
    let middle = header_middle(letter);
    let back = header_back(letter);
    frame_writing::put_parts(&front, &middle, &back, output);
}

// Writes the frame of a message whose data are the first octets of what is lent. A caller has seen to it that they are lent, and that there is room.
#[tactic(auto, using(crate::specs::Steps::in_two_steps))]
pub fn write(letter: Letter, mail: &[u8], output: &mut [u8])
    requires octets_in_bounds { letter.octets ≤ length mail.now }
    requires octets_in_bounds_2 { 64 + letter.octets ≤ length output.old }
    ensures { output.new ≡ output_of letter mail.now output.old }
{
    let size = letter.octets as usize;
    put_header(letter, output);
    copying::copy_into(&mail[..size], output, 64);
}
