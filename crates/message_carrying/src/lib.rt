// Putting a confirmation into a cyclic frame of ours.
#![tactic(auto)]

ghost use Rattle.std.specs.Prelude.{◌≡◌, ◌++◌, ◌+◌, ◌≤◌};
ghost use Rattle.laws.specs.Usual.{length, take, drop};
ghost use Rattle.message_frames.specs.Confirmations.{confirmation_octets, carrying};
ghost use Rattle.message_carrying.specs.Steps.{marked, moved};

use frame_reading::TFL;
use message::Confirmation;
use message_confirmations::{M_CTL, RPL};
use message_octets::octets_of;

// The twenty octets of a confirmation: A_VER, A_NUM, R_STS, R_TCD, R_NA, R_VSEQ, R_SEQ.
#[tactic(auto, using(frame_writing::proofs::Octets::word_octets))]
fn confirmation_octets(confirmation: Confirmation) -> [u8; 20]
    ensures { result ≡ confirmation_octets confirmation }
{
    let code = confirmation.code.to_be_bytes();
    let version = octets_of(confirmation.version);
    let number = octets_of(confirmation.number);
    [
        0,
        1,
        0,
        0,
        confirmation.status,
        0,
        code[0],
        code[1],
        0,
        0,
        0,
        confirmation.source,
        version[0],
        version[1],
        version[2],
        version[3],
        number[0],
        number[1],
        number[2],
        number[3],
    ]
}

// Sets TFL of a frame of so many octets to 20 more, and RPL.
#[tactic(auto, using(crate::proofs::Marked::marked_in_two))]
fn mark(count: usize, output: &mut [u8])
    requires count_bound { count ≤ 1088 }
    requires in_bounds { 64 ≤ length output.old }
    ensures { output.new ≡ marked count output.old }
{
    let tfl = octets_of(count as u32 + 20);
    copying::copy_into(&tfl, output, TFL);
    output[M_CTL] = RPL;
}

// Moves the octets behind the header up by 20 in place.
#[tactic(auto, using(crate::proofs::CopiedUp::copied_up))]
fn move_up(count: usize, output: &mut [u8])
    requires le_count { 64 ≤ count }
    requires count_in_bounds { count + 20 ≤ length output.old }
    ensures { output.new ≡ moved count output.old }
{
    output.copy_within(64..count, 84);
}

// Puts a confirmation into the frame of `count` octets that stands in front in the output. Every cyclic frame that we write has 64 to 1088;
// that 20 more fit is asked before.

pub fn carry(confirmation: Confirmation, count: usize, output: &mut [u8])
    requires le_count { 64 ≤ count }
    requires count_bound { count ≤ 1088 }
    requires count_in_bounds { count + 20 ≤ length output.old }
    ensures { output.new ≡ carrying confirmation (take count output.old) ++ drop (count + 20) output.old }
{
    let octets = confirmation_octets(confirmation);
    mark(count, output);
    move_up(count, output);
    copying::copy_into(&octets, output, 64);
}
