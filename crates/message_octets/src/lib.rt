// The octets of a number that a message or a confirmation carries.
#![tactic(auto)]

ghost use Rattle.std.specs.Prelude.{◌≡◌};
ghost use Rattle.frame_writing.specs.Writing.{long};

// A number in four octets, the most significant first (clause 8.3).
#[tactic(auto, using(frame_writing::proofs::Octets::long_octets))]
pub fn octets_of(number: u32) -> [u8; 4]
    ensures { result ≡ long number }
{
    number.to_be_bytes()
}
