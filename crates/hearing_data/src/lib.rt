// The data of a cyclic frame that was heard.
#![tactic(auto)]

ghost use Rattle.std.specs.Prelude.{Ok, ◌≡◌};
ghost use Rattle.laws.specs.Usual.{true, length};
ghost use Rattle.frame.specs.Codes.{is_cyclic};
ghost use Rattle.frame_reading.specs.Reading.{read_body_of, data_of};
ghost use Rattle.station.specs.Rules.Data.{gathered_from};
ghost use Rattle.station.specs.Rules.Hearing.{lent_right};

use area::Areas;
use frame::Fields;
use hearing_gathering::Stored;
use station::Gathering;

// What a cyclic frame adds to what was gathered. Its data are a part of the octets heard, and are not copied before they are gathered.
pub fn gather_frame(
    before: Gathering,
    listed: Areas,
    frame: Fields,
    octets: &[u8],
    memory: &mut [u8],
    assembly: &mut [u8],
) -> Stored
    requires assembly_value { lent_right memory.old assembly.old ≡ true }
    requires frame_value { read_body_of (length octets.now) frame ≡ Ok frame }
    requires code_value { is_cyclic frame.code ≡ true }
    ensures gathering_value { result.gathering ≡ (gathered_from before listed frame (data_of octets.now frame) assembly.old memory.old).gathering }
    ensures outcome_value { result.outcome ≡ (gathered_from before listed frame (data_of octets.now frame) assembly.old memory.old).outcome }
    ensures memory_after { memory.new ≡ (gathered_from before listed frame (data_of octets.now frame) assembly.old memory.old).memory }
    ensures assembly_after { assembly.new ≡ (gathered_from before listed frame (data_of octets.now frame) assembly.old memory.old).assembly }
{
    let part = frame_data::data_of(octets, frame);
    hearing_gathering::gather(before, listed, frame, part, assembly, memory)
}
