// Asking for a frame.
#![tactic(auto)]

mod due;
mod sent;

ghost use Rattle.std.specs.Prelude.{Ok, Err, ◌≡◌, ◌≤◌};
ghost use Rattle.laws.specs.Usual.{true, [], length, drop};
ghost use Rattle.area.specs.Areas.{memory_octets};
ghost use Rattle.block.specs.Blocks.{start_of};
ghost use Rattle.frame_reading.specs.Reading.{data_size};
ghost use Rattle.station.specs.Rules.Asking.{is_placed, due_in, next_block, due_fields, turn_after, block_sent, sent_in, lent_right, ask_of};
ghost use Rattle.station.specs.declared.Phase.TheVariants.{Participating};
ghost use Rattle.frame_writing.specs.Writing.{whole_length, output_of};

use asking_bare::{request_fields, trigger_fields};
use due::is_due;
use frame::{Fields, Refusal};
use sent::{block_sent, request_sent};
use station::{Answered, Phase, Station};

fn refused(station: Station, refusal: Refusal) -> Answered<Result<usize, Refusal>>
    ensures station_value { result.station ≡ station }
    ensures answer_value { result.answer ≡ Err refusal }
{
    let answer = Err(refusal);
    Answered { station, answer }
}

// Writes a frame without data. The station is the one after it.
fn send_bare(
    station: Station,
    fields: Fields,
    output: &mut [u8],
) -> Answered<Result<usize, Refusal>>
    requires fields_value { data_size fields ≡ 0 }
    requires in_bounds { 1088 ≤ length output.old }
    ensures station_value { result.station ≡ station }
    ensures answer_value { result.answer ≡ Ok (whole_length fields) }
    ensures output_after { output.new ≡ output_of fields [] output.old }
{
    let answer = Ok(asking_bare::write_bare(fields, output));
    Answered { station, answer }
}

// The next block of our turn, to the station that the list has as next.
fn send_block(
    station: Station,
    memory: &[u8],
    turn: &mut [u8],
    output: &mut [u8],
) -> Answered<Result<usize, Refusal>>
    requires station_value { is_placed station ≡ true }
    requires memory_len { length memory.now ≡ memory_octets }
    requires turn_len { length turn.old ≡ memory_octets }
    requires in_bounds { 1088 ≤ length output.old }
    ensures station_value_2 { result.station ≡ block_sent station }
    ensures answer_value { result.answer ≡ Ok (whole_length (due_fields Participating station)) }
    ensures turn_after { turn.new ≡ turn_after Participating station memory.now turn.old }
    ensures output_after { output.new ≡ output_of (due_fields Participating station) (drop (start_of (next_block station)) (turn_after Participating station memory.now turn.old)) output.old }
{
    let own = station.own;
    let number = own.number;
    let members = station.members;
    let next = members_searching::next_after(number, members, number);
    let octets = asking_sending::send_next(own, station.block, next, memory, turn, output);
    let answer = Ok(octets);
    let station = block_sent(station, next);
    Answered { station, answer }
}

// The frame that is due. A station that is off has none.
fn send(
    station: Station,
    memory: &[u8],
    turn: &mut [u8],
    output: &mut [u8],
) -> Answered<Result<usize, Refusal>>
    requires station_value { due_in station.phase station ≡ true }
    requires output_value { lent_right memory.now turn.old output.old ≡ true }
    ensures station_value_2 { result.station ≡ sent_in station.phase station }
    ensures answer_value { result.answer ≡ Ok (whole_length (due_fields station.phase station)) }
    ensures turn_after { turn.new ≡ turn_after station.phase station memory.now turn.old }
    ensures output_after { output.new ≡ output_of (due_fields station.phase station) (drop (start_of (next_block station)) (turn_after station.phase station memory.now turn.old)) output.old }
{
    let phase = station.phase;
    let own = station.own;
    let members = station.members;
    match phase {
        Phase::Off => refused(station, Refusal::NotDue),
        Phase::Listening => send_bare(
            phases::fresh(Phase::Startup, own),
            trigger_fields(own.number),
            output,
        ),
        Phase::Startup => send_bare(request_sent(station), request_fields(own), output),
        Phase::Joining => send_bare(
            phases_participating::begin(own, members, station.view),
            request_fields(own),
            output,
        ),
        Phase::Participating => send_block(station, memory, turn, output),
    }
}

pub fn ask(
    station: Station,
    memory: &[u8],
    turn: &mut [u8],
    output: &mut [u8],
) -> Answered<Result<usize, Refusal>>
    ensures station_value { result.station ≡ (ask_of station memory.now turn.old output.old).station }
    ensures answer_value { result.answer ≡ (ask_of station memory.now turn.old output.old).answer }
    ensures turn_after { turn.new ≡ (ask_of station memory.now turn.old output.old).turn }
    ensures output_after { output.new ≡ (ask_of station memory.now turn.old output.old).output }
{
    if !asking_placing::is_lent_right(memory, turn, output) {
        return refused(station, Refusal::Buffer);
    }
    if !is_due(station) {
        return refused(station, Refusal::NotDue);
    }
    send(station, memory, turn, output)
}
