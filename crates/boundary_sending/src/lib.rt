// A holder's block, sent with the list in place.
#![tactic(auto)]

ghost use Rattle.std.specs.Prelude.{◌≡◌};
ghost use Rattle.laws.specs.Usual.{true};
ghost use Rattle.boundary_core.specs.Crossing.{core_of, station_in};
ghost use Rattle.boundary_told.specs.Told.{asked_told};
ghost use Rattle.boundary_holder.specs.Held.{holds_block};
ghost use Rattle.station.specs.Rules.Asking.{lent_right, ask_of};

use boundary_answers::frame_answer;
use boundary_core::{Core, Outcome};
use boundary_holder::sent_block;

pub fn ask(
    core: Core,
    listed: &[bool; 256],
    areas: &[u16; boundary_lists::AREA_NUMBERS],
    watch: &[u8; 256],
    misses: &[u8; 256],
    memory: &[u8],
    turn: &mut [u8],
    output: &mut [u8],
) -> Outcome
    requires core_value { holds_block core ≡ true }
    requires output_value { lent_right memory.now turn.old output.old ≡ true }
    ensures core_value_2 { result.core ≡ core_of (ask_of (station_in core listed.now areas.now watch.now misses.now) memory.now turn.old output.old).station }
    ensures answer_value { result.answer ≡ asked_told (ask_of (station_in core listed.now areas.now watch.now misses.now) memory.now turn.old output.old).output (ask_of (station_in core listed.now areas.now watch.now misses.now) memory.now turn.old output.old).answer }
    ensures turn_after { turn.new ≡ (ask_of (station_in core listed.now areas.now watch.now misses.now) memory.now turn.old output.old).turn }
    ensures output_after { output.new ≡ (ask_of (station_in core listed.now areas.now watch.now misses.now) memory.now turn.old output.old).output }
{
    let own = core.own;
    let next = boundary_next::next_after_ours(own.number, listed);
    let octets = asking_sending::send_next(own, core.block, next, memory, turn, output);
    let answer = boundary_written::tell_written(frame_answer(octets), output);
    Outcome {
        core: sent_block(core, next),
        answer,
    }
}
