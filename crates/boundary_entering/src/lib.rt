// A frame that is not refused, and that no participant takes as a cyclic one: most leave the list alone, and some list one station in place.
#![tactic(auto)]

ghost use Rattle.std.specs.Prelude.{◌≡◌};
ghost use Rattle.laws.specs.Usual.{cond, ltb};
ghost use Rattle.boundary_answers.specs.Numbers.{heard_answer};
ghost use Rattle.boundary_core.specs.Crossing.{core_of, station_in};
ghost use Rattle.boundary_entering.specs.Effects.{effect_of};
ghost use Rattle.boundary_entering.specs.Entering.{requested_core, joined_core, fallen_core, ours_in};
ghost use Rattle.boundary_lists.specs.Lists.{members_in};
ghost use Rattle.frame_writing.specs.Writing.{no_areas};
ghost use Rattle.members.specs.Listing.{listing};
ghost use Rattle.station.specs.Rules.Hearing.{enters, enters_answer};
ghost use Rattle.station.specs.Rules.Starting.{joined_by};
ghost use Rattle.station.specs.Rules.State.{fresh};
ghost use Rattle.station.specs.declared.Phase.TheVariants as phases;

use area::Areas;
use boundary_beginning::begin;
use boundary_core::{Core, Outcome};
use frame::{Code, Fields};
use station::{Phase, Settings};

// What becomes of the list: nothing, its station is listed by its request, joining learns its station, or a phase begins with an empty list:
// ring startup, or joining, which learns from this frame.
#[derive(Clone, Copy)]
pub enum Effect {
    Nothing,
    Listed,
    Learned,
    Triggered,
    Joined,
}

fn listening_effect(code: Code) -> Effect
    ensures { result ≡ effect_of phases.Listening code }
{
    match code {
        Code::Token => Effect::Joined,
        Code::Cyclic => Effect::Nothing,
        Code::Request => Effect::Nothing,
        Code::Trigger => Effect::Triggered,
    }
}

fn startup_effect(code: Code) -> Effect
    ensures { result ≡ effect_of phases.Startup code }
{
    match code {
        Code::Token => Effect::Joined,
        Code::Cyclic => Effect::Nothing,
        Code::Request => Effect::Listed,
        Code::Trigger => Effect::Nothing,
    }
}

fn joining_effect(code: Code) -> Effect
    ensures { result ≡ effect_of phases.Joining code }
{
    match code {
        Code::Token => Effect::Learned,
        Code::Cyclic => Effect::Learned,
        Code::Request => Effect::Nothing,
        Code::Trigger => Effect::Nothing,
    }
}

fn participating_effect(code: Code) -> Effect
    ensures { result ≡ effect_of phases.Participating code }
{
    match code {
        Code::Token => Effect::Nothing,
        Code::Cyclic => Effect::Nothing,
        Code::Request => Effect::Listed,
        Code::Trigger => Effect::Nothing,
    }
}

fn effect_of(phase: Phase, code: Code) -> Effect
    ensures { result ≡ effect_of phase code }
{
    match phase {
        Phase::Off => Effect::Nothing,
        Phase::Listening => listening_effect(code),
        Phase::Startup => startup_effect(code),
        Phase::Joining => joining_effect(code),
        Phase::Participating => participating_effect(code),
    }
}

// Whether our request has fallen due.
fn has_fallen(core: Core) -> bool
    ensures { result ≡ fallen_core core }
{
    let number = core.own.number;
    let elapsed = core.elapsed;
    let waited = core.waited;
    let wait = waits_lengths::number_wait(number);
    match core.phase {
        Phase::Off => false,
        Phase::Listening => false,
        Phase::Startup => wait.0 <= elapsed.0,
        Phase::Joining => (core.rounds == 3) & (wait.0 <= waited.0),
        Phase::Participating => true,
    }
}

// Our areas once our request has fallen due, else areas that overlap nothing.
fn ours_in(core: Core) -> Areas
    ensures { result ≡ ours_in core }
{
    let own = core.own;
    if has_fallen(core) {
        own.areas
    } else {
        state_parts::no_areas()
    }
}

// A request that is listed.
fn request(
    core: Core,
    listed: &mut [bool; 256],
    areas: &mut [u16; boundary_lists::AREA_NUMBERS],
    watch: &mut [u8; 256],
    misses: &mut [u8; 256],
    frame: Fields,
) -> Core
    ensures value { result ≡ requested_core core frame }
    ensures misses_after { members_in listed.new areas.new watch.new misses.new ≡ listing (members_in listed.old areas.old watch.old misses.old) frame.source frame.areas frame.watch (ours_in core) }
{
    let parts = frame.areas;
    let time = frame.watch;
    let before = core.gathering;
    let ours = ours_in(core);
    boundary_listing::list(
        listed,
        areas,
        watch,
        misses,
        frame.source,
        parts,
        time,
        ours,
    );
    let gathering = state_parts::without(frame.source, before);
    Core { gathering, ..core }
}

// "Joining learns source, areas and watch time from cyclic frames for three rounds."
fn learn(
    rounds: u8,
    listed: &mut [bool; 256],
    areas: &mut [u16; boundary_lists::AREA_NUMBERS],
    watch: &mut [u8; 256],
    misses: &mut [u8; 256],
    frame: Fields,
)
    ensures { members_in listed.new areas.new watch.new misses.new ≡ cond (ltb rounds 3) (listing (members_in listed.old areas.old watch.old misses.old) frame.source frame.areas frame.watch no_areas) (members_in listed.old areas.old watch.old misses.old) }
{
    let parts = frame.areas;
    let time = frame.watch;
    if rounds < 3 {
        boundary_listing::list(
            listed,
            areas,
            watch,
            misses,
            frame.source,
            parts,
            time,
            state_parts::no_areas(),
        );
    }
}

// What joining notes beside.
fn join(core: Core, frame: Fields) -> Core
    ensures { result ≡ joined_core core frame }
{
    let before = core.elapsed;
    let elapsed = hearing_joining::elapsed_after(before, frame);
    let rounds = hearing_joining::rounds_after(core.rounds, frame);
    let view = hearing_joining::destination_after(core.view, frame);
    Core {
        phase: Phase::Joining,
        elapsed,
        rounds,
        sent: false,
        view,
        block: 0,
        ..core
    }
}

// "A token frame heard in listening .. or in ring startup goes to joining with an empty list, and is the first frame read there."
fn begin_joining(
    own: Settings,
    listed: &mut [bool; 256],
    areas: &mut [u16; boundary_lists::AREA_NUMBERS],
    watch: &mut [u8; 256],
    misses: &mut [u8; 256],
    frame: Fields,
) -> Core
    ensures value { result ≡ core_of (joined_by (fresh phases.Joining own) frame) }
    ensures misses_after { members_in listed.new areas.new watch.new misses.new ≡ (joined_by (fresh phases.Joining own) frame).members }
{
    let core = begin(Phase::Joining, own, listed, areas, watch, misses);
    learn(core.rounds, listed, areas, watch, misses, frame);
    join(core, frame)
}

pub fn hear(
    core: Core,
    listed: &mut [bool; 256],
    areas: &mut [u16; boundary_lists::AREA_NUMBERS],
    watch: &mut [u8; 256],
    misses: &mut [u8; 256],
    frame: Fields,
) -> Outcome
    ensures core_value { result.core ≡ core_of (enters core.phase frame.code (station_in core listed.old areas.old watch.old misses.old) frame) }
    ensures answer_value { result.answer ≡ heard_answer (enters_answer core.phase frame.code) }
    ensures misses_after { members_in listed.new areas.new watch.new misses.new ≡ (enters core.phase frame.code (station_in core listed.old areas.old watch.old misses.old) frame).members }
{
    let code = frame.code;
    let phase = core.phase;
    let answer = boundary_numbers::heard_answer(hearing_token::answer(phase, code));
    match effect_of(phase, code) {
        Effect::Nothing => Outcome { core, answer },
        Effect::Listed => {
            let core = request(core, listed, areas, watch, misses, frame);
            Outcome { core, answer }
        }
        Effect::Learned => {
            learn(core.rounds, listed, areas, watch, misses, frame);
            let core = join(core, frame);
            Outcome { core, answer }
        }
        Effect::Triggered => {
            let own = core.own;
            let core = begin(Phase::Startup, own, listed, areas, watch, misses);
            Outcome { core, answer }
        }
        Effect::Joined => {
            let own = core.own;
            let core = begin_joining(own, listed, areas, watch, misses, frame);
            Outcome { core, answer }
        }
    }
}
