// A core put into the numbers that C keeps, in place.
#![tactic(auto)]

ghost use Rattle.std.specs.Prelude.{◌≡◌};
ghost use Rattle.boundary_places.specs.Places.{core_in, with_phase, kept};

use boundary_core::{Core, phase_number};
use boundary_places::NUMBERS;
use boundary_reading::phase_in;
use low_parts::{with_flag, with_octet, with_octets};
use station::Phase;

fn with_phase(number: u32, phase: Phase) -> u32
    ensures { result ≡ with_phase number phase }
{
    if phase_in(number) == phase {
        number
    } else {
        with_octet(number, phase_number(phase))
    }
}

fn put(numbers: &mut [u32; NUMBERS], core: Core)
    ensures { numbers.new ≡ kept numbers.old core }
{
    *numbers = [
        with_phase(numbers[0], core.phase),
        with_octet(numbers[1], core.own.number),
        with_octets(numbers[2], core.own.areas.one.address),
        with_octets(numbers[3], core.own.areas.one.size),
        with_octets(numbers[4], core.own.areas.two.address),
        with_octets(numbers[5], core.own.areas.two.size),
        with_octet(numbers[6], core.own.watch.0),
        with_octet(numbers[7], core.view),
        with_octet(numbers[8], core.block),
        core.elapsed.0,
        core.waited.0,
        with_octet(numbers[11], core.rounds),
        with_flag(numbers[12], core.sent),
        with_octet(numbers[13], core.gathering.source),
        with_octet(numbers[14], core.gathering.blocks),
        with_octet(numbers[15], core.panel.takings),
        core.panel.running.0,
        core.panel.gap.0,
    ];
}

// Puts a core into the numbers, which hold it then.
pub fn keep(numbers: &mut [u32; NUMBERS], core: Core)
    ensures numbers_after { numbers.new ≡ kept numbers.old core }
    ensures numbers_after_2 { core_in numbers.new ≡ core }
{
    put(numbers, core);
}
