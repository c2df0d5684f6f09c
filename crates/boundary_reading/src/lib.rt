// The core taken out of the numbers that C keeps.
#![tactic(auto)]

ghost use Rattle.std.specs.Prelude.{◌≡◌};
ghost use Rattle.laws.specs.Usual.{length};
ghost use Rattle.boundary_places.specs.Places.{phase_in, settings_in, gathering_in, panel_in, core_in};

use area::{Areas, Part};
use boundary_core::{Core, phase_of};
use boundary_places::NUMBERS;
use low_parts::{flag_of, octet_of, octets_of};
use panel::Panel;
use station::{Gathering, Phase, Settings};
use units::{Milliseconds, Ticks};

// A number that is no phase's counts as off.
pub fn phase_in(number: u32) -> Phase
    ensures { result ≡ phase_in number }
{
    let octet = octet_of(number);
    phase_of(octet)
}

// The numbers are read as a slice, since a proof is told the length of a slice, and not of an array behind a reference.
fn settings_in(numbers: &[u32]) -> Settings
    requires { length numbers.now ≡ 18 }
    ensures { result ≡ settings_in numbers.now }
{
    let one = Part {
        address: octets_of(numbers[2]),
        size: octets_of(numbers[3]),
    };
    let two = Part {
        address: octets_of(numbers[4]),
        size: octets_of(numbers[5]),
    };
    Settings {
        number: octet_of(numbers[1]),
        areas: Areas { one, two },
        watch: Milliseconds(octet_of(numbers[6])),
    }
}

fn gathering_in(numbers: &[u32]) -> Gathering
    requires { length numbers.now ≡ 18 }
    ensures { result ≡ gathering_in numbers.now }
{
    Gathering {
        source: octet_of(numbers[13]),
        blocks: octet_of(numbers[14]),
    }
}

fn panel_in(numbers: &[u32]) -> Panel
    requires { length numbers.now ≡ 18 }
    ensures { result ≡ panel_in numbers.now }
{
    Panel {
        takings: octet_of(numbers[15]),
        running: Ticks(numbers[16]),
        gap: Ticks(numbers[17]),
    }
}

fn read(numbers: &[u32]) -> Core
    requires { length numbers.now ≡ 18 }
    ensures { result ≡ core_in numbers.now }
{
    let own = settings_in(numbers);
    let panel = panel_in(numbers);
    let gathering = gathering_in(numbers);
    Core {
        phase: phase_in(numbers[0]),
        own,
        view: octet_of(numbers[7]),
        block: octet_of(numbers[8]),
        elapsed: Ticks(numbers[9]),
        waited: Ticks(numbers[10]),
        rounds: octet_of(numbers[11]),
        sent: flag_of(numbers[12]),
        gathering,
        panel,
    }
}

pub fn core_in(numbers: &[u32; NUMBERS]) -> Core
    ensures value { result ≡ core_in numbers.now }
    ensures numbers_len { length numbers.now ≡ 18 }
{
    read(numbers)
}
