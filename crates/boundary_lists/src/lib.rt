// The station list in arrays of numbers, which a host can lend and a call can change in place. A number's flag, watch time and misses stand
// at the number's place, its areas in the four places from four times the number on. C lends the four arrays apart (each call that takes `listed`
// in `flnet_station`), and each goes on as it was lent: a struct of four references would have to be made in each exported call, and each contract
// would name its four fields where it now names the arrays.
#![tactic(auto)]

ghost use Rattle.std.specs.Prelude.{◌≡◌};
ghost use Rattle.laws.specs.Usual.{false, get_or, set};
ghost use Rattle.members.specs.Members.{entry_of};
ghost use Rattle.boundary_lists.specs.Lists.{members_in};

use area::{Areas, Part};
use members::Entry;
use units::Milliseconds;

// Four numbers for the areas of each of 256 stations: address and size in area 1, and in area 2.
pub const AREA_NUMBERS: usize = 1024;

pub fn is_listed(listed: &[bool; 256], number: u8) -> bool
    ensures { result ≡ get_or listed.now number false }
{
    listed[number as usize]
}

pub fn entry_at(
    listed: &[bool; 256],
    areas: &[u16; AREA_NUMBERS],
    watch: &[u8; 256],
    misses: &[u8; 256],
    number: u8,
) -> Entry
    ensures { result ≡ entry_of (members_in listed.now areas.now watch.now misses.now) number }
{
    let place = number as usize;
    let start = 4 * place;
    Entry {
        listed: listed[place],
        areas: Areas {
            one: Part {
                address: areas[start],
                size: areas[start + 1],
            },
            two: Part {
                address: areas[start + 2],
                size: areas[start + 3],
            },
        },
        watch: Milliseconds(watch[place]),
        misses: misses[place],
    }
}

pub fn clear(misses: &mut [u8; 256], number: u8)
    ensures { misses.new ≡ set misses.old number 0 }
{
    misses[number as usize] = 0;
}
