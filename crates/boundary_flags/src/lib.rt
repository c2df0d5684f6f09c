// The first listed number from a number on, by the flags alone of a station list in arrays.
#![tactic(auto)]

ghost use Rattle.std.specs.Prelude.{◌≡◌, ◌+◌, ◌≤◌};
ghost use Rattle.laws.specs.Usual.{min};
ghost use Rattle.members_searching.specs.Search.{first_from, number_or};
ghost use Rattle.boundary_lists.specs.Lists.{flagged, any_of_four, any_of_sixteen};

fn any_of_four(listed: &[bool; 256], from: usize) -> bool
    requires { from + 4 ≤ 256 }
    ensures { result ≡ any_of_four listed.now from }
{
    (listed[from] | listed[from + 1]) | (listed[from + 2] | listed[from + 3])
}

// Whether one of sixteen numbers is listed, which the compiler tells from all their flags at once.
fn any_of_sixteen(listed: &[bool; 256], from: usize) -> bool
    requires { from + 16 ≤ 256 }
    ensures { result ≡ any_of_sixteen listed.now from }
{
    (any_of_four(listed, from) | any_of_four(listed, from + 4))
        | (any_of_four(listed, from + 8) | any_of_four(listed, from + 12))
}

// A number from which the search finds the same: sixteens of which none is listed are passed over.
fn skip(listed: &[bool; 256], from: usize, end: usize) -> usize
    requires from_bound { from ≤ 256 }
    requires end_bound { end ≤ 256 }
    ensures { first_from result (flagged listed.now) ≡ first_from from (flagged listed.now) }
{
    let mut number = from;
    // No `for`: it stops where fewer than sixteen are left, and a range by sixteens does not tell that place.
    while number + 16 <= end {
        if any_of_sixteen(listed, number) {
            return number;
        }
        number += 16;
    }
    number
}

// The first listed number from `from` on and below `end`, or `end` where there is none.
pub fn first_listed(listed: &[bool; 256], from: usize, end: usize) -> usize
    requires from_bound { from ≤ 256 }
    requires end_bound { end ≤ 256 }
    ensures { result ≡ min end (number_or end (first_from from (flagged listed.now))) }
{
    for number in skip(listed, from, end)..end {
        if listed[number] {
            return number;
        }
    }
    end
}
