// Next in a station list in arrays, by its flags alone.
#![tactic(auto)]

ghost use Rattle.std.specs.Prelude.{◌≡◌};
ghost use Rattle.boundary_lists.specs.Lists.{next_in};

// "'Next' is the next larger number in the list with ours, or the smallest after the largest."
pub fn next_after(ours: u8, listed: &[bool; 256], number: u8) -> u8
    ensures { result ≡ next_in ours listed.now number }
{
    let above = number as usize + 1;
    if number < ours {
        return boundary_flags::first_listed(listed, above, ours as usize) as u8;
    }
    let larger = boundary_flags::first_listed(listed, above, 256);
    if larger < 256 {
        return larger as u8;
    }
    boundary_flags::first_listed(listed, 0, ours as usize) as u8
}

// Next after our own number, which asking for each block looks for: a function with one caller is put into it by the compiler, and the other
// has several.
pub fn next_after_ours(ours: u8, listed: &[bool; 256]) -> u8
    ensures { result ≡ next_in ours listed.now ours }
{
    let larger = boundary_flags::first_listed(listed, ours as usize + 1, 256);
    if larger < 256 {
        return larger as u8;
    }
    boundary_flags::first_listed(listed, 0, ours as usize) as u8
}
