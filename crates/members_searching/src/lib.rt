// What is looked up in the list by the order of its numbers.
#![tactic(auto)]

ghost use Rattle.std.specs.Prelude.{◌≡◌};
ghost use Rattle.members.specs.Members.{numbers_of, is_empty, next_after, smallest};
ghost use Rattle.members_searching.specs.Search.{first_from};

use members::Members;

// The first listed number that is not below `from`.
fn first_listed(members: Members, from: usize) -> Option<u8>
    ensures { result ≡ first_from from members }
{
    let behind = members
        .entries
        .iter()
        .skip(from)
        .position(|entry| entry.listed)?;
    Some((from + behind) as u8)
}

pub fn is_empty(members: Members) -> bool
    ensures { result ≡ is_empty (numbers_of members) }
{
    first_listed(members, 0).is_none()
}

// "the smallest listed number, ours included"
pub fn smallest(ours: u8, members: Members) -> u8
    ensures { result ≡ smallest ours members }
{
    ours.min(first_listed(members, 0).unwrap_or(ours))
}

// "'Next' is the next larger number in the list with ours, or the smallest after the largest."
pub fn next_after(ours: u8, members: Members, number: u8) -> u8
    ensures { result ≡ next_after ours members number }
{
    let larger = first_listed(members, usize::from(number) + 1);
    if number < ours {
        ours.min(larger.unwrap_or(ours))
    } else {
        larger.unwrap_or(smallest(ours, members))
    }
}
