// The station list: what is known of each other station of the ring.
#![tactic(auto)]

ghost use Rattle.std.specs.Prelude.{◌≡◌};
ghost use Rattle.members.specs.Members.{nobody, no_members, entry_of, is_listed, with_entry};

use area::Areas;
use units::Milliseconds;

// An entry, at the place of its station's number. One that is not listed holds nothing else. A flag and no Option: C lends the flags in an array
// of their own.
#[repr(C)]
#[derive(Clone, Copy, PartialEq, Eq, Default)]
pub struct Entry {
    pub listed: bool,
    pub areas: Areas,
    pub watch: Milliseconds,
    pub misses: u8,
}

#[repr(C)]
#[derive(Clone, Copy)]
pub struct Members {
    pub entries: [Entry; 256],
}

pub fn unlisted() -> Entry
    ensures { result ≡ nobody }
{
    Entry::default()
}

pub fn no_members() -> Members
    ensures { result ≡ no_members }
{
    let entry = unlisted();
    Members {
        entries: [entry; 256],
    }
}

pub fn entry_of(members: Members, number: u8) -> Entry
    ensures { result ≡ entry_of members number }
{
    members.entries[usize::from(number)]
}

pub fn is_listed(members: Members, number: u8) -> bool
    ensures { result ≡ is_listed members number }
{
    entry_of(members, number).listed
}

pub fn with_entry(members: Members, number: u8, entry: Entry) -> Members
    ensures { result ≡ with_entry members number entry }
{
    let mut entries = members.entries;
    entries[usize::from(number)] = entry;
    Members { entries }
}
