// The misses of the stations that are listed, and striking.
#![tactic(auto)]

ghost use Rattle.std.specs.Prelude.{◌≡◌};
ghost use Rattle.members.specs.Members.{misses_set, cleared, strikes, missed};

use members::{Entry, Members, entry_of, with_entry};

fn with_misses(entry: Entry, misses: u8) -> Entry
    ensures { result ≡ misses_set misses entry }
{
    Entry { misses, ..entry }
}

pub fn clear(members: Members, number: u8) -> Members
    ensures { result ≡ cleared members number }
{
    let entry = entry_of(members, number);
    with_entry(members, number, with_misses(entry, 0))
}

// Whether the next miss of a station is its third in a row.
pub fn strikes(members: Members, number: u8) -> bool
    ensures { result ≡ strikes members number }
{
    2 <= entry_of(members, number).misses
}

pub fn miss(members: Members, number: u8) -> Members
    ensures { result ≡ missed members number }
{
    let entry = entry_of(members, number);
    if !entry.listed {
        return members;
    }
    if strikes(members, number) {
        return with_entry(members, number, members::unlisted());
    }
    with_entry(members, number, with_misses(entry, entry.misses + 1))
}
