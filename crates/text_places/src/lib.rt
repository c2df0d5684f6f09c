// Reading text: the place where a part of a line ends.
#![tactic(auto)]

ghost use Rattle.std.specs.Prelude.{◌≡◌, ◌+◌};
ghost use Rattle.laws.specs.Usual.{drop};
ghost use Rattle.text_reading.specs.Marks.{before};

// The place of the first mark from a place on, or behind the last octet.
pub fn place_from(octets: &[u8], mark: u8, from: usize) -> usize
    ensures { result ≡ from + before mark (drop from octets.now) }
{
    for place in from..octets.len() {
        if octets[place] == mark {
            return place;
        }
    }
    from.max(octets.len())
}

// The number of octets before the first mark, or of all where there is none.
pub fn place_of(octets: &[u8], mark: u8) -> usize
    ensures { result ≡ before mark octets.now }
{
    place_from(octets, mark, 0)
}
