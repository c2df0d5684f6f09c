// Whether the parts of two stations overlap.
#![tactic(auto)]

ghost use Rattle.std.specs.Prelude.{◌≡◌};
ghost use Rattle.area.specs.Overlap.{parts_overlap, areas_overlap};

use area::{Areas, Part};

pub fn parts_overlap(a: Part, b: Part) -> bool
    ensures { result ≡ parts_overlap a b }
{
    let filled = (0 < a.size) & (0 < b.size);
    let before = usize::from(a.address) < usize::from(b.address) + usize::from(b.size);
    let after = usize::from(b.address) < usize::from(a.address) + usize::from(a.size);
    filled & (before & after)
}

pub fn areas_overlap(a: Areas, b: Areas) -> bool
    ensures { result ≡ areas_overlap a b }
{
    parts_overlap(a.one, b.one) | parts_overlap(a.two, b.two)
}
