// A ring of token views alone, and what is looked up in it.
#![tactic(auto)]

ghost use Rattle.std.specs.Prelude.{◌≡◌};
ghost use Rattle.laws.specs.Usual.{length};
ghost use Rattle.settle_views.specs.Views.{ring_with, stations_of, views_of, smallest_holder, unlisted_in};

// The view of each station number, 0 where no such station is listed.
// 0 and no Option: the definitions `stations_from`, `listed` and `view_after` and the theorems on them speak of views as numbers, with 0 as none.
#[derive(Clone, Copy)]
pub struct Ring {
    pub views: [u8; 256],
}

pub fn stations(ring: Ring) -> u32
    ensures { result ≡ length (stations_of ring) }
{
    ring.views.iter().filter(|view| **view != 0).count() as u32
}

// The smallest station that holds.
pub fn smallest_holder(views: &[u8]) -> Option<u8>
    ensures { result ≡ smallest_holder (stations_of (ring_with views.now)) (views_of (ring_with views.now)) }
{
    let mut places = views.iter().copied().enumerate().skip(1);
    places
        .find(|(number, view)| *view as usize == *number)
        .map(|(_, view)| view)
}

// The line, counted from 1 in the order of the stations, of the first station whose view is not listed.
pub fn first_unlisted(ring: Ring) -> Option<u32>
    ensures { result ≡ unlisted_in ring }
{
    let views = ring.views;
    let mut listed = views.iter().filter(|view| **view != 0);
    listed
        .position(|view| views[*view as usize] == 0)
        .map(|place| place as u32 + 1)
}
