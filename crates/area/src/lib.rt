// The two areas of the common memory, and a station's parts of them.
#![tactic(auto)]

ghost use Rattle.std.specs.Prelude.{◌≡◌};
ghost use Rattle.area.specs.Areas.{extent_of, in_area, in_range, span_of};

#[derive(Clone, Copy, PartialEq, Eq)]
pub enum Area {
    One,
    Two,
}

// An area's number of words, and the octet of the common memory at which it starts.
#[derive(Clone, Copy, PartialEq, Eq)]
pub struct Extent {
    pub words: usize,
    pub start: usize,
}

// What a station has of one area, in words.
#[repr(C)]
#[derive(Clone, Copy, PartialEq, Eq, Default)]
pub struct Part {
    pub address: u16,
    pub size: u16,
}

#[repr(C)]
#[derive(Clone, Copy, PartialEq, Eq, Default)]
pub struct Areas {
    pub one: Part,
    pub two: Part,
}

// "Common memory is 17,408 octets, area 1 first."
pub const MEMORY_OCTETS: usize = 17408;

// A run of octets of the common memory.
#[derive(Clone, Copy, PartialEq, Eq)]
pub struct Span {
    pub start: usize,
    pub length: usize,
}

// "A turn's data are the station's area 1 then its area 2": the table of paper 01's list of forms, indexed by area.
const EXTENTS: [Extent; 2] = [
    Extent {
        words: 512,
        start: 0,
    },
    Extent {
        words: 8192,
        start: 1024,
    },
];

pub fn extent_of(area: Area) -> Extent
    ensures { result ≡ extent_of area }
{
    EXTENTS[area as usize]
}

pub fn in_area(area: Area, part: Part) -> bool
    ensures { result ≡ in_area area part }
{
    let extent = extent_of(area);
    usize::from(part.address) + usize::from(part.size) <= extent.words
}

pub fn in_range(areas: Areas) -> bool
    ensures { result ≡ in_range areas }
{
    in_area(Area::One, areas.one) && in_area(Area::Two, areas.two)
}

pub fn span_of(area: Area, part: Part) -> Span
    ensures { result ≡ span_of area part }
{
    let extent = extent_of(area);
    Span {
        start: extent.start + 2 * usize::from(part.address),
        length: 2 * usize::from(part.size),
    }
}
