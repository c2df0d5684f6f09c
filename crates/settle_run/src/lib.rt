// The run that `settle` makes: its beginning, its end, and the steps that it counts.
#![tactic(auto)]

ghost use Rattle.std.specs.Prelude.{◌≡◌};
ghost use Rattle.settle_run.specs.Run.{is_ring, limit_of};
ghost use Rattle.settle_run.specs.Running.{added, running_of, has_ended};

use settle_views::Ring;

// What a step is: the token is passed from a station to a station, or there is a silence.
#[derive(Clone, Copy)]
pub enum Kind {
    Pass { from: u8, to: u8 },
    Silence,
}

// A step, and the number of different views afterwards.
#[derive(Clone, Copy)]
pub struct Stepped {
    pub kind: Kind,
    pub views: u32,
}

// The steps of a run so far, and the number of different views after them. At the end of a run they are its totals.
#[derive(Clone, Copy)]
pub struct Settled {
    pub passes: u32,
    pub silences: u32,
    pub views: u32,
}

// A run on its way: the ring, how many stations have each view, the steps so far, and how many more the run is given.
#[derive(Clone, Copy)]
pub struct Running {
    pub ring: Ring,
    pub numbers: [u16; 256],
    pub settled: Settled,
    pub left: u32,
}

fn is_ring(ring: Ring) -> bool
    ensures { result ≡ is_ring ring }
{
    settle_views::first_unlisted(ring).is_none() & (ring.views[0] == 0)
}

// How many steps a run is given.
fn limit(ring: Ring) -> u32
    ensures { result ≡ limit_of ring }
{
    let count = settle_views::stations(ring);
    if is_ring(ring) { count * count } else { 0 }
}

// The run of a ring, before its first step.
pub fn begin(ring: Ring) -> Running
    ensures { result ≡ running_of ring }
{
    let counts = settle_counts::count(ring);
    let numbers = counts.numbers;
    let left = limit(ring);
    Running {
        ring,
        numbers,
        settled: Settled {
            passes: 0,
            silences: 0,
            views: counts.total,
        },
        left,
    }
}

impl Settled {
    // One step more.
    pub fn add(&mut self, stepped: Stepped)
        ensures { self.new ≡ added self.old stepped }
    {
        match stepped.kind {
            Kind::Pass { .. } => self.passes = self.passes.saturating_add(1),
            Kind::Silence => self.silences = self.silences.saturating_add(1),
        }
        self.views = stepped.views;
    }
}

impl Running {
    // No step is left, or the views agree.
    pub fn has_ended(&self) -> bool
        ensures { result ≡ has_ended self.now.settled self.now.left }
    {
        (self.left == 0) | (self.settled.views <= 1)
    }
}
