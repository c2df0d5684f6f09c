// The parts that the states of a station are made of: values with nothing in them, a taking, and the place in a turn.
#![tactic(auto)]

ghost use Rattle.std.specs.Prelude.{◌≡◌};
ghost use Rattle.laws.specs.Usual.{cond, eqb};
ghost use Rattle.panel.specs.Panel.{after_taking};
ghost use Rattle.station.specs.Rules.Data.{without as without_of};
ghost use Rattle.station.specs.Rules.State.{nothing};
ghost use Rattle.frame_writing.specs.Writing.{no_areas};

use area::Areas;
use panel::Panel;
use station::Gathering;

pub fn no_areas() -> Areas
    ensures { result ≡ no_areas }
{
    Areas::default()
}

// Nothing gathered.
pub fn nothing() -> Gathering
    ensures { result ≡ nothing }
{
    Gathering {
        source: 0,
        blocks: 0,
    }
}

// What was gathered, but not from this source.
pub fn without(source: u8, gathering: Gathering) -> Gathering
    ensures { result ≡ without_of source gathering }
{
    if source == gathering.source {
        nothing()
    } else {
        gathering
    }
}

// The panel, where a test says whether there is a taking.
pub fn taken_if(taking: bool, panel: Panel) -> Panel
    ensures { result ≡ cond taking (after_taking panel) panel }
{
    if taking { panel::take(panel) } else { panel }
}

// A station that stops holding forgets how far its turn had come.
pub fn place_kept(view: u8, own: u8, block: u8) -> u8
    ensures { result ≡ cond (eqb view own) block 0 }
{
    if view == own { block } else { 0 }
}
