// Our place in our turn: whether there is a next block, whether it is the last, and what sending it changes. And whether the buffers that are lent
// for sending it are right.
#![tactic(auto)]

ghost use Rattle.std.specs.Prelude.{◌≡◌, ◌&&◌, ◌+◌};
ghost use Rattle.laws.specs.Usual.{true, cond, eqb};
ghost use Rattle.panel.specs.Panel.{after_taking};
ghost use Rattle.station.specs.Rules.Asking.{placed_in, last_in, lent_right};

use area::Areas;
use panel::Panel;
use station::Settings;

pub fn is_lent_right(memory: &[u8], turn: &[u8], output: &[u8]) -> bool
    ensures { result ≡ lent_right memory.now turn.now output.now }
{
    (memory.len() == area::MEMORY_OCTETS)
        & (turn.len() == area::MEMORY_OCTETS)
        & (frame::OUTPUT_OCTETS <= output.len())
}

// Where so many blocks of our turn have been sent, there is a next one.
pub fn is_placed(own: Settings, block: u8) -> bool
    ensures { result ≡ placed_in own.areas block }
{
    let areas = own.areas;
    area::in_range(areas) & ((block as usize) < block::blocks(areas))
}

// Whether the next block of our turn is the last.
pub fn is_last(areas: Areas, block: u8) -> bool
    ensures { result ≡ last_in areas block }
{
    block::blocks(areas) <= block as usize + 1
}

#[derive(Clone, Copy)]
pub struct Sent {
    pub view: u8,
    pub block: u8,
    pub panel: Panel,
}

// With the last block our view becomes next, and our place the first block of our next turn. A last block to ourselves is a taking.
pub fn after_block(own: Settings, view: u8, block: u8, panel: Panel, next: u8) -> Sent
    requires { placed_in own.areas block ≡ true }
    ensures view_value { result.view ≡ cond (last_in own.areas block) next view }
    ensures block_value { result.block ≡ cond (last_in own.areas block) 0 (block + 1) }
    ensures panel_value { result.panel ≡ cond (last_in own.areas block && eqb next own.number) (after_taking panel) panel }
{
    if is_last(own.areas, block) {
        return Sent {
            view: next,
            block: 0,
            panel: state_parts::taken_if(next == own.number, panel),
        };
    }
    Sent {
        view,
        block: block + 1,
        panel,
    }
}
