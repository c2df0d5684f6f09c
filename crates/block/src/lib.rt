// A turn's data and the blocks that they are cut into.
#![tactic(auto)]

ghost use Rattle.std.specs.Prelude.{◌≡◌};
ghost use Rattle.block.specs.Blocks.{octets_of, blocks_of, start_of, length_of};

use area::Areas;

// "cut into blocks of 1024, the last one shorter or equal"
pub const BLOCK_OCTETS: usize = 1024;

pub fn turn_octets(areas: Areas) -> usize
    ensures { result ≡ octets_of areas }
{
    2 * (usize::from(areas.one.size) + usize::from(areas.two.size))
}

pub fn blocks(areas: Areas) -> usize
    ensures { result ≡ blocks_of areas }
{
    turn_octets(areas).div_ceil(BLOCK_OCTETS).max(1)
}

// Where a block starts in its turn.
pub fn block_start(block: u8) -> usize
    ensures { result ≡ start_of block }
{
    BLOCK_OCTETS * usize::from(block).saturating_sub(1)
}

pub fn block_length(areas: Areas, block: u8) -> usize
    ensures { result ≡ length_of areas block }
{
    let end = turn_octets(areas).min(BLOCK_OCTETS * usize::from(block));
    end.saturating_sub(block_start(block))
}
