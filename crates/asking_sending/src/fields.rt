// The fields of the next block's frame.
ghost use Rattle.std.specs.Prelude.{◌≡◌};
ghost use Rattle.laws.specs.Usual.{true, cond};
ghost use Rattle.frame.specs.declared.Code.TheVariants.{Token, Cyclic};
ghost use Rattle.station.specs.Rules.Asking.{placed_in, next_fields};

use frame::{Code, Fields};
use station::Settings;

// "The last is code 65000"
fn block_code(last: bool) -> Code
    ensures { result ≡ cond last Token Cyclic }
{
    if last { Code::Token } else { Code::Cyclic }
}

// Of the next block of our turn. It is one of at most 17, so that its numbers fit their fields.
pub fn block_fields(own: Settings, block: u8, next: u8) -> Fields
    requires { placed_in own.areas block ≡ true }
    ensures { result ≡ next_fields own block next }
{
    let areas = own.areas;
    let watch = own.watch;
    let code = block_code(asking_placing::is_last(areas, block));
    let block = block + 1;
    let size = block::block_length(areas, block);
    Fields {
        length: 64 + size as u32,
        source: own.number,
        destination: next,
        code,
        areas,
        block,
        blocks: block::blocks(areas) as u8,
        size: size as u16,
        watch,
    }
}
