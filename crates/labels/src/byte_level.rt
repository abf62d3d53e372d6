// Topological levels in a byte, for a table a quarter as large.
ghost use Rattle.labels.specs.Kinds.{byte_level_top, byte_level_start};
ghost use Rattle.std.proofs.Common.{rules};

use crate::step::Step;

pub struct ByteLevel;

impl Step for ByteLevel {
    ghost TOP = { byte_level_top };

    const TOP: u64 = 255;

    type Number = u8;

    ghost value = { λ x. x };

    ghost label = { λ n. n };

    ghost start = { byte_level_start };

    ghost back = { Prim.search rules };

    ghost held = { Prim.search rules };

    fn first(_number: u32, _date: u64) -> u8 {
        1
    }

    fn widen(x: u8) -> u64 {
        x as u64
    }

    fn narrow(n: u64) -> u8 {
        n as u8
    }
}
