// Topological levels: 1 for a commit without parents, else one more than the greatest level of its parents.
ghost use Rattle.labels.specs.Kinds.{level_top, level_start};
ghost use Rattle.std.proofs.Common.{rules};

use crate::step::Step;

pub struct Level;

impl Step for Level {
    ghost TOP = { level_top };

    const TOP: u64 = 1_073_741_823;

    type Number = u32;

    ghost value = { λ x. x };

    ghost label = { λ n. n };

    ghost start = { level_start };

    ghost back = { Prim.search rules };

    ghost held = { Prim.search rules };

    fn first(_number: u32, _date: u64) -> u32 {
        1
    }

    fn widen(x: u32) -> u64 {
        x as u64
    }

    fn narrow(n: u64) -> u32 {
        n as u32
    }
}
