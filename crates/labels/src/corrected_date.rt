// Corrected commit dates: a commit's date, raised above the corrected date of each parent.
ghost use Rattle.labels.specs.Kinds.{corrected_date_top, corrected_date_start};
ghost use Rattle.std.proofs.Common.{rules};

use crate::step::Step;

pub struct CorrectedDate;

impl Step for CorrectedDate {
    ghost TOP = { corrected_date_top };

    const TOP: u64 = 9_223_372_036_854_775_807;

    type Number = u64;

    ghost value = { λ x. x };

    ghost label = { λ n. n };

    ghost start = { corrected_date_start };

    ghost back = { Prim.search rules };

    ghost held = { Prim.search rules };

    fn first(_number: u32, date: u64) -> u64 {
        date
    }

    fn widen(x: u64) -> u64 {
        x
    }

    fn narrow(n: u64) -> u64 {
        n
    }
}
