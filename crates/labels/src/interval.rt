// Intervals: the least number that a commit reaches, and a number that steps up from its parents'.
ghost use Rattle.labels.specs.Kinds.{interval_start, interval_grown, interval_allows};
ghost use Rattle.labels.specs.Lawful.{interval_laws};

use crate::kind::LabelKind;
use crate::span::Span;

pub struct Interval;

impl LabelKind for Interval {
    type Label = Span;

    ghost start = { interval_start };

    ghost grown = { interval_grown };

    ghost allows = { interval_allows };

    ghost transitive = { interval_laws.transitive };

    ghost over = { interval_laws.over };

    ghost kept = { interval_laws.kept };

    fn first(number: u32, _date: u64) -> Span {
        Span {
            low: number,
            high: number,
        }
    }

    // the top is the greatest u32, so that a sum which stops there needs no other bound
    fn grow(x: Span, p: Span) -> Span {
        Span {
            low: x.low.min(p.low),
            high: x.high.max(p.high.saturating_add(1)),
        }
    }

    fn may(x: Span, y: Span) -> bool {
        x.low <= y.low && (x.high > y.high || x.high >= u32::MAX)
    }
}
