// The stepped kinds: a label is one number, above that of each parent until it comes to the top.
ghost use Rattle.labels.specs.Formulas.{stepped, beyond};

use crate::kind::LabelKind;
use crate::step::Step;

pub struct Stepped<S>(S);

impl<S: Step> LabelKind for Stepped<S> {
    type Label = S::Number;

    ghost start = { S.Step.start };

    ghost grown = { λ x p. S.Step.label (stepped S.Step.TOP (S.Step.value x) (S.Step.value p)) };

    ghost allows = { λ x y. beyond S.Step.TOP (S.Step.value x) (S.Step.value y) };

    ghost transitive = { S.laws.transitive };

    ghost over = { S.laws.over };

    ghost kept = { S.laws.kept };

    fn first(number: u32, date: u64) -> S::Number {
        S::first(number, date)
    }

    // a label that comes from elsewhere may lie above the top, and is then kept as it is
    fn grow(x: S::Number, p: S::Number) -> S::Number {
        let step = S::widen(p).saturating_add(1).min(S::TOP);
        if S::widen(x) < step {
            S::narrow(step)
        } else {
            x
        }
    }

    fn may(x: S::Number, y: S::Number) -> bool {
        let from = S::widen(x);
        from > S::widen(y) || from >= S::TOP
    }
}
