// What a label kind is: labels that tell, of two commits, when one surely does not reach the other.
ghost use Rattle.std.specs.Prelude.{◌≡◌, ℕ, Bool, true};
ghost use Rattle.labels.specs.Laws.{Laws};

pub trait LabelKind {
    type Label: Copy + Drop;

    // the label of a commit before its parents are looked at, from its number and its date
    ghost start: { ℕ → ℕ → Self.Label };

    // a label, grown by a parent's label
    ghost grown: { Self.Label → Self.Label → Self.Label };

    // whether a commit with the first label may reach one with the second
    ghost allows: { Self.Label → Self.Label → Bool };

    fn first(number: u32, date: u64) -> Self::Label
        ensures { result ≡ start number date };

    fn grow(x: Self::Label, p: Self::Label) -> Self::Label
        ensures { result ≡ grown x p };

    fn may(x: Self::Label, y: Self::Label) -> bool
        ensures { result ≡ allows x y };

    ghost transitive: { (x y z : Self.Label) → allows x y ≡ true → allows y z ≡ true → allows x z ≡ true };

    ghost over: { (x p : Self.Label) → allows (grown x p) p ≡ true };

    ghost kept: { (x p q : Self.Label) → allows x q ≡ true → allows (grown x p) q ≡ true };

    // the three as one fact
    ghost laws: { Laws grown allows } = { record { transitive = transitive; over = over; kept = kept } };
}
