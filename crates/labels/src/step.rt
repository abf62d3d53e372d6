// What a stepped kind has of its own: a number type, a top and the first label. `Stepped` does the rest, over u64.
ghost use Rattle.std.specs.Prelude.{◌≡◌, ℕ, ◌≤◌};
ghost use Rattle.labels.specs.Formulas.{stepped, beyond};
ghost use Rattle.labels.specs.Laws.{Laws};
ghost use Rattle.labels.specs.Lawful.{numbered_laws};

pub trait Step {
    // labels grow up to here; one that is here or above rules nothing out
    ghost TOP: { ℕ };

    const TOP: u64;

    type Number: Copy + Drop;

    // the number that a label stands for
    ghost value: { Self.Number → ℕ };

    // the label that stands for a number
    ghost label: { ℕ → Self.Number };

    // the label of a commit before its parents are looked at, from its number and its date
    ghost start: { ℕ → ℕ → Self.Number };

    fn first(number: u32, date: u64) -> Self::Number
        ensures { result ≡ start number date };

    // calls of the trait and no `From`: what they promise speaks of `value` and `label`
    fn widen(x: Self::Number) -> u64
        ensures { result ≡ value x };

    fn narrow(n: u64) -> Self::Number
        requires { n ≤ TOP }
        ensures { result ≡ label n };

    ghost back: { (x : Self.Number) → label (value x) ≡ x };

    ghost held: { (n : ℕ) → n ≤ TOP → value (label n) ≡ n };

    ghost laws: { Laws (λ x p. label (stepped TOP (value x) (value p))) (λ x y. beyond TOP (value x) (value y)) } = { numbered_laws TOP value label back held };
}
