// What a queue asks of its elements.
ghost use Rattle.std.specs.Prelude.{◌≡◌, Bool};
ghost use Rattle.frontier.specs.Orders.{Order};

// Elements of which any two that differ have a first and a second.
// Not Ord: two elements that it calls equal may differ, and then which one is taken out would be open.
pub trait Ranked: Copy + Drop {
    // whether the first of two elements is taken out sooner
    ghost before: { Self → Self → Bool };

    fn comes_first(self, other: Self) -> bool
        ensures { result ≡ before self other };

    ghost ordered: { Order before };
}
