// A walk from two commits towards their ancestors, the greatest number first.
ghost use Rattle.std.specs.Prelude.{◌≡◌, ℕ, true, ◌<◌, ◌↔◌, length, MatchOption, ◌≢◌, slice_index};
ghost use Rattle.std.specs.Iterator.{at_most};
ghost use Rattle.history.specs.Graph.{history};
ghost use Rattle.ancestry.specs.Painting.{laid, all_laid, Advanced, NoneBears, Settled};
ghost use Rattle.ancestry.specs.Refusing.{Lent};
ghost use Rattle.ancestry.specs.declared.paint.Paint.TheVariants.{Clear, Left, Right};

use crate::goal::Goal;
use crate::paint::Paint;
use frontier::{ByNumber, Queue};
use history::CommitGraph;
use labels::LabelKind;
use std::marker::Model;

// As an iterator it gives the commits that it takes out, each with its paint, which is final then.
#[derive(Drop)]
pub struct Walk<'w, 'g, K: LabelKind> {
    graph: &'w CommitGraph<'g, K>,
    goal: Goal,
    marks: &'w mut [u8],
    // the painted commits that have not been taken out
    queue: Queue<'w, ByNumber>,
    // every painted commit from here on has been taken out of the queue
    low: usize,
    // how many of those that wait bear each paint, by the paint's byte
    bearing: [usize; 5],
}

impl<'w, 'g, K: LabelKind> Model for Walk<'w, 'g, K> {
    ghost use Rattle.std.specs.Prelude.{◌≤◌};
    ghost use Rattle.history.specs.Graph.{history};
    ghost use Rattle.ancestry.specs.Painting.{Progress, Tidy};

    ghost Value = { Progress };

    ghost view = { λ w. record { commits = history w.graph.now; goal = w.goal; marks = w.marks.now; low = w.low } };

    ghost invariant = { λ w. (w.low ≤ w.graph.now.count) × Tidy w.marks.now w.queue.entries.now w.queue.count w.low w.bearing };
}

impl<'w, 'g, K: LabelKind> Walk<'w, 'g, K> {
    // Lays the two paints on clear marks. The parts come one by one, as they are lent; the walk is what holds them together.
    pub fn begin(
        graph: &'w CommitGraph<'g, K>,
        goal: Goal,
        a: u32,
        b: u32,
        marks: &'w mut [u8],
        queue: &'w mut [ByNumber],
    ) -> Walk<'w, 'g, K>
        requires { Lent a b graph.now.count marks.old queue.old }
        ensures { result ≡ record { commits = history graph.now; goal = goal; marks = laid Right (laid Left marks.old a) b; low = length marks.old } }
    {
        let low = marks.len();
        let mut walk = Walk {
            graph,
            goal,
            marks,
            queue: Queue::over(queue),
            low,
            bearing: [0; 5],
        };
        walk.lay(a, Paint::Left);
        walk.lay(b, Paint::Right);
        walk
    }

    // Lays paint on a commit. One that was clear joins the queue.
    fn lay(&mut self, number: u32, arriving: Paint)
        requires under { number < self.old.low }
        requires paints { arriving ≢ Clear }
        ensures { self.new ≡ record self.old { marks = laid arriving self.old.marks number } }
    {
        let present = Paint::from(self.marks[number as usize]);
        let paint = present.with(arriving);
        self.marks[number as usize] = paint.into();
        self.bearing[paint as usize] += 1;
        if present == Paint::Clear {
            self.queue.push(ByNumber { number });
        } else {
            self.bearing[present as usize] -= 1;
        }
    }

    // Lays paint on each commit of the list.
    fn spread(&mut self, list: &[u32], arriving: Paint)
        requires under { (i : ℕ) → i < length list.now → slice_index list.now i < self.old.low }
        requires paints { arriving ≢ Clear }
        ensures { self.new ≡ record self.old { marks = all_laid arriving self.old.marks list.now } }
    {
        for p in list {
            self.lay(*p, arriving);
        }
    }

    // Whether no commit that waits bears the paint.
    fn is_gone(&self, paint: Paint) -> bool
        requires { paint ≢ Clear }
        ensures { (result ≡ true) ↔ NoneBears paint self.now }
    {
        self.bearing[paint as usize] == 0
    }

    // Whether nothing that waits can change the answer.
    fn is_settled(&self) -> bool
        ensures { (result ≡ true) ↔ Settled self.now.goal self.now }
    {
        match self.goal {
            Goal::Counts => self.is_gone(Paint::Left) && self.is_gone(Paint::Right),
            Goal::Bases => self.is_gone(Paint::Both)
                && (self.is_gone(Paint::Left) || self.is_gone(Paint::Right)),
        }
    }
}

impl<K: LabelKind> Iterator for Walk<'_, '_, K> {
    type Item = (u32, Paint);

    ghost next_gives = { λ s r t. MatchOption r ((t ≡ s) × Settled s.goal s) (λ x. Advanced s.commits s t x.0 x.1) };

    ghost remaining = { λ s. at_most s.low };

    // Takes out the commit with the greatest number and lays its paint on its parents, unless nothing that waits can change the answer.
    fn next(&mut self) -> Option<(u32, Paint)> {
        if self.is_settled() {
            return None;
        }
        let next = self.queue.pop()?;
        let paint = Paint::from(self.marks[next.number as usize]);
        self.bearing[paint as usize] -= 1;
        self.low = next.number as usize;
        let parents = self.graph.parents_at(next.number as usize);
        self.spread(parents, paint.passed_on());
        Some((next.number, paint))
    }
}
