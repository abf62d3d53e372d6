// The walk: from the tips towards the target, over the trail and no more.
ghost use Rattle.std.specs.Prelude.{◌≡◌, ℕ, ◌<◌, ◌≤◌, length, count_by, nat_eq, slice_index, slice_index_or};
ghost use Rattle.frontier.specs.Heaps.{Distinct};
ghost use Rattle.containment.specs.Questions.{OnTrail};
ghost use Rattle.containment.specs.Waiting.{numbered, Distinct-prop};
ghost use Rattle.history.specs.Counting.{Tells};

use crate::mark::Mark;
use crate::question::Question;
use crate::tell::visits;
use frontier::{ByNumber, Queue};
use labels::LabelKind;

// The marks of a walk, and its queue: different commits that have the mark of the trail, with room for all that have none.
#[derive(Drop)]
struct Walk<'q, 'a, 'm, 'e, K: LabelKind> {
    question: &'q Question<'q, 'a, K>,
    marks: &'m mut [u8],
    queue: Queue<'e, ByNumber>,
    ghost sized: { length marks.now ≡ question.now.size },
    ghost bits: { (k : ℕ) → slice_index marks.now k ≤ 1 },
    ghost room: { length queue.entries.now ≡ question.now.size },
    ghost marked: { (i : ℕ) → i < queue.count → slice_index marks.now (slice_index_or queue.entries.now i (numbered 0)).number ≡ 1 },
    ghost distinct: { Distinct queue.entries.now queue.count } by { Distinct-prop queue.entries.now queue.count },
}

impl<K: LabelKind> Walk<'_, '_, '_, '_, K> {
    ghost use Rattle.containment.specs.Visits.{Visited, Spread};

    // Marks and queues the commit, if it is wanted. Whoever lent the marks knows them afterwards by `same_marks`.
    fn visit(&mut self, number: usize)
        requires within { number < self.old.question.now.size }
        ensures visited { Visited number self.old self.new }
        ensures same_marks { self.new.marks.ghost_name ≡ self.old.marks.ghost_name }
    {
        if !self.question.is_wanted(number, self.marks[number]) {
            return;
        }
        self.marks[number] = Mark::OnTrail as u8;
        self.queue.push(ByNumber {
            number: number as u32,
        });
    }

    // Visits each commit of a list.
    fn visit_all(&mut self, numbers: &[u32])
        requires within { (j : ℕ) → j < length numbers.now → slice_index numbers.now j < self.old.question.now.size }
        ensures spread { Spread numbers.now self.old self.new }
        ensures same_marks { self.new.marks.ghost_name ≡ self.old.marks.ghost_name }
    {
        for number in numbers {
            self.visit(*number as usize);
        }
    }

    // Visits the tips, and then the parents of each commit that waits, until none does.
    fn run(&mut self)
        requires { (k : ℕ) → k < length self.old.marks.now → slice_index self.old.marks.now k ≡ 0 }
        ensures trail { (k : ℕ) → Tells (slice_index self.new.marks.now k) (OnTrail self.old.question.now k) }
        ensures same_marks { self.new.marks.ghost_name ≡ self.old.marks.ghost_name }
    {
        self.visit_all(self.question.tips);
        while let Some(next) = self.queue.pop() {
            let parents = self.question.graph.parents_at(next.number as usize);
            self.visit_all(parents);
        }
    }
}

impl<K: LabelKind> Question<'_, '_, K> {
    // Puts 1 on the marks of the trail and 0 on the others, and answers how many commits are on it.
    pub fn mark_trail(&self, marks: &mut [u8], queue: &mut [ByNumber]) -> u32
        requires marked { length marks.old ≡ self.now.size }
        requires queued { length queue.old ≡ self.now.size }
        ensures trail { (k : ℕ) → Tells (slice_index marks.new k) (OnTrail self.now k) }
        ensures counted { result ≡ count_by (λ m. nat_eq m 1) marks.new }
    {
        marks.fill(Mark::Clear as u8);
        let queue = Queue::over(queue);
        let mut walk = Walk {
            question: self,
            marks,
            queue,
        };
        walk.run();
        // taken apart, which ends the loan of the marks with what they are now
        let Walk { marks, .. } = walk;
        visits(marks)
    }
}
