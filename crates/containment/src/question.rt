// A question of containment: the commits that it names, and how many marks its walk uses.
ghost use Rattle.std.specs.Prelude.{◌≡◌, ℕ, ◌<◌, ◌≤◌, length, slice_index};

use crate::mark::Mark;
use history::CommitGraph;
use labels::LabelKind;

// Every commit that is named has a mark, and every mark a commit. The marks are lent beside it: in a field, each pass that writes them
// would have to say that it holds the same slice as before.
#[derive(Drop)]
pub struct Question<'q, 'a, K: LabelKind> {
    pub graph: &'q CommitGraph<'a, K>,
    pub target: usize,
    pub tips: &'q [u32],
    pub size: usize,
    ghost held: { size ≤ graph.now.count },
    ghost target_within: { target < size },
    ghost tips_within: { (i : ℕ) → i < length tips.now → slice_index tips.now i < size },
}

impl<K: LabelKind> Question<'_, '_, K> {
    ghost use Rattle.containment.specs.Questions.{open_to, wanted_by};

    // Whether the commit is open towards the target. Numbers are taken bare, each with its bound: they come from lists of plain numbers.
    fn is_open(&self, number: usize) -> bool
        requires within { number < self.now.size }
        ensures { result ≡ open_to self.now number }
    {
        let graph = self.graph;
        number == self.target || K::may(graph.label_at(number), graph.label_at(self.target))
    }

    // Whether the commit belongs to the trail and is not marked yet.
    pub fn is_wanted(&self, number: usize, mark: u8) -> bool
        requires within { number < self.now.size }
        ensures { result ≡ wanted_by self.now number mark }
    {
        mark == Mark::Clear as u8 && number >= self.target && self.is_open(number)
    }
}
