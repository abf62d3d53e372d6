// What a new commit gets from its parents: level, corrected date and label.
ghost use Rattle.std.specs.Prelude.{◌≡◌, ℕ, ◌+◌, ◌<◌, ◌≤◌, map, length, take, slice_index};
ghost use Rattle.history.specs.Generations.{above, root_date};
ghost use Rattle.history.specs.Labels.{made};

use crate::graph::CommitGraph;
use labels::LabelKind;

#[derive(Clone, Copy)]
pub struct Growth<L> {
    pub level: u32,
    pub corrected: u64,
    pub label: L,
}

impl<'a, K: LabelKind> CommitGraph<'a, K> {
    // Level, corrected date and label of the commit that would come next.
    pub(crate) fn growth(&self, date: u64, parents: &[u32]) -> Growth<K::Label>
        requires dated { date ≤ 17179869183 }
        requires held { (k : ℕ) → k < length parents.now → slice_index parents.now k < self.now.count }
        ensures level { result.level ≡ made (λ _ _. 1) above (map (λ x. x.level) (take self.now.count self.now.rows.now)) date parents.now }
        ensures corrected { result.corrected ≡ made (λ _ d. root_date d) above (map (λ x. x.corrected) (take self.now.count self.now.rows.now)) date parents.now }
        ensures label { result.label ≡ made K.LabelKind.start K.LabelKind.grown (take self.now.count self.now.labels.now) date parents.now }
        ensures bounded { (result.level ≤ self.now.count + 1) × (result.corrected ≤ 17179869183 + self.now.count) }
    {
        let mut level: u32 = 1;
        let mut corrected = date;
        let mut label = K::first(self.count as u32, date);
        // one pass: all three grow by the same parents
        for p in parents {
            let parent = self.rows[*p as usize];
            level = level.max(parent.level + 1);
            corrected = corrected.max(parent.corrected + 1);
            label = K::grow(label, self.labels[*p as usize]);
        }
        Growth {
            level,
            corrected,
            label,
        }
    }
}
