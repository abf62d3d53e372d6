// Reading what the history holds of a commit.
ghost use Rattle.std.specs.Prelude.{◌≡◌, ◌<◌, ◌≤◌, length, MatchOption, slice_index_or};
ghost use Rattle.history.specs.Graph.{history};
ghost use Rattle.history.specs.History.{parents_of};
ghost use Rattle.history.specs.Labels.{labels_of};
ghost use Rattle.history.specs.Reading.{Describes};

use crate::graph::CommitGraph;
use crate::row::CommitRow;
use labels::LabelKind;

impl<'a, K: LabelKind> CommitGraph<'a, K> {
    // How many entries of the tables hold commits.
    pub fn held(&self) -> usize
        ensures { result ≡ self.now.count }
    {
        self.count
    }

    // How many commits there are; their numbers are those below. The same number as `held`, told by the history.
    pub fn len(&self) -> usize
        ensures { result ≡ length (history self.now) }
    {
        self.held()
    }

    // The number as an index, if a commit has it.
    fn index(&self, number: u32) -> Option<usize>
        ensures { MatchOption result (self.now.count ≤ number) (λ i. (i ≡ number) × (number < self.now.count)) }
    {
        let number = number as usize;
        if number < self.held() {
            Some(number)
        } else {
            None
        }
    }

    // What was given of the commit, with its level and corrected date.
    pub fn commit(&self, number: u32) -> Option<CommitRow>
        ensures { MatchOption result (length (history self.now) ≤ number) (λ c. Describes (history self.now) number c) }
    {
        let number = self.index(number)?;
        Some(self.row_at(number))
    }

    // The numbers of the commit's parents, as they were listed.
    pub fn parents(&self, number: u32) -> Option<&[u32]>
        ensures { MatchOption result (length (history self.now) ≤ number) (λ p. (number < length (history self.now)) × (p.now ≡ parents_of (history self.now) number)) }
    {
        let number = self.index(number)?;
        Some(self.parents_at(number))
    }

    // The commit's label.
    pub fn label(&self, number: u32) -> Option<K::Label>
        ensures { MatchOption result (length (history self.now) ≤ number) (λ x. (number < length (history self.now)) × ((d : K.Label) → x ≡ slice_index_or (labels_of K.LabelKind.start K.LabelKind.grown (history self.now)) number d)) }
    {
        let number = self.index(number)?;
        Some(self.label_at(number))
    }
}
