// The pass over a trail that tells which of its commits reach the target: these are marked so.
ghost use Rattle.std.specs.Prelude.{◌≡◌, ℕ, ◌<◌, ◌≤◌, ◌⊎◌, length, Decides, slice_index};
ghost use Rattle.containment.specs.Settling.{Leads, Settled};
ghost use Rattle.history.specs.Graph.{history};

use crate::mark::Mark;
use crate::question::Question;
use labels::LabelKind;

impl<K: LabelKind> Question<'_, '_, K> {
    // Whether some parent of the commit is marked to reach the target.
    fn leads(&self, marks: &[u8], number: usize) -> bool
        requires marked { length marks.now ≡ self.now.size }
        requires within { number < self.now.size }
        ensures { Decides result (Leads (history self.now.graph.now) marks.now number) }
    {
        self.graph
            .parents_at(number)
            .iter()
            .any(|parent| marks[*parent as usize] == Mark::Reaching as u8)
    }

    // Whether the commit is the target, or has a parent that reaches it.
    fn arrives(&self, marks: &[u8], number: usize) -> bool
        requires marked { length marks.now ≡ self.now.size }
        requires within { number < self.now.size }
        ensures { Decides result ((number ≡ self.now.target) ⊎ Leads (history self.now.graph.now) marks.now number) }
    {
        number == self.target || self.leads(marks, number)
    }

    // Marks each commit of the trail that reaches the target.
    pub fn settle(&self, marks: &mut [u8])
        requires marked { length marks.old ≡ self.now.size }
        requires bits { (k : ℕ) → slice_index marks.old k ≤ 1 }
        ensures { Settled (history self.now.graph.now) self.now.target self.now.size marks.old marks.new }
    {
        // by number: each step reads the marks of other commits, which earlier steps wrote
        for number in self.target..marks.len() {
            if marks[number] == Mark::OnTrail as u8 && self.arrives(marks, number) {
                marks[number] = Mark::Reaching as u8;
            }
        }
    }
}
