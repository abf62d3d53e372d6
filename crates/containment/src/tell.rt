// What is read off the marks: the number of visits and the results.
ghost use Rattle.std.specs.Prelude.{◌≡◌, ℕ, ◌<◌, ◌≤◌, length, count_by, nat_eq, slice_index};
ghost use Rattle.containment.specs.Settling.{told, restored};

use crate::mark::Mark;
use crate::question::Question;
use labels::LabelKind;

// How many commits are on the trail.
pub fn visits(marks: &[u8]) -> u32
    requires { length marks.now ≤ 65536 }
    ensures { result ≡ count_by (λ m. nat_eq m 1) marks.now }
{
    // summed, which takes many marks at a time, where `filter` and `count` branch on each
    marks
        .iter()
        .map(|mark| u32::from(*mark == Mark::OnTrail as u8))
        .sum()
}

impl<K: LabelKind> Question<'_, '_, K> {
    // Writes the result of each tip.
    pub fn tell(&self, marks: &[u8], results: &mut [u8])
        requires told { length results.old ≡ length self.now.tips.now }
        requires marked { length marks.now ≡ self.now.size }
        ensures { (i : ℕ) → i < length self.now.tips.now → slice_index results.new i ≡ told (slice_index marks.now (slice_index self.now.tips.now i)) }
    {
        // by place: of a `zip` with the results' `iter_mut`, a proof knows nothing that was written
        for (i, tip) in self.tips.iter().enumerate() {
            results[i] = u8::from(marks[*tip as usize] == Mark::Reaching as u8);
        }
    }
}

// Puts the marks back to those of the trail.
pub fn restore(marks: &mut [u8])
    ensures { (k : ℕ) → k < length marks.old → slice_index marks.new k ≡ restored (slice_index marks.old k) }
{
    for mark in marks.iter_mut() {
        // written in any case, for the same reason
        *mark = if *mark == Mark::Reaching as u8 {
            Mark::OnTrail as u8
        } else {
            *mark
        };
    }
}
