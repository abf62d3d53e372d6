// A question's answer: its tests, and then the walk.
ghost use Rattle.std.specs.Prelude.{◌≡◌, ℕ, ◌<◌, length, IfOk, OnErr, slice_index};
ghost use Rattle.containment.specs.Questions.{OnTrail};
ghost use Rattle.containment.specs.Refusing.{contains_refusal};
ghost use Rattle.containment.specs.Trails.{Contained, opens};
ghost use Rattle.history.specs.Counting.{Tally, Tells};
ghost use Rattle.history.specs.Graph.{history};
ghost use Rattle.history.specs.History.{Reaches};
ghost use Rattle.history.specs.Labels.{labels_of};
ghost use Rattle.history.specs.Model.{refused_with};

use crate::question::Question;
use crate::room::admit;
use crate::tell::restore;
use frontier::ByNumber;
use history::{CommitGraph, Refusal};
use labels::LabelKind;

impl<K: LabelKind> Question<'_, '_, K> {
    // The answer over slices of the lengths that it uses.
    fn answer(&self, results: &mut [u8], marks: &mut [u8], queue: &mut [ByNumber]) -> u32
        requires told { length results.old ≡ length self.now.tips.now }
        requires marked { length marks.old ≡ self.now.size }
        requires queued { length queue.old ≡ self.now.size }
        ensures trail { (k : ℕ) → Tells (slice_index marks.new k) (OnTrail self.now k) }
        ensures visited { Tally (OnTrail self.now) self.now.size 0 result }
        ensures told { (i : ℕ) → i < length self.now.tips.now → Tells (slice_index results.new i) (Reaches (history self.now.graph.now) (slice_index self.now.tips.now i) self.now.target) }
    {
        let visits = self.mark_trail(marks, queue);
        self.settle(marks);
        self.tell(marks, results);
        restore(marks);
        visits
    }
}

// Puts 1 into result i where tip i reaches the target, and 0 where it does not; the marks show the trail, and its length is returned.
pub fn contains<K: LabelKind>(
    graph: &CommitGraph<'_, K>,
    target: u32,
    tips: &[u32],
    results: &mut [u8],
    marks: &mut [u8],
    queue: &mut [ByNumber],
) -> Result<u32, Refusal>
    ensures refusal { refused_with result ≡ contains_refusal (length (history graph.now)) target tips.now (length results.old) (length marks.old) (length queue.old) }
    ensures answer { IfOk result (λ visits. Contained (history graph.now) (opens K.LabelKind.allows (K.LabelKind.start 0 0) (labels_of K.LabelKind.start K.LabelKind.grown (history graph.now)) target) target tips.now results.old results.new marks.old marks.new queue.old queue.new visits) }
    ensures untouched { OnErr result ((results.new ≡ results.old) × (marks.new ≡ marks.old) × (queue.new ≡ queue.old)) }
{
    let size = admit(
        graph.held(),
        target,
        tips,
        results.len(),
        marks.len(),
        queue.len(),
    )?;
    let question = Question {
        graph,
        target: target as usize,
        tips,
        size,
    };
    Ok(question.answer(
        &mut results[0..tips.len()],
        &mut marks[0..size],
        &mut queue[0..size],
    ))
}
