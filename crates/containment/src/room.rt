// The tests that a question has to pass before anything is written.
ghost use Rattle.std.specs.Prelude.{◌≡◌, ◌+◌, ◌≤◌, length, IfOk};
ghost use Rattle.containment.specs.Refusing.{contains_refusal, Roomy};
ghost use Rattle.containment.specs.Trails.{top_commit};
ghost use Rattle.history.specs.Model.{refused_with};

use history::Refusal;

// The greatest number that the question names.
fn top(target: u32, tips: &[u32]) -> u32
    ensures { result ≡ top_commit target tips.now }
{
    tips.iter().copied().fold(target, u32::max)
}

// How many marks the walk uses, or why there is none. Not the tests of a walk from two commits: the results are tested between them.
pub fn admit(
    held: usize,
    target: u32,
    tips: &[u32],
    results: usize,
    marks: usize,
    queue: usize,
) -> Result<usize, Refusal>
    ensures refusal { refused_with result ≡ contains_refusal held target tips.now results marks queue }
    ensures roomy { IfOk result (λ size. Roomy held target tips.now results marks queue size) }
{
    let top = top(target, tips) as usize;
    if top >= held {
        return Err(Refusal::CommitNotHeld);
    }
    if results < tips.len() {
        return Err(Refusal::ResultTooShort(tips.len()));
    }
    if marks.min(queue) <= top {
        return Err(Refusal::BufferTooShort);
    }
    Ok(top + 1)
}
