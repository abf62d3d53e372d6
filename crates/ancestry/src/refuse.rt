// The tests before a walk.
ghost use Rattle.std.specs.Prelude.{◌≡◌};
ghost use Rattle.history.specs.Model.{refused_with};
ghost use Rattle.ancestry.specs.Refusing.{walk_refusal};

use history::Refusal;

// Whether a walk from commits up to `top` can begin.
pub fn check(count: usize, top: usize, marks: usize, queue: usize) -> Result<(), Refusal>
    ensures { refused_with result ≡ walk_refusal count top marks queue }
{
    if count <= top {
        return Err(Refusal::CommitNotHeld);
    }
    if marks.min(queue) <= top {
        return Err(Refusal::BufferTooShort);
    }
    Ok(())
}
