// The histories that the tests ask about.
use containment::contains;
use frontier::ByNumber;
use history::{CommitGraph, CommitRow, ObjectId, Refusal};
use labels::LabelKind;
use samples::SEVEN;

// An id that begins with these bytes and goes on with zeros. Each test crate makes its own ids: what they share has no functions.
fn id(first: u8, second: u8) -> ObjectId {
    let mut bytes = [0; 20];
    bytes[0] = first;
    bytes[1] = second;
    ObjectId { bytes }
}

fn add_seven<K: LabelKind>(graph: &mut CommitGraph<'_, K>) -> Result<(), Refusal> {
    for commit in SEVEN {
        graph.add(
            id(commit.id, 0),
            ObjectId::ZERO,
            commit.date,
            commit.parents,
        )?;
    }
    Ok(())
}

// Asks about the seven commits, over a table for their labels. It makes the other tables itself: a history borrows them, so it cannot be handed out
// with them.
pub fn ask_seven<K: LabelKind>(
    labels: &mut [K::Label],
    target: u32,
    tips: &[u32],
    results: &mut [u8],
    marks: &mut [u8],
    queue: &mut [ByNumber],
) -> Result<u32, Refusal> {
    let mut rows = [CommitRow::EMPTY; 7];
    let mut order = [0; 7];
    let mut parents = [0; 9];
    let mut graph = CommitGraph::<K>::open(&mut rows, labels, &mut order, &mut parents);
    add_seven(&mut graph)?;
    contains(&graph, target, tips, results, marks, queue)
}

// A chain of 300 commits, each the parent of the next. By number: it makes the id, and names the child's parent.
fn add_chain<K: LabelKind>(graph: &mut CommitGraph<'_, K>) -> Result<(), Refusal> {
    graph.add(ObjectId::ZERO, ObjectId::ZERO, 0, &[])?;
    for n in 1..300u32 {
        let [_, _, high, low] = n.to_be_bytes();
        graph.add(id(high, low), ObjectId::ZERO, 0, &[n - 1])?;
    }
    Ok(())
}

// Asks about the chain, over tables of its own: a history borrows them, so it cannot be handed out with them.
pub fn ask_chain<K: LabelKind>(
    labels: &mut [K::Label],
    target: u32,
    tips: &[u32],
    results: &mut [u8],
) -> Result<u32, Refusal> {
    let mut rows = [CommitRow::EMPTY; 300];
    let mut order = [0; 300];
    let mut parents = [0; 300];
    let mut graph = CommitGraph::<K>::open(&mut rows, labels, &mut order, &mut parents);
    add_chain(&mut graph)?;
    let mut marks = [0; 300];
    let mut queue = [ByNumber { number: 0 }; 300];
    contains(&graph, target, tips, results, &mut marks, &mut queue)
}
