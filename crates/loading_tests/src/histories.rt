// Histories that are written, and files that are loaded.
use frontier::ByLevel;
use graph_file::write;
use history::{CommitGraph, CommitRow, ObjectId, Refusal};
use labels::{Level, Stepped};
use loading::{LoadRefusal, load};
use samples::Given;

type Levels = Stepped<Level>;

// An id that begins with this byte and goes on with zeros. Each test crate makes its own ids: what they share has no functions.
fn id(first: u8) -> ObjectId {
    let mut bytes = [0; 20];
    bytes[0] = first;
    ObjectId { bytes }
}

// Adds the commits to an empty history and writes its file. It makes its tables itself: a history borrows them, so it cannot be handed out with them.
pub fn write_added(commits: &[Given<'_>], file: &mut [u8]) -> Result<usize, Refusal> {
    let mut rows = [CommitRow::EMPTY; 7];
    let mut labels = [0; 7];
    let mut order = [0; 7];
    let mut parents = [0; 9];
    let mut graph = CommitGraph::<Levels>::open(&mut rows, &mut labels, &mut order, &mut parents);
    for c in commits {
        graph.add(id(c.id), id(0xa0), c.date, c.parents)?;
    }
    write(&graph, file)
}

// Loads a file into an empty history, and writes that history's file; answers how many commits there are, and that file's length. It makes its tables
// itself, as above.
pub fn write_loaded(
    file: &[u8],
    places: &mut [u32],
    again: &mut [u8],
) -> Result<(usize, usize), LoadRefusal> {
    let mut rows = [CommitRow::EMPTY; 7];
    let mut labels = [0; 7];
    let mut order = [0; 7];
    let mut parents = [0; 9];
    let mut graph = CommitGraph::<Levels>::open(&mut rows, &mut labels, &mut order, &mut parents);
    let entry = ByLevel {
        level: 0,
        position: 0,
    };
    let count = load(&mut graph, file, &mut [entry; 7], places)?;
    let length = write(&graph, again)?;
    Ok((count, length))
}
