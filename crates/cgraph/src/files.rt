// Files of the history.
use crate::buffers::filled;
use crate::failure::Failure;
use graph_file::write;
use history::CommitGraph;
use labels::LabelKind;
use protocol::Writing;
use std::fs;

// How long the history's file is.
fn file_length<K: LabelKind>(graph: &CommitGraph<'_, K>) -> usize {
    write(graph, &mut []).unwrap_or_else(|refusal| refusal.needed().unwrap_or(0))
}

pub fn write_file<K: LabelKind>(
    rt: &HostRuntime,
    graph: &CommitGraph<'_, K>,
    writing: Writing,
) -> Result<(), Failure> {
    let length = writing.length.unwrap_or_else(|| file_length(graph));
    let mut buffer = filled(rt.alloc(), 0u8, length).map_err(|_| Failure::NoBuffer)?;
    let written = write(graph, buffer.as_mut_slice())?;
    buffer.truncate(written);
    fs::write(rt, writing.path.as_str(), buffer.as_slice()).map_err(|_| Failure::FileNotWritten)?;
    println!(rt; "wrote {written}")?;
    Ok(())
}
