// Serving requests. The runtime is handed on by itself, as printing and memory ask for it.
use crate::ask::{ask_ahead_behind, ask_contains, ask_merge_bases};
use crate::failure::Failure;
use crate::files::write_file;
use crate::input::Requests;
use crate::show::{CommitLine, ShowLabel};
use history::{CommitGraph, ObjectId};
use labels::LabelKind;
use protocol::{Addition, Opening, Request};
use std::io;

fn add<K: LabelKind>(
    rt: &HostRuntime,
    graph: &mut CommitGraph<'_, K>,
    commit: Addition,
) -> Result<(), Failure> {
    let number = graph.add(
        commit.id,
        commit.tree,
        commit.date,
        commit.parents.as_slice(),
    )?;
    println!(rt; "added {number}")?;
    Ok(())
}

fn find<K: LabelKind>(
    rt: &HostRuntime,
    graph: &CommitGraph<'_, K>,
    id: ObjectId,
) -> Result<(), Failure> {
    match graph.find(id) {
        Some(number) => println!(rt; "found {number}")?,
        None => rt.println("none")?,
    }
    Ok(())
}

fn show<K: ShowLabel>(
    rt: &HostRuntime,
    graph: &CommitGraph<'_, K>,
    number: u32,
) -> Result<(), Failure> {
    match (
        graph.commit(number),
        graph.label(number),
        graph.parents(number),
    ) {
        (Some(row), Some(label), Some(parents)) => {
            let line: CommitLine<'_, K> = CommitLine {
                number,
                row,
                label,
                parents,
            };
            rt.println(line)?;
        }
        _ => rt.println("none")?,
    }
    Ok(())
}

// Serves requests until the next `open`, which it hands back, or the end of the input.
pub fn serve<K: ShowLabel>(
    rt: &HostRuntime,
    requests: &mut Requests,
    graph: &mut Option<CommitGraph<'_, K>>,
) -> io::Result<Option<Opening>> {
    // a count, since the input may never end
    for _ in 0..u64::MAX {
        let Some(request) = requests.next()? else {
            break;
        };
        let answered = match (request, graph.as_mut()) {
            (Err(e), _) => Err(Failure::Unreadable(e)),
            (Ok(Request::Nothing), _) => Ok(()),
            (Ok(Request::Open(opening)), _) => return Ok(Some(opening)),
            (Ok(_), None) => Err(Failure::NoHistory),
            (Ok(Request::Add(commit)), Some(graph)) => add(rt, graph, commit),
            (Ok(Request::Find(id)), Some(graph)) => find(rt, graph, id),
            (Ok(Request::Show(number)), Some(graph)) => show(rt, graph, number),
            (Ok(Request::Contains(question)), Some(graph)) => ask_contains(rt, graph, question),
            (Ok(Request::AheadBehind(question)), Some(graph)) => {
                ask_ahead_behind(rt, graph, question)
            }
            (Ok(Request::MergeBases(question)), Some(graph)) => ask_merge_bases(
                rt, graph, question,
            ),
            (Ok(Request::Write(writing)), Some(graph)) => write_file(rt, graph, writing),
        };
        if let Err(failure) = answered {
            failure.tell(rt)?;
        }
    }
    Ok(None)
}
