// Answering what commits reach. The lists that a question is lent are made for it.
use crate::buffers::filled;
use crate::failure::Failure;
use crate::show::{Numbers, Verdicts};
use ancestry::{ahead_behind, merge_bases};
use containment::contains;
use frontier::ByNumber;
use history::{CommitGraph, Refusal};
use labels::LabelKind;
use protocol::{Containment, Lengths, TwoCommits};
use std::alloc::{AllocError, Global};

// What every walk is lent.
#[derive(Drop)]
struct Walk {
    marks: Vec<u8>,
    queue: Vec<ByNumber>,
}

impl Walk {
    fn new(heap: Global, lengths: Lengths, held: usize) -> Result<Walk, AllocError> {
        Ok(Walk {
            marks: filled(heap, 0, lengths.marks.unwrap_or(held))?,
            queue: filled(heap, ByNumber { number: 0 }, lengths.queue.unwrap_or(held))?,
        })
    }
}

pub fn ask_contains<K: LabelKind>(
    rt: &HostRuntime,
    graph: &CommitGraph<'_, K>,
    question: Containment,
) -> Result<(), Failure> {
    let lengths = question.lengths;
    let tips = question.tips.as_slice();
    let mut results = filled(rt.alloc(), 0, lengths.results.unwrap_or(tips.len()))?;
    let mut walk = Walk::new(rt.alloc(), lengths, graph.len())?;
    let visits = contains(
        graph,
        question.target,
        tips,
        results.as_mut_slice(),
        walk.marks.as_mut_slice(),
        walk.queue.as_mut_slice(),
    )?;
    results.truncate(tips.len());
    let verdicts = Verdicts(results.as_slice());
    println!(rt; "contains{verdicts} visits {visits}")?;
    Ok(())
}

pub fn ask_ahead_behind<K: LabelKind>(
    rt: &HostRuntime,
    graph: &CommitGraph<'_, K>,
    question: TwoCommits,
) -> Result<(), Failure> {
    let mut walk = Walk::new(rt.alloc(), question.lengths, graph.len())?;
    let (ahead, behind) = ahead_behind(
        graph,
        question.a,
        question.b,
        walk.marks.as_mut_slice(),
        walk.queue.as_mut_slice(),
    )?;
    println!(rt; "ahead {ahead} behind {behind}")?;
    Ok(())
}

pub fn ask_merge_bases<K: LabelKind>(
    rt: &HostRuntime,
    graph: &CommitGraph<'_, K>,
    question: TwoCommits,
) -> Result<(), Failure> {
    let lengths = question.lengths;
    let mut results = filled(rt.alloc(), 0, lengths.results.unwrap_or(graph.len()))?;
    let mut walk = Walk::new(rt.alloc(), lengths, graph.len())?;
    match merge_bases(
        graph,
        question.a,
        question.b,
        results.as_mut_slice(),
        walk.marks.as_mut_slice(),
        walk.queue.as_mut_slice(),
    ) {
        Ok(0) => rt.println("merge-bases none")?,
        Ok(count) => {
            results.truncate(count as usize);
            let bases = Numbers(results.as_slice());
            println!(rt; "merge-bases{bases}")?;
        }
        Err(refusal @ Refusal::ResultTooShort(_)) => {
            let number = refusal.number();
            let bases = Numbers(results.as_slice());
            println!(rt; "refused {number} {refusal} holds{bases}")?;
        }
        Err(refusal) => return Err(Failure::Refused(refusal)),
    }
    Ok(())
}
