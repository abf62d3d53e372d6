use crate::histories::{ask_chain, ask_seven};
use frontier::ByNumber;
use history::Refusal;
use labels::{Blank, ByteLevel, CorrectedDate, Interval, LabelKind, Level, Pair, Span, Stepped};
use std::process::Abort;

// The visits, or the refusal's number, by which other programs are told it.
fn outcome(reply: Result<u32, Refusal>) -> Result<u32, u32> {
    reply.map_err(|refusal| refusal.number())
}

// Tips 3, 4 and 5 towards 1: yes, yes and no, with so many visits.
fn two_of_three<K: LabelKind>(rt: &impl Abort, labels: &mut [K::Label], visits: u32) {
    let mut results = [9; 3];
    let mut marks = [9; 7];
    let mut queue = [ByNumber { number: 9 }; 7];
    let reply = ask_seven::<K>(labels, 1, &[3, 4, 5], &mut results, &mut marks, &mut queue);
    assert_eq!(rt; outcome(reply), Ok(visits));
    assert_eq!(rt; results, [1, 1, 0]);
}

// One question about the seven commits by level, with its result, its visits and the first four marks.
fn by_level(
    rt: &impl Abort,
    why: &str,
    target: u32,
    tip: u32,
    res: u8,
    visits: u32,
    trail: [u8; 4],
) {
    let mut results = [9; 1];
    let mut marks = [9; 4];
    let mut queue = [ByNumber { number: 9 }; 4];
    let reply = ask_seven::<Stepped<Level>>(
        &mut [0; 7],
        target,
        &[tip],
        &mut results,
        &mut marks,
        &mut queue,
    );
    assert_eq!(rt; outcome(reply), Ok(visits), "{why}");
    assert_eq!(rt; results, [res], "{why}");
    assert_eq!(rt; marks, trail, "{why}");
}

// A refusal by number for buffers of these lengths, which keep what they hold.
fn refused(
    rt: &impl Abort,
    why: &str,
    target: u32,
    told: usize,
    marked: usize,
    queued: usize,
    number: u32,
) {
    let mut results = [9; 3];
    let mut marks = [9; 7];
    let mut queue = [ByNumber { number: 9 }; 7];
    assert!(rt; told <= 3 && marked <= 7 && queued <= 7, "{why}");
    let reply = ask_seven::<Blank>(
        &mut [(); 7],
        target,
        &[3, 4, 5],
        &mut results[0..told],
        &mut marks[0..marked],
        &mut queue[0..queued],
    );
    assert_eq!(rt; outcome(reply), Err(number), "{why}");
    assert_eq!(rt; results, [9; 3], "{why}");
    assert_eq!(rt; marks, [9; 7], "{why}");
}

#[test]
fn each_kind_answers_the_same(rt: HostRuntime) {
    let span = Span { low: 0, high: 0 };
    two_of_three::<Stepped<Level>>(&rt, &mut [0; 7], 3);
    two_of_three::<Stepped<CorrectedDate>>(&rt, &mut [0; 7], 4);
    two_of_three::<Interval>(&rt, &mut [span; 7], 4);
    two_of_three::<Blank>(&rt, &mut [(); 7], 5);
    two_of_three::<Pair<Stepped<Level>, Interval>>(&rt, &mut [(0, span); 7], 3);
}

#[test]
fn one_tip(rt: HostRuntime) {
    by_level(&rt, "a commit contains itself", 3, 3, 1, 1, [0, 0, 0, 1]);
    by_level(&rt, "the tip is below the target", 3, 0, 0, 0, [0, 0, 0, 0]);
    by_level(
        &rt,
        "one parent is ruled out by its level",
        1,
        3,
        1,
        2,
        [0, 1, 0, 1],
    );
}

#[test]
fn levels_in_a_byte(rt: HostRuntime) {
    let mut results = [9; 1];
    let reply = ask_chain::<Stepped<ByteLevel>>(&mut [0; 300], 260, &[299], &mut results);
    assert_eq!(rt; outcome(reply), Ok(40));
    assert_eq!(rt; results, [1]);
}

#[test]
fn no_tips(rt: HostRuntime) {
    let mut marks = [9; 4];
    let mut queue = [ByNumber { number: 9 }; 4];
    let reply = ask_seven::<Blank>(&mut [(); 7], 2, &[], &mut [], &mut marks, &mut queue);
    assert_eq!(rt; outcome(reply), Ok(0));
    assert_eq!(rt; marks, [0, 0, 0, 9]);
}

#[test]
fn refusals_in_order(rt: HostRuntime) {
    refused(&rt, "the target is not held", 7, 2, 0, 0, 9);
    refused(&rt, "the list for the results is too short", 1, 2, 0, 0, 8);
    refused(&rt, "the marks are too short", 1, 3, 5, 6, 7);
    refused(&rt, "the queue is too short", 1, 3, 6, 5, 7);
}

#[test]
fn needed_length(rt: HostRuntime) {
    let mut marks = [9; 7];
    let mut queue = [ByNumber { number: 9 }; 7];
    let reply = ask_seven::<Blank>(&mut [(); 7], 1, &[3, 4, 5], &mut [], &mut marks, &mut queue);
    assert_eq!(rt; reply.map_err(|refusal| refusal.needed()), Err(Some(3)));
}
