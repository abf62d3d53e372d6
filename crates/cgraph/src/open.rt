// Opening a history of the kind that a request names.
use crate::buffers::filled;
use crate::input::Requests;
use crate::serve::serve;
use crate::show::ShowLabel;
use history::{CommitGraph, CommitRow};
use labels::{Blank, ByteLevel, CorrectedDate, Interval, LabelKind, Level, Pair, Step, Stepped};
use protocol::{BaseKind, Kind, Opening};
use std::alloc::{AllocError, Global};
use std::io;

#[derive(Drop)]
struct Tables<L: Drop> {
    rows: Vec<CommitRow>,
    labels: Vec<L>,
    order: Vec<u32>,
    parents: Vec<u32>,
}

fn make_tables<K: LabelKind>(
    heap: Global,
    opening: Opening,
) -> Result<Tables<K::Label>, AllocError> {
    Ok(Tables {
        rows: filled(heap, CommitRow::EMPTY, opening.rows)?,
        labels: filled(heap, K::first(0, 0), opening.labels)?,
        order: filled(heap, 0, opening.order)?,
        parents: filled(heap, 0, opening.parents)?,
    })
}

// Makes the tables and serves a history over them; answers the next opening.
fn run<K: ShowLabel>(
    rt: &HostRuntime,
    requests: &mut Requests,
    opening: Opening,
) -> io::Result<Option<Opening>> {
    let Ok(mut tables) = make_tables::<K>(rt.alloc(), opening) else {
        rt.println("error there is no memory for the tables, and no history is open")?;
        return serve::<K>(rt, requests, &mut None);
    };
    let kind = opening.kind;
    let capacity = opening.capacity();
    let parent_capacity = opening.parent_capacity();
    println!(rt; "opened {kind} capacity {capacity} parents {parent_capacity}")?;
    let graph = CommitGraph::<K>::open(
        tables.rows.as_mut_slice(),
        tables.labels.as_mut_slice(),
        tables.order.as_mut_slice(),
        tables.parents.as_mut_slice(),
    );
    serve(rt, requests, &mut Some(graph))
}

// A history of a pair whose second kind is known. A kind is a type, so each has an arm here and below; a trait for what is done at a kind takes more lines.
fn run_before<B: ShowLabel>(
    rt: &HostRuntime,
    requests: &mut Requests,
    opening: Opening,
    first: BaseKind,
) -> io::Result<Option<Opening>> {
    match first {
        BaseKind::Blank => run::<Pair<Blank, B>>(rt, requests, opening),
        BaseKind::Level => run::<Pair<Stepped<Level>, B>>(rt, requests, opening),
        BaseKind::ByteLevel => run::<Pair<Stepped<ByteLevel>, B>>(rt, requests, opening),
        BaseKind::CorrectedDate => run::<Pair<Stepped<CorrectedDate>, B>>(rt, requests, opening),
        BaseKind::Interval => run::<Pair<Interval, B>>(rt, requests, opening),
    }
}

// A history of any kind.
pub fn run_kind(
    rt: &HostRuntime,
    requests: &mut Requests,
    opening: Opening,
) -> io::Result<Option<Opening>> {
    match opening.kind {
        Kind::One(BaseKind::Blank) => run::<Blank>(rt, requests, opening),
        Kind::One(BaseKind::Level) => run::<Stepped<Level>>(rt, requests, opening),
        Kind::One(BaseKind::ByteLevel) => run::<Stepped<ByteLevel>>(rt, requests, opening),
        Kind::One(BaseKind::CorrectedDate) => run::<Stepped<CorrectedDate>>(rt, requests, opening),
        Kind::One(BaseKind::Interval) => run::<Interval>(rt, requests, opening),
        Kind::Two(first, BaseKind::Blank) => run_before::<Blank>(rt, requests, opening, first),
        Kind::Two(first, BaseKind::Level) => {
            run_before::<Stepped<Level>>(rt, requests, opening, first)
        }
        Kind::Two(first, BaseKind::ByteLevel) => {
            run_before::<Stepped<ByteLevel>>(rt, requests, opening, first)
        }
        Kind::Two(first, BaseKind::CorrectedDate) => {
            run_before::<Stepped<CorrectedDate>>(rt, requests, opening, first)
        }
        Kind::Two(first, BaseKind::Interval) => run_before::<Interval>(
            rt, requests, opening, first,
        ),
    }
}
