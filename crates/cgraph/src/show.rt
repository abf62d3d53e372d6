// What answers show of labels and commits.
use history::CommitRow;
use labels::{Blank, Interval, LabelKind, Pair, Span, Step, Stepped};
use protocol::HexId;
use std::fmt;

// A label kind whose labels can be written. Not by `Display`: labels are units, numbers and pairs, whose types are not ours.
pub trait ShowLabel: LabelKind {
    fn show<W: fmt::Write>(label: Self::Label, f: &mut fmt::Formatter<W>) -> fmt::Result;
}

impl ShowLabel for Blank {
    fn show<W: fmt::Write>(_label: (), f: &mut fmt::Formatter<W>) -> fmt::Result {
        f.write_str("-")
    }
}

impl<S: Step> ShowLabel for Stepped<S>
where
    S::Number: fmt::Display,
{
    fn show<W: fmt::Write>(label: S::Number, f: &mut fmt::Formatter<W>) -> fmt::Result {
        write!(f, "{label}")
    }
}

impl ShowLabel for Interval {
    fn show<W: fmt::Write>(label: Span, f: &mut fmt::Formatter<W>) -> fmt::Result {
        let low = label.low;
        let high = label.high;
        write!(f, "{low}..{high}")
    }
}

impl<A: ShowLabel, B: ShowLabel> ShowLabel for Pair<A, B> {
    fn show<W: fmt::Write>(label: (A::Label, B::Label), f: &mut fmt::Formatter<W>) -> fmt::Result {
        f.write_str("(")?;
        A::show(label.0, f)?;
        f.write_str(", ")?;
        B::show(label.1, f)?;
        f.write_str(")")
    }
}

// Numbers, each after a space.
#[derive(Clone, Copy)]
pub struct Numbers<'a>(pub &'a [u32]);

impl<'a> fmt::Display for Numbers<'a> {
    fn fmt<W: fmt::Write>(&self, f: &mut fmt::Formatter<W>) -> fmt::Result {
        for number in self.0 {
            write!(f, " {number}")?;
        }
        Ok(())
    }
}

// Results that are 1 or 0 as yes or no, each after a space.
#[derive(Clone, Copy)]
pub struct Verdicts<'a>(pub &'a [u8]);

impl<'a> fmt::Display for Verdicts<'a> {
    fn fmt<W: fmt::Write>(&self, f: &mut fmt::Formatter<W>) -> fmt::Result {
        for result in self.0 {
            f.write_str(if *result == 1 { " yes" } else { " no" })?;
        }
        Ok(())
    }
}

// The line that shows a commit.
#[derive(Drop)]
pub struct CommitLine<'a, K: LabelKind> {
    pub number: u32,
    pub row: CommitRow,
    pub label: K::Label,
    pub parents: &'a [u32],
}

impl<'a, K: ShowLabel> fmt::Display for CommitLine<'a, K> {
    fn fmt<W: fmt::Write>(&self, f: &mut fmt::Formatter<W>) -> fmt::Result {
        let number = self.number;
        let row = self.row;
        let id = HexId(row.id);
        let tree = HexId(row.tree);
        let date = row.date;
        let level = row.level;
        let corrected = row.corrected;
        write!(
            f,
            "commit {number} id {id} tree {tree} date {date} level {level} corrected {corrected} label "
        )?;
        K::show(self.label, f)?;
        f.write_str(" parents")?;
        if self.parents.is_empty() {
            return f.write_str(" none");
        }
        let parents = Numbers(self.parents);
        write!(f, "{parents}")
    }
}
