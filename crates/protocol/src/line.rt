// Reading a request from a line.
use crate::parse_error::{ParseError, Part};
use crate::request::{Addition, Containment, Opening, Request, TwoCommits, Writing};
use crate::words::Words;
use std::alloc::Global;

fn parse_open(mut words: Words<'_>) -> Result<Request, ParseError> {
    let kind = words.kind()?;
    let rows = words.length(Part::Rows)?;
    let labels = words.length(Part::Labels)?;
    let order = words.length(Part::Order)?;
    let parents = words.length(Part::Parents)?;
    words.end()?;
    Ok(Request::Open(Opening {
        kind,
        rows,
        labels,
        order,
        parents,
    }))
}

fn parse_add(mut words: Words<'_>, heap: Global) -> Result<Request, ParseError> {
    let id = words.id(Part::Id)?;
    let tree = words.id(Part::Tree)?;
    let date = words.date()?;
    let parents = words.parents(heap)?;
    Ok(Request::Add(Addition {
        id,
        tree,
        date,
        parents,
    }))
}

fn parse_find(mut words: Words<'_>) -> Result<Request, ParseError> {
    let id = words.id(Part::Id)?;
    words.end()?;
    Ok(Request::Find(id))
}

fn parse_show(mut words: Words<'_>) -> Result<Request, ParseError> {
    let number = words.commit(Part::Number)?;
    words.end()?;
    Ok(Request::Show(number))
}

fn parse_contains(mut words: Words<'_>, heap: Global) -> Result<Request, ParseError> {
    let target = words.commit(Part::Target)?;
    let (tips, lengths) = words.tips(heap)?;
    Ok(Request::Contains(Containment {
        target,
        tips,
        lengths,
    }))
}

fn parse_two_commits(mut words: Words<'_>, has_results: bool) -> Result<TwoCommits, ParseError> {
    let a = words.commit(Part::First)?;
    let b = words.commit(Part::Second)?;
    let lengths = words.options(has_results)?;
    Ok(TwoCommits { a, b, lengths })
}

fn parse_write(mut words: Words<'_>, heap: Global) -> Result<Request, ParseError> {
    let path = words.path(heap)?;
    let length = words.last_length()?;
    Ok(Request::Write(Writing { path, length }))
}

// The request that a line makes.
pub fn parse(heap: Global, line: &str) -> Result<Request, ParseError> {
    let mut words = Words::of(line);
    let Some(first) = words.first() else {
        return Ok(Request::Nothing);
    };
    if first.starts_with('#') {
        return Ok(Request::Nothing);
    }
    match first {
        "open" => parse_open(words),
        "add" => parse_add(words, heap),
        "find" => parse_find(words),
        "show" => parse_show(words),
        "contains" => parse_contains(words, heap),
        "ahead-behind" => Ok(Request::AheadBehind(parse_two_commits(words, false)?)),
        "merge-bases" => Ok(Request::MergeBases(parse_two_commits(words, true)?)),
        "write" => parse_write(words, heap),
        _ => Err(ParseError::UnknownRequest),
    }
}
