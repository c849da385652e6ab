//! The words of the tables that tests of several crates read.
use mq_addr::{Prefix, Range, parse_addr, parse_prefix};
use std::alloc::Global;
use std::test::Fail;

/// A column of a row, and what is behind it.
pub(crate) fn cut(row: &str) -> Result<(&str, &str), Fail> {
    match row.split_once('|') {
        Some(parts) => Ok(parts),
        None => Err(Fail::new("a row has another column")),
    }
}

/// The range of a word: the first address, the last and the protocol, with dashes between them.
pub(crate) fn range_of(word: &str) -> Result<Range, Fail> {
    let Some((first, rest)) = word.split_once('-') else {
        return Err(Fail::new("a range has a last address"));
    };
    let Some((last, protocol)) = rest.split_once('-') else {
        return Err(Fail::new("a range has a protocol"));
    };
    Ok(Range {
        first: parse_addr(first.as_bytes())?,
        last: parse_addr(last.as_bytes())?,
        protocol: protocol.parse::<u8>()?,
    })
}

/// The ranges of some words.
pub(crate) fn ranges_of(alloc: Global, words: &str) -> Result<Vec<Range>, Fail> {
    let mut list = Vec::new(alloc);
    for word in words.split_whitespace() {
        list.push(range_of(word)?)?;
    }
    Ok(list)
}

/// The area of a word. A star is for all addresses.
pub(crate) fn area_of(word: &str) -> Result<Option<Prefix>, Fail> {
    if word == "*" {
        return Ok(None);
    }
    Ok(Some(parse_prefix(word.as_bytes())?))
}

/// The protocol of a word. A star is for all.
pub(crate) fn protocol_of(word: &str) -> Result<Option<u8>, Fail> {
    if word == "*" {
        return Ok(None);
    }
    Ok(Some(word.parse::<u8>()?))
}
