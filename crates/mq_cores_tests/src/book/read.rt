//! The words that only a book's rows have.
use mq_addr::{Asked, Given, Prefix, parse_prefix};
use std::alloc::Global;
use std::test::Fail;

/// The first word of a text, and the others.
pub fn first_word(text: &str) -> (&str, &str) {
    match text.split_once(' ') {
        Some(parts) => parts,
        None => (text, ""),
    }
}

/// The blocks of some words.
pub fn blocks_of(alloc: Global, words: &str) -> Result<Vec<Prefix>, Fail> {
    let mut list = Vec::new(alloc);
    for word in words.split_whitespace() {
        list.push(parse_prefix(word.as_bytes())?)?;
    }
    Ok(list)
}

/// The block of a word with its Request ID, which stands before it with a sign of equality.
fn given_of(word: &str) -> Result<Given, Fail> {
    let Some((id, block)) = word.split_once('=') else {
        return Err(Fail::new("a block has a Request ID"));
    };
    Ok(Given {
        id: id.parse::<u64>()?,
        block: parse_prefix(block.as_bytes())?,
    })
}

/// The blocks of some words, with their Request IDs.
pub fn givens_of(alloc: Global, words: &str) -> Result<Vec<Given>, Fail> {
    let mut list = Vec::new(alloc);
    for word in words.split_whitespace() {
        list.push(given_of(word)?)?;
    }
    Ok(list)
}

/// The entries of a request.
pub fn asked_of(alloc: Global, words: &str) -> Result<Vec<Asked>, Fail> {
    let mut list = Vec::new(alloc);
    for given in givens_of(alloc, words)?.as_slice() {
        list.push(Asked {
            id: given.id,
            block: given.block,
        })?;
    }
    Ok(list)
}
