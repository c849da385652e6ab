//! Blocks that are free, from Python's `ipaddress`.
mod table;

use crate::pool::table::ROWS;
use mq_addr::{Prefix, parse_prefix, version_of};
use mq_pool::least_free;
use std::alloc::Global;
use std::test::Fail;

/// The blocks of a row, by its parts.
#[derive(Drop)]
struct Row {
    pool: Vec<Prefix>,
    taken: Vec<Prefix>,
    asked: Vec<Prefix>,
}

fn row_of(alloc: Global, text: &str) -> Result<Row, Fail> {
    let mut row = Row {
        pool: Vec::new(alloc),
        taken: Vec::new(alloc),
        asked: Vec::new(alloc),
    };
    let mut part = 0;
    for word in text.split_whitespace() {
        if word == "-" {
            part = if part == 0 { 1 } else { 2 };
            continue;
        }
        let block = parse_prefix(word.as_bytes())?;
        match part {
            0 => row.pool.push(block)?,
            1 => row.taken.push(block)?,
            _ => row.asked.push(block)?,
        }
    }
    Ok(row)
}

#[test]
fn the_free_block_that_starts_first_is_found(rt: HostRuntime) -> Result<(), Fail> {
    for text in &ROWS {
        let row = row_of(rt.alloc(), text)?;
        assert!(rt; !row.asked.is_empty());
        let asked = row.asked[0];
        let version = version_of(&asked.addr);
        assert!(rt; version == 4 && asked.length <= 32 || version == 6 && asked.length <= 128);
        let found = least_free(
            row.pool.as_slice(),
            row.taken.as_slice(),
            version,
            asked.length,
        );
        assert!(rt; found.as_ref() == row.asked.get(1), "{text}");
    }
    Ok(())
}
