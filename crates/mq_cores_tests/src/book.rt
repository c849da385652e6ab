//! Configurations, calls and packets, by tables from a model over Python's `ipaddress`.
mod config;
mod may;
mod read;
mod run;
mod table;

use crate::book::config::is_config;
use crate::book::run::{config_of, first_wrong};
use crate::book::table::{BLOCKS, CONFIGS, FULL, JUDGED, RANGES};
use crate::common::cut;
use std::alloc::Global;
use std::process::Abort;
use std::test::Fail;

/// Whether a book may have the configuration of a row just where the row says so.
fn is_as_told(alloc: Global, row: &str) -> Result<bool, Fail> {
    let (may, words) = cut(row)?;
    let config = config_of(alloc, words)?;
    Ok(is_config(alloc, &config)? == (may == "yes"))
}

/// All rows are answered as they say.
fn all_are_right(rt: &impl Abort, alloc: Global, rows: &[&str]) -> Result<(), Fail> {
    assert_eq!(rt; first_wrong(alloc, rows)?, None);
    Ok(())
}

#[test]
fn a_book_has_a_configuration_that_may_be_one(rt: HostRuntime) -> Result<(), Fail> {
    for row in &CONFIGS {
        assert!(rt; is_as_told(rt.alloc(), row)?, "{row}");
    }
    Ok(())
}

#[test]
fn blocks_are_given_once(rt: HostRuntime) -> Result<(), Fail> {
    all_are_right(&rt, rt.alloc(), &BLOCKS)
}

#[test]
fn ranges_have_one_tunnel(rt: HostRuntime) -> Result<(), Fail> {
    all_are_right(&rt, rt.alloc(), &RANGES)
}

#[test]
fn a_full_history_has_places_for_the_closes(rt: HostRuntime) -> Result<(), Fail> {
    all_are_right(&rt, rt.alloc(), &FULL)
}

#[test]
fn packets_go_to_the_owner(rt: HostRuntime) -> Result<(), Fail> {
    all_are_right(&rt, rt.alloc(), &JUDGED)
}
