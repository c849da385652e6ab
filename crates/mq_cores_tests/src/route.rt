//! Route lists, by tables from models over Python's `ipaddress`.
mod table;

use crate::common::{area_of, cut, protocol_of, ranges_of};
use crate::route::table::{ALLOWED, MEETS, ORDERS, OVERLAPS};
use mq_addr::parse_addr;
use mq_route::{RouteList, is_ordered};
use mq_wire::Seq;
use std::alloc::Global;
use std::test::Fail;

/// The route list of some words, which are in order.
fn list_of(alloc: Global, words: &str) -> Result<RouteList, Fail> {
    let ranges = ranges_of(alloc, words)?;
    if !is_ordered(ranges.as_slice()) {
        return Err(Fail::new("the ranges of a list are in order"));
    }
    Ok(RouteList::new(Seq::from_vec(ranges)))
}

/// Whether some words have a protocol.
fn names(words: &str, protocol: u8) -> bool {
    words == "all"
        || words
            .split_whitespace()
            .any(|word| word.parse::<u8>() == Ok(protocol))
}

#[test]
fn a_meet_has_maximal_intervals(rt: HostRuntime) -> Result<(), Fail> {
    for row in &MEETS {
        let (words, rest) = cut(row)?;
        let (area, rest) = cut(rest)?;
        let (protocol, wanted) = cut(rest)?;
        let list = list_of(rt.alloc(), words)?;
        let met = list.meet(rt.alloc(), area_of(area)?, protocol_of(protocol)?)?;
        let wanted = ranges_of(rt.alloc(), wanted)?;
        assert!(rt; met.ranges() == wanted.as_slice(), "{row}");
    }
    Ok(())
}

#[test]
fn a_list_allows_its_protocols(rt: HostRuntime) -> Result<(), Fail> {
    for row in &ALLOWED {
        let (words, rest) = cut(row)?;
        let (addr, allowed) = cut(rest)?;
        let list = list_of(rt.alloc(), words)?;
        let addr = parse_addr(addr.as_bytes())?;
        for protocol in 0..=255 {
            assert!(rt;
                list.allows(&addr, protocol) == names(allowed, protocol),
                "{row} {protocol}"
            );
        }
    }
    Ok(())
}

#[test]
fn lists_overlap_both_ways(rt: HostRuntime) -> Result<(), Fail> {
    for row in &OVERLAPS {
        let (words, rest) = cut(row)?;
        let (others, overlap) = cut(rest)?;
        let list = list_of(rt.alloc(), words)?;
        let other = list_of(rt.alloc(), others)?;
        assert!(rt; list.overlaps(&other) == (overlap == "yes"), "{row}");
        assert!(rt; other.overlaps(&list) == (overlap == "yes"), "{row}");
    }
    Ok(())
}

#[test]
fn the_first_fault_breaks_the_order(rt: HostRuntime) -> Result<(), Fail> {
    for row in &ORDERS {
        let (words, ordered) = cut(row)?;
        let ranges = ranges_of(rt.alloc(), words)?;
        let ordered = ordered.parse::<usize>()?;
        for count in 0..=ranges.len() {
            let (front, _) = ranges.as_slice().split_at(count);
            assert!(rt; is_ordered(front) == (count <= ordered), "{row}");
        }
    }
    Ok(())
}
