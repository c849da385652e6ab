//! Work for the clock: `mq_bench WORD COUNT` does a piece of work so often and prints a checksum, and no time.
//! The scripts under `bench/` time it from outside.
#![tactic(auto)]

mod book;
mod capsules;
mod frames;
mod h2;
mod head;
mod hpack;
mod huffman;
mod packets;
mod policy;
mod streams;
mod varint;

use std::alloc::Global;
use std::env;
use std::process::ExitCode;

/// The checksum of a piece of work, where there is one of this name and it found its memory.
fn checksum(alloc: Global, word: &str, count: u32) -> Option<u64> {
    match word {
        "book_10" => book::checksum_of_named(alloc, count, 10).ok(),
        "book_1000" => book::checksum_of_named(alloc, count, 1_000).ok(),
        "book_10000" => book::checksum_of_named(alloc, count, 10_000).ok(),
        "book_any_10" => book::checksum_of_any(alloc, count, 10).ok(),
        "book_any_1000" => book::checksum_of_any(alloc, count, 1_000).ok(),
        "book_any_10000" => book::checksum_of_any(alloc, count, 10_000).ok(),
        "capsules_1" => capsules::checksum(alloc, count, 1).ok(),
        "capsules_100" => capsules::checksum(alloc, count, 100).ok(),
        "capsules_16384" => capsules::checksum(alloc, count, 16_384).ok(),
        "frames_1" => frames::checksum(alloc, count, 1).ok(),
        "frames_100" => frames::checksum(alloc, count, 100).ok(),
        "frames_16384" => frames::checksum(alloc, count, 16_384).ok(),
        "h2_16384_in_1" => h2::checksum_of_data(alloc, count, 16_384, 1).ok(),
        "h2_16384_in_100" => h2::checksum_of_data(alloc, count, 16_384, 100).ok(),
        "h2_16384_in_16384" => h2::checksum_of_data(alloc, count, 16_384, 16_384).ok(),
        "h2_100_in_1" => h2::checksum_of_data(alloc, count, 100, 1).ok(),
        "h2_100_in_100" => h2::checksum_of_data(alloc, count, 100, 100).ok(),
        "h2_100_in_16384" => h2::checksum_of_data(alloc, count, 100, 16_384).ok(),
        "h2_requests" => h2::checksum_of_requests(alloc, count).ok(),
        "head" => head::checksum(alloc, count).ok(),
        "head_bytes" => head::checksum_by_bytes(alloc, count).ok(),
        "head_long" => head::checksum_of_long(alloc, count).ok(),
        "hpack" => hpack::checksum(alloc, count),
        "hpack_write" => hpack::checksum_written(alloc, count),
        "huffman" => huffman::checksum(alloc, count).ok(),
        "judge_10" => book::checksum_of_judging(alloc, count, 10).ok(),
        "judge_1000" => book::checksum_of_judging(alloc, count, 1_000).ok(),
        "judge_10000" => book::checksum_of_judging(alloc, count, 10_000).ok(),
        "packets" => packets::checksum(alloc, count).ok(),
        "policy" => policy::checksum(alloc, count).ok(),
        "streams" => streams::checksum(alloc, count).ok(),
        "varint" => varint::checksum(alloc, count).ok(),
        _ => None,
    }
}

fn words_of(rt: &HostRuntime) -> Option<Vec<String>> {
    let args = env::args(rt).ok()?;
    let mut words = Vec::new(rt.alloc());
    for word in args.skip(1) {
        words.push(word).ok()?;
    }
    Some(words)
}

/// Does each pair of a word and a count, and prints a line for it.
fn bench(rt: &HostRuntime) -> Option<()> {
    let words = words_of(rt)?;
    for pair in words.as_slice().chunks(2) {
        let [word, count] = pair else {
            return None;
        };
        let count = count.as_str().parse::<u32>().ok()?;
        let sum = checksum(rt.alloc(), word.as_str(), count)?;
        println!(rt; "{word} {sum}").ok()?;
    }
    Some(())
}

fn main(rt: HostRuntime) -> ExitCode {
    match bench(&rt) {
        Some(()) => ExitCode::from(0),
        None => ExitCode::from(2),
    }
}
