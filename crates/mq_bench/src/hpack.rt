//! Blocks of requests and responses, read and written again.

use crate::huffman::ends;
use mq_hpack::{Decoder, Encoder, Field};
use mq_wire::Seq;
use std::alloc::Global;

/// The blocks of four connections, a line for each: those of RFC 7541, appendices C.4 and C.6, the requests of
/// a browser, and of a client that asks for tunnels. `bench/hpack_blocks.py` prints them, and
/// says where they come from.
const CONNECTIONS: &str = "\
828684418cf1e3c2e5f23a6ba0ab90f4ff
828684be5886a8eb10649cbf
828785bf408825a849e95ba97d7f8925a849e95bb8e8b4bf

3fe101488264025885aec3771a4b6196d07abe941054d444a8200595040b8166e082a62d1bff6e919d29ad171863c78f0b97c8e9ae82ae43d3
4883640effc1c0bf
88c16196d07abe941054d444a8200595040b8166e084a62d1bffc05a839bd9ab77ad94e7821dd7f2e6c7b335dfdfcd5b3960d5af27087f3672c1ab270fb5291f9587316065c003ed4ee5b1063d5007

8284418cf1e3c2e5f23a6ba0ab90f4ff877ab5d07f66a281b0dae053fafc087ed4ce6aadf2a7979c89c6bed4b3bdc089e5c1fda988a4ea76040080010054c26b0b29fcb0113cb83f53c0497ca589d34d1f43aeba0c41a4c7a98f33a69a3fdf9a68fa1d75d0620d263d4c79a68fbed00177fe8d48e62b03ee697e8d48e62b1e0b1d7f5f2c7cfdf6800bbd518b2d4b62bbf45abefb4005db50929bd9abfa5242cb40d25fa523b3e94f684c9f4092b6b9ac1c8558d520a4b6c2ad617b5a54251f810f408a4148b4a549275a42a13f8690e4b692d49f408a4148b4a549275a93c85f86a87dcd30d25f408a4148b4a549275906497f83a8f517408a4148b4a549275ad416cf82ff034082497f864d833505b11f
82448e61091a4c4610649576a509172211c987c8538e497ca582211f5f2c7cfdf6800b87c7c673929d29ad171863c78f0b97c8e9ae82ae43d2c7609f4150831ea8032bf1808e95b1fda899cb4960907675fb5281d53405a96c577f7f0784427d505f7f0785a8eb10f6237f078840e92ac7b0d31aafc5
82448f61091a4c46075d6bbf2bc51057e88fd087cf5383f963e7cecdc4c37f0384412c3569c2c1c8
82448c60d48e62a18a0f31d74779bfd387d25393352398ac0fb9a5fa352398ac782c75fd7cb1f3d1d0c7c67f0184352398bfc5c4cb
82449060d48e62a18ae73a4eb000d097e95cdfd687d5c0d3d2c9c8bfc6c5cc
8344896075998ee160c92d28d787d6538b1d75d0620d263d4c7441ead5d4cbca5f8b1d75d0620d263d4c7441ea5c82799f40853d8698d57f919d29ad171863c78f0b97c8e9ae82ae43d37f05842d35a7d77f0d8321ec47ccd3
8244966075998ee160c92d28ff2b1cc5805f083d8982a1d25fde87ddc4dbdad1d0698be4c7f2dcac8d60bc417f3fc1c0ced5
82449f607624c4a0a86040134c01b606b507aa659264d0558f2ac3a961d8931282ffe087dfdedddcd3d2dbd7dad9cfd6

4287bdab4e9c17b7ff4087b95d8749c87a3f8821eaa8a44ad6c95f87418daec3f9f4b97c8e9ae82ae7b26f449c617f05a285bad47f153148d1dad2b16c95b017c4b81712ee30d34cb1408b20eb45b4156aec3a4e43d182ff03
c2c187c0449c617f05a285bad47f153148d1dad2b16c95b017c4b81712eeb0d34cb1bf
c3c287c144a1617f05a285bad47f153148d1dad2b16c95b125485cbe474d74157a8a961e6d963fc0
c4c387c244a3617f05a285bad47f153148d1dad2b16c95b020002ab30c91bcab30aacc2d09869a658fc1
";

/// The blocks of each connection.
fn connections(alloc: Global) -> Option<Vec<Vec<Vec<u8>>>> {
    let mut connections = Vec::new(alloc);
    for lines in CONNECTIONS.split("\n\n") {
        let mut blocks = Vec::new(alloc);
        for line in lines.lines() {
            blocks.push(hex::decode(alloc, line).ok()?).ok()?;
        }
        connections.push(blocks).ok()?;
    }
    Some(connections)
}

/// The sum of what the fields of these blocks are worth, read by one decoder.
fn read(alloc: Global, blocks: &[Vec<u8>]) -> Option<u64> {
    let mut decoder = Decoder::new(alloc);
    let mut sum = 0u64;
    for block in blocks {
        for field in decoder.block(block.as_slice()).ok()?.as_slice() {
            sum = sum
                .wrapping_add(ends(field.name.as_slice()))
                .wrapping_add(ends(field.value.as_slice()));
        }
    }
    Some(sum)
}

/// The sum over so many rounds, each of which reads all the blocks, with a new decoder for each connection.
pub fn checksum(alloc: Global, count: u32) -> Option<u64> {
    let connections = connections(alloc)?;
    let mut sum = 0u64;
    for _ in 0..count {
        for blocks in connections.as_slice() {
            sum = sum.wrapping_add(read(alloc, blocks.as_slice())?);
        }
    }
    Some(sum)
}

/// The fields of each block.
fn messages(alloc: Global) -> Option<Vec<Seq<Field>>> {
    let mut messages = Vec::new(alloc);
    for blocks in connections(alloc)?.as_slice() {
        let mut decoder = Decoder::new(alloc);
        for block in blocks.as_slice() {
            messages.push(decoder.block(block.as_slice()).ok()?).ok()?;
        }
    }
    Some(messages)
}

/// The sum over so many rounds, each of which writes the fields of all the blocks.
pub fn checksum_written(alloc: Global, count: u32) -> Option<u64> {
    let messages = messages(alloc)?;
    let mut sum = 0u64;
    for _ in 0..count {
        let mut encoder = Encoder::new(alloc);
        for fields in messages.as_slice() {
            sum = sum.wrapping_add(ends(encoder.block(fields.as_slice()).ok()?.as_slice()));
        }
    }
    Some(sum)
}
