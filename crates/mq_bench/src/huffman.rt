//! Texts of a header, written in the Huffman code and read again.

use mq_huff::{HuffFault, decode, encode};
use std::alloc::Global;

/// What the fields of a request look like.
#[rattlefmt::skip]
const TEXTS: [&[u8]; 8] = [
    b"www.example.com",
    b"/.well-known/masque/udp/192.0.2.6/443/",
    b"Mozilla/5.0 (X11; Linux x86_64; rv:128.0) Gecko/20100101 Firefox/128.0",
    b"text/html,application/xhtml+xml,application/xml;q=0.9,*/*;q=0.8",
    b"gzip, deflate, br",
    b"session=1f9b0c7e5a; theme=dark; lang=en-GB",
    b"Mon, 21 Oct 2013 20:13:22 GMT",
    b"connect-udp",
];

/// The sum of the lengths and last bytes of so many texts, in the code and decoded again.
pub fn checksum(alloc: Global, count: u32) -> Result<u64, HuffFault> {
    let mut sum = 0u64;
    let mut coded = Vec::new(alloc);
    for n in 0..count {
        let text = TEXTS[(n % 8) as usize];
        coded.clear();
        encode(&mut coded, text)?;
        let read = decode(alloc, coded.as_slice())?;
        sum = sum
            .wrapping_add(ends(coded.as_slice()))
            .wrapping_add(ends(read.as_slice()));
    }
    Ok(sum)
}

/// The number of bytes and the last of them.
pub fn ends(bytes: &[u8]) -> u64 {
    bytes.len() as u64 + u64::from(bytes.last().copied().unwrap_or(0))
}
