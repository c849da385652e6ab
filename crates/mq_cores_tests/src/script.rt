//! Generated scripts, against lines from another program.
use mq_script::{Generator, generate};
use mq_wire::NoMemory;
use std::alloc::Global;

/// The script that 7 makes, with three packets.
const THREE: &[u8] = b"workers 2
pool 10.0.0.0/16
route 0.0.0.0 255.255.255.255 0
host 203.0.113.5
conn 0
conn 1
conn 0
conn 1
text 0 GET /.well-known/masque/ip/*/*/ HTTP/1.1\\r\\nHost: p\\r\\nConnection: Upgrade\\r\\nUpgrade: connect-ip\\r\\n\\r\\n
bytes 0 020701040a00000020
text 1 GET /.well-known/masque/ip/*/*/ HTTP/1.1\\r\\nHost: p\\r\\nConnection: Upgrade\\r\\nUpgrade: connect-ip\\r\\n\\r\\n
bytes 1 020701040a00000120
text 2 GET /.well-known/masque/ip/*/*/ HTTP/1.1\\r\\nHost: p\\r\\nConnection: Upgrade\\r\\nUpgrade: connect-ip\\r\\n\\r\\n
bytes 2 020701040a00000220
text 3 GET /.well-known/masque/ip/*/*/ HTTP/1.1\\r\\nHost: p\\r\\nConnection: Upgrade\\r\\nUpgrade: connect-ip\\r\\n\\r\\n
bytes 3 020701040a00000320
run 1000
bytes 0 0024004500002300000000401134c50a000000cb0071050fa00007000f000000000000000000
step 1 2
bytes 3 0020004500001f00000000401166cc0a0000030a0000000fa00007000b0000010101
step net 2
bytes 2 0020004500001f00000000401166cc0a0000020a0000010fa00007000b0000020202
step 0 2
run 1000000
";

/// All lines with their newlines, where there are at most a hundred.
fn script(alloc: Global, seed: u64, count: u32) -> Result<Vec<u8>, NoMemory> {
    let mut generator = Generator::new(alloc, seed, count);
    let mut text = Vec::new(alloc);
    for _ in 0..100 {
        if !generator.next_line(&mut text)? {
            break;
        }
        text.push(b'\n')?;
    }
    Ok(text)
}

#[test]
fn all_lines_of_a_script(rt: HostRuntime) {
    let text = script(rt.alloc(), 7, 3);
    assert!(rt; matches!(&text, Ok(text) if text.as_slice() == THREE));
}

/// Whether the script that 7 makes has this line under this number.
fn has_line(alloc: Global, count: u32, number: u32, line: &[u8]) -> bool {
    match generate(alloc, 7, count, number) {
        Ok(Some(found)) => found.as_slice() == line,
        Ok(None) | Err(_) => false,
    }
}

/// Whether it has no line of this number.
fn ends_before(alloc: Global, count: u32, number: u32) -> bool {
    matches!(generate(alloc, 7, count, number), Ok(None))
}

#[test]
fn one_line_of_a_script(rt: HostRuntime) {
    assert!(rt; ends_before(rt.alloc(), 1, 0));
    assert!(rt; has_line(rt.alloc(), 1, 1, b"workers 2"));
    assert!(rt; has_line(rt.alloc(), 1, 20, b"run 1000000"));
    assert!(rt; ends_before(rt.alloc(), 1, 21));
}

#[test]
fn the_longest_script_of_the_program(rt: HostRuntime) {
    let wrapped = b"bytes 1 001f004500001e00000000401166ce0a0000010a0000010fa00007000a00000101";
    assert!(rt; has_line(rt.alloc(), 50_000, 532, wrapped));
    assert!(rt; has_line(rt.alloc(), 50_000, 100_017, b"step net 2"));
    assert!(rt; has_line(rt.alloc(), 50_000, 100_018, b"run 1000000"));
    assert!(rt; ends_before(rt.alloc(), 50_000, 100_019));
}
