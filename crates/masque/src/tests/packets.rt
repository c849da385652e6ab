//! Tunnels for IP packets. What is printed is worked out by another program (tools/ip_examples.py checks it, packet for packet).

use super::{PLAIN, prints};
use mq_replay::Status;
use std::test::Fail;

/// Two clients on two workers send packets to each other, and one says where its tunnel leads.
const BETWEEN: &[u8] =
    b"workers 2\npool 10.0.0.0/24\nreach 192.0.2.0/24\nroute 10.0.0.0 10.0.0.255 0\nroute 192.0.2.0 192.0.2.255 0\nconn 0\nconn 1\ntext 0 GET /.well-known/masque/ip/*/*/ HTTP/1.1\\r\\nHost: proxy.example\\r\\nConnection: Upgrade\\r\\nUpgrade: connect-ip\\r\\n\\r\\n\ntext 1 GET /.well-known/masque/ip/*/*/ HTTP/1.1\\r\\nHost: proxy.example\\r\\nConnection: Upgrade\\r\\nUpgrade: connect-ip\\r\\n\\r\\n\nrun 99\nbytes 0 020701040a00000120\nbytes 1 020701040a00000220\nrun 99\nbytes 0 0022004500002100000000401166ca0a0000010a0000020fa00007000d000068656c6c6f\nstep 0 4\nstep 1 4\nbytes 1 002b004500002a00000000401166c10a0000020a0000010fa000070016000068656c6c6f20796f757273656c66001f004500001e00000000401166cb0a0000020a0000030fa00007000a00006869\nrun 99\nbytes 1 030a04c0000200c00002ff00\nrun 99\nbytes 0 00230045000022000000004011ae7d0a000001c000024d0fa00007000e0000626568696e64\nrun 99\nbytes 1 00280045000027000000004011ae78c000024d0a0000010fa000070013000066726f6d20626568696e64\nrun 99\n";

const BETWEEN_PRINTS: &[u8] =
    b"accepted 0 0\naccepted 1 1\ntook 0 107\ntook 1 107\nopened 0 0 0 ip\nopened 1 1 0 ip\ncontrol 0 0314040a0000000a0000ff0004c0000200c00002ff00\ncontrol 1 0314040a0000000a0000ff0004c0000200c00002ff00\nwrote 0 485454502f312e312031303120537769746368696e672050726f746f636f6c730d0a436f6e6e656374696f6e3a20557067726164650d0a557067726164653a20636f6e6e6563742d69700d0a43617073756c652d50726f746f636f6c3a203f310d0a0d0a0314040a0000000a0000ff0004c0000200c00002ff00\nwrote 1 485454502f312e312031303120537769746368696e672050726f746f636f6c730d0a436f6e6e656374696f6e3a20557067726164650d0a557067726164653a20636f6e6e6563742d69700d0a43617073756c652d50726f746f636f6c3a203f310d0a0d0a0314040a0000000a0000ff0004c0000200c00002ff00\ntook 0 9\ntook 1 9\nassigned 0 at 2 1=10.0.0.1/32\nassigned 1 at 3 1=10.0.0.2/32\ncontrol 0 010701040a00000120\ncontrol 1 010701040a00000220\nwrote 0 010701040a00000120\nwrote 1 010701040a00000220\ntook 0 36\npassed 0 0 at 4 to 1\npushed 0 0 to 1\nidle 0\nqueued 0 0 to 1\ndelivered 0 0 to 1 45000021000000003f1167ca0a0000010a0000020fa00007000d000068656c6c6f\nwrote 1 00220045000021000000003f1167ca0a0000010a0000020fa00007000d000068656c6c6f\nidle 1\ntook 1 78\npassed 1 0 at 4 to 0\npushed 1 0 to 0\nqueued 1 0 to 0\ndropped 1 1 NoRoute\ndelivered 1 0 to 0 4500002a000000003f1167c10a0000020a0000010fa000070016000068656c6c6f20796f757273656c66\nwrote 0 002b004500002a000000003f1167c10a0000020a0000010fa000070016000068656c6c6f20796f757273656c66\ntook 1 12\nadvertised 1 at 4 yes\ntook 0 37\npassed 0 1 at 5 to 1\npushed 0 1 to 1\nqueued 0 1 to 1\ndelivered 0 1 to 1 45000022000000003f11af7d0a000001c000024d0fa00007000e0000626568696e64\nwrote 1 00230045000022000000003f11af7d0a000001c000024d0fa00007000e0000626568696e64\ntook 1 42\npassed 1 2 at 5 to 0\npushed 1 2 to 0\nqueued 1 2 to 0\ndelivered 1 2 to 0 45000027000000003f11af78c000024d0a0000010fa000070013000066726f6d20626568696e64\nwrote 0 00280045000027000000003f11af78c000024d0a0000010fa000070013000066726f6d20626568696e64\n";

/// A client is given an address and sends packets: one to a host that answers, one that isn't its own and one with a bad header.
pub const SESSION: &[u8] =
    b"pool 198.51.100.8/29\nroute 0.0.0.0 255.255.255.255 0\nhost 203.0.113.5\nconn 0\ntext 0 GET /.well-known/masque/ip/*/*/ HTTP/1.1\\r\\nHost: proxy.example\\r\\nConnection: Upgrade\\r\\nUpgrade: connect-ip\\r\\n\\r\\n\nbytes 0 020701040000000020\nrun 99\nbytes 0 001f004500001e000000004011148ec6336408cb0071050fa00007000a00006869\nrun 99\nbytes 0 001f004500001e000000004011148dc6336409cb0071050fa00007000a000068690020004500001e000000004011148ec6336408cb0071050fa00007000a0000686921\nrun 99\nend 0\nrun 99\n";

pub const SESSION_PRINTS: &[u8] =
    b"accepted 0 0\ntook 0 107\nopened 0 0 0 ip\ncontrol 0 030a0400000000ffffffff00\nwrote 0 485454502f312e312031303120537769746368696e672050726f746f636f6c730d0a436f6e6e656374696f6e3a20557067726164650d0a557067726164653a20636f6e6e6563742d69700d0a43617073756c652d50726f746f636f6c3a203f310d0a0d0a030a0400000000ffffffff00\ntook 0 9\nassigned 0 at 1 1=198.51.100.8/32\ncontrol 0 01070104c633640820\nwrote 0 01070104c633640820\ntook 0 33\npassed 0 0 at 2 to net\npushed 0 0 to net\nsent 0 0 4500001e000000004011148ec6336408cb0071050fa00007000a00006869\npassed net 0 at 2 to 0\npushed net 0 to 0\nqueued net 0 to 0\ndelivered net 0 to 0 4500001e000000003f11158ecb007105c633640800070fa0000a00006869\nwrote 0 001f004500001e000000003f11158ecb007105c633640800070fa0000a00006869\ntook 0 67\ndropped 0 1 Source\ndropped 0 2 BadHeader\nfinished 0\nclosed 0 End left 0\nended 0 Done\n";

/// Two packets for another tunnel, of which one can take no more hop.
const HOPS: &[u8] =
    b"pool 10.0.0.0/24\nroute 0.0.0.0 255.255.255.255 0\nconn 0\nconn 0\ntext 0 GET /.well-known/masque/ip/*/*/ HTTP/1.1\\r\\nHost: proxy.example\\r\\nConnection: Upgrade\\r\\nUpgrade: connect-ip\\r\\n\\r\\n\ntext 1 GET /.well-known/masque/ip/*/*/ HTTP/1.1\\r\\nHost: proxy.example\\r\\nConnection: Upgrade\\r\\nUpgrade: connect-ip\\r\\n\\r\\n\nbytes 0 020701040a00000120\nbytes 1 020701040a00000220\nrun 99\nbytes 0 0020004500001f000000000111a5cc0a0000010a0000020fa00007000b00006f6e650020004500001f000000000211a4cc0a0000010a0000020fa00007000b000074776f\nrun 99\n";

const HOPS_PRINTS: &[u8] =
    b"accepted 0 0\ntook 0 107\naccepted 1 0\nopened 0 0 0 ip\ntook 1 107\ncontrol 0 030a0400000000ffffffff00\nopened 1 1 0 ip\nwrote 0 485454502f312e312031303120537769746368696e672050726f746f636f6c730d0a436f6e6e656374696f6e3a20557067726164650d0a557067726164653a20636f6e6e6563742d69700d0a43617073756c652d50726f746f636f6c3a203f310d0a0d0a030a0400000000ffffffff00\ncontrol 1 030a0400000000ffffffff00\ntook 0 9\nwrote 1 485454502f312e312031303120537769746368696e672050726f746f636f6c730d0a436f6e6e656374696f6e3a20557067726164650d0a557067726164653a20636f6e6e6563742d69700d0a43617073756c652d50726f746f636f6c3a203f310d0a0d0a030a0400000000ffffffff00\nassigned 0 at 2 1=10.0.0.1/32\ntook 1 9\ncontrol 0 010701040a00000120\nassigned 1 at 3 1=10.0.0.2/32\nwrote 0 010701040a00000120\ncontrol 1 010701040a00000220\nwrote 1 010701040a00000220\ntook 0 68\npassed 0 0 at 4 to 1\npushed 0 0 to 1\ndropped 0 0 HopLimit\npassed 0 1 at 4 to 1\npushed 0 1 to 1\nqueued 0 1 to 1\ndelivered 0 1 to 1 4500001f000000000111a5cc0a0000010a0000020fa00007000b000074776f\nwrote 1 0020004500001f000000000111a5cc0a0000010a0000020fa00007000b000074776f\n";

/// A tunnel closes while packets wait for it, and another client gets its address.
const GONE: &[u8] =
    b"pool 10.0.0.0/24\nroute 0.0.0.0 255.255.255.255 0\nconn 0\ntext 0 GET /.well-known/masque/ip/*/*/ HTTP/1.1\\r\\nHost: proxy.example\\r\\nConnection: Upgrade\\r\\nUpgrade: connect-ip\\r\\n\\r\\n\nbytes 0 020701040a00000120\nrun 99\nend 0\nstep 0\npacket 2 4500001e00000000401134c9cb0071050a0000010fa00007000a00006869\nstep net 4\nstep 0 4\nconn 0\ntext 1 GET /.well-known/masque/ip/*/*/ HTTP/1.1\\r\\nHost: proxy.example\\r\\nConnection: Upgrade\\r\\nUpgrade: connect-ip\\r\\n\\r\\n\nbytes 1 020701040a00000120\nrun 99\n";

const GONE_PRINTS: &[u8] =
    b"accepted 0 0\ntook 0 107\nopened 0 0 0 ip\ncontrol 0 030a0400000000ffffffff00\nwrote 0 485454502f312e312031303120537769746368696e672050726f746f636f6c730d0a436f6e6e656374696f6e3a20557067726164650d0a557067726164653a20636f6e6e6563742d69700d0a43617073756c652d50726f746f636f6c3a203f310d0a0d0a030a0400000000ffffffff00\ntook 0 9\nassigned 0 at 1 1=10.0.0.1/32\ncontrol 0 010701040a00000120\nwrote 0 010701040a00000120\nfinished 0\npassed net 0 at 2 to 0\npushed net 0 to 0\npassed net 1 at 2 to 0\npushed net 1 to 0\nqueued net 0 to 0\nclosed 0 End left 1\ndropped net 1 Gone\nended 0 Done\naccepted 1 0\ntook 1 107\nopened 3 1 0 ip\ncontrol 3 030a0400000000ffffffff00\nwrote 1 485454502f312e312031303120537769746368696e672050726f746f636f6c730d0a436f6e6e656374696f6e3a20557067726164650d0a557067726164653a20636f6e6e6563742d69700d0a43617073756c652d50726f746f636f6c3a203f310d0a0d0a030a0400000000ffffffff00\ntook 1 9\nassigned 3 at 4 1=10.0.0.1/32\ncontrol 3 010701040a00000120\nwrote 1 010701040a00000120\n";

/// One control capsule too many would wait.
const CONTROLS: &[u8] =
    b"pool 10.0.0.1/32\nconn 0\nbytes 0 505249202a20485454502f322e300d0a0d0a534d0d0a0d0a000006040000000000000400000000\nbytes 0 0000400104000000010207434f4e4e45435487041b2f2e77656c6c2d6b6e6f776e2f6d61737175652f69702f2a2f2a2f01017000093a70726f746f636f6c0a636f6e6e6563742d6970\nrun 99\nbytes 0 00009900000000000102070104000000002002070204000000002002070304000000002002070404000000002002070504000000002002070604000000002002070704000000002002070804000000002002070904000000002002070a04000000002002070b04000000002002070c04000000002002070d04000000002002070e04000000002002070f040000000020020710040000000020020711040000000020\nrun 99\n";

const CONTROLS_PRINTS: &[u8] =
    b"accepted 0 0\ntook 0 39\nwrote 0 000012040000000000000300000064000600004000000800000001000000040100000000\ntook 0 73\nopened 0 0 1 ip\nwrote 0 0000120104000000012088008b20eb45b4156aec3a4e43d1023f31\ntook 0 162\nassigned 0 at 1 1=10.0.0.1/32\nassigned 0 at 2 1=10.0.0.1/32 2=0.0.0.0/32\nassigned 0 at 3 1=10.0.0.1/32 3=0.0.0.0/32\nassigned 0 at 4 1=10.0.0.1/32 4=0.0.0.0/32\nassigned 0 at 5 1=10.0.0.1/32 5=0.0.0.0/32\nassigned 0 at 6 1=10.0.0.1/32 6=0.0.0.0/32\nassigned 0 at 7 1=10.0.0.1/32 7=0.0.0.0/32\nassigned 0 at 8 1=10.0.0.1/32 8=0.0.0.0/32\nassigned 0 at 9 1=10.0.0.1/32 9=0.0.0.0/32\nassigned 0 at 10 1=10.0.0.1/32 10=0.0.0.0/32\nassigned 0 at 11 1=10.0.0.1/32 11=0.0.0.0/32\nassigned 0 at 12 1=10.0.0.1/32 12=0.0.0.0/32\nassigned 0 at 13 1=10.0.0.1/32 13=0.0.0.0/32\nassigned 0 at 14 1=10.0.0.1/32 14=0.0.0.0/32\nassigned 0 at 15 1=10.0.0.1/32 15=0.0.0.0/32\nclosed 0 Full left 0\nwrote 0 0000040300000000010000000b\n";

/// The book has no place for a third request for an address.
const HISTORY: &[u8] =
    b"history 4\npool 10.0.0.0/24\nconn 0\ntext 0 GET /.well-known/masque/ip/*/*/ HTTP/1.1\\r\\nHost: proxy.example\\r\\nConnection: Upgrade\\r\\nUpgrade: connect-ip\\r\\n\\r\\n\nrun 99\nbytes 0 020701040a00000120020702040a00000220020703040a00000320\nrun 99\nconn 0\ntext 1 GET /.well-known/masque/ip/*/*/ HTTP/1.1\\r\\nHost: proxy.example\\r\\nConnection: Upgrade\\r\\nUpgrade: connect-ip\\r\\n\\r\\n\nrun 99\n";

const HISTORY_PRINTS: &[u8] =
    b"accepted 0 0\ntook 0 107\nopened 0 0 0 ip\ncontrol 0 0300\nwrote 0 485454502f312e312031303120537769746368696e672050726f746f636f6c730d0a436f6e6e656374696f6e3a20557067726164650d0a557067726164653a20636f6e6e6563742d69700d0a43617073756c652d50726f746f636f6c3a203f310d0a0d0a0300\ntook 0 27\nassigned 0 at 1 1=10.0.0.1/32\nassigned 0 at 2 1=10.0.0.1/32 2=10.0.0.2/32\nclosed 0 Full left 0\nended 0 Tunnel\naccepted 1 0\ntook 1 107\nrefused 1 0 503\nwrote 1 485454502f312e3120353033205365727669636520556e617661696c61626c650d0a436f6e6e656374696f6e3a20636c6f73650d0a436f6e74656e742d4c656e6774683a20300d0a0d0a\nended 1 Refused\n";

#[test]
fn packets_go_between_tunnels_and_the_network(rt: HostRuntime) -> Result<(), Fail> {
    let cases: [(&[u8], &[u8]); 6] = [
        (BETWEEN, BETWEEN_PRINTS),
        (SESSION, SESSION_PRINTS),
        (HOPS, HOPS_PRINTS),
        (GONE, GONE_PRINTS),
        (CONTROLS, CONTROLS_PRINTS),
        (HISTORY, HISTORY_PRINTS),
    ];
    for &(script, want) in &cases {
        prints(&rt, rt.alloc(), script, &PLAIN, Status::Done, want)?;
    }
    Ok(())
}
