//! Replays for many: several links and workers, both directions, and steps of all actors.

use super::{PLAIN, prints};
use mq_replay::Status;
use std::test::Fail;

/// Two clients of two workers.
const TWO_WORKERS: &[u8] =
    b"# Two clients on two workers. `run` gives the workers their steps in turn, so the two requests go on side by side. Tunnels are\n# numbered as they open, whichever worker opens them.\nworkers 2\nconn 1\nconn 0\ntext 0 GET /.well-known/masque/udp/192.0.2.6/443/ HTTP/1.1\\r\\nHost: proxy.example\\r\\nConnection: Upgrade\\r\\nUpgrade: connect-udp\\r\\n\\r\\n\ntext 1 GET /.well-known/masque/udp/2001%3Adb8%3A%3A42/443/ HTTP/1.1\\r\\nHost: proxy.example\\r\\nConnection: Upgrade\\r\\nUpgrade: connect-udp\\r\\n\\r\\n\nbytes 0 0003006869\nbytes 1 0003006f6b\nrun 99\n";

const TWO_WORKERS_PRINTS: &[u8] =
    b"accepted 1 0\naccepted 0 1\ntook 1 128\ntook 0 119\nported 1 0\nported 0 0\nopened 0 1 0 udp\nopened 1 0 0 udp\nwrote 1 485454502f312e312031303120537769746368696e672050726f746f636f6c730d0a436f6e6e656374696f6e3a20557067726164650d0a557067726164653a20636f6e6e6563742d7564700d0a43617073756c652d50726f746f636f6c3a203f310d0a0d0a\nwrote 0 485454502f312e312031303120537769746368696e672050726f746f636f6c730d0a436f6e6e656374696f6e3a20557067726164650d0a557067726164653a20636f6e6e6563742d7564700d0a43617073756c652d50726f746f636f6c3a203f310d0a0d0a\ntook 1 5\ntook 0 5\nsent 0 0 6f6b\nsent 1 0 6869\n";

/// A datagram comes back to its client.
const DATAGRAM_BACK: &[u8] =
    b"# Two datagrams come back from the target. The first waits in the tunnel, is put for writing as a capsule and is written; then\n# the port is asked for the second.\nconn 0\ntext 0 GET /.well-known/masque/udp/192.0.2.6/443/ HTTP/1.1\\r\\nHost: proxy.example\\r\\nConnection: Upgrade\\r\\nUpgrade: connect-udp\\r\\n\\r\\n\nstep 0 5\ndgram 0 6869\ndgram 0 6f6b\nstep 0 9\n";

const DATAGRAM_BACK_PRINTS: &[u8] =
    b"accepted 0 0\ntook 0 119\nported 0 0\nopened 0 0 0 udp\nwrote 0 485454502f312e312031303120537769746368696e672050726f746f636f6c730d0a436f6e6e656374696f6e3a20557067726164650d0a557067726164653a20636f6e6e6563742d7564700d0a43617073756c652d50726f746f636f6c3a203f310d0a0d0a\nqueued port0 0 to 0\ndelivered port0 0 to 0 6869\nwrote 0 0003006869\nqueued port0 1 to 0\ndelivered port0 1 to 0 6f6b\nwrote 0 0003006f6b\nidle 0\n";

/// A link that takes few bytes.
const SMALL_ROOM: &[u8] =
    b"# A link that takes a few bytes at a time: the capsule of a datagram is put for writing whole, and written in parts. Behind each\n# of these the worker is idle until the link takes more.\nconn 0\ntext 0 GET /.well-known/masque/udp/192.0.2.6/443/ HTTP/1.1\\r\\nHost: proxy.example\\r\\nConnection: Upgrade\\r\\nUpgrade: connect-udp\\r\\n\\r\\n\nstep 0 5\nroom 0 3\ndgram 0 68656c6c6f\nstep 0 9\nroom 0 2\nstep 0 9\nroom 0 all\nstep 0 9\n";

const SMALL_ROOM_PRINTS: &[u8] =
    b"accepted 0 0\ntook 0 119\nported 0 0\nopened 0 0 0 udp\nwrote 0 485454502f312e312031303120537769746368696e672050726f746f636f6c730d0a436f6e6e656374696f6e3a20557067726164650d0a557067726164653a20636f6e6e6563742d7564700d0a43617073756c652d50726f746f636f6c3a203f310d0a0d0a\nqueued port0 0 to 0\ndelivered port0 0 to 0 68656c6c6f\nwrote 0 000600\nidle 0\nwrote 0 6865\nidle 0\nwrote 0 6c6c6f\nidle 0\n";

#[test]
fn many_are_served(rt: HostRuntime) -> Result<(), Fail> {
    let cases: [(&[u8], &[u8]); 8] = [
        (TWO_WORKERS, TWO_WORKERS_PRINTS),
        (DATAGRAM_BACK, DATAGRAM_BACK_PRINTS),
        (SMALL_ROOM, SMALL_ROOM_PRINTS),
        (
            b"workers 2\nconn 0\nconn 1\nstep 0 9\nstep 1 9\n",
            b"accepted 0 0\nidle 0\naccepted 1 1\nidle 1\n",
        ),
        (
            b"workers 2\nconn 0\nconn 1\nstep 1 9\nstep 0 9\n",
            b"accepted 1 1\nidle 1\naccepted 0 0\nidle 0\n",
        ),
        (
            b"workers 2\nconn 1\nconn 0\nconn 1\nrun 2\nrun 1\nrun 1\n",
            b"accepted 1 0\naccepted 0 1\nmore\naccepted 2 1\n",
        ),
        (b"step net 3\nrun 1\n", b"idle net\n"),
        (
            b"conn 0\nend 0\nrun 2\nrun 1\n",
            b"accepted 0 0\nfinished 0\nmore\nended 0 Done\n",
        ),
    ];
    for &(script, want) in &cases {
        prints(&rt, rt.alloc(), script, &PLAIN, Status::Done, want)?;
    }
    Ok(())
}
