//! Scripts, and what they print.

/// The example request of RFC 9298, section 3, over HTTP/1.1, and one datagram.
pub const FIRST: &[u8] =
    b"conn 0\ntext 0 GET https://example.org/.well-known/masque/udp/192.0.2.6/443/ HTTP/1.1\\r\\nHost: example.org\\r\\nConnection: Upgrade\\r\\nUpgrade: connect-udp\\r\\nCapsule-Protocol: ?1\\r\\n\\r\\n\nbytes 0 0003006869\nstep 0 8\n";

pub const FIRST_PRINTS: &[u8] =
    b"accepted 0 0\ntook 0 158\nported 0 0\nopened 0 0 0 udp\nwrote 0 485454502f312e312031303120537769746368696e672050726f746f636f6c730d0a436f6e6e656374696f6e3a20557067726164650d0a557067726164653a20636f6e6e6563742d7564700d0a43617073756c652d50726f746f636f6c3a203f310d0a0d0a\ntook 0 5\nsent 0 0 6869\nidle 0\n";

/// A request that asks for no tunnel.
pub const REFUSED: &[u8] = b"conn 0\ntext 0 GET / HTTP/1.1\\r\\n\\r\\n\nstep 0 9\n";

pub const REFUSED_PRINTS: &[u8] =
    b"accepted 0 0\ntook 0 18\nrefused 0 0 400\nwrote 0 485454502f312e31203430302042616420526571756573740d0a436f6e6e656374696f6e3a20636c6f73650d0a436f6e74656e742d4c656e6774683a20300d0a0d0a\nended 0 Refused\nidle 0\n";

/// A request whose path is none of the template.
pub const NOT_FOUND: &[u8] =
    b"conn 0\ntext 0 GET /x HTTP/1.1\\r\\nHost: p\\r\\nConnection: Upgrade\\r\\nUpgrade: connect-udp\\r\\n\\r\\n\nstep 0 9\n";

pub const NOT_FOUND_PRINTS: &[u8] =
    b"accepted 0 0\ntook 0 71\nrefused 0 0 404\nwrote 0 485454502f312e3120343034204e6f7420466f756e640d0a436f6e6e656374696f6e3a20636c6f73650d0a436f6e74656e742d4c656e6774683a20300d0a0d0a\nended 0 Refused\nidle 0\n";

/// A rule that denies the target of the example request.
pub const DENIED: &[u8] =
    b"deny udp 192.0.2.0/24 1 65535\nconn 0\ntext 0 GET https://example.org/.well-known/masque/udp/192.0.2.6/443/ HTTP/1.1\\r\\nHost: example.org\\r\\nConnection: Upgrade\\r\\nUpgrade: connect-udp\\r\\nCapsule-Protocol: ?1\\r\\n\\r\\n\nbytes 0 0003006869\nstep 0 8\n";

pub const DENIED_PRINTS: &[u8] =
    b"accepted 0 0\ntook 0 158\nrefused 0 0 403 rule 1\nwrote 0 485454502f312e312034303320466f7262696464656e0d0a436f6e6e656374696f6e3a20636c6f73650d0a436f6e74656e742d4c656e6774683a20300d0a0d0a\nended 0 Refused\nidle 0\n";

/// A request that names no protocol to upgrade to.
pub const NO_UPGRADE: &[u8] = b"conn 0\ntext 0 GET / HTTP/1.1\\r\\nHost: p\\r\\n\\r\\n\nstep 0 9\n";

pub const NO_UPGRADE_PRINTS: &[u8] =
    b"accepted 0 0\ntook 0 27\nrefused 0 0 501\nwrote 0 485454502f312e3120353031204e6f7420496d706c656d656e7465640d0a436f6e6e656374696f6e3a20636c6f73650d0a436f6e74656e742d4c656e6774683a20300d0a0d0a\nended 0 Refused\nidle 0\n";

/// The example request, whose port can't be bound, and a capsule that isn't read.
pub const BIND_FAILS: &[u8] =
    b"conn 0\nfailbind\ntext 0 GET https://example.org/.well-known/masque/udp/192.0.2.6/443/ HTTP/1.1\\r\\nHost: example.org\\r\\nConnection: Upgrade\\r\\nUpgrade: connect-udp\\r\\nCapsule-Protocol: ?1\\r\\n\\r\\n\nbytes 0 0003006869\nstep 0 8\n";

pub const BIND_FAILS_PRINTS: &[u8] =
    b"accepted 0 0\ntook 0 158\nrefused 0 0 502\nwrote 0 485454502f312e31203530322042616420476174657761790d0a436f6e6e656374696f6e3a20636c6f73650d0a436f6e74656e742d4c656e6774683a20300d0a0d0a\nended 0 Refused\nidle 0\n";

/// A request whose port can't be bound, in one piece with a capsule and the front of another.
pub const UNBOUND: &[u8] =
    b"conn 0\nfailbind\nbytes 0 474554202f2e77656c6c2d6b6e6f776e2f6d61737175652f7564702f3139322e302e322e362f3434332f20485454502f312e310d0a486f73743a20700d0a436f6e6e656374696f6e3a20557067726164650d0a557067726164653a20636f6e6e6563742d7564700d0a0d0a00030068690001\nstep 0 9\n";

pub const UNBOUND_PRINTS: &[u8] =
    b"accepted 0 0\ntook 0 114\nrefused 0 0 502\nwrote 0 485454502f312e31203530322042616420476174657761790d0a436f6e6e656374696f6e3a20636c6f73650d0a436f6e74656e742d4c656e6774683a20300d0a0d0a\nended 0 Refused\nidle 0\n";

/// A tunnel, a datagram of a context that isn't known, and one of context 0.
pub const OTHER_CONTEXT: &[u8] =
    b"conn 0\ntext 0 GET https://example.org/.well-known/masque/udp/192.0.2.6/443/ HTTP/1.1\\r\\nHost: example.org\\r\\nConnection: Upgrade\\r\\nUpgrade: connect-udp\\r\\nCapsule-Protocol: ?1\\r\\n\\r\\n\nbytes 0 00030268690003006869\nstep 0 9\n";

pub const OTHER_CONTEXT_PRINTS: &[u8] =
    b"accepted 0 0\ntook 0 158\nported 0 0\nopened 0 0 0 udp\nwrote 0 485454502f312e312031303120537769746368696e672050726f746f636f6c730d0a436f6e6e656374696f6e3a20557067726164650d0a557067726164653a20636f6e6e6563742d7564700d0a43617073756c652d50726f746f636f6c3a203f310d0a0d0a\ntook 0 10\ndropped 0 0 UnknownContext\nsent 0 1 6869\nidle 0\n";

/// A tunnel, an empty capsule of a type that isn't known, and a datagram.
pub const UNKNOWN_CAPSULE: &[u8] =
    b"conn 0\ntext 0 GET https://example.org/.well-known/masque/udp/192.0.2.6/443/ HTTP/1.1\\r\\nHost: example.org\\r\\nConnection: Upgrade\\r\\nUpgrade: connect-udp\\r\\nCapsule-Protocol: ?1\\r\\n\\r\\n\nbytes 0 4000c000000000000003006869\nstep 0 8\n";

pub const UNKNOWN_CAPSULE_PRINTS: &[u8] =
    b"accepted 0 0\ntook 0 158\nported 0 0\nopened 0 0 0 udp\nwrote 0 485454502f312e312031303120537769746368696e672050726f746f636f6c730d0a436f6e6e656374696f6e3a20557067726164650d0a557067726164653a20636f6e6e6563742d7564700d0a43617073756c652d50726f746f636f6c3a203f310d0a0d0a\ntook 0 13\nsent 0 0 6869\nidle 0\n";

/// A tunnel, and the longest UDP payload, which doesn't fit into a packet of IPv4.
pub const LONG_FOR_PORT: &[u8] =
    b"conn 0\ntext 0 GET https://example.org/.well-known/masque/udp/192.0.2.6/443/ HTTP/1.1\\r\\nHost: example.org\\r\\nConnection: Upgrade\\r\\nUpgrade: connect-udp\\r\\nCapsule-Protocol: ?1\\r\\n\\r\\n\nfill 0 008000fff800 65527 61\nstep 0 20\n";

pub const LONG_FOR_PORT_PRINTS: &[u8] =
    b"accepted 0 0\ntook 0 158\nported 0 0\nopened 0 0 0 udp\nwrote 0 485454502f312e312031303120537769746368696e672050726f746f636f6c730d0a436f6e6e656374696f6e3a20557067726164650d0a557067726164653a20636f6e6e6563742d7564700d0a43617073756c652d50726f746f636f6c3a203f310d0a0d0a\ntook 0 16384\ntook 0 16384\ntook 0 16384\ntook 0 16381\ndropped 0 0 TooLong\nidle 0\n";

/// A tunnel, and a payload that is longer than any of UDP.
pub const LONG_FOR_UDP: &[u8] =
    b"conn 0\ntext 0 GET https://example.org/.well-known/masque/udp/192.0.2.6/443/ HTTP/1.1\\r\\nHost: example.org\\r\\nConnection: Upgrade\\r\\nUpgrade: connect-udp\\r\\nCapsule-Protocol: ?1\\r\\n\\r\\n\nfill 0 008000fff900 65528 61\nstep 0 20\n";

pub const LONG_FOR_UDP_PRINTS: &[u8] =
    b"accepted 0 0\ntook 0 158\nported 0 0\nopened 0 0 0 udp\nwrote 0 485454502f312e312031303120537769746368696e672050726f746f636f6c730d0a436f6e6e656374696f6e3a20557067726164650d0a557067726164653a20636f6e6e6563742d7564700d0a43617073756c652d50726f746f636f6c3a203f310d0a0d0a\ntook 0 16384\ntook 0 16384\ntook 0 16384\ntook 0 16382\nclosed 0 Malformed left 0\nended 0 Tunnel\nidle 0\n";

/// A second line that names a link that never was.
pub const BAD: &[u8] = b"conn 0\nbytes 1 00\n";

pub const BAD_PRINTS: &[u8] = b"bad line 2\n";

/// A tunnel whose data stream ends inside a capsule (RFC 9297, section 3.3).
pub const CUT_CAPSULE: &[u8] =
    b"conn 0\ntext 0 GET https://example.org/.well-known/masque/udp/192.0.2.6/443/ HTTP/1.1\\r\\nHost: example.org\\r\\nConnection: Upgrade\\r\\nUpgrade: connect-udp\\r\\nCapsule-Protocol: ?1\\r\\n\\r\\n\nbytes 0 29ffffffffffffffff\nend 0\nstep 0 20\n";

pub const CUT_CAPSULE_PRINTS: &[u8] =
    b"accepted 0 0\ntook 0 158\nported 0 0\nopened 0 0 0 udp\nwrote 0 485454502f312e312031303120537769746368696e672050726f746f636f6c730d0a436f6e6e656374696f6e3a20557067726164650d0a557067726164653a20636f6e6e6563742d7564700d0a43617073756c652d50726f746f636f6c3a203f310d0a0d0a\ntook 0 9\nfinished 0\nclosed 0 Truncated left 0\nended 0 Truncated\nidle 0\n";

/// The first line of the preface of HTTP/2, as a request of HTTP/1.1.
pub const LOOKALIKE: &[u8] = b"conn 0\ntext 0 PRI * HTTP/1.1\\r\\n\\r\\n\nrun 9\n";

pub const LOOKALIKE_PRINTS: &[u8] =
    b"accepted 0 0\ntook 0 18\nrefused 0 0 400\nwrote 0 485454502f312e31203430302042616420526571756573740d0a436f6e6e656374696f6e3a20636c6f73650d0a436f6e74656e742d4c656e6774683a20300d0a0d0a\nended 0 Refused\n";

/// Three requests on three links, and a history of four entries: an open leaves room for the closes of all live tunnels.
pub const HISTORY_FULL: &[u8] =
    b"history 4\nconn 0\nconn 0\nconn 0\ntext 0 GET https://example.org/.well-known/masque/udp/192.0.2.6/443/ HTTP/1.1\\r\\nHost: example.org\\r\\nConnection: Upgrade\\r\\nUpgrade: connect-udp\\r\\nCapsule-Protocol: ?1\\r\\n\\r\\n\ntext 1 GET https://example.org/.well-known/masque/udp/192.0.2.6/443/ HTTP/1.1\\r\\nHost: example.org\\r\\nConnection: Upgrade\\r\\nUpgrade: connect-udp\\r\\nCapsule-Protocol: ?1\\r\\n\\r\\n\ntext 2 GET https://example.org/.well-known/masque/udp/192.0.2.6/443/ HTTP/1.1\\r\\nHost: example.org\\r\\nConnection: Upgrade\\r\\nUpgrade: connect-udp\\r\\nCapsule-Protocol: ?1\\r\\n\\r\\n\nrun 60\n";

pub const HISTORY_FULL_PRINTS: &[u8] =
    b"accepted 0 0\ntook 0 158\naccepted 1 0\nported 0 0\ntook 1 158\naccepted 2 0\nopened 0 0 0 udp\nported 1 0\ntook 2 158\nwrote 0 485454502f312e312031303120537769746368696e672050726f746f636f6c730d0a436f6e6e656374696f6e3a20557067726164650d0a557067726164653a20636f6e6e6563742d7564700d0a43617073756c652d50726f746f636f6c3a203f310d0a0d0a\nopened 1 1 0 udp\nported 2 0\nwrote 1 485454502f312e312031303120537769746368696e672050726f746f636f6c730d0a436f6e6e656374696f6e3a20557067726164650d0a557067726164653a20636f6e6e6563742d7564700d0a43617073756c652d50726f746f636f6c3a203f310d0a0d0a\nrefused 2 0 503\nwrote 2 485454502f312e3120353033205365727669636520556e617661696c61626c650d0a436f6e6e656374696f6e3a20636c6f73650d0a436f6e74656e742d4c656e6774683a20300d0a0d0a\nended 2 Refused\n";

/// A datagram whose send fails is dropped, and the tunnel goes on.
pub const PORT_FAILS: &[u8] =
    b"conn 0\ntext 0 GET https://example.org/.well-known/masque/udp/192.0.2.6/443/ HTTP/1.1\\r\\nHost: example.org\\r\\nConnection: Upgrade\\r\\nUpgrade: connect-udp\\r\\nCapsule-Protocol: ?1\\r\\n\\r\\n\nbytes 0 0003006869\nstep 0 6\nfailport 0\nstep 0 9\n";

pub const PORT_FAILS_PRINTS: &[u8] =
    b"accepted 0 0\ntook 0 158\nported 0 0\nopened 0 0 0 udp\nwrote 0 485454502f312e312031303120537769746368696e672050726f746f636f6c730d0a436f6e6e656374696f6e3a20557067726164650d0a557067726164653a20636f6e6e6563742d7564700d0a43617073756c652d50726f746f636f6c3a203f310d0a0d0a\ntook 0 5\ndropped 0 0 Port\nidle 0\n";

/// A link whose first read fails.
pub const READ_FAILS: &[u8] = b"conn 0\nfailread 0\nstep 0 9\n";

pub const READ_FAILS_PRINTS: &[u8] = b"accepted 0 0\nended 0 Link\nidle 0\n";

/// A link whose write fails when its tunnel is open.
pub const WRITE_FAILS: &[u8] =
    b"conn 0\ntext 0 GET https://example.org/.well-known/masque/udp/192.0.2.6/443/ HTTP/1.1\\r\\nHost: example.org\\r\\nConnection: Upgrade\\r\\nUpgrade: connect-udp\\r\\nCapsule-Protocol: ?1\\r\\n\\r\\n\nstep 0 4\nfailwrite 0\nstep 0 9\n";

pub const WRITE_FAILS_PRINTS: &[u8] =
    b"accepted 0 0\ntook 0 158\nported 0 0\nopened 0 0 0 udp\nclosed 0 Conn left 0\nended 0 Link\nidle 0\n";

/// Thirty-three links for one worker, which has at most 32 connections.
pub const FULL_WORKER: &[u8] =
    b"conn 0\nconn 0\nconn 0\nconn 0\nconn 0\nconn 0\nconn 0\nconn 0\nconn 0\nconn 0\nconn 0\nconn 0\nconn 0\nconn 0\nconn 0\nconn 0\nconn 0\nconn 0\nconn 0\nconn 0\nconn 0\nconn 0\nconn 0\nconn 0\nconn 0\nconn 0\nconn 0\nconn 0\nconn 0\nconn 0\nconn 0\nconn 0\nconn 0\nrun 100\nend 0\nrun 100\n";

pub const FULL_WORKER_PRINTS: &[u8] =
    b"accepted 0 0\naccepted 1 0\naccepted 2 0\naccepted 3 0\naccepted 4 0\naccepted 5 0\naccepted 6 0\naccepted 7 0\naccepted 8 0\naccepted 9 0\naccepted 10 0\naccepted 11 0\naccepted 12 0\naccepted 13 0\naccepted 14 0\naccepted 15 0\naccepted 16 0\naccepted 17 0\naccepted 18 0\naccepted 19 0\naccepted 20 0\naccepted 21 0\naccepted 22 0\naccepted 23 0\naccepted 24 0\naccepted 25 0\naccepted 26 0\naccepted 27 0\naccepted 28 0\naccepted 29 0\naccepted 30 0\naccepted 31 0\nfinished 0\nended 0 Done\naccepted 32 0\n";

/// The lines of WRITE_FAILS up to the open tunnel.
pub const TUNNEL: &[u8] =
    b"conn 0\ntext 0 GET https://example.org/.well-known/masque/udp/192.0.2.6/443/ HTTP/1.1\\r\\nHost: example.org\\r\\nConnection: Upgrade\\r\\nUpgrade: connect-udp\\r\\nCapsule-Protocol: ?1\\r\\n\\r\\n\nstep 0 4\n";

pub const TUNNEL_PRINTS: &[u8] = b"accepted 0 0\ntook 0 158\nported 0 0\nopened 0 0 0 udp\n";
