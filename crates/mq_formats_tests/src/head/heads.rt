//! Whole heads, each with the answer of the first rule that applies.
use super::*;

/// Heads with what they ask for, where nothing follows them.
const HEADS: [(&[u8], Want); 46] = [
    // The examples of RFC 9298, section 3.2, and RFC 9484, section 4.1.
    (
        b"GET https://example.org/.well-known/masque/udp/192.0.2.6/443/ HTTP/1.1\r\nHost: example.org\r\nConnection: Upgrade\r\nUpgrade: connect-udp\r\nCapsule-Protocol: ?1\r\n\r\n",
        Want::Udp(b"/.well-known/masque/udp/192.0.2.6/443/"),
    ),
    (
        b"GET https://example.org/.well-known/masque/ip/*/*/ HTTP/1.1\r\nHost: example.org\r\nConnection: Upgrade\r\nUpgrade: connect-ip\r\nCapsule-Protocol: ?1\r\n\r\n",
        Want::Ip(b"/.well-known/masque/ip/*/*/"),
    ),
    // Members of lists.
    (
        b"GET /p HTTP/1.1\r\nhost: p\r\ncoNNection: keep-alive, UPGRADE\r\nupgrade: Connect-UDP\r\n\r\n",
        Want::Udp(b"/p"),
    ),
    (
        b"GET /p HTTP/1.1\r\nHost: p\r\nConnection: upgrade\r\nUpgrade: websocket , ,\tconnect-ip, connect-udp\r\n\r\n",
        Want::Ip(b"/p"),
    ),
    (
        b"GET /p HTTP/1.1\r\nHost: p\r\nConnection: close\r\nConnection:,upgrade\r\nUpgrade: h2c\r\nUpgrade: connect-udp,connect-ip\r\n\r\n",
        Want::Udp(b"/p"),
    ),
    (
        b"GET /p HTTP/1.1\r\nHost: p\r\nConnection: upgrade\r\nUpgrade: connect-ip\r\nUpgrade: connect-udp\r\n\r\n",
        Want::Ip(b"/p"),
    ),
    (
        b"GET /p HTTP/1.1\r\nHost: p\r\nConnection: upgrade\r\nUpgrade: connect-udp/1\r\n\r\n",
        Want::Refused(501),
    ),
    (
        b"GET /p HTTP/1.1\r\nHost: p\r\nConnection: upgrade\r\nUpgrade: connect-udp;a, connect udp\r\n\r\n",
        Want::Refused(501),
    ),
    (
        b"GET /p HTTP/1.1\r\nHost: p\r\nConnection: upgrade\r\nUpgrade:\r\n\r\n",
        Want::Refused(501),
    ),
    (
        b"GET /p HTTP/1.1\r\nHost: p\r\nConnection: upgrades, up grade\r\nUpgrade: connect-udp\r\n\r\n",
        Want::Refused(400),
    ),
    (
        b"GET /p HTTP/1.1\r\nHost: p\r\nUpgrade: connect-udp\r\n\r\n",
        Want::Refused(400),
    ),
    // The grammar: bare LF, empty lines in front, folded lines, blanks before a colon, names and values.
    (
        b"\r\n\n\r\nGET /p HTTP/1.1\nHost: p\r\nConnection: upgrade\nUpgrade: connect-udp\n\r\n",
        Want::Udp(b"/p"),
    ),
    (
        b"GET /p HTTP/1.1\r\nHost: p\r\nConnection: upgrade\r\nUpgrade: \r\n connect-udp\r\n\r\n",
        Want::Refused(400),
    ),
    (
        b"GET /p HTTP/1.1\r\nHost : p\r\nConnection: upgrade\r\nUpgrade: connect-udp\r\n\r\n",
        Want::Refused(400),
    ),
    (
        b"GET /p HTTP/1.1\r\nHost: p\r\nConnection: upgrade\r\nUpgrade: connect-udp\x00\r\n\r\n",
        Want::Refused(400),
    ),
    (
        b"GET /p HTTP/1.1\r\n: p\r\nHost: p\r\nConnection: upgrade\r\nUpgrade: connect-udp\r\n\r\n",
        Want::Refused(400),
    ),
    (
        b"GET  /p HTTP/1.1\r\nHost: p\r\nConnection: upgrade\r\nUpgrade: connect-udp\r\n\r\n",
        Want::Refused(400),
    ),
    // Host (RFC 9112, section 3.2).
    (
        b"GET /p HTTP/1.1\r\nConnection: upgrade\r\nUpgrade: connect-udp\r\n\r\n",
        Want::Refused(400),
    ),
    (
        b"GET /p HTTP/1.1\r\nHost: p\r\nhOST: p\r\nConnection: upgrade\r\nUpgrade: connect-udp\r\n\r\n",
        Want::Refused(400),
    ),
    (
        b"GET /p HTTP/1.1\r\nHost:\r\nConnection: upgrade\r\nUpgrade: connect-udp\r\n\r\n",
        Want::Udp(b"/p"),
    ),
    (b"POST /p HTTP/1.1\r\n\r\n", Want::Refused(400)),
    // Versions.
    (
        b"GET /p HTTP/1.0\r\nHost: p\r\nConnection: upgrade\r\nUpgrade: connect-udp\r\n\r\n",
        Want::Refused(400),
    ),
    (
        b"GET /p HTTP/1.2\r\nHost: p\r\nConnection: upgrade\r\nUpgrade: connect-udp\r\n\r\n",
        Want::Refused(400),
    ),
    (b"PRI * HTTP/2.0\r\n\r\nSM\r\n\r\n", Want::Refused(400)),
    // Methods.
    (b"POST /p HTTP/1.1\r\nHost: p\r\n\r\n", Want::Refused(501)),
    (
        b"POST /p HTTP/1.1\r\nHost: p\r\nConnection: upgrade\r\nUpgrade: connect-udp\r\n\r\n",
        Want::Refused(400),
    ),
    (
        b"get /p HTTP/1.1\r\nHost: p\r\nConnection: upgrade\r\nUpgrade: connect-udp\r\n\r\n",
        Want::Refused(400),
    ),
    (b"GET /p HTTP/1.1\r\nHost: p\r\n\r\n", Want::Refused(501)),
    (
        b"CONNECT p:443 HTTP/1.1\r\nHost: p:443\r\n\r\n",
        Want::Refused(501),
    ),
    // Fields of content.
    (
        b"GET /p HTTP/1.1\r\nHost: p\r\nContent-Length: 0\r\nConnection: upgrade\r\nUpgrade: connect-udp\r\n\r\n",
        Want::Refused(400),
    ),
    (
        b"GET /p HTTP/1.1\r\nHost: p\r\nConnection: upgrade\r\nUpgrade: connect-udp\r\nCONTENT-TYPE: text/plain\r\n\r\n",
        Want::Refused(400),
    ),
    (
        b"GET /p HTTP/1.1\r\nHost: p\r\nConnection: upgrade\r\nTransfer-encoding: chunked\r\nUpgrade: connect-ip\r\n\r\n",
        Want::Refused(400),
    ),
    (
        b"GET /p HTTP/1.1\r\nHost: p\r\nContent-Language: en\r\nConnection: upgrade\r\nUpgrade: connect-udp\r\n\r\n",
        Want::Udp(b"/p"),
    ),
    // Targets (RFC 9112, section 3.2).
    (
        b"GET / HTTP/1.1\r\nHost: p\r\nConnection: upgrade\r\nUpgrade: connect-udp\r\n\r\n",
        Want::Udp(b"/"),
    ),
    (
        b"GET //a?b#c HTTP/1.1\r\nHost: p\r\nConnection: upgrade\r\nUpgrade: connect-udp\r\n\r\n",
        Want::Udp(b"//a?b#c"),
    ),
    (
        b"GET http://p HTTP/1.1\r\nHost: p\r\nConnection: upgrade\r\nUpgrade: connect-udp\r\n\r\n",
        Want::Udp(b""),
    ),
    (
        b"GET http://p:80/a/?b HTTP/1.1\r\nHost: p\r\nConnection: upgrade\r\nUpgrade: connect-udp\r\n\r\n",
        Want::Udp(b"/a/?b"),
    ),
    (
        b"GET https://p?b=/ HTTP/1.1\r\nHost: p\r\nConnection: upgrade\r\nUpgrade: connect-udp\r\n\r\n",
        Want::Udp(b"?b=/"),
    ),
    (
        b"GET https://p#/ HTTP/1.1\r\nHost: p\r\nConnection: upgrade\r\nUpgrade: connect-udp\r\n\r\n",
        Want::Udp(b"#/"),
    ),
    (
        b"GET http:///a HTTP/1.1\r\nHost: p\r\nConnection: upgrade\r\nUpgrade: connect-udp\r\n\r\n",
        Want::Refused(400),
    ),
    (
        b"GET https:// HTTP/1.1\r\nHost: p\r\nConnection: upgrade\r\nUpgrade: connect-udp\r\n\r\n",
        Want::Refused(400),
    ),
    (
        b"GET http://?a HTTP/1.1\r\nHost: p\r\nConnection: upgrade\r\nUpgrade: connect-udp\r\n\r\n",
        Want::Refused(400),
    ),
    (
        b"GET HTTP://p/a HTTP/1.1\r\nHost: p\r\nConnection: upgrade\r\nUpgrade: connect-udp\r\n\r\n",
        Want::Refused(400),
    ),
    (
        b"GET ftp://p/a HTTP/1.1\r\nHost: p\r\nConnection: upgrade\r\nUpgrade: connect-udp\r\n\r\n",
        Want::Refused(400),
    ),
    (
        b"GET * HTTP/1.1\r\nHost: p\r\nConnection: upgrade\r\nUpgrade: connect-udp\r\n\r\n",
        Want::Refused(400),
    ),
    (
        b"GET p:443 HTTP/1.1\r\nHost: p\r\nConnection: upgrade\r\nUpgrade: connect-udp\r\n\r\n",
        Want::Refused(400),
    ),
];

#[test]
fn the_first_rule_that_applies_decides(rt: HostRuntime) -> Result<(), Fail> {
    all_hold(&rt, rt.alloc(), &HEADS)
}
