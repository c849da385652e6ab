//! Cases of other parsers' own tests, with the answer here.
//!
//! From `httparse` 1.8.0 (Debian's `librust-httparse-dev`), `src/lib.rs`, tests `test_request_*`; from `h11` 0.14.0
//! (Debian's `python3-h11`), `h11/tests/test_io.py`. A whole head there is refused here by what it lacks: without Host
//! 400, and with it 501. What is partial there is waited for, and what is an error there is 400, but for two: h11 joins
//! folded lines and takes a control byte in a cookie, which `httparse` refuses.
use super::*;

const CASES: [(&[u8], Want); 30] = [
    // httparse
    (b"GET / HTTP/1.1\r\n\r\n", Want::Refused(400)),
    (b"GET /thing?data=a HTTP/1.1\r\n\r\n", Want::Refused(400)),
    (
        b"GET / HTTP/1.1\r\nHost: foo.com\r\nCookie: \r\n\r\n",
        Want::Refused(501),
    ),
    (
        b"GET / HTTP/1.1\r\nHost: \tfoo.com\t \r\nCookie: \t \r\n\r\n",
        Want::Refused(501),
    ),
    (
        b"GET / HTTP/1.1\r\nHost: foo.com\r\nUser-Agent: \xe3\x81\xb2\xe3/1.0\r\n\r\n",
        Want::Refused(501),
    ),
    (b"GET / HTTP/1.1\r\n\r", Want::More),
    (b"GET / HTTP/1.", Want::More),
    (b"GET / HTTP/1.1\r\nHost: yolo\r\n", Want::More),
    (b"GET / HTTP/1.1\nHost: foo.bar\n\n", Want::Refused(501)),
    (b"\r\n\r\nGET / HTTP/1.1\r\n\r\n", Want::Refused(400)),
    (b"\n\nGET / HTTP/1.1\n\n", Want::Refused(400)),
    (b"\n\nGET /\\?wayne\\=5 HTTP/1.1\n\n", Want::Refused(400)),
    (
        b"GET\n/ HTTP/1.1\r\nHost: foo.bar\r\n\r\n",
        Want::Refused(400),
    ),
    (b"GET / HTTP/1!", Want::Refused(400)),
    (b" / HTTP/1.1\r\n\r\n", Want::Refused(400)),
    (b"GET  HTTP/1.1\r\n\r\n", Want::Refused(400)),
    (b"  HTTP/1.1\r\n\r\n", Want::Refused(400)),
    // h11
    (
        b"HEAD /foo HTTP/1.0\r\nSome: header\r\n\r\n",
        Want::Refused(400),
    ),
    (b"HEAD /foo HTTP/1.0\r\n\r\n", Want::Refused(400)),
    (
        b"HEAD /foo HTTP/1.1\r\nHost: example.com\r\nSome: multi-line\r\n header\r\n\r\n",
        Want::Refused(400),
    ),
    (
        b"HEAD /foo HTTP/1.1\r\n  folded: line\r\n\r\n",
        Want::Refused(400),
    ),
    (
        b"HEAD /foo HTTP/1.1\r\nfoo  : line\r\n\r\n",
        Want::Refused(400),
    ),
    (
        b"HEAD /foo HTTP/1.1\r\nfoo\t: line\r\n\r\n",
        Want::Refused(400),
    ),
    (b"HEAD /foo HTTP/1.1\r\n: line\r\n\r\n", Want::Refused(400)),
    (
        b"HEAD /foo HTTP/1.1 xxxxxx\r\nHost: a\r\n\r\n",
        Want::Refused(400),
    ),
    (
        b"HEAD /foo HTTP/1.1\r\nHost: foo\x00bar\r\n\r\n",
        Want::Refused(400),
    ),
    (
        b"HEAD /\x00 HTTP/1.1\r\nHost: foobar\r\n\r\n",
        Want::Refused(400),
    ),
    (
        b"HEAD /\x7f HTTP/1.1\r\nHost: foobar\r\n\r\n",
        Want::Refused(400),
    ),
    (
        b"HEAD /\xee HTTP/1.1\r\nHost: foobar\r\n\r\n",
        Want::Refused(400),
    ),
    (
        b"HEAD /foo HTTP/1.1\r\nHost: foo\r\nSet-Cookie: ___utmvafIumyLc=kUd\x01UpAt; path=/; Max-Age=900\r\n\r\n",
        Want::Refused(400),
    ),
];

#[test]
fn other_parsers_cases_are_answered(rt: HostRuntime) -> Result<(), Fail> {
    all_hold(&rt, rt.alloc(), &CASES)
}
