//! Blocks, by the rules of RFC 7541 on the encodings of another implementation.
use mq_hpack::{Encoder, Field, Text};
use std::alloc::Global;
use std::process::Abort;
use std::test::Fail;

// The integers, the Huffman code and the static table of the rows are those of Debian's python3-hpack 4.0.0,
// whose decoder reads each block as these fields.

/// The first blocks of an encoder.
fn first_rows() -> &'static str {
    "\
:status: 200 is 2088
:status: 200 is 88
:status: 204 is 89
"
}

/// Fields that the static table has.
fn whole_rows() -> &'static str {
    "\
:status: 200 is 88
:authority:  is 81
:method: GET is 82
:method: POST is 83
:path: /index.html is 85
:scheme: https is 87
:status: 500 is 8e
accept-charset:  is 8f
accept-encoding: gzip, deflate is 90
content-encoding:  is 9a
www-authenticate:  is bd
"
}

/// Fields whose names it has.
fn named_rows() -> &'static str {
    "\
:authority: www.example.com is 018cf1e3c2e5f23a6ba0ab90f4ff
:method: PUT is 0203505554
:path: /a is 04022f61
:scheme: ftp is 0603667470
:status: 201 is 08821003
:status:  is 0800
accept-charset: utf-8 is 0f0084b532acf7
accept-encoding: gzip is 0f01839bd9ab
content-length: 0 is 0f0d0130
vary: @@ is 0f2c024040
www-authenticate: Basic is 0f2e84ba34189f
"
}

/// Fields with new names.
fn new_rows() -> &'static str {
    "\
capsule-protocol: ?1 is 008b20eb45b4156aec3a4e43d1023f31
custom-key: custom-value is 008825a849e95ba97d7f8925a849e95bb8e8b4bf
:  is 000000
x: y is 0001780179
:protocol: connect-udp is 0087b95d8749c87a3f8821eaa8a44ad6c95f
~~: !! is 00027e7e022121
:Status: 200 is 0085b9b9234da8821001
"
}

/// A letter, how often the value of `x` has it, and the bytes before the value.
fn long_rows() -> &'static str {
    "\
~ 126 is 0001787e
~ 127 is 0001787f00
~ 254 is 0001787f7f
~ 255 is 0001787f8001
a 201 is 000178fe
a 203 is 000178ff00
a 408 is 000178ff8001
"
}

/// Several fields.
fn several_rows() -> &'static str {
    "\
:method: GET; :scheme: http; :path: /; :authority: www.example.com is 828684018cf1e3c2e5f23a6ba0ab90f4ff
:status: 302; cache-control: private; date: Mon, 21 Oct 2013 20:13:21 GMT; location: https://www.example.com is 088264020f0985aec3771a4b0f1296d07abe941054d444a8200595040b8166e082a62d1bff0f1f919d29ad171863c78f0b97c8e9ae82ae43d3
:status: 200; capsule-protocol: ?1 is 88008b20eb45b4156aec3a4e43d1023f31
:status: 404; :status: 405; x: y; :status: 404 is 8d080334303500017801798d
"
}

/// Each field of the static table.
fn table_rows() -> &'static str {
    "\
:authority:  is 81
:method: GET is 82
:method: POST is 83
:path: / is 84
:path: /index.html is 85
:scheme: http is 86
:scheme: https is 87
:status: 200 is 88
:status: 204 is 89
:status: 206 is 8a
:status: 304 is 8b
:status: 400 is 8c
:status: 404 is 8d
:status: 500 is 8e
accept-charset:  is 8f
accept-encoding: gzip, deflate is 90
accept-language:  is 91
accept-ranges:  is 92
accept:  is 93
access-control-allow-origin:  is 94
age:  is 95
allow:  is 96
authorization:  is 97
cache-control:  is 98
content-disposition:  is 99
content-encoding:  is 9a
content-language:  is 9b
content-length:  is 9c
content-location:  is 9d
content-range:  is 9e
content-type:  is 9f
cookie:  is a0
date:  is a1
etag:  is a2
expect:  is a3
expires:  is a4
from:  is a5
host:  is a6
if-match:  is a7
if-modified-since:  is a8
if-none-match:  is a9
if-range:  is aa
if-unmodified-since:  is ab
last-modified:  is ac
link:  is ad
location:  is ae
max-forwards:  is af
proxy-authenticate:  is b0
proxy-authorization:  is b1
range:  is b2
referer:  is b3
refresh:  is b4
retry-after:  is b5
server:  is b6
set-cookie:  is b7
strict-transport-security:  is b8
transfer-encoding:  is b9
user-agent:  is ba
vary:  is bb
via:  is bc
www-authenticate:  is bd
"
}

/// Each name of the static table, with a value that it doesn't have there.
fn name_rows() -> &'static str {
    "\
:authority: @@ is 01024040
:method: @@ is 02024040
:path: @@ is 04024040
:scheme: @@ is 06024040
:status: @@ is 08024040
accept-charset: @@ is 0f00024040
accept-encoding: @@ is 0f01024040
accept-language: @@ is 0f02024040
accept-ranges: @@ is 0f03024040
accept: @@ is 0f04024040
access-control-allow-origin: @@ is 0f05024040
age: @@ is 0f06024040
allow: @@ is 0f07024040
authorization: @@ is 0f08024040
cache-control: @@ is 0f09024040
content-disposition: @@ is 0f0a024040
content-encoding: @@ is 0f0b024040
content-language: @@ is 0f0c024040
content-length: @@ is 0f0d024040
content-location: @@ is 0f0e024040
content-range: @@ is 0f0f024040
content-type: @@ is 0f10024040
cookie: @@ is 0f11024040
date: @@ is 0f12024040
etag: @@ is 0f13024040
expect: @@ is 0f14024040
expires: @@ is 0f15024040
from: @@ is 0f16024040
host: @@ is 0f17024040
if-match: @@ is 0f18024040
if-modified-since: @@ is 0f19024040
if-none-match: @@ is 0f1a024040
if-range: @@ is 0f1b024040
if-unmodified-since: @@ is 0f1c024040
last-modified: @@ is 0f1d024040
link: @@ is 0f1e024040
location: @@ is 0f1f024040
max-forwards: @@ is 0f20024040
proxy-authenticate: @@ is 0f21024040
proxy-authorization: @@ is 0f22024040
range: @@ is 0f23024040
referer: @@ is 0f24024040
refresh: @@ is 0f25024040
retry-after: @@ is 0f26024040
server: @@ is 0f27024040
set-cookie: @@ is 0f28024040
strict-transport-security: @@ is 0f29024040
transfer-encoding: @@ is 0f2a024040
user-agent: @@ is 0f2b024040
vary: @@ is 0f2c024040
via: @@ is 0f2d024040
www-authenticate: @@ is 0f2e024040
"
}

/// Names as long as one of the static table, with its first and last byte; and parts of names.
fn near_rows() -> &'static str {
    "\
axe: @@ is 0003617865024040
acceqt: @@ is 008419085ec9024040
dbte: @@ is 0083923497024040
lonk: @@ is 0083a0f575024040
:stotus: @@ is 0085b8849d36a3024040
:mathod: @@ is 0085b948d339e4024040
hoot: @@ is 00839ce74f024040
usar-agent: @@ is 0087b503b161cc5a93024040
content-typo: @@ is 008921ea496a4ac9f559ff024040
ageage: @@ is 00841cc51cc5024040
a: @@ is 000161024040
e: @@ is 000165024040
accept-: @@ is 008519085ad2b7024040
"
}

fn bytes_of(alloc: Global, text: &str) -> Result<Text, Fail> {
    Ok(Text::copy_of(alloc, text.as_bytes())?)
}

fn field_of(alloc: Global, text: &str) -> Result<Field, Fail> {
    let (name, value) = text.split_once(": ").unwrap_or((text, ""));
    Ok(Field {
        name: bytes_of(alloc, name)?,
        value: bytes_of(alloc, value)?,
    })
}

fn fields_of(alloc: Global, text: &str) -> Result<Vec<Field>, Fail> {
    let mut fields = Vec::new(alloc);
    for part in text.split("; ") {
        fields.push(field_of(alloc, part)?)?;
    }
    Ok(fields)
}

/// Each row is the next block of the encoder.
fn check_rows(
    rt: &impl Abort,
    alloc: Global,
    encoder: &mut Encoder,
    rows: &str,
) -> Result<(), Fail> {
    for line in rows.lines() {
        let Some((text, want)) = line.split_once(" is ") else {
            continue;
        };
        let fields = fields_of(alloc, text)?;
        let block = encoder.block(fields.as_slice())?;
        let written = hex::encode(alloc, block.as_slice())?;
        assert!(rt; written.as_str() == want, "{text}");
    }
    Ok(())
}

#[test]
fn the_first_block_alone_begins_with_the_limit(rt: HostRuntime) -> Result<(), Fail> {
    let mut encoder = Encoder::new(rt.alloc());
    check_rows(&rt, rt.alloc(), &mut encoder, first_rows())
}

#[test]
fn a_block_without_fields_may_be_the_first(rt: HostRuntime) -> Result<(), Fail> {
    let mut encoder = Encoder::new(rt.alloc());
    let first = encoder.block(&[])?;
    let second = encoder.block(&[])?;
    assert!(rt; first.as_slice() == [0x20].as_slice());
    assert!(rt; second.as_slice().is_empty());
    Ok(())
}

/// The same, of an encoder that gave its first block.
fn check_later(rt: &impl Abort, alloc: Global, rows: &str) -> Result<(), Fail> {
    let mut encoder = Encoder::new(alloc);
    let _ = encoder.block(&[])?;
    check_rows(rt, alloc, &mut encoder, rows)
}

#[test]
fn each_field_has_its_form(rt: HostRuntime) -> Result<(), Fail> {
    check_later(&rt, rt.alloc(), whole_rows())?;
    check_later(&rt, rt.alloc(), named_rows())?;
    check_later(&rt, rt.alloc(), new_rows())?;
    check_later(&rt, rt.alloc(), several_rows())
}

#[test]
fn the_static_table_is_searched_whole(rt: HostRuntime) -> Result<(), Fail> {
    check_later(&rt, rt.alloc(), table_rows())?;
    check_later(&rt, rt.alloc(), name_rows())?;
    check_later(&rt, rt.alloc(), near_rows())
}

/// The first bytes of a field whose value is a letter, so many times.
fn check_long(
    rt: &impl Abort,
    alloc: Global,
    encoder: &mut Encoder,
    row: &str,
) -> Result<(), Fail> {
    let (value, want) = row.split_once(" is ").unwrap_or((row, ""));
    let (letter, count) = value.split_once(" ").unwrap_or((value, ""));
    let mut text = String::from_str(alloc, "x: ")?;
    for _ in 0..count.parse::<u16>().unwrap_or(0) {
        text.push_str(letter)?;
    }
    let fields = fields_of(alloc, text.as_str())?;
    let block = encoder.block(fields.as_slice())?;
    let written = hex::encode(alloc, block.as_slice())?;
    assert!(rt; written.as_str().starts_with(want), "{row}");
    Ok(())
}

#[test]
fn a_length_takes_the_bytes_that_it_needs(rt: HostRuntime) -> Result<(), Fail> {
    let mut encoder = Encoder::new(rt.alloc());
    let _ = encoder.block(&[])?;
    for row in long_rows().lines() {
        check_long(&rt, rt.alloc(), &mut encoder, row)?;
    }
    Ok(())
}

#[test]
fn a_refused_block_leaves_the_limit_owed(rt: HostRuntime) -> Result<(), Fail> {
    let fields = fields_of(rt.alloc(), ":status: 200")?;
    let mut encoder = Encoder::new(rt.alloc());
    let block = match encoder.block(fields.as_slice()) {
        Ok(block) => block,
        Err(_) => encoder.block(fields.as_slice())?,
    };
    assert!(rt; block.as_slice() == [0x20, 0x88].as_slice());
    Ok(())
}
