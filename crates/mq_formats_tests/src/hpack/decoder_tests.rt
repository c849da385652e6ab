//! Field blocks: what RFC 7541 and another implementation make of them.
use mq_hpack::{Decoder, Field, HpackFault};
use mq_wire::Seq;
use std::alloc::Global;
use std::process::Abort;
use std::test::Fail;

/// RFC 7541, appendix C.2, and what stands in the table then. A decoder that met a fault answers it again.
fn single_rows() -> &'static str {
    "\
400a637573746f6d2d6b65790d637573746f6d2d686561646572 is custom-key: custom-header
040c2f73616d706c652f70617468 is :path: /sample/path
100870617373776f726406736563726574 is password: secret
82 is :method: GET
be is custom-key: custom-header
bf is fault Index
82 is fault Index
"
}

/// RFC 7541, appendix C.3, with the table after each block.
fn plain_request_rows() -> &'static str {
    "\
828684410f7777772e6578616d706c652e636f6d is :method: GET; :scheme: http; :path: /; :authority: www.example.com
be is :authority: www.example.com
828684be58086e6f2d6361636865 is :method: GET; :scheme: http; :path: /; :authority: www.example.com; cache-control: no-cache
bebf is cache-control: no-cache; :authority: www.example.com
828785bf400a637573746f6d2d6b65790c637573746f6d2d76616c7565 is :method: GET; :scheme: https; :path: /index.html; :authority: www.example.com; custom-key: custom-value
bebfc0 is custom-key: custom-value; cache-control: no-cache; :authority: www.example.com
c1 is fault Index
"
}

/// RFC 7541, appendix C.4, with the table after each block.
fn coded_request_rows() -> &'static str {
    "\
828684418cf1e3c2e5f23a6ba0ab90f4ff is :method: GET; :scheme: http; :path: /; :authority: www.example.com
be is :authority: www.example.com
828684be5886a8eb10649cbf is :method: GET; :scheme: http; :path: /; :authority: www.example.com; cache-control: no-cache
bebf is cache-control: no-cache; :authority: www.example.com
828785bf408825a849e95ba97d7f8925a849e95bb8e8b4bf is :method: GET; :scheme: https; :path: /index.html; :authority: www.example.com; custom-key: custom-value
bebfc0 is custom-key: custom-value; cache-control: no-cache; :authority: www.example.com
c1 is fault Index
"
}

/// RFC 7541, appendix C.5, behind a limit of 256, with the table after each block.
fn plain_response_rows() -> &'static str {
    "\
3fe101 is nothing
4803333032580770726976617465611d4d6f6e2c203231204f637420323031332032303a31333a323120474d546e1768747470733a2f2f7777772e6578616d706c652e636f6d is :status: 302; cache-control: private; date: Mon, 21 Oct 2013 20:13:21 GMT; location: https://www.example.com
bebfc0c1 is location: https://www.example.com; date: Mon, 21 Oct 2013 20:13:21 GMT; cache-control: private; :status: 302
4803333037c1c0bf is :status: 307; cache-control: private; date: Mon, 21 Oct 2013 20:13:21 GMT; location: https://www.example.com
bebfc0c1 is :status: 307; location: https://www.example.com; date: Mon, 21 Oct 2013 20:13:21 GMT; cache-control: private
88c1611d4d6f6e2c203231204f637420323031332032303a31333a323220474d54c05a04677a69707738666f6f3d4153444a4b48514b425a584f5157454f50495541585157454f49553b206d61782d6167653d333630303b2076657273696f6e3d31 is :status: 200; cache-control: private; date: Mon, 21 Oct 2013 20:13:22 GMT; location: https://www.example.com; content-encoding: gzip; set-cookie: foo=ASDJKHQKBZXOQWEOPIUAXQWEOIU; max-age=3600; version=1
bebfc0 is set-cookie: foo=ASDJKHQKBZXOQWEOPIUAXQWEOIU; max-age=3600; version=1; content-encoding: gzip; date: Mon, 21 Oct 2013 20:13:22 GMT
c1 is fault Index
"
}

/// RFC 7541, appendix C.6, behind a limit of 256, with the table after each block.
fn coded_response_rows() -> &'static str {
    "\
3fe101 is nothing
488264025885aec3771a4b6196d07abe941054d444a8200595040b8166e082a62d1bff6e919d29ad171863c78f0b97c8e9ae82ae43d3 is :status: 302; cache-control: private; date: Mon, 21 Oct 2013 20:13:21 GMT; location: https://www.example.com
bebfc0c1 is location: https://www.example.com; date: Mon, 21 Oct 2013 20:13:21 GMT; cache-control: private; :status: 302
4883640effc1c0bf is :status: 307; cache-control: private; date: Mon, 21 Oct 2013 20:13:21 GMT; location: https://www.example.com
bebfc0c1 is :status: 307; location: https://www.example.com; date: Mon, 21 Oct 2013 20:13:21 GMT; cache-control: private
88c16196d07abe941054d444a8200595040b8166e084a62d1bffc05a839bd9ab77ad94e7821dd7f2e6c7b335dfdfcd5b3960d5af27087f3672c1ab270fb5291f9587316065c003ed4ee5b1063d5007 is :status: 200; cache-control: private; date: Mon, 21 Oct 2013 20:13:22 GMT; location: https://www.example.com; content-encoding: gzip; set-cookie: foo=ASDJKHQKBZXOQWEOPIUAXQWEOIU; max-age=3600; version=1
bebfc0 is set-cookie: foo=ASDJKHQKBZXOQWEOPIUAXQWEOIU; max-age=3600; version=1; content-encoding: gzip; date: Mon, 21 Oct 2013 20:13:22 GMT
c1 is fault Index
"
}

/// Blocks of libnghttp2 1.52.0's deflater: two requests, each twice; then its table set to 64, to 0 and 4,096,
/// and to 100 bytes, with more fields than it holds.
fn other_rows() -> &'static str {
    "\
8287418cf1e3c2e5f23a6ba0ab9ec9bf857a87aec3c65602b83f53032a2f2a901f11036b3d767c870ae152bb0fe7d7 is :method: GET; :scheme: https; :authority: www.example.org; :path: /index.html; user-agent: probe/1.0; accept: */*; accept-encoding: gzip, deflate; cookie: k=v; via: 1.1 proxy
4207434f4e4e4543544087b95d8749c87a3f8821eaa8a44ad6c95f87c3049c617f05a285bad47f153148d1dad2b16c95b017c4b81712ee30d34cb1408b20eb45b4156aec3a4e43d1023f31 is :method: CONNECT; :protocol: connect-udp; :scheme: https; :authority: www.example.org; :path: /.well-known/masque/udp/192.0.2.6/443/; capsule-protocol: ?1
c0bf87c4049c617f05a285bad47f153148d1dad2b16c95b017c4b81712ee30d34cb1be is :method: CONNECT; :protocol: connect-udp; :scheme: https; :authority: www.example.org; :path: /.well-known/masque/udp/192.0.2.6/443/; capsule-protocol: ?1
8287c485c3c2901f11036b3d76c1 is :method: GET; :scheme: https; :authority: www.example.org; :path: /index.html; user-agent: probe/1.0; accept: */*; accept-encoding: gzip, deflate; cookie: k=v; via: 1.1 proxy
3f214084f2b1ea2f01314084f2b27c1f0132 is x-one: 1; x-two: 2
203fe11f4084f2b1ea2f01314084f2b27c1f0132 is x-one: 1; x-two: 2
bfbe is x-one: 1; x-two: 2
3f454003782d3085ee3a2d2a804003782d3185ee3a2d2a814003782d3285ee3a2d2a824003782d3386ee3a2d2a8cff4003782d3486ee3a2d2a8d7f4003782d3586ee3a2d2a8dff1f088441496153 is x-0: value 0; x-1: value 1; x-2: value 2; x-3: value 3; x-4: value 4; x-5: value 5; authorization: secret
bfbe4003782d3085ee3a2d2a80 is x-4: value 4; x-5: value 5; x-0: value 0
bebfc0 is fault Index
"
}

/// A limit of 68, which two small fields fill, then of 50; a field larger than the table empties it.
fn limit_rows() -> &'static str {
    "\
3f25 is nothing
40016101624001630164 is a: b; c: d
bebf is c: d; a: b
3f24be is c: d
be40016101627e0162 is c: d; a: b; a: b
3f13 is nothing
400a637573746f6d2d6b65790d637573746f6d2d686561646572 is custom-key: custom-header
be is fault Index
"
}

/// Blocks of a new decoder: the ends of both tables and of integers, and each fault.
fn new_rows() -> &'static str {
    "\
20 is nothing
2020 is nothing
203fe11f82 is :method: GET
3fe11f is nothing
81bd is :authority: ; www-authenticate: 
0f2e0161 is www-authenticate: a
0f0f0162 is content-range: b
1f0f0162 is content-range: b
5f0162 is content-type: b
7d0162be is www-authenticate: b; www-authenticate: b
80 is fault Index
be is fault Index
82be is fault Index
8280 is fault Index
0f2f0161 is fault Index
7e is fault Index
7e0162 is fault Index
20be is fault Index
ff8080808000 is fault Index
ff808080800f is fault Index
ff80ffffff0f is fault Index
ffffffffff is fault Integer
ff is fault Integer
ff8080808080 is fault Integer
ff808080808000 is fault Integer
ff81ffffff0f is fault Integer
ff8080808010 is fault Integer
3fe1ffffff0f is fault Integer
3f is fault Integer
7f is fault Integer
0f is fault Integer
40 is fault Integer
10 is fault Integer
000161 is fault Integer
820001617f is fault Integer
4001 is fault Text
00016102 is fault Text
0001610262 is fault Text
00016181 is fault Text
0001618118 is fault Text
0001618100 is fault Text
00016184ffffffff is fault Text
00018118 is fault Text
00808100 is fault Text
8220 is fault Update
823fe11f is fault Update
823fe21f is fault Update
823fe0ffffff0f is fault Update
823fe1ffffff0f is fault Update
823f8080808080 is fault Update
20823f is fault Update
3fe21f is fault Update
3fe0ffffff0f is fault Update
"
}

/// Blocks of a new decoder: what stands before the letter v, so many times, and behind them. Their fields
/// count 16,384 or more.
fn long_rows() -> &'static str {
    "\
4001617fe01e 4063 bebebe is given
4001617fe01e 4063 bebebebe is fault TooLarge
4001617fe01e 4063 bebebe80 is fault Index
4001617fe01e 4063 bebebe82 is fault TooLarge
4001617fe11e 4064 be is fault Index
0001617fb67e 16309 82 is given
0001617fb77e 16310 82 is fault TooLarge
"
}

/// The names and values.
fn fields_text(alloc: Global, fields: &[Field]) -> Result<Vec<u8>, Fail> {
    let mut text = Vec::new(alloc);
    for field in fields {
        if !text.is_empty() {
            text.extend_from_slice(b"; ")?;
        }
        text.extend_from_slice(field.name.as_slice())?;
        text.extend_from_slice(b": ")?;
        text.extend_from_slice(field.value.as_slice())?;
    }
    Ok(text)
}

/// The fields, or the fault.
fn text_of(alloc: Global, answer: Result<Seq<Field>, HpackFault>) -> Result<Vec<u8>, Fail> {
    match answer {
        Ok(fields) => fields_text(alloc, fields.as_slice()),
        Err(fault) => {
            let text = format!(in alloc; "fault {fault:?}")?;
            Ok(Vec::from_slice(alloc, text.as_str().as_bytes())?)
        }
    }
}

/// Reads the next block, and compares.
fn check_block(
    rt: &impl Abort,
    alloc: Global,
    decoder: &mut Decoder,
    row: &str,
) -> Result<(), Fail> {
    let Some((block, want)) = row.split_once(" is ") else {
        return Ok(());
    };
    let want = if want == "nothing" { "" } else { want };
    let block = hex::decode(alloc, block)?;
    let seen = text_of(alloc, decoder.block(block.as_slice()))?;
    assert!(rt; seen.as_slice() == want.as_bytes(), "{row}");
    Ok(())
}

#[test]
fn blocks_of_one_connection_share_a_table(rt: HostRuntime) -> Result<(), Fail> {
    for &rows in &[
        single_rows(),
        plain_request_rows(),
        coded_request_rows(),
        plain_response_rows(),
        coded_response_rows(),
        other_rows(),
        limit_rows(),
    ] {
        let mut decoder = Decoder::new(rt.alloc());
        for row in rows.lines() {
            check_block(&rt, rt.alloc(), &mut decoder, row)?;
        }
    }
    Ok(())
}

#[test]
fn the_first_fault_is_told(rt: HostRuntime) -> Result<(), Fail> {
    for row in new_rows().lines() {
        let mut decoder = Decoder::new(rt.alloc());
        check_block(&rt, rt.alloc(), &mut decoder, row)?;
    }
    Ok(())
}

/// The bytes before the letters, the letters, and the bytes behind them.
fn long_block(alloc: Global, parts: &str) -> Result<Vec<u8>, Fail> {
    let mut block = Vec::new(alloc);
    for part in parts.split(' ') {
        match part.parse::<u32>() {
            Ok(count) if count > 99 && count < 99_999 => {
                for _ in 0..count {
                    block.push(b'v')?;
                }
            }
            _ => block.extend_from_slice(hex::decode(alloc, part)?.as_slice())?,
        }
    }
    Ok(block)
}

#[test]
fn the_fields_of_a_block_count_no_more_than_they_may(rt: HostRuntime) -> Result<(), Fail> {
    for row in long_rows().lines() {
        let Some((parts, want)) = row.split_once(" is ") else {
            continue;
        };
        let block = long_block(rt.alloc(), parts)?;
        let mut decoder = Decoder::new(rt.alloc());
        let seen = match decoder.block(block.as_slice()) {
            Ok(_) => format!(in rt.alloc(); "given")?,
            Err(fault) => format!(in rt.alloc(); "fault {fault:?}")?,
        };
        assert!(rt; seen.as_str() == want, "{row}");
    }
    Ok(())
}

/// RFC 7541, appendix C.4: blocks, and the size of the table after each.
fn size_rows() -> &'static str {
    "\
828684418cf1e3c2e5f23a6ba0ab90f4ff is 57
828684be5886a8eb10649cbf is 110
828785bf408825a849e95ba97d7f8925a849e95bb8e8b4bf is 164
20 is 0
"
}

#[test]
fn a_decoder_tells_the_size_of_its_table(rt: HostRuntime) -> Result<(), Fail> {
    let mut decoder = Decoder::new(rt.alloc());
    for row in size_rows().lines() {
        let Some((block, want)) = row.split_once(" is ") else {
            continue;
        };
        let block = hex::decode(rt.alloc(), block)?;
        let read = decoder.block(block.as_slice()).is_ok();
        let seen = format!(in rt.alloc(); "{}", decoder.held())?;
        assert!(rt; read, "{row}");
        assert!(rt; seen.as_str() == want, "{row}");
    }
    Ok(())
}

#[test]
fn a_fault_says_what_it_is(rt: HostRuntime) -> Result<(), Fail> {
    let rows = [
        (HpackFault::Index, "an index has no field in the table"),
        (
            HpackFault::Integer,
            "an integer is too large, has too many bytes, or is not whole",
        ),
        (
            HpackFault::Text,
            "a string is not whole, or has a fault of its Huffman code",
        ),
        (
            HpackFault::Update,
            "a size update stands after a field, or is above 4096",
        ),
        (HpackFault::TooLarge, "the fields count more than 16384"),
        (HpackFault::NoMemory, "memory ran out"),
    ];
    for &(fault, text) in &rows {
        assert_eq!(rt; format!(in rt.alloc(); "{fault}")?.as_str(), text);
    }
    Ok(())
}
