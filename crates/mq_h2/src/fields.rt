//! Whether the fields of a request are malformed.
ghost use Rattle.std.specs.Prelude.{◌≡◌, ◌||◌, ◌&&◌, option_map};
ghost use Rattle.std.specs.List.{list_any};
ghost use Rattle.mq_h2.specs.Fields.{is_text, is_named, is_name_byte, is_not_name_byte, is_forbidden, is_pseudo, is_request_pseudo, is_of_connection, has_bad_name, is_bad, is_there, is_repeated, has_late_pseudo, value_of, is_value, is_some_text, repeats_pseudo, is_connect, is_tunnel, has_content, is_bad_extended, is_bad_connect, is_bad_plain, is_bad_target, is_malformed};

use mq_hpack::Field;

#[tactic(auto, unfolding(crate::specs::Fields::is_text))]
fn is_text(text: &[u8], word: &[u8]) -> bool
    ensures { result ≡ is_text text.now word.now }
{
    text == word
}

fn is_named(field: &Field, name: &[u8]) -> bool
    ensures { result ≡ is_named name.now field.now }
{
    is_text(field.name.as_slice(), name)
}

/// A byte of a token that is no upper-case letter.
#[tactic(auto, unfolding(crate::specs::Fields::is_name_byte))]
fn is_name_byte(byte: u8) -> bool
    ensures { result ≡ is_name_byte byte }
{
    matches!(byte, b'a'..=b'z' | b'0'..=b'9')
        || matches!(
            byte,
            b'!' | b'#'
                | b'$'
                | b'%'
                | b'&'
                | b'\''
                | b'*'
                | b'+'
                | b'-'
                | b'.'
                | b'^'
                | b'_'
                | b'`'
                | b'|'
                | b'~'
        )
}

fn has_other_byte(name: &[u8]) -> bool
    ensures { result ≡ list_any is_not_name_byte name.now }
{
    name.iter().any(|byte| !is_name_byte(*byte))
}

fn has_forbidden(value: &[u8]) -> bool
    ensures { result ≡ list_any is_forbidden value.now }
{
    value
        .iter()
        .any(|byte| *byte == 0 || *byte == b'\n' || *byte == b'\r')
}

fn is_pseudo(field: &Field) -> bool
    ensures { result ≡ is_pseudo field.now }
{
    matches!(field.name.as_slice(), [b':', ..])
}

/// A pseudo-field of requests.
#[tactic(auto, unfolding(crate::specs::Fields::is_request_pseudo))]
fn is_request_pseudo(name: &[u8]) -> bool
    ensures { result ≡ is_request_pseudo name.now }
{
    is_text(name, b":method")
        || is_text(name, b":scheme")
        || is_text(name, b":authority")
        || is_text(name, b":path")
        || is_text(name, b":protocol")
}

/// A field of connections of HTTP/1.1.
#[tactic(auto, unfolding(crate::specs::Fields::is_of_connection))]
fn is_of_connection(name: &[u8]) -> bool
    ensures { result ≡ is_of_connection name.now }
{
    is_text(name, b"connection")
        || is_text(name, b"upgrade")
        || is_text(name, b"transfer-encoding")
        || is_text(name, b"keep-alive")
        || is_text(name, b"proxy-connection")
}

fn has_bad_name(field: &Field) -> bool
    ensures { result ≡ has_bad_name field.now }
{
    let name = field.name.as_slice();
    if is_pseudo(field) {
        return !is_request_pseudo(name);
    }
    name.is_empty() || has_other_byte(name) || is_of_connection(name)
}

fn is_bad(field: &Field) -> bool
    ensures { result ≡ is_bad field.now }
{
    has_bad_name(field) || has_forbidden(field.value.as_slice())
}

fn has_bad(fields: &[Field]) -> bool
    ensures { result ≡ list_any is_bad fields.now }
{
    fields.iter().any(|field| is_bad(field))
}

fn has_pseudo(fields: &[Field]) -> bool
    ensures { result ≡ list_any is_pseudo fields.now }
{
    fields.iter().any(|field| is_pseudo(field))
}

/// Whether a pseudo-field stands behind another field.
fn has_late_pseudo(fields: &[Field]) -> bool
    ensures { result ≡ has_late_pseudo fields.now }
{
    let mut rest = fields;
    while let [field, after @ ..] = rest {
        if !is_pseudo(field) {
            return has_pseudo(after);
        }
        rest = after;
    }
    false
}

fn is_there(fields: &[Field], name: &[u8]) -> bool
    ensures { result ≡ is_there name.now fields.now }
{
    fields.iter().any(|field| is_named(field, name))
}

fn is_repeated(fields: &[Field], name: &[u8]) -> bool
    ensures { result ≡ is_repeated name.now fields.now }
{
    fields.iter().filter(|field| is_named(field, name)).count() > 1
}

/// The value of the first field of a name.
pub fn value_of<'a>(fields: &'a [Field], name: &[u8]) -> Option<&'a [u8]>
    ensures { option_map (λ v. v.now) result ≡ value_of name.now fields.now }
{
    for field in fields {
        if is_named(field, name) {
            return Some(field.value.as_slice());
        }
    }
    None
}

/// Whether there is a value, and it is this word.
pub fn is_value(value: Option<&[u8]>, word: &[u8]) -> bool
    ensures { result ≡ is_value (option_map (λ v. v.now) value.entry) word.now }
{
    match value {
        Some(value) => is_text(value, word),
        None => false,
    }
}

fn is_some_text(value: Option<&[u8]>) -> bool
    ensures { result ≡ is_some_text (option_map (λ v. v.now) value.entry) }
{
    match value {
        Some(value) => !value.is_empty(),
        None => false,
    }
}

fn repeats_pseudo(fields: &[Field]) -> bool
    ensures { result ≡ repeats_pseudo fields.now }
{
    is_repeated(fields, b":method")
        || is_repeated(fields, b":scheme")
        || is_repeated(fields, b":authority")
        || is_repeated(fields, b":path")
        || is_repeated(fields, b":protocol")
}

/// Whether the method is CONNECT.
pub fn is_connect(fields: &[Field]) -> bool
    ensures { result ≡ is_connect fields.now }
{
    is_value(value_of(fields, b":method"), b"CONNECT")
}

/// Whether the protocol is one of the two tunnels'.
fn is_tunnel(fields: &[Field]) -> bool
    ensures { result ≡ is_tunnel fields.now }
{
    let protocol = value_of(fields, b":protocol");
    is_value(protocol, b"connect-udp") || is_value(protocol, b"connect-ip")
}

fn has_content(fields: &[Field]) -> bool
    ensures { result ≡ has_content fields.now }
{
    is_there(fields, b"content-length") || is_there(fields, b"content-type")
}

fn is_bad_tunnel(fields: &[Field]) -> bool
    ensures { result ≡ (is_tunnel fields.now && has_content fields.now) }
{
    is_tunnel(fields) && has_content(fields)
}

fn is_bad_extended(fields: &[Field]) -> bool
    ensures { result ≡ is_bad_extended fields.now }
{
    !is_connect(fields)
        || !is_some_text(value_of(fields, b":scheme"))
        || !is_some_text(value_of(fields, b":path"))
        || !is_some_text(value_of(fields, b":authority"))
        || is_bad_tunnel(fields)
}

fn is_bad_connect(fields: &[Field]) -> bool
    ensures { result ≡ is_bad_connect fields.now }
{
    !is_there(fields, b":authority") || is_there(fields, b":scheme") || is_there(fields, b":path")
}

fn is_bad_plain(fields: &[Field]) -> bool
    ensures { result ≡ is_bad_plain fields.now }
{
    !is_there(fields, b":scheme") || !is_there(fields, b":path")
}

/// Whether the pseudo-fields don't fit one another.
#[tactic(auto, unfolding(crate::specs::Fields::is_bad_target))]
fn is_bad_target(fields: &[Field]) -> bool
    ensures { result ≡ is_bad_target fields.now }
{
    if !is_there(fields, b":method") {
        return true;
    }
    if is_there(fields, b":protocol") {
        return is_bad_extended(fields);
    }
    if is_connect(fields) {
        return is_bad_connect(fields);
    }
    is_bad_plain(fields)
}

/// Whether a request with these fields is malformed.
#[tactic(auto, unfolding(crate::specs::Fields::is_malformed))]
pub fn is_malformed(fields: &[Field]) -> bool
    ensures { result ≡ is_malformed fields.now }
{
    has_bad(fields) || has_late_pseudo(fields) || repeats_pseudo(fields) || is_bad_target(fields)
}
