//! Classes of bytes in templates, paths and values.
ghost use Rattle.std.specs.Prelude.{◌≡◌, ◌==◌};
ghost use Rattle.std.specs.List.{list_all};
ghost use Rattle.mq_target.specs.Classes.{begins, ends_or_begins, is_delimiter, is_literal, is_name_byte, is_unreserved, is_value_byte, is_variable_byte};

/// Letters, digits, `-`, `.` and `_`, of which names are made.
#[tactic(auto, unfolding(crate::specs::Classes::is_name_byte))]
pub fn is_name_byte(byte: u8) -> bool
    ensures { result ≡ is_name_byte byte }
{
    byte.is_ascii_alphanumeric() || byte == b'-' || byte == b'.' || byte == b'_'
}

/// The unreserved bytes of RFC 3986, section 2.3.
#[tactic(auto, unfolding(crate::specs::Classes::is_unreserved))]
pub fn is_unreserved(byte: u8) -> bool
    ensures { result ≡ is_unreserved byte }
{
    is_name_byte(byte) || byte == b'~'
}

/// What may stand outside of a template's variables.
#[tactic(auto, unfolding(crate::specs::Classes::is_literal))]
pub fn is_literal(byte: u8) -> bool
    ensures { result ≡ is_literal byte }
{
    is_unreserved(byte) || b"/!$'()*+,;=:@&?".contains(&byte)
}

/// What the names of variables are made of.
#[tactic(auto, unfolding(crate::specs::Classes::is_variable_byte))]
pub fn is_variable_byte(byte: u8) -> bool
    ensures { result ≡ is_variable_byte byte }
{
    byte.is_ascii_alphanumeric() || byte == b'_'
}

/// What begins the text behind a variable.
#[tactic(auto, unfolding(crate::specs::Classes::is_delimiter))]
pub fn is_delimiter(byte: u8) -> bool
    ensures { result ≡ is_delimiter byte }
{
    byte == b'/' || byte == b'?' || byte == b'&'
}

/// What a matched value is made of.
#[tactic(auto, unfolding(crate::specs::Classes::is_value_byte))]
pub fn is_value_byte(byte: u8) -> bool
    ensures { result ≡ is_value_byte byte }
{
    !(is_delimiter(byte) || byte == b'#')
}

/// Whether all bytes are literals.
pub fn are_literals(text: &[u8]) -> bool
    ensures { result ≡ list_all is_literal text.now }
{
    text.iter().all(|byte| is_literal(*byte))
}

/// Whether all bytes are those of variables.
pub fn are_variable_bytes(text: &[u8]) -> bool
    ensures { result ≡ list_all is_variable_byte text.now }
{
    text.iter().all(|byte| is_variable_byte(*byte))
}

/// Whether all bytes are those of names.
pub fn are_name_bytes(text: &[u8]) -> bool
    ensures { result ≡ list_all is_name_byte text.now }
{
    text.iter().all(|byte| is_name_byte(*byte))
}

/// Whether a text begins with a slash.
pub fn begins_with_slash(text: &[u8]) -> bool
    ensures { result ≡ begins (λ b. b == 47) text.now }
{
    match text {
        [] => false,
        [first, ..] => *first == b'/',
    }
}

/// Whether a text begins with a delimiter.
pub fn is_delimited(text: &[u8]) -> bool
    ensures { result ≡ begins is_delimiter text.now }
{
    match text {
        [] => false,
        [first, ..] => is_delimiter(*first),
    }
}

/// Whether a text is empty or begins with a delimiter.
pub fn is_ended(text: &[u8]) -> bool
    ensures { result ≡ ends_or_begins is_delimiter text.now }
{
    match text {
        [] => true,
        [first, ..] => is_delimiter(*first),
    }
}
