//! The status of a response over HTTP/2 (RFC 9113, section 8.3.2).
ghost use Rattle.std.specs.Prelude.{◌≡◌, count_by, option_and_then, find};
ghost use Rattle.mq_client.specs.Statuses.{is_status, is_digit, number_of, status_of, is_successful};

use mq_hpack::Field;

#[tactic(auto, unfolding(crate::specs::Statuses::is_status))]
fn is_status(field: &Field) -> bool
    ensures { result ≡ is_status field.now }
{
    field.name.as_slice() == b":status".as_slice()
}

fn is_digit(byte: u8) -> bool
    ensures { result ≡ is_digit byte }
{
    byte >= b'0' && byte <= b'9'
}

/// The number that three digits are.
fn number_of(value: &[u8]) -> Option<u16>
    ensures { result ≡ number_of value.now }
{
    match value {
        [a, b, c] if is_digit(*a) && is_digit(*b) && is_digit(*c) => {
            let hundreds = u16::from(*a - b'0') * 100;
            let tens = u16::from(*b - b'0') * 10;
            Some(hundreds + tens + u16::from(*c - b'0'))
        }
        _ => None,
    }
}

fn count(fields: &[Field]) -> usize
    ensures { result ≡ count_by is_status fields.now }
{
    fields.iter().filter(|field| is_status(field)).count()
}

/// The number of the first status.
fn first(fields: &[Field]) -> Option<u16>
    ensures { result ≡ option_and_then (λ f. number_of f.value) (find is_status fields.now) }
{
    for field in fields {
        if is_status(field) {
            return number_of(field.value.as_slice());
        }
    }
    None
}

/// The status of a response, where it has exactly one, of three digits.
pub fn status_of(fields: &[Field]) -> Option<u16>
    ensures { result ≡ status_of fields.now }
{
    if count(fields) == 1 {
        first(fields)
    } else {
        None
    }
}

/// Whether the request succeeded (RFC 9110, section 15.3).
pub fn is_successful(status: u16) -> bool
    ensures { result ≡ is_successful status }
{
    status >= 200 && status <= 299
}
