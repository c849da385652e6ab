//! Whether the bytes of a connection end inside the request target.
ghost use Rattle.std.specs.Prelude.{◌≡◌, count_by};
ghost use Rattle.std.specs.List.{list_any};
ghost use Rattle.mq_head.specs.Heads.{ends_in_target, has_one_space, is_space, skip_line_bytes, is_line_byte};
ghost use Rattle.mq_head.specs.Places.{stays_in_target};

fn is_line_byte(byte: u8) -> bool
    ensures { result ≡ is_line_byte byte }
{
    byte == b'\r' || byte == b'\n'
}

/// The bytes behind the empty lines in front.
pub fn skip_line_bytes(mut bytes: &[u8]) -> &[u8]
    ensures { result.now ≡ skip_line_bytes bytes.now }
{
    while let [first, rest @ ..] = bytes
        && is_line_byte(*first)
    {
        bytes = rest;
    }
    bytes
}

fn count_spaces(line: &[u8]) -> usize
    ensures { result ≡ count_by is_space line.now }
{
    line.iter().filter(|b| **b == b' ').count()
}

fn has_line_byte(line: &[u8]) -> bool
    ensures { result ≡ list_any is_line_byte line.now }
{
    line.iter().any(|b| is_line_byte(*b))
}

fn has_one_space(line: &[u8]) -> bool
    ensures { result ≡ has_one_space line.now }
{
    count_spaces(line) == 1 && !has_line_byte(line)
}

/// Whether bytes that end inside the request target still do so with these behind them.
pub fn stays_in_target(piece: &[u8]) -> bool
    ensures { result ≡ stays_in_target piece.now }
{
    count_spaces(piece) == 0 && !has_line_byte(piece)
}

/// Whether the bytes end inside the request target.
#[tactic(auto, unfolding(crate::specs::Heads::ends_in_target))]
pub fn ends_in_target(bytes: &[u8]) -> bool
    ensures { result ≡ ends_in_target bytes.now }
{
    has_one_space(skip_line_bytes(bytes))
}
