//! Texts cut at a separator.
ghost use Rattle.std.specs.Prelude.{◌≡◌, ◌==◌, ◌<◌, length, position, IfSome};
ghost use Rattle.mq_text.specs.Cut.{Cuts, IsCutOnce};

/// The first place of a byte.
pub fn place(separator: u8, text: &[u8]) -> Option<usize>
    ensures place { result ≡ position (λ b. b == separator) text.now }
    ensures within { IfSome result (λ at. at < length text.now) }
{
    text.iter().position(|b| *b == separator)
}

/// The bytes before and behind the first separator; None where there is none.
pub fn cut(separator: u8, text: &[u8]) -> Option<(&[u8], &[u8])>
    ensures { Cuts separator text.now result }
{
    let at = place(separator, text)?;
    let (before, rest) = text.split_at(at);
    let (_, behind) = rest.split_at(1);
    Some((before, behind))
}

/// A text is cut at its first separator in one way.
pub fn cut_once()
    ensures { IsCutOnce }
{}
