//! A script is cut at its newlines.
ghost use Rattle.mq_text.specs.Cut.{Cuts};

use memchr::memchr;

/// The next line, and what stands behind its newline. None where there is no newline.
pub fn cut_line(text: &[u8]) -> Option<(&[u8], &[u8])>
    ensures { Cuts 10 text.now result }
{
    let at = memchr(b'\n', text)?;
    let (line, rest) = text.split_at(at);
    let (_, behind) = rest.split_at(1);
    Some((line, behind))
}
