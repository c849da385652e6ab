//! Request targets (RFC 9112, section 3.2).
ghost use Rattle.std.specs.Prelude.{◌≡◌, option_map};
ghost use Rattle.mq_head.specs.Target.{ends_authority, skip_authority, behind_authority, path_of};

#[tactic(auto, unfolding(crate::specs::Target::ends_authority))]
fn ends_authority(byte: u8) -> bool
    ensures { result ≡ ends_authority byte }
{
    byte == b'/' || byte == b'?' || byte == b'#'
}

fn skip_authority(mut text: &[u8]) -> &[u8]
    ensures { result.now ≡ skip_authority text.now }
{
    while let [first, rest @ ..] = text
        && !ends_authority(*first)
    {
        text = rest;
    }
    text
}

/// What follows an authority that isn't empty.
fn behind_authority(text: &[u8]) -> Option<&[u8]>
    ensures { option_map (λ p. p.now) result ≡ behind_authority text.now }
{
    match text {
        [first, ..] if !ends_authority(*first) => Some(skip_authority(text)),
        _ => None,
    }
}

/// Path and query of a request target in origin form or in absolute form.
#[tactic(auto, unfolding(crate::specs::Target::path_of))]
pub fn path_of(target: &[u8]) -> Option<&[u8]>
    ensures { option_map (λ p. p.now) result ≡ path_of target.now }
{
    if target.starts_with(b"/") {
        Some(target)
    } else if target.starts_with(b"http://") {
        behind_authority(&target[7..])
    } else if target.starts_with(b"https://") {
        behind_authority(&target[8..])
    } else {
        None
    }
}
