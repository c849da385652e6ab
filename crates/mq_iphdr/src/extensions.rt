//! The extension headers of IPv6 (RFC 8200, section 4).
ghost use Rattle.std.specs.Prelude.{◌≡◌, ◌≤◌, ◌+◌, ◌*◌, ◌^◌, ◌<◌, false, length, slice_index, MatchOption, IsTrue};
ghost use Rattle.mq_addr.specs.Packet.{extension_len, is_cut, is_extension, past, walk};

use mq_addr::{Flow, HeaderFault, IpView};

/// Hop-by-Hop Options.
const HOP_BY_HOP: u8 = 0;

const ROUTING: u8 = 43;

const FRAGMENT: u8 = 44;
/// Destination Options.
const DESTINATION: u8 = 60;
/// How many extension headers are walked.
const MOST: u8 = 8;

/// The view behind the extension headers, which stand in the bytes behind the fixed header.
pub fn walk(view: IpView, bytes: &[u8]) -> Result<IpView, HeaderFault>
    requires { view.header ≡ 40 }
    ensures { result ≡ walk 8 view bytes.now }
{
    let mut view = view;
    let mut rest = bytes;
    for _ in 0..MOST {
        if !is_extension(view.flow.protocol) {
            return Ok(view);
        }
        let Some(len) = len(view.flow.protocol, rest) else {
            return Err(HeaderFault::Extensions);
        };
        let is_last = view.flow.protocol == FRAGMENT;
        view = past(view, rest[0], len);
        if is_last {
            return Ok(view);
        }
        let (_, behind) = rest.split_at(usize::from(len));
        rest = behind;
    }
    if is_extension(view.flow.protocol) {
        Err(HeaderFault::Extensions)
    } else {
        Ok(view)
    }
}

#[tactic(auto, unfolding(mq_addr::specs::Packet::is_extension))]
fn is_extension(kind: u8) -> bool
    ensures { result ≡ is_extension kind }
{
    kind == HOP_BY_HOP || kind == ROUTING || kind == FRAGMENT || kind == DESTINATION
}

/// How many bytes the extension header at the front has, where they are there. A Fragment header has no length of its
/// own (RFC 8200, section 4.5).
fn len(kind: u8, bytes: &[u8]) -> Option<u16>
    ensures { MatchOption result (IsTrue (is_cut kind bytes.now)) (λ len. (is_cut kind bytes.now ≡ false) × (len ≡ extension_len kind bytes.now) × (len ≤ length bytes.now) × (8 ≤ len) × (len ≤ 2048)) }
{
    let [_, units, ..] = bytes else {
        return None;
    };
    let len = if kind == FRAGMENT {
        8
    } else {
        (u16::from(*units) + 1) * 8
    };
    if bytes.len() < usize::from(len) {
        return None;
    }
    Some(len)
}

/// The view behind a header of so many bytes.
fn past(view: IpView, next: u8, len: u16) -> IpView
    requires { view.header + len < 2 ^ 16 }
    ensures { result ≡ past view next len }
{
    IpView {
        flow: Flow {
            protocol: next,
            ..view.flow
        },
        header: view.header + len,
        ..view
    }
}
