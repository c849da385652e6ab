//! SETTINGS (RFC 9113, section 6.5).
ghost use Rattle.std.specs.Prelude.{◌≡◌, ◌<◌, ◌≤◌, length, IfOk, MatchOption};
ghost use Rattle.mq_frame.specs.declared.kind.Kind.TheVariants as kinds;
ghost use Rattle.mq_frame.specs.Table.{judged, pairs_of, setting_at, setting_fault, settings_fault};

use super::codes::{ACK, FLOW_CONTROL_ERROR, FRAME_SIZE_ERROR, PROTOCOL_ERROR};
use super::frame::{Frame, Setting};
use super::header::Header;
use mq_wire::{NoMemory, Seq};
use std::alloc::Global;

const ENABLE_PUSH: u16 = 2;

const INITIAL_WINDOW_SIZE: u16 = 4;

const MAX_FRAME_SIZE: u16 = 5;

/// A SETTINGS frame, or its error.
#[tactic(auto, unfolding(crate::specs::Table::judged))]
pub fn settings(alloc: Global, header: Header, contents: &[u8]) -> Result<Frame, NoMemory>
    ensures { IfOk result (λ f. f ≡ judged kinds.Settings header contents.now) }
{
    let ack = header.has(ACK);
    if ack && !contents.is_empty() || contents.len() % 6 != 0 {
        return Ok(Frame::Fault {
            code: FRAME_SIZE_ERROR,
        });
    }
    let pairs = pairs(alloc, contents)?;
    match settings_fault(pairs.as_slice()) {
        Some(code) => Ok(Frame::Fault { code }),
        None => Ok(Frame::Settings {
            ack,
            pairs: Seq::from_vec(pairs),
        }),
    }
}

/// The settings, six bytes each.
fn pairs(alloc: Global, contents: &[u8]) -> Result<Vec<Setting>, NoMemory>
    ensures { IfOk result (λ v. v.items ≡ pairs_of contents.now) }
{
    let mut pairs = Vec::with_capacity(alloc, contents.len() / 6)?;
    let mut rest = contents;
    while let Some(pair) = setting_at(rest) {
        pairs.push(pair)?;
        let (_, after) = rest.split_at(6);
        rest = after;
    }
    Ok(pairs)
}

/// The setting at the front, where it is whole.
#[tactic(auto, unfolding(crate::specs::Table::setting_at))]
fn setting_at(bytes: &[u8]) -> Option<Setting>
    ensures { MatchOption result (length bytes.now < 6) (λ s. (6 ≤ length bytes.now) × (s ≡ setting_at bytes.now)) }
{
    match bytes {
        [a, b, c, d, e, f, ..] => Some(Setting {
            id: u16::from_be_bytes([*a, *b]),
            value: u32::from_be_bytes([*c, *d, *e, *f]),
        }),
        _ => None,
    }
}

/// The error of the first setting that has one.
fn settings_fault(pairs: &[Setting]) -> Option<u32>
    ensures { result ≡ settings_fault pairs.now }
{
    for pair in pairs {
        if let Some(code) = setting_fault(*pair) {
            return Some(code);
        }
    }
    None
}

/// The error of a setting (RFC 9113, section 6.5.2).
#[tactic(auto, unfolding(crate::specs::Table::setting_fault))]
fn setting_fault(pair: Setting) -> Option<u32>
    ensures { result ≡ setting_fault pair }
{
    match pair.id {
        ENABLE_PUSH if pair.value > 1 => Some(PROTOCOL_ERROR),
        INITIAL_WINDOW_SIZE if pair.value > 0x7fff_ffff => Some(FLOW_CONTROL_ERROR),
        MAX_FRAME_SIZE if pair.value < 0x4000 || pair.value > 0xff_ffff => Some(PROTOCOL_ERROR),
        _ => None,
    }
}
