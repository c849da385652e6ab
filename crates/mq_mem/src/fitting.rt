//! What one call hands on of some bytes.
ghost use Rattle.std.specs.Prelude.{◌≡◌, ◌<◌, ◌≤◌, ◌++◌, length, take, drop};
ghost use Rattle.mq_outside.specs.Links.{fitting as fitting_of};

/// How many of so many bytes one call hands on, to one that has room for so many.
#[tactic(auto, unfolding(mq_outside::specs::Links::most_at_once))]
pub fn fitting(room: usize, size: usize) -> u32
    ensures value { result ≡ fitting_of room size }
    ensures within { (result ≤ room) × (result ≤ size) }
    ensures some { 0 < room → 0 < size → 0 < result }
{
    room.min(size).min(u32::MAX as usize) as u32
}

/// Copies as much of the front of some bytes as a buffer has room for, and answers how much.
pub fn fill(into: &mut [u8], from: &[u8]) -> u32
    ensures value { result ≡ fitting_of (length into.old) (length from.now) }
    ensures within { (result ≤ length into.old) × (result ≤ length from.now) }
    ensures some { 0 < length into.old → 0 < length from.now → 0 < result }
    ensures copied { take result into.new ≡ take result from.now }
{
    let count = fitting(into.len(), from.len());
    let (front, _) = from.split_at(count as usize);
    let (room, _) = into.split_at_mut(count as usize);
    room.copy_from_slice(front);
    count
}
