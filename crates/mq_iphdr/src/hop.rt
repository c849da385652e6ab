//! The packet behind the next hop.
ghost use Rattle.std.specs.Prelude.{◌≡◌, ◌≤◌, ◌<◌, length, slice_index, Ok, OnOk, OnErr};
ghost use Rattle.mq_addr.specs.Packet.{header_of};
ghost use Rattle.mq_iphdr.specs.Onward.{lowered, onward_of, summed, IsTakenOnward};

use super::checksum::ones_sum;
use mq_addr::IpView;

/// The hop limit doesn't allow another hop.
#[derive(Clone, Copy, Debug, PartialEq, Eq)]
pub struct HopLimit;

/// Lowers the hop limit by one and writes the IPv4 header's checksum, computed from the whole header. Where the hop limit
/// is at most 1, nothing changes.
pub fn onward(packet: &mut [u8], view: &IpView) -> Result<(), HopLimit>
    requires { header_of packet.old ≡ Ok view.now }
    ensures ok { OnOk result ((1 < view.now.hop) × (packet.new ≡ onward_of packet.old)) }
    ensures err { OnErr result ((view.now.hop ≤ 1) × (packet.new ≡ packet.old)) }
{
    if view.hop <= 1 {
        return Err(HopLimit);
    }
    if view.version == 4 {
        lower(packet, 8);
        write_checksum(packet, view.header);
    } else {
        lower(packet, 7);
    }
    Ok(())
}

/// What goes on is a packet that is taken, with the same view but for the hop limit.
pub fn taken_onward()
    ensures { IsTakenOnward }
{}

/// Makes the byte at a place one less.
fn lower(packet: &mut [u8], at: usize)
    requires within { at < length packet.old }
    requires positive { 0 < slice_index packet.old at }
    ensures { packet.new ≡ lowered at packet.old }
{
    packet[at] -= 1;
}

/// Writes the checksum of a header of so many bytes.
#[tactic(auto, unfolding(crate::specs::Onward::summed))]
pub fn write_checksum(packet: &mut [u8], len: u16)
    requires fixed { 20 ≤ len }
    requires within { len ≤ length packet.old }
    ensures { packet.new ≡ summed len packet.old }
{
    packet[10] = 0;
    packet[11] = 0;
    let (header, _) = packet.split_at(usize::from(len));
    let [high, low] = (0xffff - ones_sum(header)).to_be_bytes();
    packet[10] = high;
    packet[11] = low;
}
