//! Well-formed parcels, of 40 bytes and of 65,535.
ghost use Rattle.std.specs.Prelude.{◌≤◌, IfOk, IsSome, length};
ghost use Rattle.mq_talk.specs.Mails.{IsParcel};
ghost use Rattle.mq_talk.specs.Packets.{flow_of};

use mq_talk::{Origin, Parcel, Place};
use mq_wire::{Bytes, NoMemory};
use std::alloc::Global;

/// An IPv6 header with no payload.
fn short_packet(alloc: Global) -> Result<Vec<u8>, NoMemory>
    ensures { IfOk result (λ packet. (length packet.items ≤ 65535) × IsSome (flow_of packet.items)) }
{
    let header = [
        0x60u8, 0, 0, 0, 0, 0, 59, 64, 0x20, 1, 0xd, 0xb8, 0, 0, 0, 0, 0, 0, 0, 0, 0, 0, 0, 1,
        0x20, 1, 0xd, 0xb8, 0, 0, 0, 0, 0, 0, 0, 0, 0, 0, 0, 2,
    ];
    Ok(Vec::from_slice(alloc, &header)?)
}

/// The longest packet that goes through an inbox: an IPv6 header before 65,495 bytes.
fn long_packet(alloc: Global) -> Result<Vec<u8>, NoMemory>
    ensures { IfOk result (λ packet. (length packet.items ≤ 65535) × IsSome (flow_of packet.items)) }
{
    let header = [
        0x60u8, 0, 0, 0, 0xff, 0xd7, 59, 64, 0x20, 1, 0xd, 0xb8, 0, 0, 0, 0, 0, 0, 0, 0, 0, 0, 0,
        1, 0x20, 1, 0xd, 0xb8, 0, 0, 0, 0, 0, 0, 0, 0, 0, 0, 0, 2,
    ];
    let payload = Vec::from_elem(alloc, 0u8, 65_495)?;
    let mut packet = Vec::from_slice(alloc, &header)?;
    packet.extend_from_slice(&payload)?;
    Ok(packet)
}

/// Parcel number `n` of an actor.
fn parcel_of(actor: u32, n: u64, packet: Vec<u8>) -> Parcel
    requires { (length packet.items ≤ 65535) × IsSome (flow_of packet.items) }
    ensures { IsParcel result }
{
    Parcel {
        from: Origin::Tunnel(actor),
        n,
        to: Place::Net,
        packet: Bytes::from_vec(packet),
    }
}

pub fn short(alloc: Global, actor: u32, n: u64) -> Result<Parcel, NoMemory>
    ensures { IfOk result (λ parcel. IsParcel parcel) }
{
    Ok(parcel_of(actor, n, short_packet(alloc)?))
}

pub fn long(alloc: Global, actor: u32, n: u64) -> Result<Parcel, NoMemory>
    ensures { IfOk result (λ parcel. IsParcel parcel) }
{
    Ok(parcel_of(actor, n, long_packet(alloc)?))
}
