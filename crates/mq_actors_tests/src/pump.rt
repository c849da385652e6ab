//! Steps of a pump over a network, an office and inboxes in memory. The packets of the network are ones that another program's checksum says are right.

ghost use Rattle.std.specs.Prelude.{◌≡◌, length, IfOk};
ghost use Rattle.mq_talk.specs.Offices.{IsSound};
ghost use Rattle.mq_mem.specs.Offices.{seen_of};
ghost use Rattle.mq_machine.specs.State as machine;
ghost use Rattle.mq_pump.specs.Holds.{IsPump};

use crate::common::{bytes, nothing};
use crate::parcels::short;
use mq_mem::{MemNet, PlainMail, PlainOffice};
use mq_pump::Pump;
use mq_talk::{Cause, Config, From, Mail, Note};
use mq_wire::{NoMemory, Seq};
use std::alloc::Global;
use std::process::Abort;
use std::test::Fail;

/// A UDP packet from 192.0.2.1 to 198.51.100.9.
const PACKET: &[u8] =
    b"\x45\x00\x00\x15\x00\x00\x00\x00\x40\x11\x8e\x9a\xc0\x00\x02\x01\xc6\x33\x64\x09\xaa";

/// The same with one byte more.
const LONG: &[u8] =
    b"\x45\x00\x00\x16\x00\x00\x00\x00\x40\x11\x8e\x99\xc0\x00\x02\x01\xc6\x33\x64\x09\xaa\xaa";

/// The packet of the short parcel: an IPv6 header with no payload.
const SHORT: &[u8] =
    b"\x60\0\0\0\0\0\x3b\x40\x20\x01\x0d\xb8\0\0\0\0\0\0\0\0\0\0\0\x01\x20\x01\x0d\xb8\0\0\0\0\0\0\0\0\0\0\0\x02";

/// The pump of a network from which these packets come, beside one worker.
fn pump_of(alloc: Global, packets: &[&[u8]], mtu: u32, fails: &[u64]) -> Result<Pump<MemNet>, Fail>
    ensures stands { IfOk result (λ pump. (s : machine.Pump) × IsPump pump s) }
    ensures workers { IfOk result (λ pump. pump.workers ≡ 1) }
{
    let fails = Seq::from_vec(Vec::from_slice(alloc, fails)?);
    let mut net = MemNet::new(nothing(alloc), None, fails)?;
    for packet in packets {
        if packet.len() <= 65_535 {
            net.arrive(bytes(alloc, packet)?)?;
        }
    }
    Ok(Pump::new(alloc, net, 1, mtu)?)
}

/// An office whose book is empty, and gives nothing.
fn empty_office(alloc: Global) -> Result<PlainOffice, Fail>
    ensures workers { IfOk result (λ o. o.book.config.workers ≡ 1) }
    ensures actor { IfOk result (λ o. o.actor ≡ 0) }
    ensures sound { IfOk result (λ o. IsSound (seen_of o)) }
{
    let config = Config {
        pool: nothing(alloc),
        reach: nothing(alloc),
        routes: nothing(alloc),
        history: 8,
        workers: 1,
    };
    Ok(PlainOffice::of(alloc, config)?)
}

/// The inboxes of the worker and of the pump, which is served.
fn mail_of(alloc: Global) -> Result<PlainMail, NoMemory>
    ensures { IfOk result (λ m. (length m.boxes ≡ 2) × (m.actor ≡ 1)) }
{
    let mut mail = PlainMail::new(alloc, 2)?;
    mail.turn_to(1);
    Ok(mail)
}

/// A parcel of the tunnel goes to the pump's inbox.
fn put(alloc: Global, mail: &mut PlainMail) -> Result<(), NoMemory>
    requires { (length mail.old.boxes ≡ 2) × (mail.old.actor ≡ 1) }
    ensures { (length mail.new.boxes ≡ 2) × (mail.new.actor ≡ 1) }
{
    let parcel = short(alloc, 0, 5)?;
    let _ = mail.push(1, parcel);
    Ok(())
}

/// What a step gave, in a word.
fn word(note: &Option<Note>) -> &'static str {
    match note {
        None => "nothing",
        Some(
            Note::Sent {
                from: From::Tunnel(0),
                n: 5,
                packet,
            },
        ) if packet.as_slice() == SHORT => "sent",
        Some(
            Note::Dropped {
                from: From::Tunnel(0),
                n: 5,
                cause: Cause::Port,
            },
        ) => "dropped at the network",
        Some(
            Note::Dropped {
                from: From::Net,
                n: 0,
                cause: Cause::BadHeader,
            },
        ) => "0 has a bad header",
        Some(
            Note::Dropped {
                from: From::Net,
                n: 1,
                cause: Cause::TooLong,
            },
        ) => "1 is too long",
        Some(
            Note::Dropped {
                from: From::Net,
                n: 2,
                cause: Cause::NoRoute,
            },
        ) => "2 has no route",
        Some(_) => "another note",
    }
}

/// A step of the pump, which serves beside one worker.
fn step(
    pump: &mut Pump<MemNet>,
    office: &mut PlainOffice,
    mail: &mut PlainMail,
) -> Result<&'static str, NoMemory>
    requires stands { (s : machine.Pump) × IsPump pump.old s }
    requires workers { (pump.old.workers ≡ 1) × (office.old.book.config.workers ≡ 1) }
    requires sound { IsSound (seen_of office.old) }
    requires mail { (length mail.old.boxes ≡ 2) × (mail.old.actor ≡ 1) }
    ensures stands { (s : machine.Pump) × IsPump pump.new s }
    ensures workers { (pump.new.workers ≡ 1) × (office.new.book.config.workers ≡ 1) }
    ensures sound { IsSound (seen_of office.new) }
    ensures mail { (length mail.new.boxes ≡ 2) × (mail.new.actor ≡ 1) }
{
    Ok(word(&pump.step(office, mail)?))
}

/// A parcel is sent, and the next one dropped where the network fails.
fn sends(
    rt: &impl Abort,
    pump: &mut Pump<MemNet>,
    office: &mut PlainOffice,
    mail: &mut PlainMail,
) -> Result<(), Fail>
    requires stands { (s : machine.Pump) × IsPump pump.old s }
    requires workers { (pump.old.workers ≡ 1) × (office.old.book.config.workers ≡ 1) }
    requires sound { IsSound (seen_of office.old) }
    requires mail { (length mail.old.boxes ≡ 2) × (mail.old.actor ≡ 1) }
{
    assert!(rt; step(pump, office, mail)? == "sent");
    pump.net().fail_next();
    assert!(rt; step(pump, office, mail)? == "dropped at the network");
    assert!(rt; step(pump, office, mail)? == "nothing");
    Ok(())
}

#[test]
fn a_parcel_goes_to_the_network(rt: HostRuntime) -> Result<(), Fail> {
    let mut pump = pump_of(rt.alloc(), &[], 1500, &[])?;
    let mut office = empty_office(rt.alloc())?;
    let mut mail = mail_of(rt.alloc())?;
    put(rt.alloc(), &mut mail)?;
    put(rt.alloc(), &mut mail)?;
    sends(&rt, &mut pump, &mut office, &mut mail)
}

/// The first receive fails, and each packet is dropped.
fn drops(
    rt: &impl Abort,
    pump: &mut Pump<MemNet>,
    office: &mut PlainOffice,
    mail: &mut PlainMail,
) -> Result<(), Fail>
    requires stands { (s : machine.Pump) × IsPump pump.old s }
    requires workers { (pump.old.workers ≡ 1) × (office.old.book.config.workers ≡ 1) }
    requires sound { IsSound (seen_of office.old) }
    requires mail { (length mail.old.boxes ≡ 2) × (mail.old.actor ≡ 1) }
{
    assert!(rt; step(pump, office, mail)? == "nothing");
    assert!(rt; step(pump, office, mail)? == "0 has a bad header");
    assert!(rt; step(pump, office, mail)? == "1 is too long");
    assert!(rt; step(pump, office, mail)? == "2 has no route");
    assert!(rt; step(pump, office, mail)? == "nothing");
    Ok(())
}

#[test]
fn a_packet_is_dropped_for_the_first_cause(rt: HostRuntime) -> Result<(), Fail> {
    let packets = [PACKET.split_at(20).0, LONG, PACKET];
    let mut pump = pump_of(rt.alloc(), &packets, 21, &[0])?;
    let mut office = empty_office(rt.alloc())?;
    let mut mail = mail_of(rt.alloc())?;
    drops(&rt, &mut pump, &mut office, &mut mail)?;
    let _ = pump.net_at();
    let _ = pump.close();
    Ok(())
}
