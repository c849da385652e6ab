//! A tunnel for IP packets.
ghost use Rattle.std.specs.Prelude.{◌≡◌, IfOk, OnOk, OnErr, IsErr, Some};
ghost use Rattle.mq_iptun.specs.Acts.{MayDo};
ghost use Rattle.mq_iptun.specs.Answers.{CanTell, told};
ghost use Rattle.mq_iptun.specs.Tunnels.{IsSpent, IsWorking, Takes, spent};

use super::act::IpAct;
use super::answer::control_capsule;
use super::item::act_of;
use super::number::next_number;
use mq_capsule::Item;
use mq_talk::Reply;
use mq_wire::{Bytes, NoMemory};
use std::alloc::Global;
use std::marker::Model;

/// The core of a tunnel for IP packets: its number, how many bytes a packet has at most, and the number of its next payload.
#[derive(Drop)]
pub struct IpTunnel {
    tunnel: u32,
    mtu: u32,
    /// Nothing after memory was refused.
    next: Option<u64>,
}

impl Model for IpTunnel {
    ghost use Rattle.mq_iptun.specs.Tunnels.{IpState};

    ghost Value = { IpState };

    ghost view = { λ t. record { tunnel = t.tunnel; mtu = t.mtu; next = t.next } };
}

impl IpTunnel {
    /// The tunnel of this number, of whose data stream nothing was read.
    pub fn new(tunnel: u32, mtu: u32) -> IpTunnel
        ensures { result ≡ record { tunnel = tunnel; mtu = mtu; next = Some 0 } }
    {
        IpTunnel {
            tunnel,
            mtu,
            next: Some(0),
        }
    }

    /// What the next item of its data stream asks for. After an `Err` the tunnel is spent: every later call answers the same.
    pub fn item(&mut self, alloc: Global, item: Item) -> Result<IpAct, NoMemory>
        ensures ok { IfOk result (λ act. Takes self.old item act self.new) }
        ensures limits { IfOk result MayDo }
        ensures err { OnErr result (self.new ≡ spent self.old) }
        ensures stays_spent { IsSpent self.old → IsErr result }
    {
        let n = self.next.take().ok_or(NoMemory)?;
        let next = next_number(n, &item)?;
        let act = act_of(alloc, self.mtu, n, item)?;
        self.next = Some(next);
        Ok(act.into_ip_act(self.tunnel))
    }

    /// The whole control capsule that answers a reply, where there is one. After an `Err` the tunnel is spent: every later
    /// call answers the same.
    pub fn answer(&mut self, alloc: Global, reply: &Reply) -> Result<Option<Bytes>, NoMemory>
        requires { CanTell reply.now }
        ensures capsule { IfOk result (λ capsule. capsule ≡ told reply.now) }
        ensures ok { OnOk result (IsWorking self.old × (self.new ≡ self.old)) }
        ensures err { OnErr result (self.new ≡ spent self.old) }
        ensures stays_spent { IsSpent self.old → IsErr result }
    {
        let n = self.next.take().ok_or(NoMemory)?;
        let capsule = control_capsule(alloc, reply)?;
        self.next = Some(n);
        Ok(capsule)
    }
}
