//! What the hosts of a network answer.
ghost use Rattle.std.specs.Prelude.{◌≡◌, ◌≤◌, ◌⊎◌, [], length};
ghost use Rattle.mq_iphdr.specs.Echo.{is_same, is_host as is_host_of};
ghost use Rattle.mq_net.specs.Hosts.{Answers};

use mq_addr::Addr;
use mq_iphdr::{check, echo};

/// Whether two addresses are the same.
fn is_same(host: &Addr, addr: Addr) -> bool
    ensures { result ≡ is_same host.now addr }
{
    match (*host, addr) {
        (Addr::V4(a), Addr::V4(b)) => a == b,
        (Addr::V6(a), Addr::V6(b)) => a == b,
        _ => false,
    }
}

/// Whether an address is a host's.
fn is_host(hosts: &[Addr], addr: Addr) -> bool
    ensures { result ≡ is_host_of hosts.now addr }
{
    hosts.iter().any(|host| is_same(host, addr))
}

/// Whether these hosts answer a packet. The answer stands at the front of `place` then, and is as long as the packet.
#[tactic(auto, unfolding(mq_iphdr::specs::Echo::answer_of))]
pub fn answer(hosts: &[Addr], packet: &[u8], place: &mut [u8]) -> bool
    requires { (hosts.now ≡ []) ⊎ (length packet.now ≤ length place.old) }
    ensures answers { Answers hosts.now packet.now place.new result }
    ensures len { length place.new ≡ length place.old }
{
    let Ok(view) = check(packet) else {
        return false;
    };
    if !is_host(hosts, view.flow.target) {
        return false;
    }
    let (front, _) = place.split_at_mut(packet.len());
    front.copy_from_slice(packet);
    echo(front, &view)
}
