//! What a host answers to a packet (RFC 768, RFC 862; RFC 792, Echo; RFC 4443, sections 4.1 and 4.2).
ghost use Rattle.std.specs.Prelude.{◌≡◌, ◌≤◌, ◌<◌, ◌+◌, ◌-◌, ◌^◌, length, Ok, is_some};
ghost use Rattle.std.specs.Option.{unwrap_or};
ghost use Rattle.mq_addr.specs.Packet.{header_of, ones_sum, ones_sum_from};
ghost use Rattle.mq_iphdr.specs.Echo.{echo_of, answer4_of, answer6_of, payload4_back, payload6_back, is_datagram, datagram_back, is_request, unsummed, with_word, pseudo_header, exchanged, header4_back, header6_back};

use super::checksum::ones_sum_from;
use super::hop::write_checksum;
use mq_addr::IpView;

/// The hop limit of an answer.
const HOPS: u8 = 64;

/// Makes a packet what its target answers to it, and says whether it answers. Addresses are exchanged, and a UDP datagram's
/// ports; the hop limit is 64; a request for an echo becomes its reply. Where nothing is answered, nothing changes.
pub fn echo(packet: &mut [u8], view: &IpView) -> bool
    requires { header_of packet.old ≡ Ok view.now }
    ensures answered { result ≡ is_some (echo_of packet.old view.now) }
    ensures answer { packet.new ≡ unwrap_or (echo_of packet.old view.now) packet.old }
{
    if view.version == 4 {
        echo4(packet, view)
    } else {
        echo6(packet, view)
    }
}

#[tactic(auto, unfolding(crate::specs::Echo::answer4_of))]
fn echo4(packet: &mut [u8], view: &IpView) -> bool
    requires { 20 ≤ length packet.old }
    ensures answered { result ≡ is_some (answer4_of packet.old view.now) }
    ensures answer { packet.new ≡ unwrap_or (answer4_of packet.old view.now) packet.old }
{
    if view.header != 20 {
        return false;
    }
    let (header, payload) = packet.split_at_mut(20);
    let answered = payload4(payload, view.flow.protocol);
    if answered {
        turn4(header);
    }
    answered
}

#[tactic(auto, unfolding(crate::specs::Echo::answer6_of))]
fn echo6(packet: &mut [u8], view: &IpView) -> bool
    requires fixed { 40 ≤ length packet.old }
    requires whole { length packet.old ≡ view.now.length }
    ensures answered { result ≡ is_some (answer6_of packet.old view.now) }
    ensures answer { packet.new ≡ unwrap_or (answer6_of packet.old view.now) packet.old }
{
    if view.header != 40 {
        return false;
    }
    let (header, payload) = packet.split_at_mut(40);
    let answered = payload6(header, payload, view.flow.protocol, view.length - 40);
    if answered {
        turn6(header);
    }
    answered
}

/// Makes a payload of IPv4 what is answered to it.
#[tactic(auto, unfolding(crate::specs::Echo::payload4_back))]
fn payload4(payload: &mut [u8], protocol: u8) -> bool
    ensures answered { result ≡ is_some (payload4_back protocol payload.old) }
    ensures answer { payload.new ≡ unwrap_or (payload4_back protocol payload.old) payload.old }
{
    if protocol == 17 && is_datagram(payload) {
        exchange_ports(payload);
        return true;
    }
    if protocol == 1 && is_request(payload, 8) {
        reply(payload, 0, 0);
        return true;
    }
    false
}

/// The same of so many bytes of IPv6, behind this header.
#[tactic(auto, unfolding(crate::specs::Echo::payload6_back))]
fn payload6(header: &[u8], payload: &mut [u8], protocol: u8, size: u32) -> bool
    requires fixed { length header.now ≡ 40 }
    requires whole { size ≡ length payload.old }
    ensures answered { result ≡ is_some (payload6_back header.now protocol payload.old) }
    ensures answer { payload.new ≡ unwrap_or (payload6_back header.now protocol payload.old) payload.old }
{
    if protocol == 17 && is_datagram(payload) {
        exchange_ports(payload);
        return true;
    }
    if protocol == 58 && is_request(payload, 128) {
        let before = pseudo_sum(header, size);
        reply(payload, 129, before);
        return true;
    }
    false
}

/// Whether the bytes are a UDP datagram of the length that it says.
fn is_datagram(bytes: &[u8]) -> bool
    ensures { result ≡ is_datagram bytes.now }
{
    match bytes {
        [_, _, _, _, high, low, _, _, ..] => {
            usize::from(u16::from_be_bytes([*high, *low])) == bytes.len()
        }
        _ => false,
    }
}

/// Whether the bytes are a message of ICMP of this type, with code 0.
fn is_request(bytes: &[u8], kind: u8) -> bool
    ensures { result ≡ is_request kind bytes.now }
{
    bytes.len() >= 8 && bytes[0] == kind && bytes[1] == 0
}

/// Exchanges the ports of a datagram.
fn exchange_ports(datagram: &mut [u8])
    requires { 4 ≤ length datagram.old }
    ensures { datagram.new ≡ datagram_back datagram.old }
{
    datagram.swap(0, 2);
    datagram.swap(1, 3);
}

/// Makes a request a reply of this type, with the checksum of what is summed before it, which has this sum, and the reply.
fn reply(message: &mut [u8], kind: u8, before: u16)
    requires { 8 ≤ length message.old }
    ensures { message.new ≡ with_word 2 (65535 - ones_sum_from before (unsummed kind message.old)) (unsummed kind message.old) }
{
    message[0] = kind;
    message[2] = 0;
    message[3] = 0;
    let [high, low] = (0xffff - ones_sum_from(before, message)).to_be_bytes();
    message[2] = high;
    message[3] = low;
}

/// The sum of the pseudo-header of the answer to a packet with this header, for a message of so many bytes (RFC 8200, section 8.1).
fn pseudo_sum(header: &[u8], size: u32) -> u16
    requires { length header.now ≡ 40 }
    ensures { result ≡ ones_sum (pseudo_header header.now size) }
{
    let (_, ends) = header.split_at(8);
    let (source, target) = ends.split_at(16);
    let sum = ones_sum_from(ones_sum_from(0, target), source);
    let sum = ones_sum_from(sum, &size.to_be_bytes());
    ones_sum_from(sum, &[0, 0, 0, 58])
}

/// Turns the header of a packet back to its source.
#[tactic(auto, unfolding(crate::specs::Echo::header4_back))]
fn turn4(header: &mut [u8])
    requires { length header.old ≡ 20 }
    ensures { header.new ≡ header4_back header.old }
{
    exchange(header, 12, 4);
    header[8] = HOPS;
    write_checksum(header, 20);
}

#[tactic(auto, unfolding(crate::specs::Echo::header6_back))]
fn turn6(header: &mut [u8])
    requires { length header.old ≡ 40 }
    ensures { header.new ≡ header6_back header.old }
{
    exchange(header, 8, 16);
    header[7] = HOPS;
}

/// Exchanges the two addresses of so many bytes that end a header, from a place on.
fn exchange(header: &mut [u8], at: usize, size: usize)
    requires { length header.old ≡ at + size + size }
    ensures { header.new ≡ exchanged at size header.old }
{
    let (_, ends) = header.split_at_mut(at);
    let (source, target) = ends.split_at_mut(size);
    source.swap_with_slice(target);
}
