//! Whether the values of a path are well-formed, and which target they are.
ghost use Rattle.std.specs.Prelude.{◌≡◌, IfOk};
ghost use Rattle.std.specs.Cow.{cow_slice_items};
ghost use Rattle.mq_addr.specs.declared.kind.Kind.TheVariants.{Udp, Ip};
ghost use Rattle.mq_target.specs.Judged.{IsJudged};
ghost use Rattle.percent_encoding.specs.Percent.{percent_decode};

use crate::values::{area_of, host_of, port_of, protocol_of};
use crate::{Matched, Target};
use mq_addr::Kind;
use mq_wire::NoMemory;
use percent_encoding::percent_decode;
use std::alloc::Global;
use std::borrow::CowSlice;

/// What the values of the two variables are, percent-decoded once.
pub fn judged(alloc: Global, kind: Kind, target: &[u8], detail: &[u8]) -> Result<Matched, NoMemory>
    ensures { IfOk result (λ found. IsJudged kind (percent_decode target.now) (percent_decode detail.now) found) }
{
    let target = percent_decode(target).into_cow(alloc)?;
    let detail = percent_decode(detail).into_cow(alloc)?;
    match kind {
        Kind::Udp => judged_udp(alloc, decoded(&target), decoded(&detail)),
        Kind::Ip => judged_ip(alloc, decoded(&target), decoded(&detail)),
    }
}

/// The decoded bytes.
fn decoded<'a>(value: &'a CowSlice<'a, u8, Global>) -> &'a [u8]
    ensures { result.now ≡ cow_slice_items value.now }
{
    match value {
        CowSlice::Borrowed(bytes) => bytes,
        CowSlice::Owned(bytes) => bytes.as_slice(),
    }
}

fn judged_udp(alloc: Global, host: &[u8], port: &[u8]) -> Result<Matched, NoMemory>
    ensures { IfOk result (λ found. IsJudged Udp host.now port.now found) }
{
    match port_of(port) {
        None => Ok(Matched::Bad),
        Some(port) => match host_of(alloc, host)? {
            None => Ok(Matched::Bad),
            Some(host) => Ok(Matched::Yes(Target::Udp { host, port })),
        },
    }
}

fn judged_ip(alloc: Global, area: &[u8], protocol: &[u8]) -> Result<Matched, NoMemory>
    ensures { IfOk result (λ found. IsJudged Ip area.now protocol.now found) }
{
    match protocol_of(protocol) {
        None => Ok(Matched::Bad),
        Some(protocol) => match area_of(alloc, area)? {
            None => Ok(Matched::Bad),
            Some(area) => Ok(Matched::Yes(Target::Ip { area, protocol })),
        },
    }
}
