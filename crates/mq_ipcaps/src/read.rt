//! Reading the values.
ghost use Rattle.std.specs.Prelude.{◌≡◌};
ghost use Rattle.mq_ipcaps.specs.Reading.{Reads, assign_of, request_of, routes_of};

use super::fault::CapsFault;
use super::item::items;
use mq_addr::{Asked, Given, Range};
use mq_wire::Seq;
use std::alloc::Global;

/// The entries of an ADDRESS_REQUEST, of which there is at least one.
#[tactic(auto, unfolding(crate::specs::Reading::request_of))]
pub fn read_request(alloc: Global, value: &[u8]) -> Result<Seq<Asked>, CapsFault>
    ensures { Reads (λ list. list) result (request_of value.now) }
{
    let list = items(alloc, value)?;
    if list.is_empty() {
        return Err(CapsFault::Empty);
    }
    Ok(Seq::from_vec(list))
}

/// The entries of an ADDRESS_ASSIGN.
#[tactic(auto, unfolding(crate::specs::Reading::assign_of))]
pub fn read_assign(alloc: Global, value: &[u8]) -> Result<Seq<Given>, CapsFault>
    ensures { Reads (λ list. list) result (assign_of value.now) }
{
    Ok(Seq::from_vec(items(alloc, value)?))
}

/// The ranges of a ROUTE_ADVERTISEMENT, which are in order.
#[tactic(auto, unfolding(crate::specs::Reading::routes_of))]
pub fn read_routes(alloc: Global, value: &[u8]) -> Result<Seq<Range>, CapsFault>
    ensures { Reads (λ list. list) result (routes_of value.now) }
{
    Ok(Seq::from_vec(items(alloc, value)?))
}
