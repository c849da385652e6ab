//! What the value of a control capsule asks for (RFC 9484, section 4.7).
ghost use Rattle.std.specs.Prelude.{◌≡◌, List, Result, [], ◌∷◌, IfOk};
ghost use Rattle.mq_ipcaps.specs.declared.fault.CapsFault.{CapsFault as Fault};
ghost use Rattle.mq_ipcaps.specs.Reading.{Reads};
ghost use Rattle.mq_machine.specs.declared.act.StreamAct.TheVariants as stream;
ghost use Rattle.mq_machine.specs.Reading.{some_or_malformed, value_acts};
ghost use Rattle.mq_machine.specs.Words.{assigned_of, asked_of, ranges_of, unless_faulty};
ghost use Rattle.mq_iptun.specs.Acts.{stream_acts, MayItem};

use super::asked::ItemAct;
use mq_ipcaps::{CapsFault, is_written_again, read_assign, read_request, read_routes};
use mq_wire::{NoMemory, Seq};
use std::alloc::Global;

/// The type of the capsule ADDRESS_ASSIGN.
const ASSIGN: u64 = 1;

/// The type of the capsule ADDRESS_REQUEST.
const REQUEST: u64 = 2;

/// What was read, or nothing where the value is malformed.
fn well_formed<T: Drop>(read: Result<Seq<T>, CapsFault>) -> Result<Option<Seq<T>>, NoMemory>
    ensures { (value : Result (List T) Fault) → Reads (λ list. list) read value → IfOk result (λ list. list ≡ unless_faulty value) }
{
    match read {
        Ok(list) => Ok(Some(list)),
        Err(CapsFault::NoMemory) => Err(NoMemory),
        Err(_) => Ok(None),
    }
}

/// What an ADDRESS_ASSIGN asks for: nothing, since the proxy takes no addresses of a client (section 4.7.1).
fn assign_act(alloc: Global, value: &[u8]) -> Result<ItemAct, NoMemory>
    ensures is { IfOk result (λ act. stream_acts act ≡ some_or_malformed (λ _. []) (assigned_of value.now)) }
    ensures limits { IfOk result MayItem }
{
    match well_formed(read_assign(alloc, value))? {
        Some(_) => Ok(ItemAct::Nothing),
        None => Ok(ItemAct::Malformed),
    }
}

/// What an ADDRESS_REQUEST asks for (section 4.7.2).
fn request_act(alloc: Global, value: &[u8]) -> Result<ItemAct, NoMemory>
    ensures is { IfOk result (λ act. stream_acts act ≡ some_or_malformed (λ asked. stream.Assign asked ∷ []) (asked_of value.now)) }
    ensures limits { IfOk result MayItem }
{
    is_written_again();
    match well_formed(read_request(alloc, value))? {
        Some(asked) => Ok(ItemAct::Assign { asked }),
        None => Ok(ItemAct::Malformed),
    }
}

/// What a ROUTE_ADVERTISEMENT asks for (section 4.7.3).
fn routes_act(alloc: Global, value: &[u8]) -> Result<ItemAct, NoMemory>
    ensures is { IfOk result (λ act. stream_acts act ≡ some_or_malformed (λ ranges. stream.Advertise ranges ∷ []) (ranges_of value.now)) }
    ensures limits { IfOk result MayItem }
{
    is_written_again();
    match well_formed(read_routes(alloc, value))? {
        Some(ranges) => Ok(ItemAct::Advertise { ranges }),
        None => Ok(ItemAct::Malformed),
    }
}

/// What the value of a control capsule of this type asks for.
pub fn value_act(alloc: Global, kind: u64, value: &[u8]) -> Result<ItemAct, NoMemory>
    ensures is { IfOk result (λ act. stream_acts act ≡ value_acts kind value.now) }
    ensures limits { IfOk result MayItem }
{
    if kind == ASSIGN {
        assign_act(alloc, value)
    } else if kind == REQUEST {
        request_act(alloc, value)
    } else {
        routes_act(alloc, value)
    }
}
