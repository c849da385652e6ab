//! The numbers of payloads.
ghost use Rattle.std.specs.Prelude.{◌≡◌, ◌+◌, IfOk, if◌then◌else◌};
ghost use Rattle.mq_machine.specs.Reading.{is_payload};

use mq_capsule::Item;
use mq_wire::NoMemory;

/// Whether an item is a payload, which has a number.
fn is_payload(item: &Item) -> bool
    ensures { result ≡ is_payload item.now }
{
    match item {
        Item::Datagram { .. } => true,
        Item::TooLongDatagram { .. } => true,
        Item::Control { .. } => false,
        Item::Bad { .. } => false,
    }
}

/// The number of the next payload behind an item, where `n` is that of the next before it. An `Err` where no number is left.
pub fn next_number(n: u64, item: &Item) -> Result<u64, NoMemory>
    ensures { IfOk result (λ next. next ≡ n + (if is_payload item.now then 1 else 0)) }
{
    if is_payload(item) {
        let next = n.checked_add(1).ok_or(NoMemory)?;
        Ok(next)
    } else {
        Ok(n)
    }
}
