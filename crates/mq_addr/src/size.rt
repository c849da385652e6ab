//! Addresses have their types' sizes.
ghost use Rattle.mq_addr.specs.Printed.{Fits};

use crate::Addr;

/// The number of an address is one of 32 or of 128 bits.
pub fn has_its_size(addr: &Addr)
    ensures { Fits addr.now }
{
    match addr {
        Addr::V4(bits) => {
            let _bits = *bits;
        }
        Addr::V6(bits) => {
            let _bits = *bits;
        }
    }
}
