//! The core of a tunnel for IP packets (RFC 9484): what each item of its data stream asks for, and the control capsule that
//! answers a reply of the book.
#![tactic(auto)]

mod act;
mod answer;
mod asked;
mod item;
mod laws;
mod number;
mod packet;
mod tunnel;
mod value;

pub use act::IpAct;
pub use answer::{assign_capsule, control_capsule, routes_capsule};
pub use item::item_act;
pub use laws::answers_can_be_told;
pub use number::next_number;
pub use tunnel::IpTunnel;
