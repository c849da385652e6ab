//! URI templates for the targets of tunnels, matched and expanded (RFC 6570; RFC 9298, section 2; RFC 9484, section 3).
#![tactic(auto)]

mod classes;
mod escape;
mod expansion;
mod fault;
mod form;
mod judge;
mod laws;
mod name;
mod outline;
mod shape;
mod split;
mod target;
mod template;
mod values;

pub use fault::TemplateFault;
pub use laws::{expanded_again, one_host, one_reading, one_template, values_are_escaped};
pub use mq_addr::Kind;
pub use name::Name;
pub use target::{Area, Host, Matched, Target};
pub use template::Template;
pub use values::host_of;
