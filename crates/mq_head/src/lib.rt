//! The heads of HTTP/1.1 requests for a tunnel, and their answers.
#![tactic(auto)]

mod answers;
mod fields;
mod front;
mod laws;
mod line;
mod list;
mod place;
mod reader;
mod rules;
mod run;
mod short;
mod step;
mod target;

pub use answers::{refusal, success};
pub use front::MAX_HEAD;
pub use laws::{head_stands, head_waits, one_answer, reader_waits, refusal_stays, upgrade_stays};
pub use mq_addr::Kind;
pub use reader::HeadReader;
pub use step::HeadStep;
