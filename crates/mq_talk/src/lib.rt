//! The words that the core, the book and the printed lines share.
#![tactic(auto)]

mod book;
mod goal;
mod mail;
mod note;
mod office;
mod place;

pub use book::{Call, Config, Entry, Reply};
pub use goal::Goal;
pub use mail::Mail;
pub use mq_addr::{Asked, Flow, Given, Kind, Prefix, Range};
pub use note::{End, From, Note, Why};
pub use office::Office;
pub use place::{Cause, Judged, Origin, Parcel, Place, Pushed, Verdict};
