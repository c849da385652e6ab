//! The core of a client that asks a proxy for a tunnel for UDP (RFC 9298): fed bytes, and asked what it owes.
#![tactic(auto)]

mod answer;
mod asking;
mod block;
mod client;
mod codes;
mod data;
mod event;
mod frames;
mod framing;
mod front;
mod headers;
mod http1;
mod http2;
mod laws;
mod parts;
mod payload;
mod queue;
mod reading;
mod request;
mod sending;
mod settings;
mod stage;
mod status;
mod telling;

pub use client::Client;
pub use event::ClientEvent;
pub use laws::{
    data_is_within_its_windows, nothing_follows, reads_in_any_cutting, told_once,
    what_is_put_is_framed, what_is_told_is_the_data_stream,
};
