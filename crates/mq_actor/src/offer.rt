//! A link that was offered to a worker.

/// A link that was offered, with the number of the connection that it is to be.
#[derive(Drop)]
pub struct Offer<L> {
    pub number: u32,
    pub link: L,
}
