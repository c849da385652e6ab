//! What was said of a link.

/// What was said of a link: to which worker it was offered, and whether its end was said.
#[derive(Clone, Copy, Debug, PartialEq, Eq)]
pub struct Told {
    pub worker: u32,
    pub is_ended: bool,
}
