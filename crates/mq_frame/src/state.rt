//! What a reader keeps of a frame that isn't whole.
use super::header::Header;
use arrayvec::ArrayVec;

/// What was read of the frame that comes next.
#[derive(Drop)]
pub enum State {
    /// Fewer bytes than a header has.
    Head {
        bytes: ArrayVec<u8, 9>,
    },
    /// A header, and some bytes of the contents. So many are missing.
    Contents {
        header: Header,
        bytes: Vec<u8>,
        missing: usize,
    },
    /// A header whose contents are read past. So many of their bytes are missing.
    Skip {
        header: Header,
        missing: usize,
    },
    /// Memory ran out. Nothing is read any more.
    Spent,
}
