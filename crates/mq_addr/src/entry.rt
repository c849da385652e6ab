//! Entries of address requests and assignments (RFC 9484, sections 4.7.1 and 4.7.2).

use crate::Prefix;

/// A block that a client asks for, with its Request ID. The all-zero address asks for any block of that length.
#[derive(Clone, Copy, Debug, PartialEq, Eq)]
pub struct Asked {
    pub id: u64,
    pub block: Prefix,
}

/// A block that is assigned, with the Request ID that it answers.
#[derive(Clone, Copy, Debug, PartialEq, Eq)]
pub struct Given {
    pub id: u64,
    pub block: Prefix,
}
