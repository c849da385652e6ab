//! A link: the bytes of one connection, both ways.
ghost use Rattle.std.specs.Prelude.{◌≡◌, ◌<◌, length, Option};
ghost use Rattle.mq_outside.specs.Counts.{LinkCounts};
ghost use Rattle.mq_outside.specs.Links.{LinkHolds, LinkPast, LinkReads, GivesSome, after_read, past_read, LinkWrites, LinkTakesSome, after_write, past_written};

use crate::{LinkGot, LinkPut};

/// The bytes of one connection, both ways.
pub trait Link: Drop {
    /// What is left of a link that was closed.
    type Rest: Drop;

    /// What it holds, where it tells that: then each answer is a function of it.
    ghost holds: { Self → Option LinkHolds };
    /// What it gave and took, where it tells that.
    ghost past: { Self → LinkPast };
    /// How often its calls waited and failed.
    ghost counts: { Self → LinkCounts };
    /// What a closed link gave and took.
    ghost rest_past: { Self.Rest → LinkPast };
    /// How often the calls of a closed link waited and failed.
    ghost rest_counts: { Self.Rest → LinkCounts };

    /// Reads some bytes of one piece to the front of a buffer.
    fn read(&mut self, into: &mut [u8]) -> LinkGot
        requires { 0 < length into.old }
        ensures some { GivesSome into.new result }
        ensures reads { LinkReads (holds self.old) (holds self.new) into.new result }
        ensures past { past self.new ≡ past_read (past self.old) into.new result }
        ensures counts { counts self.new ≡ after_read (counts self.old) result };

    /// Takes some bytes from the front.
    fn write(&mut self, bytes: &[u8]) -> LinkPut
        requires { 0 < length bytes.now }
        ensures some { LinkTakesSome bytes.now result }
        ensures writes { LinkWrites (holds self.old) (holds self.new) bytes.now result }
        ensures past { past self.new ≡ past_written (past self.old) bytes.now result }
        ensures counts { counts self.new ≡ after_write (counts self.old) result };

    /// Ends the link.
    fn close(self) -> Self::Rest
        ensures past { rest_past result ≡ past self }
        ensures counts { rest_counts result ≡ counts self };
}
