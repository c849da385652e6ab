//! An actor's way to the book.
ghost use Rattle.std.specs.Prelude.{◌≡◌, ℕ, IsOk};
ghost use Rattle.mq_talk.specs.declared.book.Call.TheVariants.{Close};
ghost use Rattle.mq_talk.specs.Answers.{MayCall};
ghost use Rattle.mq_talk.specs.Offices.{Seen, IsSound, CallGives, MayJudge, JudgeGives};

use crate::book::{Call, Reply};
use crate::place::{Judged, Origin};
use mq_addr::Flow;
use mq_wire::NoMemory;

/// An actor's way to the book, which other actors may write to between its calls.
pub trait Office {
    /// Whose it is, and what it has seen of the history.
    ghost seen: { Self → Seen };

    /// Asks the book. It answers by all entries before this one, and what was asked and answered is the last entry then,
    /// unless the history has no place. A close always has its place, and takes no memory.
    fn call(&mut self, call: Call) -> Result<Reply, NoMemory>
        requires { MayCall (seen self.old).config (seen self.old).entries (seen self.old).actor call }
        ensures gives { CallGives (seen self.old).actor (seen self.old) call result (seen self.new) }
        ensures close { (tunnel : ℕ) → call ≡ Close tunnel → IsOk result }
        ensures sound { IsSound (seen self.old) → IsSound (seen self.new) }
        ensures actor { (seen self.new).actor ≡ (seen self.old).actor };

    /// Whether a packet with this flow may go on, and where (RFC 9484, section 4.7). Takes no memory.
    fn judge(&mut self, origin: Origin, flow: &Flow) -> Judged
        requires { MayJudge (seen self.old) (seen self.old).actor origin }
        ensures gives { JudgeGives (seen self.old) origin flow.now result (seen self.new) }
        ensures sound { IsSound (seen self.old) → IsSound (seen self.new) }
        ensures actor { (seen self.new).actor ≡ (seen self.old).actor };
}
