//! Workers that rest: they have no step but for what waits in their inbox, so that they needn't be asked for one.
ghost use Rattle.std.specs.Prelude.{◌≡◌, ◌<◌, true, false, length, slice_set};
ghost use Rattle.mq_machine.specs.State as machine;
ghost use Rattle.mq_machine.specs.Turn.{WorkerOf, has_turn};
ghost use Rattle.mq_world.specs.Worlds.{IsWorld};

use crate::workers::Workers;
use mq_plain::is_quiet;

/// Whether the worker at a place rests is remembered, if there is one.
pub(crate) fn mark(rests: &mut Vec<bool>, place: usize, is_at_rest: bool)
    ensures { rests.new.items ≡ slice_set rests.old.items place is_at_rest }
{
    if let Some(slot) = rests.get_mut(place) {
        *slot = is_at_rest;
    }
}

impl Workers {
    /// Whether the worker of this number rests and its inbox is empty, so that it has no step.
    pub(crate) fn is_at_rest(&self, number: u32) -> bool
        requires stands { (s : machine.State) × IsWorld self.now s }
        requires number { number < length self.now.workers.items }
        ensures { (s : machine.State) → IsWorld self.now s → result ≡ true → has_turn s (WorkerOf number) ≡ false }
    {
        self.rests[number as usize] && !self.mail.waiting(number)
    }

    /// Looks whether the worker of this number rests.
    pub(crate) fn look(&mut self, number: u32)
        ensures { (s : machine.State) → IsWorld self.old s → IsWorld self.new s }
    {
        let place = number as usize;
        if let Some(worker) = self.workers.get(place) {
            let is_at_rest = is_quiet(worker, true);
            mark(&mut self.rests, place, is_at_rest);
        }
    }
}
