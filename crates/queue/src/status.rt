// The counts of a queue: the call status, which asyncband has not.
ghost use Rattle.std.specs.Prelude.{◌≡◌, length};
ghost use Rattle.model.specs.declared.Call.TheVariants.{Status};
ghost use Rattle.queue.specs.Meaning.{queue_of, Sound};
ghost use Rattle.queue.specs.Promise.{Turned};
ghost use Rattle.queue.specs.Steps.{Counted};

use crate::says::plain;
use crate::{Counts, Queue, Success, Turn};
use tables::Numbered;

impl Queue {
    // How many values are queued: never more than the ring holds, so that the cast keeps the number.
    #[tactic(auto, using(crate::proofs::Handing::values_fit))]
    pub(crate) fn queued(self) -> u32
        ensures { result ≡ length (queue_of self).values }
    {
        self.values.len() as u32
    }

    fn counts(self) -> Counts
        ensures { Counted self result }
    {
        Counts {
            queued: self.queued(),
            free: self.available,
            permits: self.permits.count(),
            granted: self.outs.called(),
            lined: self.outs.in_line(),
            waiting: self.ins.polled(),
        }
    }

    #[tactic(auto, using(crate::proofs::Settled::does), unfolding(model::specs::Calls::step, model::specs::Calls::status))]
    pub fn status(self) -> Turn
        requires { Sound self }
        ensures { Turned self Status result.answer result.queue }
    {
        Turn {
            answer: plain(Ok(Success::Status(self.counts()))),
            queue: self,
        }
    }
}
