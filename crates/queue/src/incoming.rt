// What receivers do: try-recv and the operation recv. After src/mpmc/queue.rs of asyncband 0.7.4 (State::pop, Recv).
ghost use Rattle.std.specs.Prelude.{◌≡◌, Ok};
ghost use Rattle.side.specs.Meaning.{stage_of};
ghost use Rattle.model.specs.Calls.{step};
ghost use Rattle.model.specs.declared.Call.TheVariants.{Recv, TryRecv, PollIn, CancelIn};
ghost use Rattle.queue.specs.Meaning.{queue_of, Sound};
ghost use Rattle.queue.specs.Promise.{Turned};
ghost use Rattle.queue.specs.Steps.{takable, receivable, passes, Finds, Does, Gives};

use crate::known::{live, open_operation};
use crate::moves::taken;
use crate::says::{done, given, plain, say};
use crate::{Answer, Error, Queue, Success, Turn};
use side::{Entry, Stage};
use tables::Numbered;

impl Queue {
    // A recv is opened: its number.
    #[tactic(auto, unfolding(model::specs::Calls::step, model::specs::Calls::open_in))]
    fn open_in(&mut self, r: u32) -> Result<u32, Error>
        ensures { Gives (step (Recv r) (queue_of self.old)) self.old result self.new }
    {
        live(self.receivers, r)?;
        let opened = self.ins.open(r, None);
        taken(&mut self.ins, opened)
    }

    pub fn recv(mut self, r: u32) -> Turn
        requires { Sound self }
        ensures { Turned self (Recv r) result.answer result.queue }
    {
        let number = self.open_in(r);
        Turn {
            answer: given(number),
            queue: self,
        }
    }

    // The first value, if one is queued; or that none will ever come.
    #[tactic(auto, unfolding(ring::specs::Values::first))]
    fn takable(self) -> Result<Option<u32>, Error>
        ensures { result ≡ takable (queue_of self) }
    {
        let Some(value) = self.values.pop_front().front else {
            if self.senders.count() == 0 {
                return Err(Error::Disconnected(None));
            }
            return Ok(None);
        };
        Ok(Some(value))
    }

    // What a try-recv of this receiver takes.
    fn receivable(self, r: u32) -> Result<u32, Error>
        ensures { result ≡ receivable r (queue_of self) }
    {
        live(self.receivers, r)?;
        self.takable()?.ok_or(Error::Empty)
    }

    #[tactic(auto, using(crate::proofs::Settled::free_small))]
    pub fn try_recv(mut self, r: u32) -> Turn
        requires { Sound self }
        ensures { Turned self (TryRecv r) result.answer result.queue }
    {
        let answer = match self.receivable(r) {
            Err(error) => plain(Err(error)),
            Ok(value) => say(Ok(Success::Value(value)), self.pop(), None),
        };
        Turn {
            answer,
            queue: self,
        }
    }

    // An open operation is polled. Where there is a value, or none will ever come, it ends, and the token that it kept goes back.
    #[tactic(auto, using(crate::proofs::Settled::free_small))]
    fn polled_in(&mut self, n: u32, token: u32, op: Entry) -> Answer
        requires sound { Sound self.old }
        requires open { Finds self.old.ins n (Ok op) }
        ensures { Does (step (PollIn n token) (queue_of self.old)) self.old result self.new }
    {
        match self.takable() {
            Err(error) => {
                self.ins = self.ins.end(n);
                say(Err(error), None, op.stage.kept())
            }
            Ok(None) => {
                let pended = self.ins.pend(n, token);
                self.ins = pended.side;
                say(Ok(Success::Pending), None, pended.retired)
            }
            Ok(Some(value)) => {
                self.ins = self.ins.end(n);
                say(Ok(Success::Value(value)), self.pop(), op.stage.kept())
            }
        }
    }

    #[tactic(auto, using(crate::proofs::Settled::does), unfolding(model::specs::Calls::step, model::specs::Calls::poll_in))]
    pub fn poll_in(mut self, n: u32, token: u32) -> Turn
        requires { Sound self }
        ensures { Turned self (PollIn n token) result.answer result.queue }
    {
        let answer = match open_operation(self.ins, n) {
            Err(error) => plain(Err(error)),
            Ok(op) => self.polled_in(n, token, op),
        };
        Turn {
            answer,
            queue: self,
        }
    }

    // Does a cancelled operation at this stage pass its notice on? While a sender is left and a value is queued.
    fn passes_on(self, stage: Stage) -> bool
        ensures { result ≡ passes (stage_of stage) (queue_of self) }
    {
        stage.is_called() && self.senders.count() != 0 && 0 < self.values.len()
    }

    #[tactic(auto, using(crate::proofs::Settled::does), unfolding(model::specs::Calls::step, model::specs::Calls::cancel_in))]
    pub fn cancel_in(mut self, n: u32) -> Turn
        requires { Sound self }
        ensures { Turned self (CancelIn n) result.answer result.queue }
    {
        let answer = match open_operation(self.ins, n) {
            Err(error) => plain(Err(error)),
            Ok(op) => {
                self.ins = self.ins.end(n);
                if self.passes_on(op.stage) {
                    done(self.notify())
                } else {
                    say(Ok(Success::Done), None, op.stage.kept())
                }
            }
        };
        Turn {
            answer,
            queue: self,
        }
    }
}
