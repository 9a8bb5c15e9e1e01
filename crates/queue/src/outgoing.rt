// What senders do: try-send, permits, and the operations reserve and send. After src/mpmc/queue.rs of asyncband 0.7.4 (State::acquire,
// State::push, Reserve, Permit).
ghost use Rattle.std.specs.Prelude.{◌≡◌, ◌<◌, Ok, length};
ghost use Rattle.side.specs.Meaning.{stage_of};
ghost use Rattle.model.specs.Queue as model;
ghost use Rattle.model.specs.Calls.{step};
ghost use Rattle.model.specs.declared.Call.TheVariants.{TrySend, TryRes, Reserve, Send, PollOut, CancelOut, PermitSend, PermitDrop};
ghost use Rattle.queue.specs.Meaning.{room_of, queue_of, Sound};
ghost use Rattle.queue.specs.Promise.{Turned};
ghost use Rattle.queue.specs.Steps.{Small, opening, ready, counted, sendable, completed, cancelled, Finds, Does, Gives, GivesPermit};

use crate::available::{is_full, less};
use crate::known::{live, open_operation};
use crate::moves::taken;
use crate::says::{done, given, plain, say};
use crate::{Answer, Error, Queue, Success, Turn};
use ring::Ring;
use side::{Entry, Stage};
use tables::Numbered;

// May an operation at this stage take a free slot? Not one that waits in line.
fn is_ready(stage: Stage, available: Option<u32>) -> bool
    ensures { result ≡ ready (stage_of stage) (room_of available) }
{
    !matches!(stage, Stage::Waiting(_)) && !is_full(available)
}

impl Queue {
    // Does an unbounded queue hold all that its ring holds?
    fn ring_is_full(self) -> bool
        ensures { result ≡ model.ring_full (queue_of self) }
    {
        self.available.is_none() && Ring::LIMIT <= self.values.len()
    }

    // Does a value or a permit of this sender find a slot? `cargo` is what goes back where it does not.
    #[tactic(auto, unfolding(crate::specs::Steps::sendable))]
    fn sendable(self, s: u32, cargo: Option<u32>) -> Result<(), Error>
        ensures { result ≡ sendable cargo s (queue_of self) }
    {
        live(self.senders, s)?;
        if self.receivers.count() == 0 {
            return Err(Error::Disconnected(cargo));
        }
        if is_full(self.available) {
            return Err(Error::Full(cargo));
        }
        if self.ring_is_full() {
            return Err(Error::RingFull);
        }
        Ok(())
    }

    // Is it a live sender of a queue that counts its slots? On an unbounded one nothing is reserved, and no sender waits.
    #[tactic(auto, unfolding(crate::specs::Steps::counted))]
    fn counted(self, s: u32) -> Result<(), Error>
        ensures { result ≡ counted s (queue_of self) }
    {
        live(self.senders, s)?;
        if self.available.is_none() {
            return Err(Error::WrongKind);
        }
        Ok(())
    }

    pub fn try_send(mut self, s: u32, v: u32) -> Turn
        requires { Sound self }
        ensures { Turned self (TrySend s v) result.answer result.queue }
    {
        let answer = match self.sendable(s, Some(v)) {
            Err(error) => plain(Err(error)),
            Ok(()) => {
                self.available = less(self.available);
                done(self.push(v))
            }
        };
        Turn {
            answer,
            queue: self,
        }
    }

    // A permit of this sender: its number, if one is left. Only then is a slot taken, which leaves these.
    fn give_permit(&mut self, owner: u32, available: Option<u32>) -> Result<u32, Error>
        ensures { GivesPermit self.old owner available result self.new }
    {
        let opened = self.permits.open(owner);
        let number = taken(&mut self.permits, opened)?;
        self.available = available;
        Ok(number)
    }

    // A permit at once: its number.
    #[tactic(auto, unfolding(model::specs::Calls::step, model::specs::Calls::try_res, crate::specs::Steps::sendable, crate::specs::Steps::counted))]
    fn reserved(&mut self, s: u32) -> Result<u32, Error>
        ensures { Gives (step (TryRes s) (queue_of self.old)) self.old result self.new }
    {
        self.counted(s)?;
        self.sendable(s, None)?;
        let left = less(self.available);
        self.give_permit(s, left)
    }

    pub fn try_res(mut self, s: u32) -> Turn
        requires { Sound self }
        ensures { Turned self (TryRes s) result.answer result.queue }
    {
        let number = self.reserved(s);
        Turn {
            answer: given(number),
            queue: self,
        }
    }

    // A reserve or a send is opened, by what it carries: its number.
    #[tactic(auto, unfolding(model::specs::Calls::step, model::specs::Calls::open_out, crate::specs::Steps::counted))]
    fn open_out(&mut self, s: u32, cargo: Option<u32>) -> Result<u32, Error>
        ensures { Gives (step (opening cargo s) (queue_of self.old)) self.old result self.new }
    {
        self.counted(s)?;
        let opened = self.outs.open(s, cargo);
        taken(&mut self.outs, opened)
    }

    pub fn reserve(mut self, s: u32) -> Turn
        requires { Sound self }
        ensures { Turned self (Reserve s) result.answer result.queue }
    {
        let number = self.open_out(s, None);
        Turn {
            answer: given(number),
            queue: self,
        }
    }

    pub fn send(mut self, s: u32, v: u32) -> Turn
        requires { Sound self }
        ensures { Turned self (Send s v) result.answer result.queue }
    {
        let number = self.open_out(s, Some(v));
        Turn {
            answer: given(number),
            queue: self,
        }
    }

    // An open operation has its slot, and these stay free: a reserve ends with a permit, a send with a push. Where no number is left for a
    // permit, everything stays as it is.
    fn complete(&mut self, n: u32, op: Entry, available: Option<u32>) -> Answer
        requires open { Finds self.old.outs n (Ok op) }
        requires room { length (queue_of self.old).values < 64 }
        ensures { Does (completed n op.cargo op.owner available (queue_of self.old)) self.old result self.new }
    {
        let Some(value) = op.cargo else {
            let number = self.give_permit(op.owner, available);
            if number.is_ok() {
                self.outs = self.outs.end(n);
            }
            return given(number);
        };
        self.outs = self.outs.end(n);
        self.available = available;
        done(self.push(value))
    }

    // An open operation is polled: it is told that nobody is left to receive, has its grant or takes a free slot, or stays pending.
    #[tactic(auto, unfolding(model::specs::Calls::step, model::specs::Calls::poll_out))]
    fn polled_out(&mut self, n: u32, token: u32, op: Entry) -> Answer
        requires sound { Sound self.old }
        requires open { Finds self.old.outs n (Ok op) }
        ensures { Does (step (PollOut n token) (queue_of self.old)) self.old result self.new }
    {
        if self.receivers.count() == 0 {
            self.outs = self.outs.end(n);
            return plain(Err(Error::Disconnected(op.cargo)));
        }
        let available = self.available;
        if op.stage.is_called() {
            return self.complete(n, op, available);
        }
        if is_ready(op.stage, available) {
            return self.complete(n, op, less(available));
        }
        let pended = self.outs.pend(n, token);
        self.outs = pended.side;
        say(Ok(Success::Pending), None, pended.retired)
    }

    #[tactic(auto, using(crate::proofs::Settled::does), unfolding(model::specs::Calls::step, model::specs::Calls::poll_out))]
    pub fn poll_out(mut self, n: u32, token: u32) -> Turn
        requires { Sound self }
        ensures { Turned self (PollOut n token) result.answer result.queue }
    {
        let answer = match open_operation(self.outs, n) {
            Err(error) => plain(Err(error)),
            Ok(op) => self.polled_out(n, token, op),
        };
        Turn {
            answer,
            queue: self,
        }
    }

    // An operation that was at this stage is cancelled: a slot that it was granted comes back, and a token that it kept goes back.
    fn cancelled(&mut self, stage: Stage) -> Answer
        requires { Small self.old.available }
        ensures { Does (cancelled (stage_of stage) (queue_of self.old)) self.old result self.new }
    {
        if stage.is_called() {
            return done(self.release());
        }
        say(Ok(Success::Done), None, stage.kept())
    }

    #[tactic(auto, using(crate::proofs::Settled::does, crate::proofs::Settled::free_small), unfolding(model::specs::Calls::step, model::specs::Calls::cancel_out))]
    pub fn cancel_out(mut self, n: u32) -> Turn
        requires { Sound self }
        ensures { Turned self (CancelOut n) result.answer result.queue }
    {
        let answer = match open_operation(self.outs, n) {
            Err(error) => plain(Err(error)),
            Ok(op) => {
                self.outs = self.outs.end(n);
                self.cancelled(op.stage)
            }
        };
        Turn {
            answer,
            queue: self,
        }
    }

    #[tactic(auto, using(crate::proofs::Settled::does), unfolding(model::specs::Calls::step, model::specs::Calls::permit_send))]
    pub fn permit_send(mut self, p: u32, v: u32) -> Turn
        requires { Sound self }
        ensures { Turned self (PermitSend p v) result.answer result.queue }
    {
        let answer = match live(self.permits, p) {
            Err(error) => plain(Err(error)),
            Ok(()) => {
                self.permits = self.permits.close(p);
                if self.receivers.count() == 0 {
                    plain(Err(Error::Disconnected(Some(v))))
                } else {
                    done(self.push(v))
                }
            }
        };
        Turn {
            answer,
            queue: self,
        }
    }

    #[tactic(auto, using(crate::proofs::Settled::does, crate::proofs::Settled::free_small), unfolding(model::specs::Calls::step, model::specs::Calls::permit_drop))]
    pub fn permit_drop(mut self, p: u32) -> Turn
        requires { Sound self }
        ensures { Turned self (PermitDrop p) result.answer result.queue }
    {
        let answer = match live(self.permits, p) {
            Err(error) => plain(Err(error)),
            Ok(()) => {
                self.permits = self.permits.close(p);
                done(self.release())
            }
        };
        Turn {
            answer,
            queue: self,
        }
    }
}
