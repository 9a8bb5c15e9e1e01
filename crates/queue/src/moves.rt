// The moves that calls end with, each on the queue in place: a receiver is notified, a value is pushed, a slot comes back. After
// src/mpmc/queue.rs of asyncband 0.7.4 (State::push, State::pop, State::release, notify_one, grant_one).
ghost use Rattle.std.specs.Prelude.{◌≡◌, ◌<◌, length, OnOk, OnErr, ok_or};
ghost use Rattle.model.specs.Queue as model;
ghost use Rattle.queue.specs.declared.Error.TheVariants.{NoRoom};
ghost use Rattle.queue.specs.Meaning.{queue_of};
ghost use Rattle.queue.specs.Steps.{Small, Moves, popped};

use crate::available::more;
use crate::{Error, Queue};
use side::Woken;
use tables::{Numbered, Opened};

// A record was opened in a table: its number, and the table with it; or no place was left.
pub(crate) fn taken<T: Copy>(table: &mut T, opened: Opened<T>) -> Result<u32, Error>
    ensures number { result ≡ ok_or opened.number NoRoom }
    ensures given { OnOk result (table.new ≡ opened.next) }
    ensures full { OnErr result (table.new ≡ table.old) }
{
    let number = opened.number.ok_or(Error::NoRoom)?;
    *table = opened.next;
    Ok(number)
}

impl Queue {
    // The first receiver in line, if any, is notified. Where nobody waits the side is not even copied.
    pub(crate) fn notify(&mut self) -> Option<Woken>
        ensures { Moves (model.notify (queue_of self.old)) self.new result }
    {
        if self.ins.line_is_empty() {
            return None;
        }
        let called = self.ins.call_first();
        self.ins = called.side;
        called.woken
    }

    // A value goes to the end, and a receiver is notified.
    pub(crate) fn push(&mut self, value: u32) -> Option<Woken>
        requires { length (queue_of self.old).values < 64 }
        ensures { Moves (model.push value (queue_of self.old)) self.new result }
    {
        self.values = self.values.push_back(value);
        self.notify()
    }

    // A slot comes back: to the first sender in line, else to the free ones; after the last receiver to nobody. That one more free slot fits is asked
    // for, since between the steps of a call only the call knows it.
    pub(crate) fn release(&mut self) -> Option<Woken>
        requires { Small self.old.available }
        ensures { Moves (model.release (queue_of self.old)) self.new result }
    {
        if self.receivers.count() == 0 {
            return None;
        }
        if self.outs.line_is_empty() {
            self.available = more(self.available);
            return None;
        }
        let called = self.outs.call_first();
        self.outs = called.side;
        called.woken
    }

    // The first value goes, and its slot comes back.
    pub(crate) fn pop(&mut self) -> Option<Woken>
        requires { Small self.old.available }
        ensures { Moves (popped (queue_of self.old)) self.new result }
    {
        let popped = self.values.pop_front();
        self.values = popped.next;
        self.release()
    }
}
