// The queue, bounded or unbounded, after src/mpmc/queue.rs, src/mpmc/bounded.rs and src/mpmc/unbounded.rs of asyncband 0.7.4: its record,
// `make` and `make_u`, a method for each call, and one dispatcher over the calls.
// The meaning of a queue is the definition's (`queue_of`, specs/Meaning.antt), the promise of every call is `Turned` and that of both makes `Made`
// (specs/Promise.antt); answers have the specification's numbers by specs/Answers.antt.
#![tactic(auto)]

mod available;
mod handles;
mod incoming;
mod known;
mod moves;
mod outgoing;
mod says;
mod status;

ghost use Rattle.model.specs.Calls.{by_make, by_make_u};
ghost use Rattle.queue.specs.Meaning.{Sound};
ghost use Rattle.queue.specs.Promise.{Turned, Made};
ghost use Rattle.queue.specs.Steps.{Blank, Begun};

use model::Call;
use ring::Ring;
use says::plain;
use side::Side;
use tables::{Handles, Permits};
use wakes::Wakes;

// Only the makes and the calls give a queue, and nobody else reads or writes its fields. Their order is for speed: what calls seldom touch lies
// together and is copied in one piece. The free slots are not counted where the queue is unbounded.
// `capacity` is for the definition alone: no call reads it.
// What its parts keep, their types say. That it came from make or make-u and from calls, `Sound`, each call asks for. No ghost field can say it: it does
// not hold between the steps of a call, to which the queue is lent (a slot is taken, and its value not pushed yet).
#[derive(Clone, Copy)]
pub struct Queue {
    outs: Side,
    ins: Side,
    permits: Permits,
    receivers: Handles,
    senders: Handles,
    available: Option<u32>,
    capacity: u32,
    values: Ring,
}

// What status tells, in its order: values queued, free room, live permits, operations with a grant, senders in line, and incoming operations
// whose latest poll answered Pending.
#[derive(Clone, Copy)]
pub struct Counts {
    pub queued: u32,
    pub free: Option<u32>,
    pub permits: u32,
    pub granted: u32,
    pub lined: u32,
    pub waiting: u32,
}

// How a call succeeded.
#[derive(Clone, Copy)]
pub enum Success {
    Done,
    Discarded(u32),
    Value(u32),
    Given(u32),
    Pending,
    Status(Counts),
}

// Why it did not: the crate's own errors first, with the value that goes back, and then the refusals, which change nothing.
#[derive(Clone, Copy)]
pub enum Error {
    Full(Option<u32>),
    Empty,
    Disconnected(Option<u32>),
    BadCapacity,
    NoHandle,
    Closed,
    InUse,
    NoRoom,
    RingFull,
    WrongKind,
}

#[derive(Clone, Copy)]
pub struct Answer {
    pub what: Result<Success, Error>,
    pub wakes: Wakes,
    pub retired: Option<u32>,
}

// A call's answer, and the queue after it. Every call puts it together at its one exit, since at more exits the record would be copied more often.
#[derive(Clone, Copy)]
pub struct Turn {
    pub answer: Answer,
    pub queue: Queue,
}

impl Queue {
    pub const LARGEST: u32 = 64;

    // A queue with nothing in it, these senders and these receivers.
    fn blank(capacity: u32, available: Option<u32>, handles: Handles) -> Queue
        ensures { Blank capacity available handles result }
    {
        let side = Side::fresh();
        Queue {
            outs: side,
            ins: side,
            permits: Permits::fresh(),
            receivers: handles,
            senders: handles,
            available,
            capacity,
            values: Ring::fresh(),
        }
    }

    // A make that is not refused: sender 0 and receiver 0 are there.
    fn begun(capacity: u32, available: Option<u32>) -> Turn
        ensures { Begun capacity available result }
    {
        let first = Handles::fresh().open().next;
        Turn {
            answer: plain(Ok(Success::Done)),
            queue: Queue::blank(capacity, available, first),
        }
    }

    // A new queue with sender 0 and receiver 0, in a Turn as each call gives one. Beside a refusal stands the fixed record: no live handle, and every count nought.
    pub fn make(capacity: u32) -> Turn
        ensures { Made (by_make capacity) result.answer result.queue }
    {
        if capacity == 0 || Queue::LARGEST < capacity {
            return Turn {
                answer: plain(Err(Error::BadCapacity)),
                queue: Queue::blank(0, Some(0), Handles::fresh()),
            };
        }
        Queue::begun(capacity, Some(capacity))
    }

    // A new unbounded queue with sender 0 and receiver 0. It holds what its ring holds: 64 values.
    pub fn make_u() -> Turn
        ensures { Made by_make_u result.answer result.queue }
    {
        Queue::begun(Queue::LARGEST, None)
    }

    // Any call, by its name and numbers.
    pub fn step(self, call: Call) -> Turn
        requires { Sound self }
        ensures { Turned self call result.answer result.queue }
    {
        match call {
            Call::CloneS(s) => self.clone_s(s),
            Call::CloneR(r) => self.clone_r(r),
            Call::TrySend(s, v) => self.try_send(s, v),
            Call::TryRes(s) => self.try_res(s),
            Call::Reserve(s) => self.reserve(s),
            Call::Send(s, v) => self.send(s, v),
            Call::Recv(r) => self.recv(r),
            Call::PollOut(n, t) => self.poll_out(n, t),
            Call::CancelOut(n) => self.cancel_out(n),
            Call::PermitSend(p, v) => self.permit_send(p, v),
            Call::PermitDrop(p) => self.permit_drop(p),
            Call::TryRecv(r) => self.try_recv(r),
            Call::PollIn(n, t) => self.poll_in(n, t),
            Call::CancelIn(n) => self.cancel_in(n),
            Call::DropS(s) => self.drop_s(s),
            Call::DropR(r) => self.drop_r(r),
            Call::Status => self.status(),
        }
    }
}
