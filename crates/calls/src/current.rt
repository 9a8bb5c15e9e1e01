// The queue that the lines speak to, and what a line does to it.
ghost use Rattle.std.specs.Prelude.{◌≡◌, None, IfSome};
ghost use Rattle.std.specs.Option.{option_map};
ghost use Rattle.lines.specs.declared.Line.TheVariants as Line;
ghost use Rattle.queue.specs.Meaning.{queue_of, Sound};
ghost use Rattle.calls.specs.Model.{Held, Steps};

use crate::answers::{Reply, code};
use lines::Line;
use queue::{Error, Queue};
use std::marker::Model;

// The code of a line that cannot be read: no queue gives it.
const BAD_LINE: u32 = 24;

// Before the first good make there is none.
#[derive(Drop)]
pub struct Current {
    queue: Option<Queue>,
}

impl Model for Current {
    ghost Value = { Held };

    ghost view = { λ k. option_map queue_of k.queue };

    ghost invariant = { λ k. IfSome k.queue Sound };
}

impl Current {
    // Before the first good make.
    pub(crate) fn nothing() -> Current
        ensures { result ≡ None }
    {
        Current { queue: None }
    }

    // What a line does, and the answer to it. The queue is written where it stands, and not copied once more beside the answer.
    #[tactic(auto, unfolding(model::specs::Calls::make_u))]
    pub(crate) fn answer(&mut self, line: Line) -> Reply
        ensures { Steps self.old line self.new result }
    {
        match line {
            Line::Bad => Reply::bare(BAD_LINE),
            Line::Make(capacity) => self.make(capacity),
            Line::MakeU => {
                let turn = Queue::make_u();
                self.queue = Some(turn.queue);
                Reply::from(turn.answer)
            }
            Line::Call(call) => self.call(call),
        }
    }

    // A good make begins a new queue; a refused one keeps the queue before it.
    #[tactic(auto, using(crate::proofs::Made::made_is_ok))]
    fn make(&mut self, capacity: u32) -> Reply
        ensures { Steps self.old (Line.Make capacity) self.new result }
    {
        let turn = Queue::make(capacity);
        if turn.answer.what.is_ok() {
            self.queue = Some(turn.queue);
        }
        Reply::from(turn.answer)
    }

    // Any other call: of the queue, or refused where there is none. (The crate `station` is for hosts that lend a queue; these are three lines.)
    fn call(&mut self, call: model::Call) -> Reply
        ensures { Steps self.old (Line.Call call) self.new result }
    {
        match &mut self.queue {
            Some(queue) => {
                let turn = queue.step(call);
                *queue = turn.queue;
                Reply::from(turn.answer)
            }
            None => Reply::bare(code(Err(Error::NoHandle))),
        }
    }
}
