// Senders and receivers come and go: `Clone` and `Drop` of the handles, and drop_sender and drop_receiver. After src/mpmc/bounded.rs,
// src/mpmc/unbounded.rs and src/mpmc/queue.rs of asyncband 0.7.4. The calls of the two kinds differ in the table, in what keeps a handle busy and in what
// its last one leaves; what they share is `cloned` and `closed`.
ghost use Rattle.std.specs.Prelude.{◌≡◌, Ok};
ghost use Rattle.tables.specs.Meaning.{handles_of};
ghost use Rattle.model.specs.Queue as model;
ghost use Rattle.model.specs.declared.Call.TheVariants.{CloneS, CloneR, DropS, DropR};
ghost use Rattle.queue.specs.Meaning.{queue_of, Sound};
ghost use Rattle.queue.specs.Promise.{Turned};
ghost use Rattle.queue.specs.Steps.{live_in, ClonesIn, ClosesIn, Does, silenced, discarded};

use crate::known::live;
use crate::moves::taken;
use crate::says::{given, plain};
use crate::{Answer, Error, Queue, Success, Turn};
use tables::{Handles, Numbered};

// A new handle beside the live handle n: its number.
fn cloned(handles: &mut Handles, n: u32) -> Result<u32, Error>
    ensures { ClonesIn handles.old n result handles.new }
{
    live(*handles, n)?;
    let opened = handles.open();
    taken(handles, opened)
}

// The handles without the live handle n; refused while it is busy, that is, while a record of its own is open.
fn closed(handles: Handles, n: u32, busy: bool) -> Result<Handles, Error>
    requires { live_in (handles_of handles) n ≡ Ok tt }
    ensures { ClosesIn handles n busy result }
{
    if busy {
        return Err(Error::InUse);
    }
    Ok(handles.close(n))
}

impl Queue {
    pub fn clone_s(mut self, n: u32) -> Turn
        requires { Sound self }
        ensures { Turned self (CloneS n) result.answer result.queue }
    {
        let number = cloned(&mut self.senders, n);
        Turn {
            answer: given(number),
            queue: self,
        }
    }

    pub fn clone_r(mut self, n: u32) -> Turn
        requires { Sound self }
        ensures { Turned self (CloneR n) result.answer result.queue }
    {
        let number = cloned(&mut self.receivers, n);
        Turn {
            answer: given(number),
            queue: self,
        }
    }

    // Has this sender a live permit or an outgoing operation?
    fn sender_busy(self, n: u32) -> bool
        ensures { result ≡ model.sender_busy n (queue_of self) }
    {
        0 < self.permits.owned_by(n) || 0 < self.outs.owned_by(n)
    }

    // Has this receiver an incoming operation?
    fn receiver_busy(self, n: u32) -> bool
        ensures { result ≡ model.receiver_busy n (queue_of self) }
    {
        0 < self.ins.owned_by(n)
    }

    // The last sender has left: the line of receivers is closed for good.
    fn silence(&mut self) -> Answer
        ensures { Does (silenced (queue_of self.old)) self.old result self.new }
    {
        let closed = self.ins.close_line();
        self.ins = closed.side;
        Answer {
            what: Ok(Success::Done),
            wakes: closed.wakes,
            retired: None,
        }
    }

    // What keeps it busy is looked for only where it is live: that takes a look at every permit and operation.
    pub fn drop_s(mut self, n: u32) -> Turn
        requires { Sound self }
        ensures { Turned self (DropS n) result.answer result.queue }
    {
        let answer = match live(self.senders, n) {
            Err(error) => plain(Err(error)),
            Ok(()) => {
                let busy = self.sender_busy(n);
                match closed(self.senders, n, busy) {
                    Err(error) => plain(Err(error)),
                    Ok(left) => {
                        self.senders = left;
                        if left.count() == 0 {
                            self.silence()
                        } else {
                            plain(Ok(Success::Done))
                        }
                    }
                }
            }
        };
        Turn {
            answer,
            queue: self,
        }
    }

    // The last receiver has left: the line of senders is closed for good, and the values are discarded.
    fn discard(&mut self) -> Answer
        ensures { Does (discarded (queue_of self.old)) self.old result self.new }
    {
        let gone = self.queued();
        self.values = self.values.clear();
        let closed = self.outs.close_line();
        self.outs = closed.side;
        Answer {
            what: Ok(Success::Discarded(gone)),
            wakes: closed.wakes,
            retired: None,
        }
    }

    // As with a sender, what keeps it busy is looked for only where it is live.
    pub fn drop_r(mut self, n: u32) -> Turn
        requires { Sound self }
        ensures { Turned self (DropR n) result.answer result.queue }
    {
        let answer = match live(self.receivers, n) {
            Err(error) => plain(Err(error)),
            Ok(()) => {
                let busy = self.receiver_busy(n);
                match closed(self.receivers, n, busy) {
                    Err(error) => plain(Err(error)),
                    Ok(left) => {
                        self.receivers = left;
                        if left.count() == 0 {
                            self.discard()
                        } else {
                            plain(Ok(Success::Discarded(0)))
                        }
                    }
                }
            }
        };
        Turn {
            answer,
            queue: self,
        }
    }
}
