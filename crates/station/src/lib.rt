// The entry for a station that keeps its queue in a record and lends it for one call at a time: the record afterwards holds the next queue,
// after a refusal too. It is one thin function over `&mut`; a caller with plain parameters takes `served`. It lists the calls as `Queue::step`
// does: by way of that the whole record is copied once more, and a lent call takes nearly twice the instructions.
// The promise is the queue's own, `Turned`.
#![tactic(auto)]

ghost use Rattle.queue.specs.Meaning.{Sound};
ghost use Rattle.queue.specs.Promise.{Turned};

use model::Call;
use queue::{Answer, Queue, Turn};

pub fn serve(q: &mut Queue, c: Call) -> Answer
    requires { Sound q.old }
    ensures { Turned q.old c result q.new }
{
    let taken = *q;
    let turn = match c {
        Call::CloneS(s) => taken.clone_s(s),
        Call::CloneR(r) => taken.clone_r(r),
        Call::TrySend(s, v) => taken.try_send(s, v),
        Call::TryRes(s) => taken.try_res(s),
        Call::Reserve(s) => taken.reserve(s),
        Call::Send(s, v) => taken.send(s, v),
        Call::Recv(r) => taken.recv(r),
        Call::PollOut(n, t) => taken.poll_out(n, t),
        Call::CancelOut(n) => taken.cancel_out(n),
        Call::PermitSend(p, v) => taken.permit_send(p, v),
        Call::PermitDrop(p) => taken.permit_drop(p),
        Call::TryRecv(r) => taken.try_recv(r),
        Call::PollIn(n, t) => taken.poll_in(n, t),
        Call::CancelIn(n) => taken.cancel_in(n),
        Call::DropS(s) => taken.drop_s(s),
        Call::DropR(r) => taken.drop_r(r),
        Call::Status => taken.status(),
    };
    *q = turn.queue;
    turn.answer
}

// The same for a caller with plain parameters: what is lent here is a local.
pub fn served(q: Queue, c: Call) -> Turn
    requires { Sound q }
    ensures { Turned q c result.answer result.queue }
{
    let mut held = q;
    let answer = serve(&mut held, c);
    Turn {
        answer,
        queue: held,
    }
}
