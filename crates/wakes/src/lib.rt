// What a queue does with a line: the first waiter is called (notify_one and grant_one), or the whole line is woken as it is given up.
// After src/mpmc/queue.rs of asyncband 0.7.4.
#![tactic(auto)]

ghost use Rattle.std.specs.Prelude.{◌≡◌};
ghost use Rattle.waitlist.specs.View.{token_of};
ghost use Rattle.wakes.specs.Calls.{CallsFirst, WakesAll};

use arena::{Arena, Waiter, WaiterId};
use waitlist::{Held, WaitList};

mod tokens;

pub use tokens::Wakes;

// Who was called, for the promise alone, and what it held; neither where the line was empty.
#[derive(Clone, Copy)]
pub struct CalledOut {
    pub who: Option<WaiterId>,
    pub held: Option<Held>,
    pub list: WaitList,
}

// The token of a waiter; 0 where it was called already, as no waiter in a side's line was.
fn token(held: Option<Held>) -> u32
    ensures { result ≡ token_of held }
{
    match held {
        Some(
            Held {
                waiter: Waiter::Waiting(token),
                ..
            },
        ) => token,
        _ => 0,
    }
}

// The first in line is detached and marked as called: notify_one and grant_one.
pub fn call_first(list: WaitList) -> CalledOut
    ensures { CallsFirst list result }
{
    let first = list.unlink_first();
    let Some(id) = first.id else {
        return CalledOut {
            who: None,
            held: None,
            list: first.list,
        };
    };
    CalledOut {
        who: Some(id),
        held: first.list.waiter(id),
        list: first.list.set_waiter(id, Waiter::Called),
    }
}

// The tokens of a line that is given up, in order. A loop has to end, so its turns are counted: a line has no more waiters than the arena has slots.
pub fn wake_all(list: WaitList) -> Wakes
    ensures { WakesAll list result }
{
    let mut left = list;
    let mut wakes = Wakes::none();
    for _ in 0..Arena::SLOTS {
        let first = left.unlink_first();
        let Some(id) = first.id else {
            return wakes;
        };
        wakes.push(token(left.waiter(id)));
        left = first.list;
    }
    wakes
}
