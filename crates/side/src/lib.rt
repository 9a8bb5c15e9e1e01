// One side of the queue: its open operations and the line in which they wait. The outgoing and the incoming side are two of these.
// After src/mpmc/queue.rs of asyncband 0.7.4 (the state of Reserve and Recv, and what it does with its wait lists).
// Its meaning is the `Side` of the model (`side_of`, specs/Meaning.antt): the table of the open operations and the line by their numbers;
// each method is the model's move or count of that name (specs/Calls.antt). What ties operations to wait nodes is `Sound` (specs/Sound.antt).
// A number is an operation's place (0 to 31) + 64 * its turn. Callers name operations by numbers; a wait node holds the place alone, in a byte.
#![tactic(auto)]

ghost use Rattle.std.specs.Prelude.{◌≡◌, ℕ, map, ◌<◌, eqb, length, option_map, option_to_list};
ghost use Rattle.waitlist.specs.View.{is_nil};
ghost use Rattle.model.specs.Side as model;
ghost use Rattle.model.specs.Table.{sum, turn, in_place, was_closed};
ghost use Rattle.side.specs.Operations.{cargo_of, idle_op, blank_op, fresh_op, stage_of, told_by, stage_by, deed_of, voided, woken_of, Deed, Tests, Leaves, Refreshed, SoundBy};

use arena::{Waiter, WaiterId};
use tables::{Number, Numbered, Opened, Places};
use waitlist::WaitList;
use wakes::Wakes;

// Where an operation waits: not polled yet; in this node, in line or called; nowhere, since its line was closed for good.
#[derive(Clone, Copy)]
pub enum Mark {
    Idle,
    At(WaiterId),
    Void,
}

// The record of a place: how many of its turns are over, and the operation that is open there, if one is. The owner is a handle's whole number.
// What an operation carries stands as a value and whether there is one, not as an `Option`, and the numbers stand first: that keeps a record at 16 bytes.
#[derive(Clone, Copy)]
pub struct Op {
    value: u32,
    owner: u32,
    turn: u32,
    carries: bool,
    mark: Mark,
}

const _: () = prove!(size_of::<Op>() == 16);

// Both ends are numbers that calls look at, the line's head and the words of the places, so that what lies between is copied in one piece.
// The records stand in a fixed array: there is no heap, and a side is copied by value. A place is cast to its index (`tables::Number` says why).
// Every side is sound. The fact is truncated, for it tells, as values, which waiter the node of an operation holds, and a ghost field may hold no
// more than that it is so; the lemma `sound_of` (proofs/Kept.antt) reads those values off the nodes.
#[derive(Clone, Copy)]
pub struct Side {
    waiters: WaitList,
    ops: [Op; 32],
    places: Places,
    ghost sound: { ∥ SoundBy waiters ops places ∥₁ },
}

// How far an operation is, as its caller sees it.
#[derive(Clone, Copy)]
pub enum Stage {
    Idle,
    Waiting(u32),
    Called,
    Void,
}

// An open operation, as its caller sees it. A send carries its value, a reserve and a recv nothing.
#[derive(Clone, Copy)]
pub struct Entry {
    pub owner: u32,
    pub cargo: Option<u32>,
    pub stage: Stage,
}

// An operation that was called, with the token to wake.
#[derive(Clone, Copy)]
pub struct Woken {
    pub number: u32,
    pub token: u32,
}

// What a move answers, with the side after it: a struct for each, since the field's name says what the answer is.
#[derive(Clone, Copy)]
pub struct Pended {
    pub retired: Option<u32>,
    pub side: Side,
}

#[derive(Clone, Copy)]
pub struct CalledOne {
    pub woken: Option<Woken>,
    pub side: Side,
}

#[derive(Clone, Copy)]
pub struct Closed {
    pub wakes: Wakes,
    pub side: Side,
}

impl Op {
    pub const LIMIT: u32 = 32;

    // What stands at a place that was never used.
    pub fn fresh() -> Op
        ensures { result ≡ fresh_op }
    {
        Op::blank(0)
    }

    // What an operation leaves behind: how many turns of its place are over, and nothing else.
    fn blank(turn: u32) -> Op
        ensures { result ≡ blank_op turn }
    {
        Op::idle(0, None, turn)
    }

    // An operation that is not polled yet.
    fn idle(owner: u32, cargo: Option<u32>, turn: u32) -> Op
        ensures { result ≡ idle_op owner cargo turn }
    {
        Op {
            value: cargo.unwrap_or(0),
            owner,
            turn,
            carries: cargo.is_some(),
            mark: Mark::Idle,
        }
    }

    fn cargo(self) -> Option<u32>
        ensures { result ≡ cargo_of self }
    {
        self.carries.then_some(self.value)
    }
}

impl Stage {
    // The token that the queue keeps for an operation: it has one just where it is in line.
    pub fn kept(self) -> Option<u32>
        ensures { option_to_list result ≡ model.kept (stage_of self) }
    {
        match self {
            Stage::Waiting(token) => Some(token),
            _ => None,
        }
    }

    // Has it its grant or its notice?
    pub fn is_called(self) -> bool
        ensures { result ≡ eqb (model.is_called (stage_of self)) 1 }
    {
        matches!(self, Stage::Called)
    }

    fn is_polled(self) -> bool
        ensures { result ≡ eqb (model.polled (stage_of self)) 1 }
    {
        !matches!(self, Stage::Idle)
    }
}

// The stage that a node's waiter tells.
impl From<Waiter> for Stage {
    ghost from_gives = { λ waiter stage. stage_of stage ≡ told_by waiter };

    fn from(waiter: Waiter) -> Stage {
        match waiter {
            Waiter::Waiting(token) => Stage::Waiting(token),
            Waiter::Called => Stage::Called,
        }
    }
}

// How far an operation with this mark is. (A node that the mark names is there: the arm for none is never taken.)
fn stage_of(waiters: WaitList, mark: Mark) -> Stage
    ensures { stage_of result ≡ stage_by waiters mark }
{
    match mark {
        Mark::Idle => Stage::Idle,
        Mark::Void => Stage::Void,
        Mark::At(id) => match waiters.waiter(id) {
            Some(held) => Stage::from(held.waiter),
            None => Stage::Void,
        },
    }
}

// The node goes, in line or not: remove_waiter of queue.rs.
fn remove_waiter(waiters: WaitList, id: WaiterId) -> WaitList
    ensures { Leaves waiters id.0.0 result }
{
    waiters.unlink_waiter(id).remove_unlinked(id).list
}

// The node, if the mark names one, holds another token.
fn refreshed(waiters: WaitList, mark: Mark, token: u32) -> WaitList
    ensures { Refreshed waiters mark token result }
{
    match mark {
        Mark::At(id) => waiters.set_waiter(id, Waiter::Waiting(token)),
        Mark::Idle | Mark::Void => waiters,
    }
}

// The token that goes back where `new` takes the place of `old`.
fn replaced(old: u32, new: u32) -> Option<u32>
    ensures { option_to_list result ≡ model.replaced (model.waiting old) new }
{
    (old != new).then_some(old)
}

// Operation n, whose waiter this was, was called.
fn woken_of(n: u32, waiter: Waiter) -> Option<Woken>
    ensures { result ≡ woken_of n waiter }
{
    match waiter {
        Waiter::Waiting(token) => Some(Woken { number: n, token }),
        Waiter::Called => None,
    }
}

// The operation as its line is closed for good.
fn void(op: Op) -> Op
    ensures { result ≡ voided op }
{
    match op.mark {
        Mark::Idle | Mark::Void => op,
        Mark::At(_) => Op {
            mark: Mark::Void,
            ..op
        },
    }
}

impl Numbered for Side {
    ghost use Rattle.side.specs.Meaning.{side_of};

    const LIMIT: u32 = Op::LIMIT;

    ghost LIMIT = { 32 };

    ghost Shown = { Deed };

    ghost table_of = { λ side. (side_of side).ops };

    fn words(self) -> Places {
        self.places
    }

    fn turn_at(self, place: u32) -> u32 {
        if place < Op::LIMIT {
            return self.ops[place as usize].turn;
        }
        0
    }
}

impl Side {
    ghost use Rattle.side.specs.Meaning.{side_of, place_in};
    ghost use Rattle.side.specs.Calls.{Open, Alone, Fresh, Sees, Detaches, Joins, Opens, Ends, Pends, CallsOne, Closes};

    pub fn fresh() -> Side
        ensures { Fresh result }
    {
        Side {
            waiters: WaitList::new(),
            ops: [Op::fresh(); 32],
            places: Places::fresh(),
        }
    }

    // The operation at a place, if one is open there. The side is lent: the counts look at every place, and would copy it at each.
    fn at(&self, place: u32) -> Option<Entry>
        ensures { option_map deed_of result ≡ in_place (place_in self.now place) }
    {
        if self.places.live.has(place) {
            let op = self.ops[place as usize];
            return Some(Entry {
                owner: op.owner,
                cargo: op.cargo(),
                stage: stage_of(self.waiters, op.mark),
            });
        }
        None
    }

    // The operation with the number n, if it is open: an operation of another turn at its place is another operation.
    pub fn get(self, n: u32) -> Option<Entry>
        ensures { Sees self n result }
    {
        let number = Number::from(n);
        if self.turn_at(number.place) == number.turn {
            return self.at(number.place);
        }
        None
    }

    // An operation is opened at the lowest free place with a turn left, if there is one.
    pub fn open(mut self, owner: u32, cargo: Option<u32>) -> Opened<Side>
        ensures { Opens self owner cargo result }
    {
        let Some(Number { place, turn }) = self.vacancy() else {
            return Opened {
                number: None,
                next: self,
            };
        };
        self.ops[place as usize] = Op::idle(owner, cargo, turn);
        self.places = self.places.opened(place);
        Opened {
            number: Some(tables::number_at(place, turn)),
            next: self,
        }
    }

    // Operation n has no node any more, in line or called. That n is open is asked here and below: it is a fact of a side and a number, and of no type.
    fn detach(mut self, n: u32) -> Side
        requires opened { Open self n }
        ensures { Detaches self n result }
    {
        let i = Number::from(n).place as usize;
        let Mark::At(id) = self.ops[i].mark else {
            return self;
        };
        self.ops[i].mark = Mark::Idle;
        self.waiters = remove_waiter(self.waiters, id);
        self
    }

    // Operation n, which has no node, joins the end of the line. There is room for its node: each other node has an operation of its own. Its place is
    // below 32, so the cast to the node's byte loses nothing.
    fn join(mut self, n: u32, token: u32) -> Side
        requires opened { Open self n }
        requires alone { Alone self n }
        ensures { Joins self n token result }
    {
        let place = Number::from(n).place;
        let put = self.waiters.push_back(place as u8, Waiter::Waiting(token));
        self.ops[place as usize].mark = Mark::At(put.id);
        self.waiters = put.list;
        self
    }

    // Operation n ends, and leaves the line if it stands there. One more turn of its place is over, and the place is spent after its last.
    pub fn end(self, n: u32) -> Side
        requires opened { Open self n }
        ensures { Ends self n result }
    {
        let mut out = self.detach(n);
        let Number { place, turn } = Number::from(n);
        let over = turn + 1;
        out.ops[place as usize] = Op::blank(over);
        out.places = out.places.closed(place, over);
        out
    }

    // Operation n stays pending with the token: in line it keeps its place, else it joins the tail. (register of queue.rs)
    pub fn pend(mut self, n: u32, token: u32) -> Pended
        requires opened { Open self n }
        ensures { Pends self n token result }
    {
        let mark = self.ops[Number::from(n).place as usize].mark;
        let Some(old) = stage_of(self.waiters, mark).kept() else {
            return Pended {
                retired: None,
                side: self.detach(n).join(n, token),
            };
        };
        self.waiters = refreshed(self.waiters, mark, token);
        Pended {
            retired: replaced(old, token),
            side: self,
        }
    }

    // The first in line, if any, is called and leaves the line: notify_one and grant_one of queue.rs.
    pub fn call_first(mut self) -> CalledOne
        ensures { CallsOne self result }
    {
        let out = wakes::call_first(self.waiters);
        let Some(held) = out.held else {
            return CalledOne {
                woken: None,
                side: self,
            };
        };
        let place = u32::from(held.op);
        let number = tables::number_at(place, self.turn_at(place));
        self.waiters = out.list;
        CalledOne {
            woken: woken_of(number, held.waiter),
            side: self,
        }
    }

    // The line is closed for good: all its tokens are woken in order, and no operation has a node any more.
    pub fn close_line(mut self) -> Closed
        ensures { Closes self result }
    {
        let wakes = wakes::wake_all(self.waiters);
        self.waiters = WaitList::new();
        self.ops = self.ops.map(void);
        Closed { wakes, side: self }
    }

    // Is nobody in line?
    pub fn line_is_empty(self) -> bool
        ensures { result ≡ is_nil (side_of self).line }
    {
        self.waiters.is_empty()
    }

    // How many wait in line.
    pub fn in_line(self) -> u32
        ensures { result ≡ length (side_of self).line }
    {
        self.count_where(|entry| matches!(entry.stage, Stage::Waiting(_)))
    }

    // How many of the open operations pass a test.
    fn count_where<F: Fn(Entry) -> bool>(self, passes: F) -> u32
        ghost counts: { Deed → ℕ }
        requires callable { F.IsAlwaysCallable passes }
        requires counted { Tests (F.post passes) counts }
        ensures { result ≡ sum counts (side_of self).ops }
    {
        let mut total = 0;
        for place in 0..Op::LIMIT {
            total += u32::from(self.at(place).is_some_and(&passes));
        }
        total
    }

    // How many belong to a handle.
    pub fn owned_by(self, owner: u32) -> u32
        ensures { result ≡ model.owned_by owner (side_of self) }
    {
        self.count_where(|entry| entry.owner == owner)
    }

    // How many are called.
    pub fn called(self) -> u32
        ensures { result ≡ model.called_count (side_of self) }
    {
        self.count_where(|entry| entry.stage.is_called())
    }

    // How many were polled.
    pub fn polled(self) -> u32
        ensures { result ≡ model.polled_count (side_of self) }
    {
        self.count_where(|entry| entry.stage.is_polled())
    }
}
