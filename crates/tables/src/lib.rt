// The records of handles and of permits, each kind in a table with turns. `Handles` serves senders and receivers, which differ in nothing: one
// limit, and a record that holds nothing but its turn. A permit's record holds its sender too. A record stands at a place of the table's array
// and carries its turn, live or not: how many turns of its place are over. Two words beside the array tell which places are live and which
// are used up (specs/Places.antt). The meaning of each table is the definition's (specs/Meaning.antt), and each method is the operation of its
// name on that (specs/Calls.antt).
#![tactic(auto)]

ghost use Rattle.std.specs.Prelude.{◌≡◌, ℕ, ⊤, true, false, ◌+◌, ◌*◌, ◌/◌, ◌%◌, ◌<◌, ◌≤◌, get_or, set, option_map};
ghost use Rattle.live.specs.Bits.{live_of, none_live, lowest_clear, either, count_live};
ghost use Rattle.model.specs.Table as model;
ghost use Rattle.model.specs.Table.{Table, vacant, turn, in_place, lookup, was_closed, lowest, live, of, sum};
ghost use Rattle.tables.specs.Places.{spent_by, Used, is_live, Marks};
ghost use Rattle.tables.specs.Numbers.{numbered, Fits};
ghost use Rattle.tables.specs.Records.{no_handle, handle_turn, no_permit, permit_turn, Wiped};

use live::Live;

// The last turn of a place, 2 ^ 26 - 1: its numbers are the last that fit.
pub const LAST_TURN: u32 = 67108863;

// What a record's number says: its place, and how many turns of that place were over when it was given. A place is cast to the array's index where
// it is used: no `From` makes a usize of a u32.
#[derive(Clone, Copy)]
pub struct Number {
    pub place: u32,
    pub turn: u32,
}

impl From<u32> for Number {
    ghost from_gives = { λ n r. (r.place ≡ n % 64) × (r.turn ≡ n / 64) };

    fn from(n: u32) -> Number {
        Number {
            place: n % 64,
            turn: n / 64,
        }
    }
}

// The number of a record at a place and a turn. A function and no `From<Number>`, which could not ask that the number fits.
pub fn number_at(place: u32, turn: u32) -> u32
    requires place_bound { place < 64 }
    requires turn_bound { turn ≤ model.LAST_TURN }
    ensures { result ≡ place + 64 * turn }
{
    place + 64 * turn
}

// Which places of a table are live, and which are used up: their last turn is over.
#[derive(Clone, Copy)]
pub struct Places {
    pub live: Live,
    pub spent: Live,
}

impl Places {
    // No place is live, and none was.
    pub fn fresh() -> Places
        ensures live { live_of result.live ≡ none_live }
        ensures spent { live_of result.spent ≡ none_live }
    {
        Places {
            live: Live::fresh(),
            spent: Live::fresh(),
        }
    }

    // The lowest place that is not live and has a turn left; 64 where there is none. No `Option`: `vacancy` asks for the kind's limit, and that tells both.
    pub fn lowest_free(self) -> u32
        ensures { result ≡ lowest_clear (either (live_of self.live) (live_of self.spent)) }
    {
        self.live.lowest_beside(self.spent)
    }

    // The place is live from now on.
    pub fn opened(self, place: u32) -> Places
        ensures live { live_of result.live ≡ set (live_of self.live) place true }
        ensures spent { result.spent ≡ self.spent }
    {
        Places {
            live: self.live.with(place),
            ..self
        }
    }

    // The place is live no more, this many of its turns are over, and it is used up if the last one is.
    pub fn closed(self, place: u32, over: u32) -> Places
        ensures live { live_of result.live ≡ set (live_of self.live) place false }
        ensures spent { live_of result.spent ≡ spent_by (live_of self.spent) place over }
    {
        Places {
            live: self.live.without(place),
            spent: spent_by(self.spent, place, over),
        }
    }
}

// The places that are used up, once this many turns of a place are over.
pub fn spent_by(spent: Live, place: u32, over: u32) -> Live
    ensures { live_of result ≡ spent_by (live_of spent) place over }
{
    if over <= LAST_TURN {
        return spent;
    }
    spent.with(place)
}

// The number of a new record of any kind, if one was free, and the table with it.
#[derive(Clone, Copy)]
pub struct Opened<T> {
    pub number: Option<u32>,
    pub next: T,
}

// A table of numbered records. Each kind says which of its places are live and which are used up, and how many turns of a place are over; what a
// number says of the table, and which place is given next, follows from these, once for every kind. A trait, and no one struct over the type of its
// records, since an array of a type parameter would owe its size at every call: so each kind opens and closes its records itself.
pub trait Numbered: Copy {
    // How many places there are.
    const LIMIT: u32;

    ghost LIMIT: { ℕ };

    // What a live record shows, and the definition's table.
    ghost Shown: { Type 0 };

    ghost table_of: { Self → Table Shown };

    // The two words of the places: which are live, and which are used up.
    fn words(self) -> Places
        ensures { Marks LIMIT (live_of result.live) (live_of result.spent) (table_of self) };

    // How many turns of a place are over: the turn of the record that is live there, or of the next one. A place past the limit has none.
    fn turn_at(self, place: u32) -> u32
        ensures { result ≡ turn (get_or (table_of self) place (vacant 0)) };

    // A number is live where its place is, at the number's turn.
    fn has(self, n: u32) -> bool
        ensures { result ≡ is_live (lookup (table_of self) n) }
    {
        let number = Number::from(n);
        self.words().live.has(number.place) && self.turn_at(number.place) == number.turn
    }

    // Was a number given, and is it closed? Then its place has gone past its turn. A place past the limit was never given.
    fn closed(self, n: u32) -> bool
        ensures { result ≡ was_closed (table_of self) n }
    {
        let number = Number::from(n);
        number.turn < self.turn_at(number.place)
    }

    // The place that the next record gets, at its turn: the lowest that is not live and has a turn left. None where there is no such place.
    fn vacancy(self) -> Option<Number>
        ensures lowest { option_map numbered result ≡ lowest (table_of self) }
        ensures fits { Fits LIMIT result }
    {
        let place = self.words().lowest_free();
        if place < Self::LIMIT {
            return Some(Number {
                place,
                turn: self.turn_at(place),
            });
        }
        None
    }

    // How many records are live.
    fn count(self) -> u32
        ensures { result ≡ live (table_of self) }
    {
        self.words().live.count()
    }
}

#[derive(Clone, Copy)]
pub struct Handle {
    turn: u32,
}

// The records stand in a fixed array, here and of permits: there is no heap, and a table is copied by value.
#[derive(Clone, Copy)]
pub struct Handles {
    table: [Handle; 16],
    places: Places,
    ghost used: { Used handle_turn 16 (live_of places.live) (live_of places.spent) table },
}

#[derive(Clone, Copy)]
pub struct Permit {
    owner: u32,
    turn: u32,
}

// A place that is not live holds its turn and nothing else: no owner of a permit that is gone.
#[derive(Clone, Copy)]
pub struct Permits {
    places: Places,
    table: [Permit; 64],
    ghost used: { Used permit_turn 64 (live_of places.live) (live_of places.spent) table },
    ghost wiped: { Wiped (live_of places.live) table },
}

impl Handle {
    pub const LIMIT: u32 = 16;

    // What stands at a place that was never used.
    pub fn fresh() -> Handle
        ensures { result ≡ no_handle }
    {
        Handle { turn: 0 }
    }
}

impl Numbered for Handles {
    ghost use Rattle.model.specs.Queue.{Mark};
    ghost use Rattle.tables.specs.Meaning.{handles_of};

    const LIMIT: u32 = Handle::LIMIT;

    ghost LIMIT = { 16 };

    ghost Shown = { Mark };

    ghost table_of = { handles_of };

    fn words(self) -> Places {
        self.places
    }

    fn turn_at(self, place: u32) -> u32 {
        if place < Handle::LIMIT {
            return self.table[place as usize].turn;
        }
        0
    }
}

impl Handles {
    ghost use Rattle.tables.specs.Meaning.{handles_of};
    ghost use Rattle.tables.specs.Calls.{NoHandles, Clones, Leaves};

    // No handle is live, and none was. (Each kind has a `fresh` of its own, for its array and its blank record are its own.)
    pub fn fresh() -> Handles
        ensures { NoHandles result }
    {
        Handles {
            table: [Handle::fresh(); 16],
            places: Places::fresh(),
        }
    }

    // A new handle at the lowest free place with a turn left, if there is one.
    pub fn open(mut self) -> Opened<Handles>
        ensures { Clones self result }
    {
        let Some(Number { place, turn }) = self.vacancy() else {
            return Opened {
                number: None,
                next: self,
            };
        };
        self.places = self.places.opened(place);
        Opened {
            number: Some(number_at(place, turn)),
            next: self,
        }
    }

    // A live handle goes, and one more turn of its place is over. Each kind has a `close` of its own: what it leaves in the record is its own, and the
    // rest is shared as it stands, `Number::from` and `closed` of its places.
    pub fn close(mut self, n: u32) -> Handles
        requires { is_live (lookup (handles_of self) n) ≡ true }
        ensures { Leaves self n result }
    {
        let Number { place, turn } = Number::from(n);
        self.table[place as usize] = Handle { turn: turn + 1 };
        self.places = self.places.closed(place, turn + 1);
        self
    }
}

impl Permit {
    pub const LIMIT: u32 = 64;

    // What stands at a place that was never used.
    pub fn fresh() -> Permit
        ensures { result ≡ no_permit }
    {
        Permit { owner: 0, turn: 0 }
    }
}

impl Numbered for Permits {
    ghost use Rattle.tables.specs.Meaning.{permits_of};

    const LIMIT: u32 = Permit::LIMIT;

    ghost LIMIT = { 64 };

    ghost Shown = { ℕ };

    ghost table_of = { permits_of };

    fn words(self) -> Places {
        self.places
    }

    fn turn_at(self, place: u32) -> u32 {
        if place < Permit::LIMIT {
            return self.table[place as usize].turn;
        }
        0
    }
}

impl Permits {
    ghost use Rattle.tables.specs.Meaning.{permits_of, belongs, is_own};
    ghost use Rattle.tables.specs.Calls.{NoPermits, Gives, Drops};

    // No permit is live, and none was.
    pub fn fresh() -> Permits
        ensures { NoPermits result }
    {
        Permits {
            places: Places::fresh(),
            table: [Permit::fresh(); 64],
        }
    }

    // A permit of a sender at the lowest free place with a turn left, if there is one.
    pub fn open(mut self, owner: u32) -> Opened<Permits>
        ensures { Gives self owner result }
    {
        let Some(Number { place, turn }) = self.vacancy() else {
            return Opened {
                number: None,
                next: self,
            };
        };
        self.table[place as usize] = Permit { owner, turn };
        self.places = self.places.opened(place);
        Opened {
            number: Some(number_at(place, turn)),
            next: self,
        }
    }

    // A live permit goes, one more turn of its place is over, and nothing of it is left.
    pub fn close(mut self, n: u32) -> Permits
        requires { is_live (lookup (permits_of self) n) ≡ true }
        ensures { Drops self n result }
    {
        let Number { place, turn } = Number::from(n);
        self.table[place as usize] = Permit {
            owner: 0,
            turn: turn + 1,
        };
        self.places = self.places.closed(place, turn + 1);
        self
    }

    // Is a permit live at the place, and does it belong to the sender?
    fn owned(self, place: u32, owner: u32) -> bool
        ensures { result ≡ is_own owner (in_place (get_or (permits_of self) place (vacant 0))) }
    {
        self.places.live.has(place) && owner == self.table[place as usize].owner
    }

    // How many belong to a sender: 64 at most, so the cast loses nothing.
    pub fn owned_by(self, owner: u32) -> u32
        ensures { result ≡ sum (belongs owner) (permits_of self) }
    {
        (0..Permit::LIMIT)
            .filter(|place| self.owned(*place, owner))
            .count() as u32
    }
}
