// The queue's answer in the form that is shown.
ghost use Rattle.std.specs.Prelude.{◌≡◌, Ok, option_to_list};
ghost use Rattle.lines.specs.Shown.{answered, told};
ghost use Rattle.model.specs.Queue.{Ans};
ghost use Rattle.wakes.specs.Tokens.{tokens_of};
ghost use Rattle.queue.specs.declared.Success.TheVariants.{Status};
ghost use Rattle.queue.specs.Answers.{code_of, field_of, ans_of};
ghost use Rattle.calls.specs.Model.{bare};

use arrayvec::ArrayVec;
use queue::{Counts, Error, Success};
use std::marker::Model;
use wakes::Wakes;

// An answer as it is printed, in numbers: its code, its field, the tokens to be woken, and the token that was let go of.
#[derive(Drop)]
pub struct Reply {
    code: u32,
    field: ArrayVec<u32, 6>,
    wakes: Wakes,
    retired: Option<u32>,
}

impl Model for Reply {
    ghost Value = { Ans };

    ghost view = { λ r. answered r.code r.field.items (tokens_of r.wakes) (option_to_list r.retired) };
}

// Status's counts. An unbounded queue has no free room to show: five numbers.
fn counts(counts: Counts) -> ArrayVec<u32, 6>
    ensures { result.items ≡ field_of (Ok (Status counts)) }
{
    let mut field = ArrayVec::new();
    field.push(counts.queued);
    if let Some(room) = counts.free {
        field.push(room);
    }
    field.push(counts.permits);
    field.push(counts.granted);
    field.push(counts.lined);
    field.push(counts.waiting);
    field
}

// No number, or one.
fn number(value: Option<u32>) -> ArrayVec<u32, 6>
    ensures { result.items ≡ option_to_list value }
{
    let mut field = ArrayVec::new();
    if let Some(value) = value {
        field.push(value);
    }
    field
}

// The code of an answer: the number that is printed.
pub(crate) fn code(what: Result<Success, Error>) -> u32
    ensures { result ≡ code_of what }
{
    match what {
        Ok(Success::Done | Success::Discarded(_)) => 0,
        Ok(Success::Value(_)) => 1,
        Ok(Success::Given(_)) => 2,
        Ok(Success::Pending) => 3,
        Ok(Success::Status(_)) => 4,
        Err(Error::Full(_)) => 10,
        Err(Error::Empty) => 11,
        Err(Error::Disconnected(_)) => 12,
        Err(Error::BadCapacity) => 20,
        Err(Error::NoHandle) => 21,
        Err(Error::InUse) => 22,
        Err(Error::NoRoom) => 23,
        Err(Error::RingFull) => 25,
        Err(Error::Closed) => 26,
        Err(Error::WrongKind) => 28,
    }
}

// The numbers of its field.
fn numbers(what: Result<Success, Error>) -> ArrayVec<u32, 6>
    ensures { result.items ≡ field_of what }
{
    match what {
        Ok(Success::Discarded(n) | Success::Value(n) | Success::Given(n)) => number(Some(n)),
        Ok(Success::Status(shown)) => counts(shown),
        Err(Error::Full(value) | Error::Disconnected(value)) => number(value),
        _ => ArrayVec::new(),
    }
}

// The queue's answer.
impl From<queue::Answer> for Reply {
    ghost from_gives = { λ answer reply. reply ≡ ans_of answer };

    fn from(answer: queue::Answer) -> Reply {
        Reply {
            code: code(answer.what),
            field: numbers(answer.what),
            wakes: answer.wakes,
            retired: answer.retired,
        }
    }
}

impl Reply {
    // An answer with a code alone: a number, as it is printed, since no answer of a queue has the code of a bad line.
    pub(crate) fn bare(code: u32) -> Reply
        ensures { result ≡ bare code }
    {
        Reply {
            code,
            field: ArrayVec::new(),
            wakes: Wakes::none(),
            retired: None,
        }
    }

    // The answer, to be shown.
    #[tactic(auto, unfolding(wakes::specs::Tokens::tokens_of))]
    pub(crate) fn shown(&self) -> lines::Answer<'_>
        ensures { told result ≡ self.now }
    {
        lines::Answer {
            code: self.code,
            field: self.field.as_slice(),
            wakes: self.wakes.as_slice(),
            retired: self.retired,
        }
    }
}
