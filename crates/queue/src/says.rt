// Answers, made apart from the queue that stands beside them. A call takes its refusal by `match` and not by `?`, since an answer holds its error itself,
// and may hand a token back beside it.
ghost use Rattle.std.specs.Prelude.{[], ◌≡◌, Ok, option_to_list};
ghost use Rattle.wakes.specs.Tokens.{tokens_of};
ghost use Rattle.queue.specs.declared.Success.TheVariants.{Done};
ghost use Rattle.queue.specs.Steps.{token_of, number_told, Says};

use crate::{Answer, Error, Success};
use side::Woken;
use wakes::Wakes;

// The tokens to wake where at most one operation was called.
fn wakes_of(woken: Option<Woken>) -> Wakes
    ensures { tokens_of result ≡ token_of woken }
{
    woken.map_or(Wakes::none(), |called| Wakes::one(called.token))
}

pub(crate) fn say(
    what: Result<Success, Error>,
    woken: Option<Woken>,
    retired: Option<u32>,
) -> Answer
    ensures { Says what (token_of woken) (option_to_list retired) result }
{
    Answer {
        what,
        wakes: wakes_of(woken),
        retired,
    }
}

// Done, with the operation that this called.
pub(crate) fn done(woken: Option<Woken>) -> Answer
    ensures { Says (Ok Done) (token_of woken) [] result }
{
    say(Ok(Success::Done), woken, None)
}

// An answer that wakes nobody and retires nothing.
pub(crate) fn plain(what: Result<Success, Error>) -> Answer
    ensures { Says what [] [] result }
{
    say(what, None, None)
}

// The number of a new record, or why there is none.
pub(crate) fn given(number: Result<u32, Error>) -> Answer
    ensures { Says (number_told number) [] [] result }
{
    plain(number.map(|n| Success::Given(n)))
}
