// A call asks for a number that is live. What is told of another: that it was given and is closed, or that it was never given. The table is asked
// for that only then.
ghost use Rattle.std.specs.Prelude.{◌≡◌};
ghost use Rattle.model.specs.Table.{was_closed};
ghost use Rattle.queue.specs.Steps.{dead_by, live_in, Finds};

use crate::Error;
use side::{Entry, Side};
use tables::Numbered;

// What is told of a number that is not live.
fn dead<T: Numbered>(table: T, n: u32) -> Error
    ensures { result ≡ dead_by (was_closed (T.table_of table) n) }
{
    if table.closed(n) {
        return Error::Closed;
    }
    Error::NoHandle
}

// Is it the number of a live handle or permit?
pub(crate) fn live<T: Numbered>(table: T, n: u32) -> Result<(), Error>
    ensures { result ≡ live_in (T.table_of table) n }
{
    if table.has(n) {
        return Ok(());
    }
    Err(dead(table, n))
}

// The operation with this number, if it is open. Later steps take both, and ask by `Finds` that they belong together.
pub(crate) fn open_operation(ops: Side, n: u32) -> Result<Entry, Error>
    ensures { Finds ops n result }
{
    ops.get(n).ok_or_else(|| dead(ops, n))
}
