// The free slots of a queue, counted where it is bounded: `available` of src/mpmc/queue.rs of asyncband 0.7.4.
ghost use Rattle.std.specs.Prelude.{◌≡◌, false, ◌+◌, ◌-◌};
ghost use Rattle.model.specs.Queue as model;
ghost use Rattle.queue.specs.Meaning.{room_of};
ghost use Rattle.queue.specs.Steps.{Small};

// Is no slot free? An unbounded queue is never full.
pub(crate) fn is_full(available: Option<u32>) -> bool
    ensures { result ≡ model.none_of (room_of available) }
{
    available == Some(0)
}

// One slot less, where slots are counted.
pub(crate) fn less(available: Option<u32>) -> Option<u32>
    requires { model.none_of (room_of available) ≡ false }
    ensures { room_of result ≡ model.recount (λ n. n - 1) (room_of available) }
{
    available.map(|n| n - 1)
}

// One slot more, where slots are counted.
pub(crate) fn more(available: Option<u32>) -> Option<u32>
    requires { Small available }
    ensures { room_of result ≡ model.recount (λ n. n + 1) (room_of available) }
{
    available.map(|n| n + 1)
}
