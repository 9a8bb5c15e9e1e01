// The text of the call program: a line is read, and an answer is shown.
#![tactic(auto)]

ghost use Rattle.std.specs.Prelude.{◌≤◌, length};

mod names;
mod show;
mod text;

pub use names::parse;
pub use show::print;

// What a line says: nothing that can be read (a case like the others, since it is answered as they are), a make with its capacity, a make-u, or
// another call with its numbers.
#[derive(Clone, Copy)]
pub enum Line {
    Bad,
    Make(u32),
    MakeU,
    Call(model::Call),
}

// An answer to be shown: its code, which is printed as a number, the numbers of its field, the tokens to be woken, and the token that was let go
// of. The two lists are no longer than the queue's can be, and so the text fits in 1,024 bytes.
#[derive(Clone, Copy)]
pub struct Answer<'a> {
    pub code: u32,
    pub field: &'a [u32],
    pub wakes: &'a [u32],
    pub retired: Option<u32>,
    pub ghost field_fits: { length field.now ≤ 6 },
    pub ghost wakes_fit: { length wakes.now ≤ 32 },
}
