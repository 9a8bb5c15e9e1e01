// What a line says, by the name of the call and the numbers behind it.
ghost use Rattle.std.specs.Prelude.{◌≡◌, [], ◌∷◌, unwrap_or};
ghost use Rattle.lines.specs.Text.{words};
ghost use Rattle.lines.specs.Rows.{meaning, said as Rows·said, parsed};

use crate::Line;
use crate::text::number;
use model::Call;

// The bytes of the longest line that can be read.
const LONGEST: usize = 64;

// A name with no number behind it.
#[tactic(auto, unfolding(crate::specs::Rows::table, crate::specs::Rows::place))]
fn alone(name: &str) -> Line
    ensures { result ≡ meaning name.now [] }
{
    match name {
        "make" => Line::Make(8),
        "make-u" => Line::MakeU,
        "status" => Line::Call(Call::Status),
        _ => Line::Bad,
    }
}

// A name with one number behind it: a capacity, or the number of a record.
#[tactic(auto, unfolding(crate::specs::Rows::table, crate::specs::Rows::place))]
fn with_one(name: &str, number: u32) -> Line
    ensures { result ≡ meaning name.now (number ∷ []) }
{
    let call = match name {
        "make" => return Line::Make(number),
        "clone-s" => Call::CloneS(number),
        "clone-r" => Call::CloneR(number),
        "try-res" => Call::TryRes(number),
        "reserve" => Call::Reserve(number),
        "recv" => Call::Recv(number),
        "cancel-out" => Call::CancelOut(number),
        "permit-drop" => Call::PermitDrop(number),
        "try-recv" => Call::TryRecv(number),
        "cancel-in" => Call::CancelIn(number),
        "drop-s" => Call::DropS(number),
        "drop-r" => Call::DropR(number),
        _ => return Line::Bad,
    };
    Line::Call(call)
}

// A name with two: the number of a record, and a value or a token.
#[tactic(auto, unfolding(crate::specs::Rows::table, crate::specs::Rows::place))]
fn with_two(name: &str, number: u32, other: u32) -> Line
    ensures { result ≡ meaning name.now (number ∷ other ∷ []) }
{
    match name {
        "try-send" => Line::Call(Call::TrySend(number, other)),
        "send" => Line::Call(Call::Send(number, other)),
        "poll-out" => Line::Call(Call::PollOut(number, other)),
        "permit-send" => Line::Call(Call::PermitSend(number, other)),
        "poll-in" => Line::Call(Call::PollIn(number, other)),
        _ => Line::Bad,
    }
}

// What the words of a line say, or nothing where a number cannot be read: `parse` makes that a bad line too.
fn said(text: &str) -> Option<Line>
    ensures { unwrap_or result Line.Bad ≡ Rows·said (words text.now) }
{
    let Some((name, numbers)) = text.split_once(' ') else {
        return Some(alone(text));
    };
    let Some((first, second)) = numbers.split_once(' ') else {
        return Some(with_one(name, number(numbers)?));
    };
    Some(with_two(name, number(first)?, number(second)?))
}

// Reads a line, its LF taken off.
#[tactic(auto, using(crate::proofs::Reading::parsed_long, crate::proofs::Reading::parsed_short, crate::proofs::Reading::parsed_unreadable))]
pub fn parse(line: &[u8]) -> Line
    ensures { result ≡ parsed line.now }
{
    if LONGEST < line.len() {
        return Line::Bad;
    }
    match std::str::from_utf8(line) {
        Ok(text) => said(text).unwrap_or(Line::Bad),
        Err(_) => Line::Bad,
    }
}
