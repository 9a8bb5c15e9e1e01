// Text put into a lent buffer.
ghost use Rattle.std.specs.Prelude.{◌≡◌, ◌+◌, ◌*◌, ◌≤◌, [], ◌∷◌, length};
ghost use Rattle.std.specs.Fmt.{decimal};
ghost use Rattle.lines.specs.Shown.{Put, Adds, decs, field_text, shown, told};

use crate::Answer;
use itoa::Buffer;

// The code of an answer that shows counts.
const STATUS: u32 = 4;

// A lent buffer, and where the text in it ends. No `Write`: its writes may fail, and here everything fits.
#[derive(Drop)]
struct Output<'a> {
    buffer: &'a mut [u8],
    end: usize,
}

impl Output<'_> {
    fn byte(&mut self, byte: u8)
        requires { self.old.end + 1 ≤ length self.old.buffer.now }
        ensures { Adds self.old self.new (byte ∷ []) }
    {
        self.buffer[self.end] = byte;
        self.end += 1;
    }

    fn bytes(&mut self, bytes: &[u8])
        requires { self.old.end + length bytes.now ≤ length self.old.buffer.now }
        ensures { Adds self.old self.new bytes.now }
    {
        let end = self.end + bytes.len();
        self.buffer[self.end..end].copy_from_slice(bytes);
        self.end = end;
    }

    // A number in decimal: 20 bytes at most.
    fn number(&mut self, number: u64)
        requires { self.old.end + 20 ≤ length self.old.buffer.now }
        ensures adds { Adds self.old self.new (decimal number) }
        ensures upper_bound { self.new.end ≤ self.old.end + 20 }
    {
        let mut digits = Buffer::new();
        self.bytes(digits.format(number).as_bytes());
    }

    // Numbers joined by commas, `-` for none.
    fn list(&mut self, numbers: &[u32])
        requires { self.old.end + 21 * length numbers.now + 1 ≤ length self.old.buffer.now }
        ensures adds { Adds self.old self.new (decs numbers.now) }
        ensures upper_bound { self.new.end ≤ self.old.end + 21 * length numbers.now + 1 }
    {
        let Some((first, others)) = numbers.split_first() else {
            return self.byte(b'-');
        };
        self.number(u64::from(*first));
        for other in others {
            self.byte(b',');
            self.number(u64::from(*other));
        }
    }

    // An answer's field. A status of five counts, as the definition's answer has them, is that of an unbounded queue: `-` stands in the place of
    // its free room. The code is a number here, as it is printed.
    fn field(&mut self, code: u32, field: &[u32])
        requires { self.old.end + 21 * length field.now + 3 ≤ length self.old.buffer.now }
        ensures adds { Adds self.old self.new (field_text code field.now) }
        ensures upper_bound { self.new.end ≤ self.old.end + 21 * length field.now + 3 }
    {
        if code == STATUS && field.len() == 5 {
            self.number(u64::from(field[0]));
            self.bytes(b",-,");
            return self.list(&field[1..]);
        }
        self.list(field);
    }
}

// Puts the line that shows an answer behind what `out` holds up to `at`: 1,024 bytes at most. The caller keeps the buffer, so the two come apart here.
pub fn print(out: &mut [u8], at: usize, line: u64, answer: Answer) -> usize
    requires { at + 1024 ≤ length out.old }
    ensures put { Put out.old out.new at result (shown line (told answer.entry)) }
    ensures upper_bound { result ≤ at + 1024 }
{
    let retired = answer.retired.as_slice();
    let mut output = Output {
        buffer: out,
        end: at,
    };
    output.number(line);
    output.byte(b' ');
    output.number(u64::from(answer.code));
    output.byte(b' ');
    output.field(answer.code, answer.field);
    output.byte(b' ');
    output.list(answer.wakes);
    output.byte(b' ');
    output.list(retired);
    output.byte(b'\n');
    output.end
}
