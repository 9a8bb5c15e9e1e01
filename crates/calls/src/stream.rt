// The program's work on the bytes of one read. What stands between two reads is a State.
ghost use Rattle.std.specs.Prelude.{◌≡◌, ◌≢◌, ◌+◌, ◌≤◌, ◌<◌, ◌^◌, length, take};
ghost use Rattle.io.specs.Counts.{IsPrefixLen};
ghost use Rattle.lines.specs.Text.{LF};
ghost use Rattle.lines.specs.Shown.{Put};
ghost use Rattle.calls.specs.Stream.{St, Step, emit, next, finish, start};

use crate::current::Current;
use arrayvec::ArrayVec;
use std::marker::Model;

// The bytes that are kept of a line. One that can be read has 64 at most, so a line of 65 is bad already, whatever follows.
const KEPT_BYTES: usize = 65;

// The bytes of an answer, at most. That a buffer holds them is asked of a slice, as the library's reads and writes take one.
const LONGEST_ANSWER: usize = 1024;

// The lines answered, the first bytes of the line that is being read, and the current queue.
#[derive(Drop)]
pub struct State {
    count: u64,
    part: ArrayVec<u8, KEPT_BYTES>,
    current: Current,
}

impl Model for State {
    ghost Value = { St };

    ghost view = { λ s. record { count = s.count; part = s.part.items; queue = s.current } };
}

// The part of the chunk that is still to be read, and how many bytes were put into the buffer.
#[derive(Clone, Copy)]
pub struct Fed<'a> {
    pub rest: &'a [u8],
    pub put: usize,
}

impl State {
    pub(crate) fn begin() -> State
        ensures { result ≡ start }
    {
        State {
            count: 0,
            part: ArrayVec::new(),
            current: Current::nothing(),
        }
    }

    // Answers the line that was read, behind what `out` holds up to `at`, and begins the next.
    fn end_line(&mut self, out: &mut [u8], at: usize) -> usize
        requires in_bounds { at + 1024 ≤ length out.old }
        requires count_bound { self.old.count + 1 < 2 ^ 64 }
        ensures state { self.new ≡ next self.old LF }
        ensures put { Put out.old out.new at result (emit self.old LF) }
        ensures room { result ≤ at + 1024 }
    {
        self.count += 1;
        let line = lines::parse(self.part.as_slice());
        self.part.clear();
        let reply = self.current.answer(line);
        lines::print(out, at, self.count, reply.shown())
    }

    // Keeps a byte of the line that is being read.
    fn keep(&mut self, byte: u8)
        requires { byte ≢ LF }
        ensures { self.new ≡ next self.old byte }
    {
        if !self.part.is_full() {
            self.part.push(byte);
        }
    }

    // Reads the chunk until it ends or the buffer may not hold one more answer. What was put and what the rest of the chunk will put is
    // together what the chunk puts.
    #[tactic(auto, unfolding(crate::specs::Stream::fed, crate::specs::Stream::text))]
    pub(crate) fn feed<'a>(&mut self, chunk: &'a [u8], out: &mut [u8]) -> Fed<'a>
        requires in_bounds { 1024 ≤ length out.old }
        requires chunk_bound { self.old.count + length chunk.now < 2 ^ 64 }
        ensures { Step chunk.now out.new self.old self.new result.rest.now result.put }
    {
        let mut rest = chunk;
        let mut put = 0;
        while let [byte, after @ ..] = rest {
            if *byte != b'\n' {
                self.keep(*byte);
            } else if out.len() - put < LONGEST_ANSWER {
                break;
            } else {
                put = self.end_line(out, put);
            }
            rest = after;
        }
        Fed { rest, put }
    }

    // What is written at the input's end: the answer to a last line that has no LF.
    #[tactic(auto, unfolding(crate::specs::Stream::finish))]
    pub(crate) fn last(mut self, out: &mut [u8]) -> usize
        requires in_bounds { 1024 ≤ length out.old }
        requires count_bound { self.count + 1 < 2 ^ 64 }
        ensures within { IsPrefixLen result out.new }
        ensures wrote { take result out.new ≡ finish self }
    {
        if self.part.is_empty() {
            return 0;
        }
        self.end_line(out, 0)
    }
}
