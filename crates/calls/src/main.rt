// The call program: standard input, one call a line, to standard output, one answer a line.
#![tactic(auto)]

mod answers;
mod current;
mod stream;

ghost use Rattle.std.specs.Prelude.{◌≡◌, ◌+◌, ◌≤◌, ◌<◌, ◌^◌, length, OnOk};
ghost use Rattle.io.specs.Counts.{IsPrefixLen};
ghost use Rattle.calls.specs.Stream.{fed};

use std::io;
use std::io::{Eprint, Print, Read};
use std::rt::HostRuntime;
use stream::State;

// The bytes of each of the two buffers: what one read takes at most, and what answers are gathered in.
const BUFFER: usize = 65536;

// A proved loop has to end, and nothing says that an input does. So the reads are counted, up to a number that no run comes to: 2 ^ 47, which
// with reads of 65,536 bytes also keeps the line number below 2 ^ 64.
const READS: u64 = 1 << 47;

// Says on standard error what failed, and why. Where that cannot be written either, there is nobody left to tell.
fn say(rt: &HostRuntime, what: &str, error: io::Error) {
    let _ = eprintln!(rt; "calls: cannot {what}: {error}");
}

// Reads once. The input's end is 0, and so is an error, which it says on standard error: both end the input, and nothing else sets them apart.
fn read_some(rt: &HostRuntime, buf: &mut [u8]) -> usize
    ensures { IsPrefixLen result buf.new }
{
    match rt.stdin().read(buf) {
        Ok(n) => n,
        Err(error) => {
            say(rt, "read", error);
            0
        }
    }
}

// Feeds the whole chunk, and writes a full buffer out as often as it takes; it stops where nothing can be written any more.
#[tactic(auto, unfolding(crate::specs::Stream::fed))]
fn drain(rt: &HostRuntime, state: &mut State, chunk: &[u8], out: &mut [u8]) -> io::Result<()>
    requires in_bounds { 1024 ≤ length out.old }
    requires chunk_bound { state.old.count + length chunk.now < 2 ^ 64 }
    ensures count_bound { state.new.count ≤ state.old.count + length chunk.now }
    ensures state { OnOk result (state.new ≡ fed state.old chunk.now) }
{
    let mut rest = chunk;
    while !rest.is_empty() {
        let fed = state.feed(rest, out);
        rest = fed.rest;
        rt.write_all(&out[..fed.put])?;
    }
    Ok(())
}

// Answers the whole input.
fn pump(rt: &HostRuntime, buf: &mut [u8], out: &mut [u8]) -> io::Result<()>
    requires buf_len_bound { length buf.old ≤ BUFFER }
    requires in_bounds { 1024 ≤ length out.old }
{
    let mut state = State::begin();
    for _read in 0..READS {
        let n = read_some(rt, buf);
        if n == 0 {
            break;
        }
        drain(rt, &mut state, &buf[..n], out)?;
    }
    let n = state.last(out);
    rt.write_all(&out[..n])
}

// An answer that cannot be written ends the program.
fn main(rt: HostRuntime) {
    let mut buf = [0u8; BUFFER];
    let mut out = [0u8; BUFFER];
    if let Err(error) = pump(&rt, &mut buf, &mut out) {
        say(&rt, "write", error);
    }
}
