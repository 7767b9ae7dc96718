// The schedule program: a block of standard input is read, answered and written to standard output,
// until the input ends. What is printed is defined and proved in crates lines and transcript; here
// is only what the system does. A call that is interrupted is made again, and a write that took a
// part goes on behind it. The program's own status is 0, unless standard error fails too: one line
// there says how the run ended, unless all was answered.
#![tactic(auto)]

ghost use Rattle.std.specs.Prelude.{◌<◌, ◌≤◌, length, IfOk};

use session::{Buffers, Session};
use std::fmt::{self, Display};
use std::io::{self, ErrorKind, Print, Read};
use std::rt::{Stdin, Stdout};
use std::thread;

// A block of the input, and an output with room for its answers: a line has at least its newline,
// an answer at most 22 bytes.
const BLOCK: usize = 16384;

const OUT: usize = 360448;

// Why a run ended before all was answered.
#[derive(Clone, Copy)]
pub enum Failure {
    Refused,
    Unloaded,
    Unread,
    Unwritten,
}

impl Display for Failure {
    fn fmt<W: fmt::Write>(&self, f: &mut fmt::Formatter<W>) -> fmt::Result {
        match self {
            Failure::Refused => write!(f, "the first line is refused"),
            Failure::Unloaded => write!(f, "the export is refused"),
            Failure::Unread => write!(f, "the input cannot be read"),
            Failure::Unwritten => write!(f, "the output cannot be written"),
        }
    }
}

// Whether a call that failed is made again: it was interrupted, or the other side is not ready.
fn again(error: io::Error) -> bool {
    match error.kind() {
        ErrorKind::WouldBlock => {
            thread::yield_now();
            true
        }
        ErrorKind::Interrupted => true,
        _ => false,
    }
}

// 0..u64::MAX, here and below: each loop ends, and the input has no known length.

// The next bytes of the input: how many came, none at its end.
fn read(mut stdin: Stdin, input: &mut [u8]) -> Result<usize, Failure> {
    for _ in 0..u64::MAX {
        match stdin.read(input) {
            Ok(got) => return Ok(got),
            Err(error) => {
                if !again(error) {
                    return Err(Failure::Unread);
                }
            }
        }
    }
    Err(Failure::Unread)
}

// Writes a part of the bytes, of one at least: how many were taken.
fn write_some(stdout: Stdout, bytes: &[u8]) -> Result<usize, Failure>
    ensures some { IfOk result (λ put. 0 < put) }
    ensures within { IfOk result (λ put. put ≤ length bytes.now) }
{
    for _ in 0..u64::MAX {
        match stdout.write_some(bytes) {
            Ok(0) => return Err(Failure::Unwritten),
            Ok(put) => return Ok(put),
            Err(error) => {
                if !again(error) {
                    return Err(Failure::Unwritten);
                }
            }
        }
    }
    Err(Failure::Unwritten)
}

// Writes all of the bytes, a part after the other.
fn write(stdout: Stdout, bytes: &[u8]) -> Result<(), Failure> {
    let mut rest = bytes;
    while !rest.is_empty() {
        let put = write_some(stdout, rest)?;
        rest = &rest[put..];
    }
    Ok(())
}

// Writes what a block printed.
fn write_used(stdout: Stdout, out: &[u8], s: Session) -> Result<(), Failure> {
    let printed = out.get(..s.run.used).ok_or(Failure::Unwritten)?;
    write(stdout, printed)
}

// Reads, answers and writes, a block after the other.
fn serve(
    mut buffers: Buffers<'_>,
    input: &mut [u8],
    stdin: Stdin,
    stdout: Stdout,
) -> Result<(), Failure> {
    let mut s = transcript::start();
    for _ in 0..u64::MAX {
        let n = read(stdin, input)?;
        s = transcript::turn_in(&mut buffers, s, input, n);
        write_used(stdout, buffers.out, s)?;
        if transcript::is_stopped(s) {
            return Err(Failure::Unloaded);
        }
        if transcript::is_over(s) {
            return Err(Failure::Refused);
        }
        if n == 0 {
            return Ok(());
        }
    }
    Err(Failure::Unread)
}

fn main(rt: HostRuntime) -> io::Result<()> {
    // Kept: arrays, since there is no heap.
    let mut left = [0u16; rules::MOST_NODES];
    let mut right = [0u16; rules::MOST_NODES];
    let mut colour = [0u8; rules::MOST_NODES];
    let mut lefts = [0u32; rules::MOST_NODES];
    let mut rights = [0u32; rules::MOST_NODES];
    let mut line = [0u8; transcript::LINE];
    let mut out = [0u8; OUT];
    let mut input = [0u8; BLOCK];
    let buffers = Buffers {
        left: &mut left,
        right: &mut right,
        colour: &mut colour,
        lefts: &mut lefts,
        rights: &mut rights,
        line: &mut line,
        out: &mut out,
    };
    match serve(buffers, &mut input, rt.stdin(), rt.stdout()) {
        Ok(()) => Ok(()),
        Err(failure) => eprintln!(rt; "jenturik: {failure}"),
    }
}
