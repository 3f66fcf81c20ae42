// A program's session (document 01): what is read from standard input is answered on standard output, turn after turn. Only the reading and
// the writing are here; `lines` has the rest.
#![tactic(auto)]

ghost use Rattle.std.specs.Prelude.{◌≡◌, ◌≢◌, ◌+◌, ◌≤◌, ◌<◌, ◌↔◌, length, take, drop, Ok, Err, MatchResult};
ghost use Rattle.std.specs.IoError.{error_kind};
ghost use Rattle.lines.specs.Lines.{input_room};
ghost use Rattle.lines.specs.Turns.{most_kept, turn_of, Took};
ghost use Rattle.sessions.specs.Runs.{IsClosed, OneTurn, Ran, HasRun};

use lines::Turned;
use replies::Program;
use std::io;
use std::io::{ErrorKind, Read, Write};

// The size of the input's buffer, which holds what is kept and what a read gives.
const INPUT: usize = 65536;

// The room for the replies to a full buffer.
const ROOM: usize = lines::GROWTH * INPUT + lines::REPLY_ROOM;

// The most reads that are made. Nobody meets this limit: at a read a nanosecond it takes 584 years.
const MOST_READS: u64 = u64::MAX;

// The exit status where nobody reads the replies: 128 and 13, which a shell shows of a program that SIGPIPE (13) has ended.
const CLOSED: u8 = 141;

// How a session ends.
#[derive(Clone, Copy, PartialEq, Eq)]
pub enum Ending {
    // The input has ended, and every line has its reply.
    Answered,
    // A read failed.
    Unread,
    // A write failed; true where the input had ended.
    Unwritten(bool),
    // A write failed because nobody reads the replies; true where the input had ended.
    Closed(bool),
    // `MOST_READS` reads were made.
    Limit,
}

// How many bytes a read gave that answered `got`. One that fails ends the session, and not the input: a line of which only the start was read
// gets no reply.
fn heard(got: io::Result<usize>) -> Result<usize, Ending>
    ensures { MatchResult got (λ n. result ≡ Ok n) (λ _. result ≡ Err Ending.Unread) }
{
    got.map_err(|_| Ending::Unread)
}

// How a session ends with a write that failed. `ended` says whether the input had ended.
fn unwritten(error: io::Error, ended: bool) -> Ending
    ensures closed { result ≡ Ending.Closed ended ↔ error_kind error ≡ ErrorKind.BrokenPipe }
    ensures other { error_kind error ≢ ErrorKind.BrokenPipe → result ≡ Ending.Unwritten ended }
{
    match error.kind() {
        ErrorKind::BrokenPipe => Ending::Closed(ended),
        _ => Ending::Unwritten(ended),
    }
}

// The turn for the n bytes that a read has put behind the first `kept` bytes of the input.
fn turn_for(program: Program, n: usize, input: &mut [u8], kept: usize, out: &mut [u8]) -> Turned
    requires { (kept + n ≤ length input.old) × (input_room input.old ≤ length out.old) }
    ensures { Took (turn_of program (take kept input.old) (take n (drop kept input.old))) input.old out.old result input.new out.new }
{
    let end = kept + n;
    lines::turn(program, &mut input[..end], kept, out)
}

// One turn: a read behind the kept bytes, and a write of the replies. It answers how many bytes are kept then, or how the session ends.
fn one_turn<R: Read, W: Write>(
    program: Program,
    from: &mut R,
    to: &mut W,
    input: &mut [u8],
    kept: usize,
    out: &mut [u8],
) -> Result<usize, Ending>
    requires { (kept ≤ most_kept) × (most_kept < length input.old) × (input_room input.old ≤ length out.old) }
    ensures { OneTurn program (take kept input.old) result input.new out.new
        (R.remaining from.old) (R.remaining from.new) (W.contents to.old) (W.contents to.new) }
{
    let n = heard(from.read(&mut input[kept..]))?;
    let turned = turn_for(program, n, input, kept, out);
    if let Err(e) = to.write_all(&out[..turned.written]) {
        return Err(unwritten(e, turned.kept.is_none()));
    }
    turned.kept.ok_or(Ending::Answered)
}

// When the program stops: how many reads it has made, and how the session ended.
#[derive(Clone, Copy)]
pub struct Stopped {
    pub reads: u64,
    pub how: Ending,
}

// Turn after turn, to the end of the input. It stops before that only where a read or a write fails, or after `MOST_READS` reads.
fn all_turns<R: Read, W: Write>(
    program: Program,
    from: &mut R,
    to: &mut W,
    input: &mut [u8],
    out: &mut [u8],
) -> Stopped
    requires { (most_kept < length input.old) × (input_room input.old ≤ length out.old) }
    ensures { Ran program result out.new (R.remaining from.old) (W.contents to.old) (W.contents to.new) }
{
    let mut kept = 0;
    for reads in 0..MOST_READS {
        match one_turn(program, from, to, input, kept, out) {
            Ok(n) => kept = n,
            Err(how) => {
                let reads = reads + 1;
                return Stopped { reads, how };
            }
        }
    }
    Stopped {
        reads: MOST_READS,
        how: Ending::Limit,
    }
}

// So many zeros. A literal `[0; N]` in `run` would have the check count them.
fn zeros<const N: usize>() -> [u8; N]
    ensures { length result ≡ N }
{
    [0; N]
}

// Where not every line has its reply, says so on standard error: `unwritten` where a write failed, `unread` where a read did. Where nobody
// reads the replies, nothing is said.
fn tell<E: Write>(how: Ending, errors: &mut E, unwritten: &[u8], unread: &[u8]) {
    let _ = match how {
        Ending::Unwritten(_) => errors.write_all(unwritten),
        Ending::Unread | Ending::Limit => errors.write_all(unread),
        Ending::Answered | Ending::Closed(_) => Ok(()),
    };
}

// A program's whole session, and the line that is told where it failed.
pub fn run<R: Read, W: Write, E: Write>(
    program: Program,
    from: &mut R,
    to: &mut W,
    errors: &mut E,
    unwritten: &[u8],
    unread: &[u8],
) -> Stopped
    ensures { HasRun program result (R.remaining from.old) (W.contents to.old) (W.contents to.new) }
{
    let mut input = zeros::<INPUT>();
    let mut out = zeros::<ROOM>();
    let stopped = all_turns(program, from, to, &mut input, &mut out);
    tell(stopped.how, errors, unwritten, unread);
    stopped
}

// The exit status that a session ends with: 0, every line has its reply; 141, nobody reads the replies; 1, another write or a read failed.
pub fn status(stopped: Stopped) -> u8
    ensures answered { result ≡ 0 ↔ stopped.how ≡ Ending.Answered }
    ensures closed { result ≡ 141 ↔ IsClosed stopped.how }
    ensures failed { stopped.how ≢ Ending.Answered → ¬ (IsClosed stopped.how) → result ≡ 1 }
{
    match stopped.how {
        Ending::Answered => 0,
        Ending::Closed(_) => CLOSED,
        Ending::Unread | Ending::Unwritten(_) | Ending::Limit => 1,
    }
}
