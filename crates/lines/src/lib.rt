// The lines of a program (document 01), each to its reply; and the turns of a session, in which an input is read in pieces of any size. Nothing
// here reads or writes: a program does, and hands over what each read gave.
#![tactic(auto)]

ghost use Rattle.std.specs.Prelude.{◌≡◌, ◌+◌, ◌*◌, ◌≤◌, ◌<◌, leb, length, drop, MatchOption};
ghost use Rattle.rules.specs.Bytes.{upto};
ghost use Rattle.replies.specs.Writing.{Wrote, reply_room};
ghost use Rattle.lines.specs.Lines.{feed, printed, output_of, if_room, growth, input_room};
ghost use Rattle.lines.specs.Turns.{whole, kept, end_reply, turn_at, seen, Took};

use replies::Program;
pub use replies::REPLY_ROOM;

// A reply with its line feed is at most so many times as long as its line with its own.
pub const GROWTH: usize = 4;

// At most so many bytes are kept of a line that has not ended: one more than a line may have. A line that long is answered X, whatever follows.
const MOST_KEPT: usize = replies::MOST_CHARACTERS + 1;

// Writes the reply to a line, with a line feed, at the output's start, and answers its length. An output shorter than `REPLY_ROOM` gets nothing.
pub fn reply(program: Program, line: &[u8], out: &mut [u8]) -> usize
    ensures { Wrote (if_room reply_room out.old (printed program line.now)) out.old result out.new }
{
    if out.len() < REPLY_ROOM {
        return 0;
    }
    let n = replies::write(program, line, out);
    out[n] = b'\n';
    n + 1
}

// Writes the reply to the bytes behind the input's last line feed, if there are any. Their number is compared, and not `is_empty` asked, since
// `empty_last_line_answered` (must-fail) changes it.
fn end_reply(program: Program, rest: &[u8], out: &mut [u8]) -> usize
    requires { reply_room ≤ length out.old }
    ensures { Wrote (end_reply program rest.now) out.old result out.new }
{
    if rest.len() == 0 {
        return 0;
    }
    reply(program, rest, out)
}

// How long the line is that begins where `rest` does, if it has ended: so many bytes stand before the next line feed.
fn line_length(rest: &[u8]) -> Option<usize>
    ensures { MatchOption result (upto feed rest.now ≡ rest.now) (λ n. (n ≡ length (upto feed rest.now)) × (n < length rest.now)) }
{
    rest.iter().position(|b| *b == b'\n')
}

// How many bytes of the input were answered, and how many bytes were written for them.
#[derive(Drop)]
struct Done {
    read: usize,
    written: usize,
}

// Writes the replies to all lines of the input that have ended, one after the other from the output's start on.
fn answer_ended(program: Program, input: &[u8], out: &mut [u8]) -> Done
    requires { input_room input.now ≤ length out.old }
    ensures read_value { result.read ≡ length (whole input.now) }
    ensures wrote { Wrote (output_of program (whole input.now)) out.old result.written out.new }
{
    let mut rest = input;
    let mut written = 0;
    while let Some(n) = line_length(rest) {
        written += reply(program, &rest[..n], &mut out[written..]);
        rest = &rest[n + 1..];
    }
    let read = input.len() - rest.len();
    Done { read, written }
}

// Moves the bytes from index `from` on to the input's start, at most `MOST_KEPT` of them, and answers their number.
fn hold(input: &mut [u8], from: usize) -> usize
    requires { from ≤ length input.old }
    ensures { Wrote (kept from input.old) input.old result input.new }
{
    let n = MOST_KEPT.min(input.len() - from);
    input.copy_within(from..from + n, 0);
    n
}

// Whether an output of so many bytes has the room for the replies to an input of so many.
fn has_room(input: usize, out: usize) -> bool
    ensures { result ≡ leb (growth * input + reply_room) out }
{
    if out < REPLY_ROOM {
        return false;
    }
    input <= (out - REPLY_ROOM) / GROWTH
}

// What a turn leaves: how many bytes are kept at the input's start, unless the input has ended; and how many were written at the output's.
#[derive(Drop)]
pub struct Turned {
    pub kept: Option<usize>,
    pub written: usize,
}

// One turn of a session. The first `kept` bytes of the input are those that the turn before kept, and the others were just read. If there are
// no others, the input has ended. An output shorter than `GROWTH` times the input and `REPLY_ROOM` more gets nothing: the turn is then that of
// an empty input, and so the last.
pub fn turn(program: Program, input: &mut [u8], kept: usize, out: &mut [u8]) -> Turned
    ensures { Took (turn_at program kept (seen input.old out.old)) input.old out.old result input.new out.new }
{
    if !has_room(input.len(), out.len()) {
        return Turned {
            kept: None,
            written: 0,
        };
    }
    if input.len() <= kept {
        let written = end_reply(program, input, out);
        return Turned {
            kept: None,
            written,
        };
    }
    let done = answer_ended(program, input, out);
    let held = hold(input, done.read);
    Turned {
        kept: Some(held),
        written: done.written,
    }
}
