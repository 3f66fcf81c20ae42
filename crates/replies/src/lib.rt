// The reply to one line: `B`, `T`, `R`, `N` or `X` of tagline (document 01), `I`, `T`, `N` or `X` of identity (document 02, C-16).
#![tactic(auto)]

mod choice;
mod hex;
mod identity;
mod letters;

ghost use Rattle.std.specs.Prelude.{◌≤◌, length};
ghost use Rattle.replies.specs.Programs.{reply_of};
ghost use Rattle.replies.specs.Writing.{Wrote, reply_room};

pub use choice::{MOST_CHARACTERS, REPLY_ROOM};

// Whose reply is meant. An enum, and not a trait with two types: there are these two and no others, and the theorems (`in_pieces` of lines)
// are of any program as a value.
#[derive(Clone, Copy)]
pub enum Program {
    Tagline,
    Identity,
}

// The program's reply to any line, without a line feed.
pub fn write(program: Program, line: &[u8], out: &mut [u8]) -> usize
    requires { reply_room ≤ length out.old }
    ensures { Wrote (reply_of program line.now) out.old result out.new }
{
    match program {
        Program::Tagline => choice::write(line, out),
        Program::Identity => identity::write(line, out),
    }
}
