// identity (document 02, C-16): lines in, a reply to each out.
#![tactic(auto)]

use replies::Program;
use std::process::ExitCode;

// Where a read or a write fails, a line on standard error says so, and so does the exit status. Each program is a `main` of its own, with its
// own name in what it says.
fn main(rt: HostRuntime) -> ExitCode {
    let stopped = sessions::run(
        Program::Identity,
        &mut rt.stdin(),
        &mut rt.stdout(),
        &mut rt.stderr(),
        b"identity: a write to standard output failed: replies are missing\n",
        b"identity: a read from standard input failed: not every line is answered\n",
    );
    ExitCode::from(sessions::status(stopped))
}
