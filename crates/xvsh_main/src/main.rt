//! The program `xvsh`.
#![tactic(auto)]

use std::io::{self, IsTerminal};
use std::process::ExitCode;
use xvsh_system::{Terminal, When};

fn main(rt: HostRuntime) -> io::Result<ExitCode> {
    let terminal = Terminal {
        err: rt.stderr(),
        reads: rt.stdin().is_terminal(),
        writes: rt.stdout().is_terminal(),
        shows: rt.stderr().is_terminal(),
        colours: When::Auto,
    };
    xvsh_system::run(&rt, &mut rt.stderr(), terminal)
}
