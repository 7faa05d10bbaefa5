//! The six programs by their names.

ghost use Rattle.std.specs.Prelude.{◌≡◌};

/// One of the six programs that a command may run, with the xv6 file that it follows.
#[derive(Clone, Copy, Debug, PartialEq, Eq)]
pub enum Program {
    /// `user/cat.c`
    Cat,
    /// `user/echo.c`
    Echo,
    /// `user/grep.c`
    Grep,
    /// Own.
    Head,
    /// Own.
    Tee,
    /// `user/wc.c`
    Wc,
}

impl Program {
    ghost use Rattle.prog_parts.specs.Program.{program_of};

    /// The program of exactly this name, if there is one (own; xv6 looks a file up).
    pub fn named(name: &[u8]) -> Option<Program>
        ensures { result ≡ program_of name.now }
    {
        if name == b"cat".as_slice() {
            Some(Program::Cat)
        } else if name == b"echo".as_slice() {
            Some(Program::Echo)
        } else if name == b"grep".as_slice() {
            Some(Program::Grep)
        } else if name == b"head".as_slice() {
            Some(Program::Head)
        } else if name == b"tee".as_slice() {
            Some(Program::Tee)
        } else if name == b"wc".as_slice() {
            Some(Program::Wc)
        } else {
            None
        }
    }
}
