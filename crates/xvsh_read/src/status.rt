//! With which status the program ends.
ghost use Rattle.std.specs.Prelude.{◌≡◌};
ghost use Rattle.xvsh_read.specs.Status.{check_status, status_code};

/// With which status the program ends (own).
#[derive(Clone, Copy, Debug, PartialEq, Eq)]
pub enum Status {
    /// What was asked for was done, and nothing was found amiss: 0.
    Done,
    /// Something can't be read, written or carried out: 1.
    Failed,
    /// The words are no command, or don't fit together: 2.
    Misused,
    /// Something was found amiss, such as that a script isn't settled: 3.
    Amiss,
    /// There was no room: something was full, too large or out of memory, or not everything was tried: 4.
    NoRoom,
}

impl Status {
    /// Whether all that was found is fine: `Done`, else `Amiss`.
    pub fn by(is_fine: bool) -> Status
        ensures { status_code result ≡ check_status is_fine }
    {
        if is_fine { Status::Done } else { Status::Amiss }
    }

    /// Its number.
    pub fn code(self) -> u8
        ensures { result ≡ status_code self }
    {
        match self {
            Status::Done => 0,
            Status::Failed => 1,
            Status::Misused => 2,
            Status::Amiss => 3,
            Status::NoRoom => 4,
        }
    }
}
