//! The names of commands.

ghost use Rattle.std.specs.Prelude.{◌≡◌, ◌↔◌, IsTrue};
ghost use Rattle.step_commands.specs.Commands.{IsBeginning, word_of};

/// The names of commands, but for a turn, whose command is a number.
#[derive(Clone, Copy, Debug, PartialEq, Eq)]
pub enum Name {
    Go,
    Back,
    Until,
    Ps,
    Pipes,
    Fds,
    Files,
    Out,
    Why,
    Answers,
    Watch,
    Schedule,
    Save,
    Help,
    Quit,
}

/// All names.
pub const NAMES: [Name; 15] = [
    Name::Go,
    Name::Back,
    Name::Until,
    Name::Ps,
    Name::Pipes,
    Name::Fds,
    Name::Files,
    Name::Out,
    Name::Why,
    Name::Answers,
    Name::Watch,
    Name::Schedule,
    Name::Save,
    Name::Help,
    Name::Quit,
];

impl Name {
    /// The word of a line that names the command.
    pub fn word(self) -> &'static str
        ensures { result.now ≡ word_of self }
    {
        match self {
            Name::Go => "go",
            Name::Back => "back",
            Name::Until => "until",
            Name::Ps => "ps",
            Name::Pipes => "pipes",
            Name::Fds => "fds",
            Name::Files => "files",
            Name::Out => "out",
            Name::Why => "why",
            Name::Answers => "answers",
            Name::Watch => "watch",
            Name::Schedule => "schedule",
            Name::Save => "save",
            Name::Help => "help",
            Name::Quit => "quit",
        }
    }

    /// The whole command: its word and what stands behind it.
    pub fn usage(self) -> &'static str {
        match self {
            Name::Go => "go N",
            Name::Back => "back, back N",
            Name::Until => "until out, until sleep N, until exit N, until end",
            Name::Fds => "fds N",
            Name::Why => "why N",
            Name::Answers => "answers, answers N",
            Name::Watch => "watch answers, watch off",
            Name::Save => "save FILE",
            other => other.word(),
        }
    }

    /// What the command does, in a line.
    pub fn help(self) -> &'static str {
        match self {
            Name::Go => "turns of process N, until it sleeps or exits",
            Name::Back => "takes the last turn back, or the last N",
            Name::Until =>
                "turns in the kernel's own order until the output grows, or N sleeps or exits",
            Name::Ps => "the processes, and what each does next",
            Name::Pipes => "the pipes: how full they are, and who holds their ends",
            Name::Fds => "what process N has open",
            Name::Files => "the files",
            Name::Out => "the output and the diagnostics so far",
            Name::Why => "why process N can't go on, and who could wake it; or that it can",
            Name::Answers =>
                "what can still come out from here, by every order, through N states at most",
            Name::Watch => "prints these answers after each turn, or no more",
            Name::Schedule => "what happened so far, as `xvsh replay` takes it",
            Name::Save => "writes that to FILE",
            Name::Help => "the commands",
            Name::Quit => "ends the program",
        }
    }

    /// Whether the bytes are a beginning of the word, or all of it.
    pub fn begins_with(self, bytes: &[u8]) -> bool
        ensures { IsTrue result ↔ IsBeginning bytes.now (word_of self) }
    {
        self.word().as_bytes().starts_with(bytes)
    }
}
