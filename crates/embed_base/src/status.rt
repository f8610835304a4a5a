ghost use Rattle.std.specs.Prelude.{◌≡◌};

/// How a run ended.
#[derive(Clone, Copy, PartialEq, Eq, Debug)]
pub enum Status {
    /// The script ran to its end.
    Done,
    /// An exception left the top-level script.
    Uncaught,
    /// The words are no command line of the program.
    Usage,
    /// The script's bytes are no script.
    ScriptRefused,
    /// A charge was above what was left of the budget.
    Budget,
    /// The script left the profile at a named place.
    Outside,
    /// A file couldn't be read.
    ReadFault,
    /// The transcript couldn't be written whole.
    WriteFault,
    /// Memory ran out.
    NoMemory,
    /// A file is longer than its limit.
    TooLong,
}

impl Status {
    ghost use Rattle.embed_base.specs.Names.{number_of};

    /// The number with which the program ends.
    pub fn number(self) -> u8
        ensures { result ≡ number_of self }
    {
        match self {
            Status::Done => 0,
            Status::Uncaught => 1,
            Status::Usage => 2,
            Status::ScriptRefused => 3,
            Status::Budget => 4,
            Status::Outside => 5,
            Status::ReadFault => 6,
            Status::WriteFault => 7,
            Status::NoMemory => 8,
            Status::TooLong => 9,
        }
    }
}
