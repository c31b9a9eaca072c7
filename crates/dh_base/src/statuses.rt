//! How a call of the program ends.

ghost use Rattle.std.specs.Prelude.{◌≡◌};
ghost use Rattle.dh_base.specs.Statuses.{code_of};

/// How a call of the program ends.
#[derive(Clone, Copy, Debug, PartialEq, Eq)]
pub enum Status {
    /// The whole answer was written. Exit status 0.
    Done,
    /// The program breaks a rule; its line was written. Exit status 1.
    Refused,
    /// The words are no job; the usage line was written. Exit status 2.
    Usage,
    /// The run ended in a fault; the report was written. Exit status 3.
    Faulted,
    /// The unchecked run spent more ports than a bank has; the report was written. Exit status 3.
    Stuck,
    /// The run had not ended by its limit; the report was written. Exit status 4.
    Going,
    /// A data file does not fit the program; its line was written. Exit status 5.
    BadData,
    /// A limit is exceeded; its line was written. Exit status 6.
    TooLarge,
    /// A file could not be read; nothing was written. Exit status 7.
    ReadFault,
    /// Writing failed; a prefix of the text was written. Exit status 8.
    WriteFault,
    /// Memory was refused; nothing was written, or a prefix of the text where the sink lacked it. Exit status 9.
    NoMemory,
}

impl Status {
    /// The exit status of the process.
    pub fn code(self) -> u8
        ensures { result ≡ code_of self }
    {
        match self {
            Status::Done => 0,
            Status::Refused => 1,
            Status::Usage => 2,
            Status::Faulted => 3,
            Status::Stuck => 3,
            Status::Going => 4,
            Status::BadData => 5,
            Status::TooLarge => 6,
            Status::ReadFault => 7,
            Status::WriteFault => 8,
            Status::NoMemory => 9,
        }
    }
}
