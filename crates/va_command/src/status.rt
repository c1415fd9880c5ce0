//! How a command ends.
ghost use Rattle.std.specs.Prelude.{◌≡◌};
ghost use Rattle.va_command.specs.Status.{number_of};

/// How a command ends.
#[derive(Clone, Copy, Debug, PartialEq, Eq)]
pub enum Status {
    /// The whole output is written.
    Done,
    /// A fault stands in what was read. Its line is written to `err`.
    Refused,
    /// The words make no request. The usage line is written to `err`.
    Usage,
    /// The file that the words name is not there.
    NoFile,
    /// A read failed.
    ReadFault,
    /// The sink failed to which a text was due.
    WriteFault,
    /// Memory was refused.
    NoMemory,
}

impl Status {
    /// The status with which the program ends.
    pub fn number(self) -> u8
        ensures { result ≡ number_of self }
    {
        match self {
            Status::Done => 0,
            Status::Refused => 1,
            Status::Usage => 2,
            Status::NoFile => 3,
            Status::ReadFault => 4,
            Status::WriteFault => 5,
            Status::NoMemory => 7,
        }
    }
}
