//! How a call ends.
ghost use Rattle.std.specs.Prelude.{◌≡◌};

/// How the top call ended.
#[derive(Clone, Copy, Debug, PartialEq, Eq)]
pub enum Status {
    /// The host script ran, and the whole report was written.
    Done,
    /// The words are no command's. The usage line was written, and nothing was read.
    Usage,
    /// The bytes read are no host script. Its one line was written.
    BadHost,
    /// The source failed. Nothing was written.
    ReadFault,
    /// The sink failed. A prefix of the text was written.
    WriteFault,
    /// No memory was found. Nothing was written.
    NoMemory,
}

impl Status {
    ghost use Rattle.ivm_cli.specs.Status.{exit_code};

    /// The exit status of the program.
    pub fn code(self) -> u8
        ensures { result ≡ exit_code self }
    {
        match self {
            Status::Done => 0,
            Status::Usage => 2,
            Status::BadHost => 3,
            Status::ReadFault => 4,
            Status::WriteFault => 5,
            Status::NoMemory => 6,
        }
    }
}
