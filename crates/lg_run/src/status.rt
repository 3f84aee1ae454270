//! How a run ends.
ghost use Rattle.std.specs.Prelude.{◌≡◌};

/// How a run ends.
#[derive(Clone, Copy, Debug, PartialEq, Eq)]
pub enum Status {
    /// The whole document was written.
    Done,
    /// A text is refused.
    BadInput,
    /// The words of the command line are not in form.
    Usage,
    /// A file cannot be read.
    ReadFault,
    /// The output cannot be written.
    WriteFault,
    /// Memory ran out.
    NoMemory,
}

impl Status {
    ghost use Rattle.lg_run.specs.Statuses.{exit_status};

    /// The exit status of the program: 0 for Done, 1 for BadInput, 2 for Usage, 3 for ReadFault, 4 for WriteFault and
    /// 5 for NoMemory.
    pub fn code(self) -> u8
        ensures { result ≡ exit_status self }
    {
        self as u8
    }
}
