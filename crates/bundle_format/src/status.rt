//! How a call ended.
ghost use Rattle.std.specs.Prelude.{◌≡◌};
ghost use Rattle.bundle_format.specs.Statuses.{exit_status};

/// How a call ended, in the order of the exit statuses. They are numbered as those of `redleaf`
/// are.
#[derive(Clone, Copy, Debug, PartialEq, Eq)]
pub enum Status {
    /// 0: the whole formatted bundle was written.
    Done,
    /// 1: rule 1 or 2 refuses the bundle, and the line and the rule were written.
    Refused,
    /// 2: there are words. Nothing was read or written.
    Usage,
    /// 3: the source failed. Nothing was written.
    ReadFault,
    /// 4: the sink failed. A front of the text was written.
    WriteFault,
    /// 5: memory ran out. Nothing was written.
    Memory,
    /// 7: the input is longer than a bundle may be. Nothing was written.
    TooLong,
    /// 8: as it would be written, a line or the bundle is longer than it may be. Nothing was
    /// written.
    TooWide,
}

impl Status {
    /// The exit status of a program that ended so.
    pub fn exit_status(self) -> u8
        ensures { result ≡ exit_status self }
    {
        match self {
            Status::Done => 0,
            Status::Refused => 1,
            Status::Usage => 2,
            Status::ReadFault => 3,
            Status::WriteFault => 4,
            Status::Memory => 5,
            Status::TooLong => 7,
            Status::TooWide => 8,
        }
    }
}
