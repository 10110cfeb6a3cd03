//! How a call ended.
ghost use Rattle.std.specs.Prelude.{◌≡◌};
ghost use Rattle.redleaf_app.specs.Statuses.{exit_status};

/// How a call ended, in the order of the exit statuses.
#[derive(Clone, Copy, Debug, PartialEq, Eq)]
pub enum Status {
    /// 0: the whole text was written.
    Done = 0,
    /// 1: the input is refused, and the line and the rule were written.
    Refused = 1,
    /// 2: the words are no form of a command. Nothing was read or written.
    Usage = 2,
    /// 3: the source failed. Nothing was written.
    ReadFault = 3,
    /// 4: the sink failed. A front of the text was written.
    WriteFault = 4,
    /// 5: memory ran out. Nothing was written.
    Memory = 5,
    /// 6: the history was full before every client was done. The whole text of the run so far was
    /// written.
    Long = 6,
    /// 7: the input is longer than a bundle may be. Nothing was written.
    TooLong = 7,
}

impl Status {
    /// The exit status of a program that ended so.
    pub fn exit_status(self) -> u8
        ensures { result ≡ exit_status self }
    {
        self as u8
    }
}
