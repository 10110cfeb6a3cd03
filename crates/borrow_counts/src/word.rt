//! The word of an object that may be lent.
ghost use Rattle.std.specs.Prelude.{◌≡◌, ◌<◌, ◌+◌, ◌==◌, ◌&&◌, true, false};

/// The greatest number of loans that an object may have at a time.
pub const MOST_LOANS: u32 = 1_048_576;

/// How often an object is lent, and whether its owner has ended.
#[derive(Clone, Copy, Debug, PartialEq, Eq)]
pub struct BorrowWord {
    pub count: u32,
    pub ended: bool,
}

impl BorrowWord {
    /// The word of an object that isn't lent and whose owner hasn't ended.
    pub fn new() -> BorrowWord
        ensures count { result.count ≡ 0 }
        ensures ended { result.ended ≡ false }
    {
        BorrowWord {
            count: 0,
            ended: false,
        }
    }

    /// One loan more.
    pub fn lend(&mut self)
        requires { self.old.count < 1048576 }
        ensures { self.new ≡ record self.old { count = self.old.count + 1 } }
    {
        self.count += 1;
    }

    /// One loan less.
    pub fn give_back(&mut self)
        requires { 0 < self.old.count }
        ensures count { self.new.count + 1 ≡ self.old.count }
        ensures ended { self.new.ended ≡ self.old.ended }
    {
        self.count -= 1;
    }

    /// The owner has ended.
    pub fn end(&mut self)
        ensures { self.new ≡ record self.old { ended = true } }
    {
        self.ended = true;
    }

    /// Whether nobody can reach the object any more: its owner has ended, and nobody has borrowed it.
    pub fn is_free(&self) -> bool
        ensures { result ≡ self.now.ended && (self.now.count == 0) }
    {
        self.ended && self.count == 0
    }
}
