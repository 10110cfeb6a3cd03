//! What holds of the forms: functions with nothing to do, whose contracts are the laws.

ghost use Rattle.fs_layout.specs.Laws.{SuperIsReadAgain, InodeIsReadAgain, EntryIsReadAgain};
ghost use Rattle.fs_layout.specs.Laws.{BitmapIsReadAgain};

/// Block 0 says one thing at most, two blocks 0 that say the same are the same, and one that says
/// something is never refused. So what is written is read again.
pub fn super_is_read_again()
    ensures { SuperIsReadAgain }
{}

/// The same of the inode at a place of a block.
pub fn inode_is_read_again()
    ensures { InodeIsReadAgain }
{}

/// The same of the entry at a place of a block.
pub fn entry_is_read_again()
    ensures { EntryIsReadAgain }
{}

/// A bitmap that may be written is never refused.
pub fn bitmap_is_read_again()
    ensures { BitmapIsReadAgain }
{}
