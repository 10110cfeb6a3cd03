//! What holds of files: functions with nothing to do, whose contracts are the laws.

ghost use Rattle.file_defs.specs.FileLaws.{FailuresChangeNothing, WritesAreRead};
ghost use Rattle.file_defs.specs.FileLaws.{CreatedIsFound, HonestDisksKeepBlocks};

/// A request that is answered by another code than that all is fine changes nothing: its number is
/// 0, its buffer comes back as it came, and all files stay.
pub fn failures_change_nothing()
    ensures { FailuresChangeNothing }
{}

/// What was written to a file is read back from the same place, and the cells of the buffer behind
/// it stay.
pub fn writes_are_read()
    ensures { WritesAreRead }
{}

/// A file that was created is found by its name, in the row that was answered, and is empty.
pub fn created_is_found()
    ensures { CreatedIsFound }
{}

/// An honest disk gives back what was put into a block just before.
pub fn honest_disks_keep_blocks()
    ensures { HonestDisksKeepBlocks }
{}
