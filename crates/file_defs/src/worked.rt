//! Worked examples, which show what the definitions say.

ghost use Rattle.file_defs.specs.Worked.{IsOneFile, IsTooSmall, IsFullDisk, IsNaming};
ghost use Rattle.file_defs.specs.Worked.{IsShortRead, IsHonestDisk, IsLyingDisk, IsDiskAsked};

/// A file is made once, holds what was written, and is gone once it is removed.
pub fn one_file()
    ensures { IsOneFile }
{}

/// A disk without room for data gets no file system.
pub fn too_small()
    ensures { IsTooSmall }
{}

/// On a disk with one block of data 512 bytes fit, in one file.
pub fn full_disk()
    ensures { IsFullDisk }
{}

/// Names have 1 to 24 bytes and no `/`, and end before the first 0.
pub fn naming()
    ensures { IsNaming }
{}

/// A read near the end of a file is short, and leaves the other cells of the buffer.
pub fn short_read()
    ensures { IsShortRead }
{}

/// A disk that gives back what was put is honest.
pub fn honest_disk()
    ensures { IsHonestDisk }
{}

/// One that gives zeros then isn't.
pub fn lying_disk()
    ensures { IsLyingDisk }
{}

/// A call on the disk is a deed once it has returned, or failed. It is one action of the instance.
pub fn disk_asked()
    ensures { IsDiskAsked }
{}
