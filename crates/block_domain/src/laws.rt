//! What holds of the device and of its driver in every run of every valid load: functions with
//! nothing to do, whose contracts are the laws.

ghost use Rattle.block_domain.specs.Laws.{BlocksHoldWhatWasWritten, ReadsGiveWhatWasWritten};

/// The cells of objects and the blocks of the device are what the history tells: a block holds the
/// cells that the object of the last `devput` to it had at that `devput`, or zeros where there is
/// none.
pub fn blocks_hold_what_was_written()
    ensures { BlocksHoldWhatWasWritten }
{}

/// A `read` of the driver that returned gave an object with the cells that its block held, as told
/// above, before the `devget` that the call made. The driver is any load whose domain has the
/// driver's lines.
pub fn reads_give_what_was_written()
    ensures { ReadsGiveWhatWasWritten }
{}
