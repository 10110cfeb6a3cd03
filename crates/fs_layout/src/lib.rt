//! The blocks of the file system, each form written to and read from blocks of 64 words.
//!
//! The layout is that of xv6 (Cox, Kaashoek, Morris, "xv6: a simple, Unix-like teaching operating
//! system", chapter on the file system), with words in place of bytes: a superblock, a bitmap, the
//! inodes, one directory, then the data.
//!
//! | block    | holds                                                                       |
//! |----------|-----------------------------------------------------------------------------|
//! | 0        | word 0 is the mark `0x5236_F501`, word 1 the count of blocks, the others 0  |
//! | 1        | the bitmap: bit `b % 64` of word `b / 64` is 1 where block `b` is used      |
//! | 2 to 17  | the inodes: 4 a block, of 16 words each                                     |
//! | 18 to 21 | the directory: 16 entries a block, of 4 words each                          |
//! | 22 on    | data                                                                        |
//!
//! An inode is a word that is 1 where the inode is used and else 0, a length in bytes, the numbers
//! of 8 blocks (0 for none), and 6 words that are 0. An entry of the directory is the number of its
//! inode plus 1, or 0, and a name in 3 words.
#![tactic(auto)]

mod bitmap;
mod dir_entry;
mod inode;
pub mod laws;
mod superblock;
#[cfg(test)]
mod tests;

pub use bitmap::Bitmap;
pub use dir_entry::{DirEntry, ENTRIES_IN_BLOCK};
pub use inode::{INODES_IN_BLOCK, Inode, MOST_BYTES};
pub use superblock::Super;

/// How many words a block has.
pub const BLOCK_WORDS: usize = 64;
/// The block of the bitmap.
pub const BITMAP_BLOCK: u64 = 1;
/// The first block of inodes.
pub const FIRST_INODE_BLOCK: u64 = 2;
/// The first block of the directory.
pub const FIRST_ENTRY_BLOCK: u64 = 18;
/// The first block of data. All blocks before it are used.
pub const FIRST_DATA_BLOCK: u64 = 22;
