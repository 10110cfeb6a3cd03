//! Blocks 2 to 17.
ghost use Rattle.std.specs.Prelude.{◌+◌, ◌*◌, ◌<◌, ◌≤◌, MatchOption};
ghost use Rattle.fs_layout.specs.Forms.{IsInode, IsNoInode, KeepsOthers};

/// How many inodes a block holds.
pub const INODES_IN_BLOCK: u32 = 4;
/// How many bytes a file has at most: 8 blocks of 512.
pub const MOST_BYTES: u64 = 4096;

const INODE_WORDS: usize = 16;

/// A file's length and its blocks.
#[derive(Clone, Copy, Debug)]
pub struct Inode {
    /// Whether a file has the inode.
    pub used: bool,
    /// The file's length in bytes.
    pub len: u64,
    /// The numbers of the file's blocks, 512 bytes each; 0 for none.
    pub blocks: [u64; 8],
}

impl Inode {
    /// Writes the inode to a place of a block. All other words of the block stay.
    pub fn write(&self, block: &mut [u64; 64], at: u32)
        requires place { at < 4 }
        requires fits { self.now.len ≤ 4096 }
        ensures written { IsInode block.new at self.now }
        ensures others { KeepsOthers (16 * at) (16 * at + 16) block.old block.new }
    {
        let start = at as usize * INODE_WORDS;
        block[start] = if self.used { 1 } else { 0 };
        block[start + 1] = self.len;
        'numbers: for k in 0..8 {
            block[start + 2 + k] = self.blocks[k];
        }
        'zeros: for k in 0..6 {
            block[start + 10 + k] = 0;
        }
    }

    /// The inode at a place of a block. None exactly where its first word is above 1, its length
    /// is above 4,096, or one of its last 6 words isn't 0.
    pub fn read(block: &[u64; 64], at: u32) -> Option<Inode>
        requires { at < 4 }
        ensures { MatchOption result (IsNoInode block.now at) (λ i. IsInode block.now at i) }
    {
        let start = at as usize * INODE_WORDS;
        if block[start] > 1 || block[start + 1] > MOST_BYTES {
            return None;
        }
        'zeros: for k in 0..6 {
            if block[start + 10 + k] != 0 {
                return None;
            }
        }
        let mut blocks = [0; 8];
        'numbers: for k in 0..8 {
            blocks[k] = block[start + 2 + k];
        }
        Some(Inode {
            used: block[start] == 1,
            len: block[start + 1],
            blocks,
        })
    }
}
