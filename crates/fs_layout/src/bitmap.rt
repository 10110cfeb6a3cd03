//! Block 1.
ghost use Rattle.std.specs.Prelude.{◌≡◌, ◌<◌, ◌↔◌, IsTrue, MatchOption};
ghost use Rattle.fs_layout.specs.Forms.{IsUsed, AreMarked, HasUnmarked};

use crate::FIRST_DATA_BLOCK;

/// Which blocks are used: a bit for each block, 64 a word.
#[derive(Clone, Copy, Debug)]
pub struct Bitmap {
    /// Bit `b % 64` of word `b / 64` is 1 where block `b` is used.
    pub words: [u64; 64],
}

fn is_used(words: &[u64; 64], block: u64) -> bool
    requires { block < 4096 }
    ensures { IsTrue result ↔ IsUsed words.now block }
{
    words[(block / 64) as usize] & (1 << (block % 64)) != 0
}

impl Bitmap {
    /// Writes the whole block.
    pub fn write(&self, block: &mut [u64; 64])
        requires { AreMarked self.now.words }
        ensures { block.new ≡ self.now.words }
    {
        *block = self.words;
    }

    /// The bitmap that the block is. None exactly where a block before the data isn't used.
    pub fn read(block: &[u64; 64]) -> Option<Bitmap>
        ensures { MatchOption result (HasUnmarked block.now)
            (λ m. (m.words ≡ block.now) × AreMarked block.now) }
    {
        'marked: for b in 0..FIRST_DATA_BLOCK {
            if !is_used(block, b) {
                return None;
            }
        }
        Some(Bitmap { words: *block })
    }

    /// Whether a block is used.
    pub fn is_used(&self, block: u64) -> bool
        requires { block < 4096 }
        ensures { IsTrue result ↔ IsUsed self.now.words block }
    {
        is_used(&self.words, block)
    }
}
