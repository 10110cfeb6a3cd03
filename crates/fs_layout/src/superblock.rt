//! Block 0.
ghost use Rattle.std.specs.Prelude.{MatchOption};
ghost use Rattle.fs_layout.specs.Forms.{IsSuper, IsNoSuper};

/// Word 0 of a formatted disk.
const MARK: u64 = 0x5236_F501;

/// What block 0 of a formatted disk says.
#[derive(Clone, Copy, Debug)]
pub struct Super {
    /// How many blocks the disk has.
    pub blocks: u64,
}

impl Super {
    /// Writes the whole block.
    pub fn write(&self, block: &mut [u64; 64])
        ensures { IsSuper block.new self.now }
    {
        block[0] = MARK;
        block[1] = self.blocks;
        'zeros: for k in 2..64 {
            block[k] = 0;
        }
    }

    /// What the block says. None exactly where word 0 isn't the mark, or a word from 2 on isn't 0.
    pub fn read(block: &[u64; 64]) -> Option<Super>
        ensures { MatchOption result (IsNoSuper block.now) (λ s. IsSuper block.now s) }
    {
        if block[0] != MARK {
            return None;
        }
        'zeros: for k in 2..64 {
            if block[k] != 0 {
                return None;
            }
        }
        Some(Super { blocks: block[1] })
    }
}
