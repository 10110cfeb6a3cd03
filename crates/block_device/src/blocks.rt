//! All blocks of the device.
ghost use Rattle.std.specs.Prelude.{◌≡◌, [], length, replicate, slice_set, IfOk};
ghost use Rattle.std.specs.List.{slice_index_or};

use std::alloc::{AllocError, Global};
use std::marker::Model;

/// How many words a block has.
pub const BLOCK_WORDS: usize = 64;

/// The blocks of the device, from 0, with 64 words each. Contracts see them as a list of lists of
/// words.
#[derive(Debug, Drop)]
pub struct Blocks {
    blocks: Vec<[u64; BLOCK_WORDS]>,
}

impl Model for Blocks {
    ghost use Rattle.std.specs.Prelude.{List, ℕ};

    ghost Value = { List (List ℕ) };

    ghost view = { λ d. d.blocks.items };
}

impl Blocks {
    /// So many blocks, whose words are all 0.
    pub fn new(alloc: Global, count: u64) -> Result<Blocks, AllocError>
        ensures { IfOk result (λ s. s ≡ replicate count (replicate 64 0)) }
    {
        let mut blocks = Vec::new(alloc);
        blocks.resize(count as usize, [0; BLOCK_WORDS])?;
        Ok(Blocks { blocks })
    }

    /// How many blocks there are.
    pub fn len(&self) -> usize
        ensures { result ≡ length self.now }
    {
        self.blocks.len()
    }

    /// The words of block `b`, none where there is no such block.
    pub fn block(&self, b: u64) -> &[u64]
        ensures { result.now ≡ slice_index_or self.now b [] }
    {
        match self.blocks.get(b as usize) {
            Some(words) => words,
            None => &[],
        }
    }

    /// The words of block `b` are these from now on. No other block changes, and none does where
    /// there is no such block.
    pub fn set(&mut self, b: u64, cells: &[u64])
        requires { length cells.now ≡ 64 }
        ensures { self.new ≡ slice_set self.old b cells.now }
    {
        if let Some(words) = self.blocks.get_mut(b as usize) {
            words.copy_from_slice(cells);
        }
    }
}
