//! Blocks 18 to 21.
ghost use Rattle.std.specs.Prelude.{◌+◌, ◌*◌, ◌<◌, ◌≤◌, MatchOption};
ghost use Rattle.fs_layout.specs.Forms.{IsEntry, IsNoEntry, lead_of, KeepsOthers};

/// How many entries a block holds.
pub const ENTRIES_IN_BLOCK: u32 = 16;

const ENTRY_WORDS: usize = 4;

const MOST_FILES: u64 = 64;

/// An entry of the directory.
#[derive(Clone, Copy, Debug)]
pub struct DirEntry {
    /// The number of the file's inode, none where no file has the entry.
    pub ino: Option<u64>,
    /// The file's name, 8 bytes a word with the lowest first, padded with 0.
    pub name: [u64; 3],
}

impl DirEntry {
    /// Writes the entry to a place of a block. All other words of the block stay.
    pub fn write(&self, block: &mut [u64; 64], at: u32)
        requires place { at < 16 }
        requires fits { lead_of self.now.ino ≤ 64 }
        ensures written { IsEntry block.new at self.now }
        ensures others { KeepsOthers (4 * at) (4 * at + 4) block.old block.new }
    {
        let start = at as usize * ENTRY_WORDS;
        block[start] = match self.ino {
            None => 0,
            Some(ino) => ino + 1,
        };
        block[start + 1] = self.name[0];
        block[start + 2] = self.name[1];
        block[start + 3] = self.name[2];
    }

    /// The entry at a place of a block. None exactly where its first word is above 64.
    pub fn read(block: &[u64; 64], at: u32) -> Option<DirEntry>
        requires { at < 16 }
        ensures { MatchOption result (IsNoEntry block.now at) (λ e. IsEntry block.now at e) }
    {
        let start = at as usize * ENTRY_WORDS;
        let lead = block[start];
        if lead > MOST_FILES {
            return None;
        }
        let ino = if lead == 0 { None } else { Some(lead - 1) };
        Some(DirEntry {
            ino,
            name: [block[start + 1], block[start + 2], block[start + 3]],
        })
    }
}
