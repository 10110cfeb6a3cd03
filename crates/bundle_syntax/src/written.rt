//! Lines that can be written, whatever their forms are.
ghost use Rattle.std.specs.Prelude.{◌≡◌, ℕ, List, ◌++◌, OnOk};
ghost use Rattle.rl_defs.specs.Tokens.{Token};
ghost use Rattle.bundle_syntax.specs.LinesCanonical.{write_lines};

use rl_defs::bundle::Numbered;
use rl_text::render::Spelling;
use std::alloc::{AllocError, Global};

/// A line that can be written, by its form.
pub(crate) trait Written: Drop {
    // The tokens of a line.
    ghost spell: { Self → List Token };

    // How many blocks are open round a line.
    ghost depth_of: { Self → ℕ };

    /// Puts the tokens of the line last.
    fn put<'a>(&'a self, out: &mut Spelling<'a>) -> Result<(), AllocError>
        ensures { OnOk result (out.new ≡ out.old ++ spell self.now) };

    /// How many blocks are open round the line.
    fn depth(&self) -> u32
        ensures { result ≡ depth_of self.now };
}

/// Puts lines last, each with four blanks for each block that is open round it, and a line feed.
/// After `AllocError` some of them may stand there.
pub(crate) fn put_lines<F: Written>(
    alloc: Global,
    bytes: &mut Vec<u8>,
    lines: &[Numbered<F>],
) -> Result<(), AllocError>
    ensures { OnOk result (bytes.new.items ≡ bytes.old.items ++ write_lines F.depth_of F.spell lines.now) }
{
    let mut out = Spelling::new(alloc);
    'lines: for line in lines {
        out.clear();
        line.form.put(&mut out)?;
        out.write_line(alloc, line.form.depth(), bytes)?;
    }
    Ok(())
}
