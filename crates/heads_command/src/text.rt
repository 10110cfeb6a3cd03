//! What the command prints.
ghost use Rattle.std.specs.Prelude.{◌≡◌, ◌++◌, ◌<◌, ◌≤◌, length, OnOk, IfOk};
ghost use Rattle.heads_command.specs.HeadsText.{word_text, row_text, rows_text, heads_text};

use redleaf_app::put::{put, put_number, put_word};
use rref_heads::HeadWord;
use std::alloc::{AllocError, Global};

// The word for a head.
fn text_of_word(word: HeadWord) -> &'static [u8]
    ensures { result.now ≡ word_text word }
{
    match word {
        HeadWord::Vacant => b"vacant",
        HeadWord::Busy => b"busy",
        HeadWord::Gone => b"gone",
        HeadWord::Live { .. } => b"live",
    }
}

// Puts the line of a head.
fn put_row(out: &mut Vec<u8>, h: u64, word: HeadWord) -> Result<(), AllocError>
    ensures { OnOk result (out.new.items ≡ out.old.items ++ row_text h word) }
{
    put_number(out, h)?;
    put_word(out, text_of_word(word))?;
    put(out, b"\n")
}

// Puts the lines of the heads.
fn put_rows(out: &mut Vec<u8>, words: &[HeadWord]) -> Result<(), AllocError>
    ensures { OnOk result (out.new.items ≡ out.old.items ++ rows_text 1 words.now) }
{
    for at in 0..words.len() {
        put_row(out, at as u64 + 1, words[at])?;
    }
    Ok(())
}

/// The text of a run that left these words, and of which so many payloads came back.
pub(crate) fn text_of(
    alloc: Global,
    heads: u32,
    words: &[HeadWord],
    returned: u64,
) -> Result<Vec<u8>, AllocError>
    ensures { IfOk result (λ text. text.items ≡ heads_text heads words.now returned) }
{
    let mut out = Vec::new(alloc);
    put(&mut out, b"heads ")?;
    put_number(&mut out, u64::from(heads))?;
    put(&mut out, b"\n")?;
    put_rows(&mut out, words)?;
    put(&mut out, b"returned ")?;
    put_number(&mut out, returned)?;
    put(&mut out, b"\n")?;
    Ok(out)
}
