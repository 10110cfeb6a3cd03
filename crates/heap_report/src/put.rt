//! The small parts of a text, each put behind what is there.
ghost use Rattle.std.specs.Prelude.{[]};
ghost use Rattle.std.specs.Fmt.{decimal};
ghost use Rattle.machine_defs.specs.Texts as text;
ghost use Rattle.machine_defs.specs.Report as report;
ghost use Rattle.heap_report.specs.Putting.{PutsText, count_text};

use itoa::Buffer;
use machine_defs::values::Owner;
use std::alloc::AllocError;

/// Puts bytes.
pub fn put(out: &mut Vec<u8>, bytes: &[u8]) -> Result<(), AllocError>
    ensures { PutsText result out.old.items out.new.items bytes.now }
{
    match out.extend_from_slice(bytes) {
        Ok(()) => Ok(()),
        Err(_) => Err(AllocError),
    }
}

// Puts a number.
fn put_number(out: &mut Vec<u8>, number: u64) -> Result<(), AllocError>
    ensures { PutsText result out.old.items out.new.items (decimal number) }
{
    let mut digits = Buffer::new();
    put(out, digits.format(number).as_bytes())
}

/// Puts a word behind a blank.
pub fn put_word(out: &mut Vec<u8>, word: &[u8]) -> Result<(), AllocError>
    ensures { PutsText result out.old.items out.new.items (text.spaced word.now) }
{
    put(out, b" ")?;
    put(out, word)
}

/// Puts a number behind a blank.
pub fn put_number_word(out: &mut Vec<u8>, number: u64) -> Result<(), AllocError>
    ensures { PutsText result out.old.items out.new.items (text.spaced (decimal number)) }
{
    put(out, b" ")?;
    put_number(out, number)
}

/// Puts a word and a number, each behind a blank.
pub fn put_count(out: &mut Vec<u8>, says: &[u8], number: u64) -> Result<(), AllocError>
    ensures { PutsText result out.old.items out.new.items (count_text says.now number) }
{
    put_word(out, says)?;
    put_number_word(out, number)
}

/// Puts an owner.
pub fn put_owner(out: &mut Vec<u8>, owner: Owner) -> Result<(), AllocError>
    ensures { PutsText result out.old.items out.new.items (text.owner_text owner) }
{
    match owner {
        Owner::Client(client) => {
            put(out, b"c")?;
            put_number(out, u64::from(client))
        }
        Owner::Instance(instance) => {
            put(out, b"i")?;
            put_number(out, u64::from(instance))
        }
    }
}

/// Puts an owner behind a blank.
pub fn put_owner_word(out: &mut Vec<u8>, owner: Owner) -> Result<(), AllocError>
    ensures { PutsText result out.old.items out.new.items (text.spaced (text.owner_text owner)) }
{
    put(out, b" ")?;
    put_owner(out, owner)
}

/// Puts an object.
pub fn put_object_number(out: &mut Vec<u8>, object: u64) -> Result<(), AllocError>
    ensures { PutsText result out.old.items out.new.items (text.object_text object) }
{
    put(out, b"o")?;
    put_number(out, object)
}

/// Puts the line of a count.
pub fn put_line(out: &mut Vec<u8>, says: &[u8], number: u64) -> Result<(), AllocError>
    ensures { PutsText result out.old.items out.new.items (report.summary_line says.now number) }
{
    put(out, says)?;
    put(out, b" ")?;
    put_number(out, number)?;
    put(out, b"\n")
}
