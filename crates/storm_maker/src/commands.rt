//! The commands of one draw.
ghost use Rattle.std.specs.Prelude.{◌≡◌, ◌++◌, ◌∷◌, [], OnOk};
ghost use Rattle.storm_maker.specs.Fixed.{line_text, lines_text};
ghost use Rattle.storm_maker.specs.StormText.{let_line, pass_line, read_line, drop_line, draw_lines};

use crate::put::{put, put_number};
use std::alloc::AllocError;

// An object of the number `k` is made.
fn put_let(out: &mut Vec<u8>, j: u64, k: u64) -> Result<(), AllocError>
    ensures { OnOk result (out.new.items ≡ out.old.items ++ line_text (let_line j k)) }
{
    put(out, "    let v")?;
    put_number(out, j)?;
    put(out, " = new P ")?;
    put_number(out, k)?;
    put(out, "\n")
}

// It is passed through two domains and back.
fn put_pass(out: &mut Vec<u8>, j: u64) -> Result<(), AllocError>
    ensures { OnOk result (out.new.items ≡ out.old.items ++ line_text (pass_line j)) }
{
    put(out, "    call a.p(v")?;
    put_number(out, j)?;
    put(out, ") -> w")?;
    put_number(out, j)?;
    put(out, "\n")
}

// Block `k` is read.
fn put_read(out: &mut Vec<u8>, j: u64, k: u64) -> Result<(), AllocError>
    ensures { OnOk result (out.new.items ≡ out.old.items ++ line_text (read_line j k)) }
{
    put(out, "    call disk.read(")?;
    put_number(out, k)?;
    put(out, ") -> w")?;
    put_number(out, j)?;
    put(out, "\n")
}

// What came back is dropped.
fn put_drop(out: &mut Vec<u8>, j: u64) -> Result<(), AllocError>
    ensures { OnOk result (out.new.items ≡ out.old.items ++ line_text (drop_line j)) }
{
    put(out, "    drop w")?;
    put_number(out, j)?;
    put(out, "\n")
}

// An object goes round.
fn put_round(out: &mut Vec<u8>, j: u64, k: u64) -> Result<(), AllocError>
    ensures { OnOk result (out.new.items
        ≡ out.old.items ++ lines_text (let_line j k ∷ pass_line j ∷ drop_line j ∷ [])) }
{
    put_let(out, j, k)?;
    put_pass(out, j)?;
    put_drop(out, j)
}

// A block is read and dropped.
fn put_look(out: &mut Vec<u8>, j: u64, k: u64) -> Result<(), AllocError>
    ensures { OnOk result (out.new.items ≡ out.old.items ++ lines_text (read_line j k ∷ drop_line j ∷ [])) }
{
    put_read(out, j, k)?;
    put_drop(out, j)
}

/// Puts the commands of a client's draw number `j`, by what `d` it drew.
pub(crate) fn put_draw(out: &mut Vec<u8>, j: u64, d: u64) -> Result<(), AllocError>
    ensures { OnOk result (out.new.items ≡ out.old.items ++ lines_text (draw_lines j d)) }
{
    if d % 64 == 63 {
        return put(out, "    kill disk\n");
    }
    match d % 4 {
        0 => put_round(out, j, d / 64 % 64),
        1 => put(out, "    call disk.size()\n"),
        2 => put_look(out, j, d / 64 % 64),
        _ => put(out, "    call spin.run(40)\n"),
    }
}
