//! What holds of the forms of the interface part, whoever reads or writes them.
ghost use Rattle.rl_defs.specs.IdlForms.{IsIdlLine};
ghost use Rattle.rl_defs.specs.IdlParts.{interface_part};
ghost use Rattle.rl_text.specs.Forms.{OneForm, SkippedIsNoForm, OnePart};
ghost use Rattle.idl_syntax.specs.Laws.{PartRises, PartIsShort};

/// No two forms share a spelling, and a line without tokens is none.
pub fn one_form()
    ensures form { OneForm IsIdlLine }
    ensures skipped { SkippedIsNoForm IsIdlLine }
{}

/// The texts of a part stand for one list of lines at most.
pub fn one_part()
    ensures { OnePart interface_part }
{}

/// The lines that the texts of a part stand for are numbered upwards, and are no more than the
/// texts.
pub fn part_rises()
    ensures rises { PartRises }
    ensures short { PartIsShort }
{}
