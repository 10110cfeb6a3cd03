//! What holds of the forms of the plan and of the clients, whoever reads or writes them.
ghost use Rattle.rl_defs.specs.BundleForms.{IsPlanLine, IsClientLine};
ghost use Rattle.rl_defs.specs.BundleParts.{plan_part, client_part};
ghost use Rattle.rl_text.specs.Forms.{OneForm, SkippedIsNoForm, OnePart};

/// No two forms of the plan share a spelling, and none of the clients do; a line without tokens is
/// no form.
pub fn one_form()
    ensures plan { OneForm IsPlanLine }
    ensures plan_skipped { SkippedIsNoForm IsPlanLine }
    ensures clients { OneForm IsClientLine }
    ensures clients_skipped { SkippedIsNoForm IsClientLine }
{}

/// The texts of a part stand for one list of lines at most.
pub fn one_part()
    ensures plan { OnePart plan_part }
    ensures clients { OnePart client_part }
{}
