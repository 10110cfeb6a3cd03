//! What holds of the forms of the domain part, whoever reads or writes them.
ghost use Rattle.rl_defs.specs.DomainForms.{IsDomainLine};
ghost use Rattle.rl_defs.specs.DomainParts.{domain_part};
ghost use Rattle.rl_text.specs.Forms.{OneForm, SkippedIsNoForm, OnePart};
ghost use Rattle.domain_code.specs.Laws.{OneCut, EachStandsAlone};

/// No two forms share a spelling, and a line without tokens is none.
pub fn one_form()
    ensures form { OneForm IsDomainLine }
    ensures skipped { SkippedIsNoForm IsDomainLine }
{}

/// The texts of a part stand for one list of lines at most, and have one list of domains at most.
pub fn one_part()
    ensures lines { OnePart domain_part }
    ensures domains { OneCut }
{}

/// Where no rule refuses a part, each of its domains has the lines of one domain, in an order in
/// which they may stand, numbered upwards. They are no more than the lines of the part.
pub fn each_domain()
    ensures { EachStandsAlone }
{}
