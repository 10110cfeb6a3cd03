//! Writing the plan.
ghost use Rattle.std.specs.Prelude.{◌≡◌, ℕ, List, [], ◌∷◌, ◌++◌, codes, IfOk, OnOk};
ghost use Rattle.rl_defs.specs.declared.bundle.PlanLine.TheVariants as plan;
ghost use Rattle.rl_defs.specs.BundleForms.{spell_plan};
ghost use Rattle.rl_defs.specs.Tokens as t;
ghost use Rattle.bundle_syntax.specs.PlanVerbs.{verb_text};
ghost use Rattle.bundle_syntax.specs.PlanCanonical.{depth_of, write_plan};
ghost use Rattle.bundle_syntax.specs.Writable.{IsPlanAgain};

use crate::list::put_names;
use crate::plan::form::{Verb, verb_text};
use crate::written::{Written, put_lines};
use rl_defs::bundle::{Plan, PlanLine};
use rl_defs::lexeme::Mark;
use rl_defs::name::Name;
use rl_text::render::Spelling;
use std::alloc::{AllocError, Global};

// The word that a line begins with.
fn put_verb(out: &mut Spelling<'_>, verb: Verb) -> Result<(), AllocError>
    ensures { OnOk result (out.new ≡ out.old ++ t.Name (verb_text verb) ∷ []) }
{
    out.word(verb_text(verb))
}

fn put_load(out: &mut Spelling<'_>, name: Name, domain: Name) -> Result<(), AllocError>
    ensures { OnOk result (out.new ≡ out.old ++ spell_plan (plan.Load name domain)) }
{
    put_verb(out, Verb::Load)?;
    out.name(name)?;
    out.mark(Mark::Equals)?;
    out.name(domain)
}

fn put_bind(
    out: &mut Spelling<'_>,
    load: Name,
    import: Name,
    target: Name,
) -> Result<(), AllocError>
    ensures { OnOk result (out.new ≡ out.old ++ spell_plan (plan.Bind load import target)) }
{
    put_verb(out, Verb::Bind)?;
    out.name(load)?;
    out.mark(Mark::Dot)?;
    out.name(import)?;
    out.mark(Mark::Equals)?;
    out.name(target)
}

// `restarts N`
fn put_restarts(out: &mut Spelling<'_>, restarts: u64) -> Result<(), AllocError>
    ensures { OnOk result (out.new ≡ out.old ++ (t.Name (codes "restarts") ∷ t.Number restarts ∷ [])) }
{
    out.word(b"restarts")?;
    out.number(restarts)
}

fn put_shadow(
    out: &mut Spelling<'_>,
    name: Name,
    load: Name,
    restarts: u64,
) -> Result<(), AllocError>
    ensures { OnOk result (out.new ≡ out.old ++ spell_plan (plan.Shadow name load restarts)) }
{
    put_verb(out, Verb::Shadow)?;
    out.name(name)?;
    out.mark(Mark::Equals)?;
    out.name(load)?;
    put_restarts(out, restarts)
}

fn put_device(out: &mut Spelling<'_>, load: Name, blocks: u64) -> Result<(), AllocError>
    ensures { OnOk result (out.new ≡ out.old ++ spell_plan (plan.Device load blocks)) }
{
    put_verb(out, Verb::Device)?;
    out.name(load)?;
    out.number(blocks)
}

fn put_serial(out: &mut Spelling<'_>, load: Name) -> Result<(), AllocError>
    ensures { OnOk result (out.new ≡ out.old ++ spell_plan (plan.Serial load)) }
{
    put_verb(out, Verb::Serial)?;
    out.name(load)
}

fn put_fuel(out: &mut Spelling<'_>, count: u64) -> Result<(), AllocError>
    ensures { OnOk result (out.new ≡ out.old ++ spell_plan (plan.Fuel count)) }
{
    put_verb(out, Verb::Fuel)?;
    out.number(count)
}

fn put_order(out: &mut Spelling<'_>, clients: &[Name]) -> Result<(), AllocError>
    ensures { OnOk result (out.new ≡ out.old ++ spell_plan (plan.Order clients.now)) }
{
    put_verb(out, Verb::Order)?;
    put_names(out, clients)
}

impl Written for PlanLine {
    ghost use Rattle.rl_defs.specs.BundleForms.{spell_plan};
    ghost use Rattle.bundle_syntax.specs.PlanCanonical.{depth_of};

    ghost spell = { spell_plan };

    ghost depth_of = { depth_of };

    fn put<'a>(&'a self, out: &mut Spelling<'a>) -> Result<(), AllocError> {
        match self {
            PlanLine::Load { name, domain } => put_load(out, *name, *domain),
            PlanLine::Bind {
                load,
                import,
                target,
            } => put_bind(out, *load, *import, *target),
            PlanLine::Shadow {
                name,
                load,
                restarts,
            } => put_shadow(out, *name, *load, *restarts),
            PlanLine::Device { load, blocks } => put_device(out, *load, *blocks),
            PlanLine::Serial(load) => put_serial(out, *load),
            PlanLine::Fuel(count) => put_fuel(out, *count),
            PlanLine::Order(clients) => put_order(out, clients.as_slice()),
        }
    }

    fn depth(&self) -> u32 {
        0
    }
}

/// The canonical text of a plan: each line with a line feed.
pub fn write_plan(alloc: Global, plan: &Plan) -> Result<Vec<u8>, AllocError>
    ensures canonical { IfOk result (λ v. v.items ≡ write_plan plan.now.lines) }
    ensures again { IfOk result (λ v. IsPlanAgain plan.now.lines v.items) }
{
    let mut bytes = Vec::new(alloc);
    put_lines(alloc, &mut bytes, plan.lines.as_slice())?;
    Ok(bytes)
}
