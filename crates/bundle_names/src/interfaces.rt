//! The names of an interface part.
ghost use Rattle.std.specs.Prelude.{◌≡◌, ◌^◌, ◌<◌, ◌++◌, length, IfOk, OnOk};
ghost use Rattle.std.specs.Option.{option_to_list};
ghost use Rattle.rl_defs.specs.Refusals.{Answers};
ghost use Rattle.rl_defs.specs.Interfaces.{Rises, struct_name, trait_name, struct_names, trait_names};
ghost use Rattle.rl_defs.specs.NameRules.{FailsNames};

use crate::interface_lines::InterfaceScopes;
use name_tables::names::Names;
use rl_defs::LoadFault;
use rl_defs::bundle::Numbered;
use rl_defs::idl::{Idl, IdlLine};
use rl_defs::name::Name;
use std::alloc::{AllocError, Global};

// Adds a name, where there is one. A table counts its names in 32 bits; more are more than memory
// has room for.
fn add(names: &mut Names, name: Option<Name>) -> Result<(), AllocError>
    ensures { OnOk result (names.new ≡ names.old ++ option_to_list name) }
{
    let Some(name) = name else {
        return Ok(());
    };
    if names.len() == u32::MAX {
        return Err(AllocError);
    }
    names.add(&name)?;
    Ok(())
}

fn struct_name(line: &IdlLine) -> Option<Name>
    ensures { result ≡ struct_name line.now }
{
    match line {
        IdlLine::Struct(name) => Some(*name),
        _ => None,
    }
}

fn trait_name(line: &IdlLine) -> Option<Name>
    ensures { result ≡ trait_name line.now }
{
    match line {
        IdlLine::Trait(name) => Some(*name),
        _ => None,
    }
}

/// The names of the structs, in the order of the text.
pub fn struct_names(alloc: Global, lines: &[Numbered<IdlLine>]) -> Result<Names, AllocError>
    ensures { IfOk result (λ names. names ≡ struct_names lines.now) }
{
    let mut names = Names::new(alloc);
    'lines: for line in lines {
        add(&mut names, struct_name(&line.form))?;
    }
    Ok(names)
}

/// The names of the traits, in the order of the text.
pub fn trait_names(alloc: Global, lines: &[Numbered<IdlLine>]) -> Result<Names, AllocError>
    ensures { IfOk result (λ names. names ≡ trait_names lines.now) }
{
    let mut names = Names::new(alloc);
    'lines: for line in lines {
        add(&mut names, trait_name(&line.form))?;
    }
    Ok(names)
}

/// Checks the names of an interface part: the first line that gives a name which was given before
/// (rule 3), or uses one that nothing declares (rule 4).
pub fn check_interfaces(alloc: Global, idl: &Idl) -> Result<(), LoadFault>
    requires few { length idl.now.lines < 2 ^ 32 }
    requires rises { Rises idl.now.lines }
    ensures { Answers (FailsNames idl.now) (λ _. Unit {0}) result }
{
    let lines = idl.lines.as_slice();
    let structs = struct_names(alloc, lines)?;
    let traits = trait_names(alloc, lines)?;
    first_fault(alloc, lines, &structs, &traits)
}

fn first_fault(
    alloc: Global,
    lines: &[Numbered<IdlLine>],
    structs: &Names,
    traits: &Names,
) -> Result<(), LoadFault>
    requires few { length lines.now < 2 ^ 32 }
    requires rises { Rises lines.now }
    requires structs { structs.now ≡ struct_names lines.now }
    requires traits { traits.now ≡ trait_names lines.now }
    ensures { Answers (FailsNames (record { lines = lines.now })) (λ _. Unit {0}) result }
{
    let mut given = InterfaceScopes::new(alloc);
    'lines: for line in lines {
        let rule = given.rule_of(alloc, structs, traits, &line.form)?;
        if let Some(rule) = rule {
            return Err(LoadFault::refused(line.line, rule));
        }
    }
    Ok(())
}
