//! What the lines of an interface part give and use.
ghost use Rattle.std.specs.Prelude.{◌≡◌, ℕ, ◌-◌, ◌^◌, ◌<◌, ◌||◌, Bool, Some, None, [], map, drop, length, OnOk, IfOk};
ghost use Rattle.std.specs.List.{list_any};
ghost use Rattle.rl_defs.specs.Interfaces.{result_types, struct_names, trait_names};
ghost use Rattle.bundle_names.specs.Scopes.{names_in, rule_when};
ghost use Rattle.bundle_names.specs.InterfaceLines.{declared_role, field_role, method_role, is_twice, repeats_param, given_behind, HasRoom, is_repeated, is_unknown, has_unknown};

use crate::roles::{Role, ScopeNames, pass, rule_when};
use name_tables::names::Names;
use rl_defs::idl::{Base, IdlLine, Param, ResultText, TypeText};
use std::alloc::{AllocError, Global};

/// The names that the lines so far have given: structs and traits, and the fields and methods of
/// the struct or trait that is open.
#[derive(Drop)]
pub struct InterfaceScopes {
    declared: ScopeNames,
    fields: ScopeNames,
    methods: ScopeNames,
}

impl InterfaceScopes {
    /// Nothing was given yet.
    pub fn new(alloc: Global) -> InterfaceScopes
        ensures { result ≡ record { declared = Some []; fields = None; methods = None } }
    {
        InterfaceScopes {
            declared: ScopeNames::opened(alloc, 0),
            fields: ScopeNames::closed(alloc),
            methods: ScopeNames::closed(alloc),
        }
    }

    /// Takes one line more, and gives the lower of the rules 3 and 4 that fails there.
    pub fn rule_of(
        &mut self,
        alloc: Global,
        structs: &Names,
        traits: &Names,
        line: &IdlLine,
    ) -> Result<Option<u8>, AllocError>
        requires { HasRoom self.old }
        ensures behind { OnOk result (self.new ≡ given_behind line.now self.old) }
        ensures rule { IfOk result (λ rule. rule ≡ rule_when (is_repeated line.now self.old)
            (has_unknown structs.now traits.now line.now)) }
    {
        let repeats = self.pass(alloc, line)?;
        Ok(rule_when(repeats, has_unknown(structs, traits, line)))
    }

    // Takes one line more, and tells whether it gives a name again.
    fn pass(&mut self, alloc: Global, line: &IdlLine) -> Result<bool, AllocError>
        requires room { HasRoom self.old }
        ensures behind { OnOk result (self.new ≡ given_behind line.now self.old) }
        ensures repeats { IfOk result (λ again. again ≡ is_repeated line.now self.old) }
    {
        let declared = pass(&mut self.declared, declared_role(line))?;
        let field = pass(&mut self.fields, field_role(line))?;
        let method = pass(&mut self.methods, method_role(line))?;
        let param = repeats_param(alloc, line)?;
        Ok(declared || (field || (method || param)))
    }
}

fn declared_role(line: &IdlLine) -> Role
    ensures { result ≡ declared_role line.now }
{
    match line {
        IdlLine::Struct(name) | IdlLine::Trait(name) => Role::Gives(*name),
        _ => Role::Passes,
    }
}

fn field_role(line: &IdlLine) -> Role
    ensures { result ≡ field_role line.now }
{
    match line {
        IdlLine::Struct(_) => Role::Opens,
        IdlLine::Field(name, _) => Role::Gives(*name),
        _ => Role::Ends,
    }
}

/// What a line is for the names of a trait's methods.
pub fn method_role(line: &IdlLine) -> Role
    ensures { result ≡ method_role line.now }
{
    match line {
        IdlLine::Trait(_) => Role::Opens,
        IdlLine::Method { name, .. } => Role::Gives(*name),
        IdlLine::Idempotent => Role::Passes,
        _ => Role::Ends,
    }
}

// Whether two parameters of the line have one name.
fn repeats_param(alloc: Global, line: &IdlLine) -> Result<bool, AllocError>
    ensures { IfOk result (λ again. again ≡ repeats_param line.now) }
{
    match line {
        IdlLine::Method { params, .. } => are_twice(alloc, params.as_slice()),
        _ => Ok(false),
    }
}

// A table has at most 2^32 - 1 names. No line of a bundle has so many.
fn are_twice(alloc: Global, params: &[Param]) -> Result<bool, AllocError>
    ensures { IfOk result (λ again. again ≡ is_twice [] (map (λ p. p.name) params.now)) }
{
    if params.len() >= u32::MAX as usize {
        return Err(AllocError);
    }
    let mut names = Names::new(alloc);
    'params: for param in params {
        if names.add(&param.name)?.is_some() {
            return Ok(true);
        }
    }
    Ok(false)
}

fn is_unknown(structs: &Names, traits: &Names, base: &Base) -> bool
    ensures { result ≡ is_unknown structs.now traits.now base.now }
{
    match base {
        Base::Struct(name) | Base::RRef(name) | Base::LentRRef(name) => {
            structs.place(name).is_none()
        }
        Base::Dyn(name) => traits.place(name).is_none(),
        _ => false,
    }
}

fn result_types(result_text: &ResultText) -> &[TypeText]
    ensures { result.now ≡ result_types result_text.now }
{
    match result_text {
        ResultText::Missing => &[],
        ResultText::Plain(types) | ResultText::Rpc(types) => types.as_slice(),
    }
}

fn is_any_param_unknown(structs: &Names, traits: &Names, params: &[Param]) -> bool
    ensures { result ≡ list_any (λ p. is_unknown structs.now traits.now p.ty.base) params.now }
{
    params
        .iter()
        .any(|param| is_unknown(structs, traits, &param.ty.base))
}

fn is_any_unknown(structs: &Names, traits: &Names, types: &[TypeText]) -> bool
    ensures { result ≡ list_any (λ t. is_unknown structs.now traits.now t.base) types.now }
{
    types.iter().any(|ty| is_unknown(structs, traits, &ty.base))
}

// Whether a type of the line names a struct or trait that nothing declares.
fn has_unknown(structs: &Names, traits: &Names, line: &IdlLine) -> bool
    ensures { result ≡ has_unknown structs.now traits.now line.now }
{
    match line {
        IdlLine::Field(_, ty) => is_unknown(structs, traits, &ty.base),
        IdlLine::Method {
            params,
            result: outcome,
            ..
        } => {
            is_any_param_unknown(structs, traits, params.as_slice())
                || is_any_unknown(structs, traits, result_types(outcome))
        }
        _ => false,
    }
}
