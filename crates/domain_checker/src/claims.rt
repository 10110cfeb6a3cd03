//! Rules 35 and 36: what a line names is there, and is as it has to be.
ghost use Rattle.std.specs.Prelude.{◌≡◌, ℕ, length, drop, is_some};
ghost use Rattle.std.specs.List.{list_all};
ghost use Rattle.std.specs.Option.{option_copied};
ghost use Rattle.rl_defs.specs.CodeNames.{methods_of};
ghost use Rattle.rl_defs.specs.NativeShapes as natives;
ghost use Rattle.rl_defs.specs.CodeRules.{declares, has_its_words, has_import, has_function, has_functions, has_counts, has_method, has_shape, has_one_struct};

use crate::effects::method_called;
use crate::here::Here;
use crate::kinds::kind_in;
use crate::native::{are_of_shape, have_one_struct, import_of};
use crate::scope::Scope;
use rl_defs::code::{CallArg, DomainLine, Instr, Native, Register};
use rl_defs::tables::MethodRow;

/// Whether the slot or the import is declared.
pub fn declares(scope: &Scope, form: &DomainLine) -> bool
    ensures { result ≡ declares scope.now form.now }
{
    match form {
        DomainLine::Code(Instr::Has(_, slot) | Instr::Take(_, slot) | Instr::Put(slot, _)) => {
            scope.slot(slot).is_some()
        }
        DomainLine::Code(Instr::Cap(_, import)) => scope.import(import).is_some(),
        _ => true,
    }
}

/// Whether words are read and written only where the domain has a `words` line.
pub fn has_its_words(scope: &Scope, form: &DomainLine) -> bool
    ensures { result ≡ has_its_words scope.now form.now }
{
    match form {
        DomainLine::Code(Instr::Wget(..) | Instr::Wput(..)) => scope.has_words(),
        _ => true,
    }
}

/// Whether a native body has its import.
pub fn has_import(scope: &Scope, form: &DomainLine) -> bool
    ensures { result ≡ has_import scope.now form.now }
{
    match form {
        DomainLine::Native(body) => scope.import(&import_of(*body)).is_some(),
        _ => true,
    }
}

fn has_function(scope: &Scope, method: &MethodRow) -> bool
    ensures { result ≡ has_function scope.now method.now }
{
    scope.body(&method.name).is_some()
}

fn has_all_functions(scope: &Scope, methods: &[MethodRow]) -> bool
    ensures { result ≡ list_all (has_function scope.now) methods.now }
{
    'methods: for method in methods {
        if !has_function(scope, method) {
            return false;
        }
    }
    true
}

/// Whether a domain without a native body has a function for each method of its trait.
pub fn has_functions(scope: &Scope, form: &DomainLine) -> bool
    ensures { result ≡ has_functions scope.now form.now }
{
    match form {
        DomainLine::Domain(..) => {
            scope.is_native()
                || has_all_functions(scope, scope.tables().methods(scope.domain_trait()))
        }
        _ => true,
    }
}

fn has_counts(method: Option<&MethodRow>, args: &[CallArg], results: &[Register]) -> bool
    ensures { result ≡ has_counts (option_copied method.entry) args.now results.now }
{
    match method {
        Some(row) => row.params.len() == args.len() && row.results.len() == results.len(),
        None => false,
    }
}

/// Whether the trait of a call's register has the method, with as many parameters and results.
pub fn has_method(here: &Here, form: &DomainLine) -> bool
    ensures { result ≡ has_method here.now.scope.now here.now.kinds form.now }
{
    match form {
        DomainLine::Code(
            Instr::Call {
                target,
                method,
                args,
                results,
                ..
            },
        ) => has_counts(
            method_called(here.scope.tables(), kind_in(&here.kinds, *target), method),
            args.as_slice(),
            results.as_slice(),
        ),
        _ => true,
    }
}

fn own_methods<'a>(scope: &Scope<'a>) -> &'a [MethodRow]
    ensures { result.now ≡ natives.own_methods scope.now }
{
    scope.tables().methods(scope.domain_trait())
}

fn import_methods<'a>(scope: &Scope<'a>, body: Native) -> &'a [MethodRow]
    ensures { result.now ≡ natives.import_methods scope.now body }
{
    scope.tables().methods(scope.import_trait(&import_of(body)))
}

/// Whether the traits of a native body, and of its import, are of its shape.
pub fn has_shape(scope: &Scope, form: &DomainLine) -> bool
    ensures { result ≡ has_shape scope.now form.now }
{
    match form {
        DomainLine::Native(body) => are_of_shape(
            scope.tables(),
            *body,
            own_methods(scope),
            import_methods(scope, *body),
        ),
        _ => true,
    }
}

/// Whether the traits of a native body and of its import have one struct where they are to have
/// one.
pub fn has_one_struct(scope: &Scope, form: &DomainLine) -> bool
    ensures { result ≡ has_one_struct scope.now form.now }
{
    match form {
        DomainLine::Native(body) => {
            have_one_struct(*body, own_methods(scope), import_methods(scope, *body))
        }
        _ => true,
    }
}
