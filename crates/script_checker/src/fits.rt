//! Rule 50: what a command is given is of the kind, the count and the size that it asks for.
ghost use Rattle.std.specs.Prelude.{◌≡◌, ℕ, drop, map, length};
ghost use Rattle.std.specs.List.{list_any, list_all};
ghost use Rattle.std.specs.Option.{option_copied};
ghost use Rattle.rl_defs.specs.Widths.{fits_width};
ghost use Rattle.rl_defs.specs.Widths.{bits};
ghost use Rattle.rl_defs.specs.ScriptRules.{fits_cell, numbers_fit, bytes_fit, name_suits, lent_suits, target_suits, suits, args_suit, is_own, names_suit, has_count, keeps_kinds, is_object, kind_of, method_of_call};
ghost use Rattle.script_checker.specs.Known.{call_suits};

use crate::bindings::Bindings;
use crate::scope::Scope;
use rl_defs::bundle::{ClientLine, ScriptArgText};
use rl_defs::name::Name;
use rl_defs::tables::{Kind, MethodRow, Width};

fn fits_width(width: Width, n: u64) -> bool
    ensures { result ≡ fits_width width n }
{
    match width {
        Width::Bool => n < 2,
        Width::W8 => n < 1 << 8,
        Width::W16 => n < 1 << 16,
        Width::W32 => n < 1 << 32,
        Width::W64 => true,
    }
}

fn fits_cell(cell: Kind, n: u64) -> bool
    ensures { result ≡ fits_cell cell n }
{
    match cell {
        Kind::Num(width) => fits_width(width, n),
        _ => false,
    }
}

// Whether the numbers are at most as many as the cells, and each fits its cell.
fn numbers_fit(cells: &[Kind], numbers: &[u64]) -> bool
    ensures { result ≡ numbers_fit cells.now numbers.now }
{
    'each: for k in 0..numbers.len() {
        if k >= cells.len() {
            return false;
        }
        if !fits_cell(cells[k], numbers[k]) {
            return false;
        }
    }
    true
}

// How many bits a number of a width has.
fn bits(width: Width) -> u32
    ensures { result ≡ bits width }
{
    match width {
        Width::Bool => 1,
        Width::W8 => 8,
        Width::W16 => 16,
        Width::W32 => 32,
        Width::W64 => 64,
    }
}

// Whether a name that is bound to this suits a parameter: a number that is no wider, or an object
// of the struct.
fn name_suits(param: Kind, bound: Option<Kind>) -> bool
    ensures { result ≡ name_suits param bound }
{
    match (param, bound) {
        (Kind::Num(width), Some(Kind::Num(of))) => bits(of) <= bits(width),
        (Kind::Own(s), Some(Kind::Own(t))) => s == t,
        _ => false,
    }
}

fn lent_suits(param: Kind, bound: Option<Kind>) -> bool
    ensures { result ≡ lent_suits param bound }
{
    match (param, bound) {
        (Kind::Lent(s), Some(Kind::Own(t))) => s == t,
        _ => false,
    }
}

fn target_suits(param: Kind, has: u32) -> bool
    ensures { result ≡ target_suits param has }
{
    match param {
        Kind::Cap(t) => t == has,
        _ => false,
    }
}

fn suits(scope: &Scope, bindings: &Bindings, param: Kind, arg: &ScriptArgText) -> bool
    ensures { result ≡ suits scope.now.tables scope.now.bundle bindings.now.bound param arg.now }
{
    match arg {
        ScriptArgText::Num(n) => fits_cell(param, *n),
        ScriptArgText::Name(name) => name_suits(param, bindings.kind_of(name)),
        ScriptArgText::Lent(name) => lent_suits(param, bindings.kind_of(name)),
        ScriptArgText::Target(name) => target_suits(param, scope.target_trait(name)),
    }
}

// Whether each argument suits its parameter.
fn args_suit(scope: &Scope, bindings: &Bindings, params: &[Kind], args: &[ScriptArgText]) -> bool
    ensures { result ≡ args_suit scope.now.tables scope.now.bundle bindings.now.bound params.now args.now }
{
    'each: for k in 0..args.len() {
        if k >= params.len() {
            return true;
        }
        if !suits(scope, bindings, params[k], &args[k]) {
            return false;
        }
    }
    true
}

fn is_own(kind: Kind) -> bool
    ensures { result ≡ is_own kind }
{
    matches!(kind, Kind::Own(_))
}

fn has_objects(results: &[Kind]) -> bool
    ensures { result ≡ list_any is_own results.now }
{
    'each: for kind in results {
        if is_own(*kind) {
            return true;
        }
    }
    false
}

// Whether the names are as many as the results. Where there are none, no result may be an object.
fn names_suit(results: &[Kind], names: &[Name]) -> bool
    ensures { result ≡ names_suit results.now names.now }
{
    match names {
        [] => !has_objects(results),
        [_, ..] => results.len() == names.len(),
    }
}

/// The method that a call names.
pub fn method_of_call<'a>(scope: &'a Scope, target: &Name, method: &Name) -> Option<&'a MethodRow>
    ensures { option_copied result ≡ method_of_call scope.now.tables scope.now.bundle target.now method.now }
{
    scope.method_named(scope.target_trait(target), method)
}

// Whether there is such a method, whose parameters the arguments suit, and whose results the names.
fn call_suits(
    scope: &Scope,
    bindings: &Bindings,
    method: Option<&MethodRow>,
    args: &[ScriptArgText],
    names: &[Name],
) -> bool
    ensures { result ≡ call_suits scope.now.tables scope.now.bundle bindings.now.bound
        (option_copied method.entry) args.now names.now }
{
    match method {
        Some(row) => {
            row.params.len() == args.len()
                && args_suit(scope, bindings, row.params.as_slice(), args)
                && names_suit(row.results.as_slice(), names)
        }
        None => false,
    }
}

fn is_object(kind: Option<Kind>) -> bool
    ensures { result ≡ is_object kind }
{
    matches!(kind, Some(Kind::Own(_)))
}

/// Whether the name is bound to an object.
pub fn names_object(bindings: &Bindings, name: &Name) -> bool
    ensures { result ≡ is_object (kind_of bindings.now.bound name.now) }
{
    is_object(bindings.kind_of(name))
}

/// Whether the command keeps every sentence of rule 50.
pub fn keeps_kinds(scope: &Scope, bindings: &Bindings, form: &ClientLine) -> bool
    ensures { result ≡ keeps_kinds scope.now.tables scope.now.bundle bindings.now.bound form.now }
{
    match form {
        ClientLine::Let { ty, values, .. } => {
            numbers_fit(scope.cells(scope.struct_number(ty)), values.as_slice())
        }
        ClientLine::Text { ty, bytes, .. } => {
            let s = scope.struct_number(ty);
            scope.is_of_bytes(s) && bytes.len() <= scope.cells(s).len()
        }
        ClientLine::Call {
            target,
            method,
            args,
            names,
        } => call_suits(
            scope,
            bindings,
            method_of_call(scope, target, method),
            args.as_slice(),
            names.as_slice(),
        ),
        ClientLine::Show(name) | ClientLine::Drop(name) => names_object(bindings, name),
        _ => true,
    }
}
