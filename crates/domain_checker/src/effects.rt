//! What a line makes of the kinds of the registers.
ghost use Rattle.std.specs.Prelude.{◌≡◌, ℕ, length, drop, map, IfSome};
ghost use Rattle.std.specs.Option.{option_copied};
ghost use Rattle.rl_defs.specs.CodeNames.{params_of, results_of};
ghost use Rattle.rl_defs.specs.CodeKinds.{method_called, hung_in, hung_at, own_kind, writes, put_all, put_from, after, after_line, at_label, listed_kind, listed, no_kinds};
ghost use Rattle.rl_defs.specs.TableSizes.{IsMethodSmall};

use crate::kinds::{
    Kinds, empty_all, kind_in, leave_all, leave_moved, leave_passed, put_kind, put_pairs,
    put_params, same_kinds,
};
use crate::scope::Scope;
use crate::tables::NamedTables;
use rl_defs::code::{DomainLine, HeadItem, HeadKind, Instr, RegKind};
use rl_defs::name::Name;
use rl_defs::tables::{Kind, MethodRow};

/// The method of this name of the interface that a register holds.
pub fn method_called<'a>(
    tables: &'a NamedTables,
    target: RegKind,
    name: &Name,
) -> Option<&'a MethodRow>
    ensures value { option_copied result ≡ method_called tables.now target name.now }
    ensures small { IfSome result (λ m. IsMethodSmall m.now) }
{
    match target {
        RegKind::Cap(t) => tables.method_named(t, name),
        _ => None,
    }
}

/// The parameters of a method. There are none where there is no method.
pub fn params_of<'a>(method: Option<&'a MethodRow>) -> &'a [Kind]
    ensures { result.now ≡ params_of (option_copied method.entry) }
{
    match method {
        Some(row) => row.params.as_slice(),
        None => &[],
    }
}

/// The results of a method. There are none where there is no method.
pub fn results_of<'a>(method: Option<&'a MethodRow>) -> &'a [Kind]
    ensures { result.now ≡ results_of (option_copied method.entry) }
{
    match method {
        Some(row) => row.results.as_slice(),
        None => &[],
    }
}

fn hung_in(cell: Option<&Kind>) -> Option<u32>
    ensures { result ≡ hung_in (option_copied cell.entry) }
{
    match cell {
        Some(Kind::Own(s)) => Some(*s),
        _ => None,
    }
}

/// The struct of the objects that hang in a cell of an own object.
pub fn hung_at(tables: &NamedTables, kind: RegKind, place: u64) -> Option<u32>
    ensures { result ≡ hung_at tables.now kind place }
{
    match kind {
        RegKind::Own(s) => hung_in(tables.cells(s).get(place as usize)),
        _ => None,
    }
}

fn own_kind(of: Option<u32>) -> RegKind
    ensures { result ≡ own_kind of }
{
    match of {
        Some(s) => RegKind::Own(s),
        None => RegKind::Empty,
    }
}

/// The kind that a head lists.
pub fn listed_kind(tables: &NamedTables, kind: &HeadKind) -> RegKind
    ensures { result ≡ listed_kind tables.now kind.now }
{
    match kind {
        HeadKind::Num => RegKind::Num,
        HeadKind::Own(ty) => RegKind::Own(tables.struct_number(ty)),
        HeadKind::Lent(ty) => RegKind::Lent(tables.struct_number(ty)),
        HeadKind::Cap(has) => RegKind::Cap(tables.trait_number(has)),
    }
}

// The kinds that a head lists stand in their registers.
fn put_listed(kinds: &mut Kinds, tables: &NamedTables, items: &[HeadItem])
    ensures { kinds.new ≡ put_all (listed tables.now items.now) kinds.old }
{
    'items: for item in items {
        put_kind(kinds, item.register, listed_kind(tables, &item.kind));
    }
}

// What an instruction writes stands in its registers, where control goes on at the next line.
fn put_written(kinds: &mut Kinds, scope: &Scope, before: &Kinds, instr: &Instr)
    ensures { kinds.new ≡ put_all (writes scope.now before.now instr.now) kinds.old }
{
    match instr {
        Instr::Const(a, _)
        | Instr::Math(_, a, _, _)
        | Instr::Get(a, _, _)
        | Instr::Wget(a, _)
        | Instr::Has(a, _)
        | Instr::DevSize(a) => put_kind(kinds, *a, RegKind::Num),
        Instr::Copy(a, b) | Instr::Move(a, b) => put_kind(kinds, *a, kind_in(before, *b)),
        Instr::Cap(a, import) => put_kind(kinds, *a, RegKind::Cap(scope.import_trait(import))),
        Instr::New(a, ty) => put_kind(kinds, *a, RegKind::Own(scope.tables().struct_number(ty))),
        Instr::Take(a, slot) => put_kind(kinds, *a, RegKind::Own(scope.slot_struct(slot))),
        Instr::Unhang(a, o, place) => put_kind(
            kinds,
            *a,
            own_kind(hung_at(scope.tables(), kind_in(before, *o), *place)),
        ),
        Instr::Call {
            target,
            method,
            results,
            ..
        } => put_pairs(
            kinds,
            results_of(method_called(scope.tables(), kind_in(before, *target), method)),
            results.as_slice(),
        ),
        _ => {}
    }
}

/// The kinds become those at the first line of the function for a method.
pub fn enter_method(kinds: &mut Kinds, method: Option<&MethodRow>)
    requires { IfSome method (λ m. IsMethodSmall m.now) }
    ensures { kinds.new ≡ put_from 0 (params_of (option_copied method.entry)) no_kinds }
{
    empty_all(kinds);
    if let Some(row) = method {
        put_params(kinds, row.params.as_slice());
    }
}

// The kinds behind an instruction that may move objects, where control goes on at the next line.
fn kinds_behind_instr(scope: &Scope, kinds: &Kinds, instr: &Instr) -> Kinds
    ensures { result ≡ after scope.now kinds.now instr.now }
{
    let mut next = same_kinds(kinds);
    leave_moved(&mut next, instr);
    put_written(&mut next, scope, kinds, instr);
    next
}

// The kinds become those behind an instruction. Most instructions move no object and write one
// register at most.
fn pass_instr(kinds: &mut Kinds, scope: &Scope, instr: &Instr)
    ensures { kinds.new ≡ after scope.now kinds.old instr.now }
{
    match instr {
        Instr::Const(a, _)
        | Instr::Math(_, a, _, _)
        | Instr::Get(a, _, _)
        | Instr::Wget(a, _)
        | Instr::Has(a, _)
        | Instr::DevSize(a) => put_kind(kinds, *a, RegKind::Num),
        Instr::Copy(a, b) => {
            let kind = kind_in(kinds, *b);
            put_kind(kinds, *a, kind);
        }
        Instr::Jmp(_) | Instr::Jz(_, _) | Instr::Set(_, _, _) | Instr::Wput(_, _) | Instr::Trap =>
            {}
        Instr::Ret(results) => leave_all(kinds, results.as_slice()),
        _ => *kinds = kinds_behind_instr(scope, kinds, instr),
    }
}

/// The kinds become those behind a line.
pub fn pass_line(kinds: &mut Kinds, scope: &Scope, form: &DomainLine)
    ensures { kinds.new ≡ after_line scope.now kinds.old form.now }
{
    match form {
        DomainLine::Function(name) => {
            enter_method(
                kinds,
                scope.tables().method_named(scope.domain_trait(), name),
            );
        }
        DomainLine::Head(_, items) => {
            empty_all(kinds);
            put_listed(kinds, scope.tables(), items.as_slice());
        }
        DomainLine::Code(instr) => pass_instr(kinds, scope, instr),
        _ => {}
    }
}

/// The kinds at the label of an instruction.
pub fn kinds_at_label(kinds: &Kinds, instr: &Instr) -> Kinds
    ensures { result ≡ at_label kinds.now instr.now }
{
    let mut there = same_kinds(kinds);
    if let Instr::Call { args, code, .. } = instr {
        leave_passed(&mut there, args.as_slice());
        put_kind(&mut there, *code, RegKind::Num);
    }
    there
}
