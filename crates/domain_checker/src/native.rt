//! The traits that a native body and its import have to have.
ghost use Rattle.std.specs.Prelude.{◌≡◌, ℕ, ◌&&◌, [], ◌∷◌, ◌++◌, length, fold};
ghost use Rattle.std.specs.List.{list_all, zip};
ghost use Rattle.rl_defs.specs.DomainValue.{Domain};
ghost use Rattle.rl_defs.specs.Words.{same_bytes};
ghost use Rattle.rl_defs.specs.NativeShapes as natives;
ghost use Rattle.rl_defs.specs.NativeShapes.{is_number, has_cells, serves, is_shape, are_shapes, same_mark, is_method, are_methods, same_role, put_where, are_one, structs_for, structs_in, own_methods, import_methods, are_of_shape, have_one_struct};
ghost use Rattle.domain_checker.specs.Shapes.{role_meant, shape_meant, shapes_meant, method_meant, methods_meant};
ghost use Rattle.domain_checker.specs.OneStruct.{with_struct, with_all, is_one};

use crate::tables::NamedTables;
use rl_defs::code::Native;
use rl_defs::name::Name;
use rl_defs::tables::{Kind, MethodRow, Width};

/// What a struct of these traits is for.
#[derive(Clone, Copy, Debug, PartialEq, Eq)]
enum Role {
    /// A block of the device: 64 cells of `u64`.
    Block,
    /// The name of a file: 32 cells of `u8`.
    FileName,
    /// The bytes of a file: 512 cells of `u8`.
    Buffer,
}

/// What a parameter or result has to be.
#[derive(Clone, Copy, Debug)]
enum Shape {
    /// A number of this width.
    Number(Width),
    /// An object that passes along.
    Passes(Role),
    /// An object that is lent.
    Lends(Role),
}

/// What a method has to be.
#[derive(Clone, Copy, Debug)]
struct MethodShape {
    name: &'static [u8],
    idempotent: bool,
    params: &'static [Shape],
    results: &'static [Shape],
}

/// The structs at some places of a trait.
#[derive(Clone, Copy, Debug)]
enum Found {
    /// There are no such places.
    Nothing,
    /// Each is the struct with this number.
    One(u32),
    /// Two of them differ.
    Different,
}

const WORD: Shape = Shape::Number(Width::W64);

// The block device.
const BLOCK_DEVICE: [MethodShape; 3] = [
    MethodShape {
        name: b"size",
        idempotent: true,
        params: &[],
        results: &[WORD],
    },
    MethodShape {
        name: b"read",
        idempotent: true,
        params: &[WORD],
        results: &[Shape::Passes(Role::Block)],
    },
    MethodShape {
        name: b"write",
        idempotent: true,
        params: &[WORD, Shape::Lends(Role::Block)],
        results: &[],
    },
];

// The file system.
const FILE_SYSTEM: [MethodShape; 7] = [
    MethodShape {
        name: b"mkfs",
        idempotent: false,
        params: &[],
        results: &[WORD],
    },
    MethodShape {
        name: b"create",
        idempotent: false,
        params: &[Shape::Lends(Role::FileName)],
        results: &[WORD, WORD],
    },
    MethodShape {
        name: b"find",
        idempotent: false,
        params: &[Shape::Lends(Role::FileName)],
        results: &[WORD, WORD],
    },
    MethodShape {
        name: b"size",
        idempotent: false,
        params: &[WORD],
        results: &[WORD, WORD],
    },
    MethodShape {
        name: b"read",
        idempotent: false,
        params: &[WORD, WORD, WORD, Shape::Passes(Role::Buffer)],
        results: &[WORD, WORD, Shape::Passes(Role::Buffer)],
    },
    MethodShape {
        name: b"write",
        idempotent: false,
        params: &[WORD, WORD, WORD, Shape::Lends(Role::Buffer)],
        results: &[WORD],
    },
    MethodShape {
        name: b"remove",
        idempotent: false,
        params: &[Shape::Lends(Role::FileName)],
        results: &[WORD],
    },
];

// The calls after xv6.
const POSIX_CALLS: [MethodShape; 8] = [
    MethodShape {
        name: b"open",
        idempotent: false,
        params: &[Shape::Lends(Role::FileName), Shape::Number(Width::Bool)],
        results: &[WORD, WORD],
    },
    MethodShape {
        name: b"close",
        idempotent: false,
        params: &[WORD],
        results: &[WORD],
    },
    MethodShape {
        name: b"read",
        idempotent: false,
        params: &[WORD, WORD, Shape::Passes(Role::Buffer)],
        results: &[WORD, WORD, Shape::Passes(Role::Buffer)],
    },
    MethodShape {
        name: b"write",
        idempotent: false,
        params: &[WORD, WORD, Shape::Lends(Role::Buffer)],
        results: &[WORD, WORD],
    },
    MethodShape {
        name: b"seek",
        idempotent: false,
        params: &[WORD, WORD],
        results: &[WORD],
    },
    MethodShape {
        name: b"unlink",
        idempotent: false,
        params: &[Shape::Lends(Role::FileName)],
        results: &[WORD],
    },
    MethodShape {
        name: b"pipe_put",
        idempotent: false,
        params: &[WORD],
        results: &[WORD],
    },
    MethodShape {
        name: b"pipe_get",
        idempotent: false,
        params: &[],
        results: &[WORD, WORD],
    },
];

// The shape of the trait of a native body.
fn shape_of(body: Native) -> &'static [MethodShape]
    ensures { methods_meant result.now ≡ natives.shape_of body }
{
    match body {
        Native::Fs => &FILE_SYSTEM,
        Native::Rv6 => &POSIX_CALLS,
    }
}

// The shape of the trait of a native body's import.
fn import_shape(body: Native) -> &'static [MethodShape]
    ensures { methods_meant result.now ≡ natives.import_shape body }
{
    match body {
        Native::Fs => &BLOCK_DEVICE,
        Native::Rv6 => &FILE_SYSTEM,
    }
}

fn import_bytes(body: Native) -> &'static [u8]
    ensures { result.now ≡ natives.import_of body }
{
    match body {
        Native::Fs => b"disk",
        Native::Rv6 => b"files",
    }
}

/// The name of a native body's import.
pub(crate) fn import_of(body: Native) -> Name
    ensures { result ≡ natives.import_of body }
{
    match Name::read(import_bytes(body)) {
        Some(name) => name,
        None => unreachable!(),
    }
}

fn is_number(width: Width, kind: &Kind) -> bool
    ensures { result ≡ is_number width kind.now }
{
    match kind {
        Kind::Num(has) => width == *has,
        _ => false,
    }
}

fn are_numbers(width: Width, cells: &[Kind]) -> bool
    ensures { result ≡ list_all (is_number width) cells.now }
{
    cells.iter().all(|kind| is_number(width, kind))
}

/// Whether there are so many cells, all of them numbers of this width.
pub(crate) fn has_cells(count: usize, width: Width, cells: &[Kind]) -> bool
    ensures { result ≡ has_cells count width cells.now }
{
    cells.len() == count && are_numbers(width, cells)
}

fn serves(role: Role, cells: &[Kind]) -> bool
    ensures { result ≡ serves (role_meant role) cells.now }
{
    match role {
        Role::Block => has_cells(64, Width::W64, cells),
        Role::FileName => has_cells(32, Width::W8, cells),
        Role::Buffer => has_cells(512, Width::W8, cells),
    }
}

fn is_shape(tables: &NamedTables, shape: Shape, kind: Kind) -> bool
    ensures { result ≡ is_shape tables.now (shape_meant shape) kind }
{
    match (shape, kind) {
        (Shape::Number(width), _) => is_number(width, &kind),
        (Shape::Passes(role), Kind::Own(number)) => serves(role, tables.cells(number)),
        (Shape::Lends(role), Kind::Lent(number)) => serves(role, tables.cells(number)),
        _ => false,
    }
}

// Whether the kinds are of the shapes at their places, as far as both go.
fn suit_shapes(tables: &NamedTables, shapes: &[Shape], kinds: &[Kind]) -> bool
    ensures { result ≡ list_all (λ p. is_shape tables.now (shape_meant p.0) p.1) (zip shapes.now kinds.now) }
{
    shapes
        .iter()
        .zip(kinds)
        .all(|(shape, kind)| is_shape(tables, *shape, *kind))
}

fn are_shapes(tables: &NamedTables, shapes: &[Shape], kinds: &[Kind]) -> bool
    ensures { result ≡ are_shapes tables.now (shapes_meant shapes.now) kinds.now }
{
    shapes.len() == kinds.len() && suit_shapes(tables, shapes, kinds)
}

fn is_named(row: &MethodRow, name: &[u8]) -> bool
    ensures { result ≡ same_bytes row.now.name name.now }
{
    row.name.bytes() == name
}

fn same_mark(wanted: bool, marked: bool) -> bool
    ensures { result ≡ same_mark wanted marked }
{
    wanted == marked
}

fn is_method(tables: &NamedTables, shape: &MethodShape, row: &MethodRow) -> bool
    ensures { result ≡ is_method tables.now (method_meant shape.now) row.now }
{
    is_named(row, shape.name)
        && same_mark(shape.idempotent, row.idempotent)
        && are_shapes(tables, shape.params, row.params.as_slice())
        && are_shapes(tables, shape.results, row.results.as_slice())
}

// Whether the rows are of the shapes at their places, as far as both go.
fn suit_methods(tables: &NamedTables, shapes: &[MethodShape], rows: &[MethodRow]) -> bool
    ensures { result ≡ list_all (λ p. is_method tables.now (method_meant p.0) p.1) (zip shapes.now rows.now) }
{
    shapes
        .iter()
        .zip(rows)
        .all(|(shape, row)| is_method(tables, shape, row))
}

fn are_methods(tables: &NamedTables, shapes: &[MethodShape], rows: &[MethodRow]) -> bool
    ensures { result ≡ are_methods tables.now (methods_meant shapes.now) rows.now }
{
    shapes.len() == rows.len() && suit_methods(tables, shapes, rows)
}

/// Whether the trait of a domain, and that of its native body's import, are of the body's shapes.
/// `own` are the methods of the domain's trait, `theirs` those of the import's.
pub(crate) fn are_of_shape(
    tables: &NamedTables,
    body: Native,
    own: &[MethodRow],
    theirs: &[MethodRow],
) -> bool
    ensures { (d : Domain) → d.tables ≡ tables.now → own_methods d ≡ own.now → import_methods d body ≡ theirs.now
        → result ≡ are_of_shape d body }
{
    are_methods(tables, shape_of(body), own) && are_methods(tables, import_shape(body), theirs)
}

// The structs at some places and at one place more.
fn with_struct(found: Found, number: u32) -> Found
    ensures { result ≡ with_struct found number }
{
    match found {
        Found::Nothing => Found::One(number),
        Found::One(first) => {
            if number == first {
                found
            } else {
                Found::Different
            }
        }
        Found::Different => Found::Different,
    }
}

fn is_one(found: Found) -> bool
    ensures { result ≡ is_one found }
{
    !matches!(found, Found::Different)
}

fn same_role(role: Role, other: Role) -> bool
    ensures { result ≡ same_role (role_meant role) (role_meant other) }
{
    role == other
}

// With the struct at a place, where it is for this role.
fn with_place(role: Role, found: Found, shape: Shape, kind: Kind) -> Found
    ensures { result ≡ with_all found (structs_for (role_meant role) (shape_meant shape ∷ []) (kind ∷ [])) }
{
    match (shape, kind) {
        (Shape::Passes(has), Kind::Own(number)) => with_role(role, found, has, number),
        (Shape::Lends(has), Kind::Lent(number)) => with_role(role, found, has, number),
        _ => found,
    }
}

fn with_role(role: Role, found: Found, has: Role, number: u32) -> Found
    ensures { result ≡ with_all found (put_where (same_role (role_meant role) (role_meant has)) number []) }
{
    if same_role(role, has) {
        with_struct(found, number)
    } else {
        found
    }
}

// With the structs at the places that are for this role.
fn with_places(role: Role, found: Found, shapes: &[Shape], kinds: &[Kind]) -> Found
    ensures { let places = zip shapes.now kinds.now in
        result ≡ fold (λ f p. with_all f
        (structs_for (role_meant role) (shape_meant p.0 ∷ []) (p.1 ∷ []))) found places }
{
    shapes.iter().zip(kinds).fold(
        found,
        |found, (shape, kind)| with_place(role, found, *shape, *kind),
    )
}

fn with_method(role: Role, found: Found, shape: &MethodShape, row: &MethodRow) -> Found
    ensures { result ≡ with_all found (structs_in (role_meant role) (method_meant shape.now ∷ []) (row.now ∷ [])) }
{
    let found = with_places(role, found, shape.params, row.params.as_slice());
    with_places(role, found, shape.results, row.results.as_slice())
}

fn with_methods(role: Role, found: Found, shapes: &[MethodShape], rows: &[MethodRow]) -> Found
    ensures { let methods = zip shapes.now rows.now in
        result ≡ fold (λ f p. with_all f
        (structs_in (role_meant role) (method_meant p.0 ∷ []) (p.1 ∷ []))) found methods }
{
    shapes.iter().zip(rows).fold(
        found,
        |found, (shape, row)| with_method(role, found, shape, row),
    )
}

fn has_one(role: Role, body: Native, own: &[MethodRow], theirs: &[MethodRow]) -> bool
    ensures { let meant = role_meant role in
        result ≡ are_one (structs_in meant (natives.shape_of body) own.now
        ++ structs_in meant (natives.import_shape body) theirs.now) }
{
    let found = with_methods(role, Found::Nothing, shape_of(body), own);
    is_one(with_methods(role, found, import_shape(body), theirs))
}

/// Whether the traits of a domain and of its native body's import have one struct at the places
/// that have to be of one.
pub(crate) fn have_one_struct(body: Native, own: &[MethodRow], theirs: &[MethodRow]) -> bool
    ensures { (d : Domain) → own_methods d ≡ own.now → import_methods d body ≡ theirs.now
        → result ≡ have_one_struct d body }
{
    has_one(Role::Block, body, own, theirs)
        && has_one(Role::FileName, body, own, theirs)
        && has_one(Role::Buffer, body, own, theirs)
}
