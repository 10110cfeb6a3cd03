//! Cells of structs, counted up to a limit.
ghost use Rattle.std.specs.Prelude.{◌≡◌, ℕ, ◌+◌, ◌*◌, ◌++◌, ◌∷◌, [], ◌<◌, ◌≤◌, min, List, length, IfOk, OnOk};
ghost use Rattle.rl_defs.specs.declared.tables.Kind.{Kind as KindValue};
ghost use Rattle.rl_defs.specs.Flattening.{copies};
ghost use Rattle.exchangeable_types.specs.Capped.{IsCapped};

use rl_defs::list::List;
use rl_defs::tables::Kind;
use std::alloc::AllocError;

/// The most cells that a struct may have.
pub const MOST: usize = 512;

// How often the same kinds stand in a block.
const BLOCK: u32 = 16;

/// What types flatten to.
#[derive(Debug, Drop)]
pub enum Cells {
    /// These kinds, at most as many as the limit.
    Few(List<Kind>),
    /// More kinds than the limit. They aren't listed.
    TooMany,
}

// The list with so many times these kinds behind it.
fn extended(list: List<Kind>, kinds: &[Kind], times: u32) -> Result<List<Kind>, AllocError>
    requires room { length list + length kinds.now * times ≤ 512 }
    ensures { IfOk result (λ l. l ≡ list ++ copies times kinds.now) }
{
    match kinds {
        [] => Ok(list),
        [kind] => filled(list, *kind, times),
        _ => repeated(list, kinds, times),
    }
}

// The same, for several kinds. Room for all of them is made at once.
fn repeated(list: List<Kind>, kinds: &[Kind], times: u32) -> Result<List<Kind>, AllocError>
    requires room { length list + length kinds.now * times ≤ 512 }
    ensures { IfOk result (λ l. l ≡ list ++ copies times kinds.now) }
{
    let mut items = list.into_vec();
    reserve(&mut items, kinds.len() * times as usize)?;
    if times < BLOCK {
        append_times(&mut items, kinds, times)?;
    } else {
        append_blocks(&mut items, kinds, times)?;
    }
    Ok(List::from_vec(items))
}

// Puts so many times these kinds last. They are put together to a block first, so that there are
// fewer copies, of more kinds each.
fn append_blocks(items: &mut Vec<Kind>, kinds: &[Kind], times: u32) -> Result<(), AllocError>
    requires many { 16 ≤ times }
    requires room { length kinds.now * times ≤ 512 }
    ensures { OnOk result (items.new.items ≡ items.old.items ++ copies times kinds.now) }
{
    let mut block = Vec::new(*items.allocator());
    reserve(&mut block, kinds.len() * BLOCK as usize)?;
    append_times(&mut block, kinds, BLOCK)?;
    append_times(items, block.as_slice(), times / BLOCK)?;
    append_times(items, kinds, times % BLOCK)
}

// Puts so many times these kinds last, each time for itself.
fn append_times(items: &mut Vec<Kind>, kinds: &[Kind], times: u32) -> Result<(), AllocError>
    ensures { OnOk result (items.new.items ≡ items.old.items ++ copies times kinds.now) }
{
    'times: for _ in 0..times {
        append(items, kinds)?;
    }
    Ok(())
}

// The list with so many times this kind behind it.
fn filled(list: List<Kind>, kind: Kind, times: u32) -> Result<List<Kind>, AllocError>
    requires room { length list + times ≤ 512 }
    ensures { IfOk result (λ l. l ≡ list ++ copies times (kind ∷ [])) }
{
    let mut items = list.into_vec();
    items.resize(items.len() + times as usize, kind)?;
    Ok(List::from_vec(items))
}

// Makes room for so many kinds more.
fn reserve(items: &mut Vec<Kind>, more: usize) -> Result<(), AllocError>
    ensures { items.new.items ≡ items.old.items }
{
    items.reserve(more)
}

fn append(items: &mut Vec<Kind>, kinds: &[Kind]) -> Result<(), AllocError>
    ensures { OnOk result (items.new.items ≡ items.old.items ++ kinds.now) }
{
    items.extend_from_slice(kinds)
}

/// The cells with so many times these kinds behind them, up to the limit.
pub fn put(limit: usize, cells: Cells, kinds: &[Kind], times: u32) -> Result<Cells, AllocError>
    requires few { length kinds.now ≤ 512 }
    requires counted { times ≤ 513 }
    requires low { limit ≤ 512 }
    ensures { IfOk result (λ more. (before : List KindValue) (n : ℕ) → IsCapped limit before cells → times ≡ min 513 n
        → IsCapped limit (before ++ copies n kinds.now) more) }
{
    match cells {
        Cells::TooMany => Ok(Cells::TooMany),
        Cells::Few(list) => {
            if list.len() + kinds.len() * times as usize > limit {
                return Ok(Cells::TooMany);
            }
            Ok(Cells::Few(extended(list, kinds, times)?))
        }
    }
}

/// The cells with so many times the cells of a struct behind them, up to 512.
pub fn put_struct(cells: Cells, inner: &Cells, times: u32) -> Result<Cells, AllocError>
    requires counted { times ≤ 513 }
    ensures { IfOk result (λ more. (before kinds : List KindValue) (n : ℕ) → IsCapped 512 before cells
        → IsCapped 512 kinds inner.now → times ≡ min 513 n → IsCapped 512 (before ++ copies n kinds) more) }
{
    match inner {
        Cells::TooMany => {
            if times == 0 {
                Ok(cells)
            } else {
                Ok(Cells::TooMany)
            }
        }
        Cells::Few(list) => {
            if list.len() > MOST {
                return Ok(Cells::TooMany);
            }
            put(MOST, cells, list.as_slice(), times)
        }
    }
}
