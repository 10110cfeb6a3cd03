//! Methods by their names.
ghost use Rattle.std.specs.Prelude.{◌≡◌, ℕ, ◌<◌, ◌^◌, List, Some, length, slice_get, IfSome, nat_eq};
ghost use Rattle.rl_defs.specs.Interfaces.{place_of};
ghost use Rattle.proxy_tables.specs.Names.{method_names};

use rl_defs::name::Name;
use rl_defs::tables::{MethodRow, Tables};

/// The number of the method of a trait that has this name, from 0. None exactly where the trait has
/// no such method. The trait has fewer than 2^32 methods, as
/// [`few_methods`](crate::laws::few_methods) says of the tables of a part with fewer than 2^32
/// lines.
pub fn method(tables: &Tables, t: u32, name: &Name) -> Option<u32>
    requires there { t < length tables.now.traits }
    requires few { IfSome (slice_get tables.now.traits t) (λ row. length row.methods < 2 ^ 32) }
    ensures { IfSome (slice_get tables.now.traits t) (λ row. result ≡ place_of name.now (method_names row.methods)) }
{
    place(
        tables.traits.as_slice()[t as usize].methods.as_slice(),
        name,
    )
}

fn place(methods: &[MethodRow], name: &Name) -> Option<u32>
    requires { length methods.now < 2 ^ 32 }
    ensures { result ≡ place_of name.now (method_names methods.now) }
{
    let mut number = 0u32;
    'methods: for method in methods {
        if method.name == *name {
            return Some(number);
        }
        number += 1;
    }
    None
}
