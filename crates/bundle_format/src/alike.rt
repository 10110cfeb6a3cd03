//! Whether two values are one, of what a bundle's lines are made of.
ghost use Rattle.std.specs.Prelude.{◌≡◌, ◌↔◌, IsTrue, length};

use rl_defs::code::Register;
use rl_defs::list::List;
use rl_defs::name::Name;
use rl_defs::tables::Width;

/// A type whose values can be told apart. Where the answer is yes, contracts see one value.
pub(crate) trait Alike {
    /// Whether this value and the other are one.
    fn alike(&self, other: &Self) -> bool
        ensures { IsTrue result ↔ (self.now ≡ other.now) };
}

impl Alike for u8 {
    fn alike(&self, other: &u8) -> bool {
        self == other
    }
}

impl Alike for u64 {
    fn alike(&self, other: &u64) -> bool {
        self == other
    }
}

impl Alike for Name {
    fn alike(&self, other: &Name) -> bool {
        self == other
    }
}

impl Alike for Width {
    fn alike(&self, other: &Width) -> bool {
        self == other
    }
}

impl Alike for Register {
    fn alike(&self, other: &Register) -> bool {
        self.number == other.number
    }
}

fn alike_items<T: Alike>(a: &[T], b: &[T]) -> bool
    requires { length a.now ≡ length b.now }
    ensures { IsTrue result ↔ (a.now ≡ b.now) }
{
    'items: for i in 0..a.len() {
        if !a[i].alike(&b[i]) {
            return false;
        }
    }
    true
}

impl<T: Alike> Alike for List<T> {
    fn alike(&self, other: &List<T>) -> bool {
        self.len() == other.len() && alike_items(self.as_slice(), other.as_slice())
    }
}
