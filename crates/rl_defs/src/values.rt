//! What registers and script names hold.

/// What a register, a result or a script name holds.
#[derive(Clone, Copy, Debug, PartialEq, Eq)]
pub enum Value {
    Num(u64),
    /// An object, by its number.
    Obj(u64),
    /// A reference to the interface of a load or a shadow.
    Cap(u32),
}

// What stands at the unused places of a short list.
impl Default for Value {
    ghost use Rattle.std.specs.Prelude.{◌≡◌};
    ghost use Rattle.rl_defs.specs.declared.values.Value.TheVariants as value;

    ghost is_default = { λ v. v ≡ value.Num 0 };

    fn default() -> Self {
        Value::Num(0)
    }
}
