//! All shadows of a load.
ghost use Rattle.std.specs.Prelude.{◌≡◌, ℕ, ◌+◌, ◌-◌, ◌<◌, ◌≤◌, ◌^◌, ◌&&◌, [], ◌∷◌, ◌++◌, length, map, true, IfOk, OnOk, OnErr};
ghost use Rattle.std.specs.Prelude.{nat_lt, slice_set};
ghost use Rattle.std.specs.Option.{option_copied, option_map_or};
ghost use Rattle.rl_defs.specs.Domains.{row, load_row, load_of_target};
ghost use Rattle.rl_defs.specs.Rows.{is_target};
ghost use Rattle.machine_defs.specs.State.{first_instance, first_shadow, current_of};
ghost use Rattle.machine_defs.specs.Calling.{is_shadow, is_idempotent};

use instance_table::Instances;
use rl_defs::load::Load;
use std::alloc::{AllocError, Global};
use std::marker::Model;

/// A shadow: the instance that it stands for now, and the restarts that are left. Contracts see the
/// shadow of the machine's state.
#[derive(Debug, Drop)]
pub struct Shadow {
    current: u32,
    left: u8,
}

impl Model for Shadow {
    ghost use Rattle.machine_defs.specs.State.{Shadow as Row};

    ghost Value = { Row };

    ghost view = { λ s. record { current = s.current; left = s.left } };
}

/// The shadows of a load, in the order of their numbers. Contracts see them as a list.
#[derive(Debug, Drop)]
pub struct Shadows {
    rows: Vec<Shadow>,
}

impl Model for Shadows {
    ghost use Rattle.std.specs.Prelude.{List};
    ghost use Rattle.machine_defs.specs.State.{Shadow as Row};

    ghost Value = { List Row };

    ghost view = { λ s. s.rows.items };
}

impl Shadows {
    /// Each shadow stands for the first instance of its load, and has all its restarts left.
    pub fn new(alloc: Global, load: &Load) -> Result<Shadows, AllocError>
        ensures { IfOk result (λ s. s ≡ map first_shadow load.now.shadows) }
    {
        let mut rows = Vec::new(alloc);
        'shadows: for row in load.rows().shadows.as_slice() {
            rows.push(Shadow {
                current: row.load,
                left: row.restarts,
            })?;
        }
        Ok(Shadows { rows })
    }

    /// The instance that a target stands for now: a load's is the instance of the same number.
    pub fn current(&self, load: &Load, target: u32) -> u32
        ensures { result ≡ current_of target (row self.now (target - length load.now.loads)) }
    {
        match self.shadow(load, target) {
            Some(shadow) => shadow.current,
            None => target,
        }
    }

    /// How many restarts a target has left; a load has none.
    pub fn left(&self, load: &Load, target: u32) -> u32
        ensures { result ≡ option_map_or (λ s. s.left) (row self.now (target - length load.now.loads)) 0 }
    {
        match self.shadow(load, target) {
            Some(shadow) => shadow.left as u32,
            None => 0,
        }
    }

    /// The instance that a target stands for now, and whether it has a restart left.
    pub fn resolve(&self, load: &Load, target: u32) -> (u32, bool)
        ensures current { result.0 ≡ current_of target (row self.now (target - length load.now.loads)) }
        ensures left { result.1
            ≡ nat_lt 0 (option_map_or (λ s. s.left) (row self.now (target - length load.now.loads)) 0) }
    {
        (self.current(load, target), self.left(load, target) > 0)
    }

    /// Opens a fresh instance of the load of a shadow, which has a restart left, and answers its
    /// number. The shadow stands for it from now on, and has one restart less. Nothing else
    /// changes, and after `AllocError` nothing has.
    pub fn reload(
        &mut self,
        instances: &mut Instances,
        load: &Load,
        target: u32,
    ) -> Result<u32, AllocError>
        requires a_shadow { is_shadow load.now target ≡ true }
        requires a_target { is_target load.now target ≡ true }
        requires left { 0 < option_map_or (λ s. s.left) (row self.old (target - length load.now.loads)) 0 }
        requires few { length instances.old < 2 ^ 32 - 1 }
        ensures number { IfOk result (λ i. i ≡ length instances.old + 1) }
        ensures stands { IfOk result (λ i. (left : ℕ)
            → option_map_or (λ s. s.left) (row self.old (target - length load.now.loads)) 0 ≡ left + 1
            → self.new ≡ slice_set self.old (target - length load.now.loads - 1)
            (record { current = i; left = left })) }
        ensures opened { OnOk result (instances.new ≡ instances.old
            ++ option_map_or (λ l. first_instance load.now (load_of_target load.now target) l ∷ [])
            (load_row load.now (load_of_target load.now target)) []) }
        ensures shadows { OnErr result (self.new ≡ self.old) }
        ensures unopened { OnErr result (instances.new ≡ instances.old) }
    {
        let rows = load.rows();
        let number = instances.open(load, rows.load_of_target(target))?;
        let place = target as usize - rows.loads.len() - 1;
        let shadow = &mut self.rows[place];
        shadow.current = number;
        shadow.left -= 1;
        Ok(number)
    }

    /// Whether a call of this method of the target may be issued again: where it goes through a
    /// shadow, and the method is idempotent.
    pub fn may_reissue(&self, load: &Load, target: u32, method: u32) -> bool
        ensures { result ≡ (is_shadow load.now target && is_idempotent load.now target method) }
    {
        let rows = load.rows();
        if target as usize <= rows.loads.len() {
            return false;
        }
        match rows.method_row(target, method) {
            Some(row) => row.idempotent,
            None => false,
        }
    }

    // The shadow of a target. Shadows are numbered on after the loads.
    fn shadow(&self, load: &Load, target: u32) -> Option<&Shadow>
        ensures { option_copied result ≡ row self.now (target - length load.now.loads) }
    {
        let number = (target as usize).saturating_sub(load.rows().loads.len());
        if number == 0 {
            return None;
        }
        self.rows.get(number - 1)
    }
}
