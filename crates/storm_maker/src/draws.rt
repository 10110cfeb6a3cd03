//! The numbers that a storm draws.
ghost use Rattle.std.specs.Prelude.{◌≡◌};
ghost use Rattle.storm_maker.specs.Draws as draws;

// Of the linear congruence.
const FACTOR: u64 = 6_364_136_223_846_793_005;

const SUMMAND: u64 = 1_442_695_040_888_963_407;

/// Draws numbers, one after the other. Each is told by the number before it.
#[derive(Debug, Drop)]
pub(crate) struct Draws {
    pub(crate) last: u64,
}

impl Draws {
    /// Draws the next number.
    pub(crate) fn draw(&mut self) -> u64
        ensures next { self.new.last ≡ draws.next self.old.last }
        ensures drawn { result ≡ draws.drawn self.new.last }
    {
        self.last = self.last.wrapping_mul(FACTOR).wrapping_add(SUMMAND);
        self.last >> 33
    }
}
