//! What holds of accepted bundles, whoever reads them: a function with nothing to do, whose
//! contract is a law.
ghost use Rattle.std.specs.Prelude.{◌≡◌, ℕ, List};
ghost use Rattle.rl_defs.specs.declared.load.LoadRows.{LoadRows};
ghost use Rattle.rl_defs.specs.Acceptance.{Accepted};

/// The bytes of a bundle determine the load that they are accepted as.
pub fn bytes_determine_the_load()
    ensures { (bytes : List ℕ) (L M : LoadRows) → Accepted bytes L → Accepted bytes M → L ≡ M }
{}
