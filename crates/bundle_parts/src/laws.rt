//! What holds of bundles, whoever reads them.
ghost use Rattle.bundle_parts.specs.Laws.{OneBundle};

/// Lines in which neither rule fails stand for one bundle at most.
pub fn one_bundle()
    ensures { OneBundle }
{}
