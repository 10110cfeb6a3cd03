//! The rule of the table, and what each step tells the seat that makes it. These types are for the
//! proofs alone.
ghost use Rattle.machine_defs.specs.HeadSteps.{one_fewer, one_pass, both as together};
ghost use Rattle.rref_heads.specs.Plays.{Claims, Publishes, Lends, GivesBack, Releases, TakesUp, Ends, PassesOn};

use crate::table::Payload;
use atomic_table::{Join, Play, Split, TableRule};
use machine_defs::heads::{Size, View};

pub struct Rule;

impl TableRule<Option<Payload>, View, Size> for Rule {
    ghost use Rattle.machine_defs.specs.Heads.{first};
    ghost use Rattle.rref_heads.specs.Plays.{Holds};

    ghost holds = { Holds };

    ghost first = { first };
}

pub struct Claim;

impl Play<Option<Payload>, View> for Claim {
    ghost then = { Claims };
}

pub struct Publish;

impl Play<Option<Payload>, View> for Publish {
    ghost then = { Publishes };
}

pub struct Lend;

impl Play<Option<Payload>, View> for Lend {
    ghost then = { Lends };
}

pub struct GiveBack;

impl Play<Option<Payload>, View> for GiveBack {
    ghost then = { GivesBack };
}

pub struct Release;

impl Play<Option<Payload>, View> for Release {
    ghost then = { Releases };
}

pub struct PassOn;

impl Play<Option<Payload>, View> for PassOn {
    ghost then = { PassesOn };
}

pub struct TakeUp;

impl Play<Option<Payload>, View> for TakeUp {
    ghost then = { TakesUp };
}

pub struct End;

impl Play<Option<Payload>, View> for End {
    ghost then = { Ends };
}

/// A seat that stands for several passes gives one to a new seat.
pub struct SplitOff;

impl Split<View> for SplitOff {
    ghost left = { one_fewer };

    ghost right = { one_pass };
}

/// A seat takes in another, of which nothing is left.
pub struct Unite;

impl Join<View> for Unite {
    ghost use Rattle.machine_defs.specs.Heads.{empty};

    ghost both = { together };

    ghost spent = { empty 0 };
}
