//! What giving names up comes to.
ghost use Rattle.std.specs.Prelude.{◌≡◌, List, map};
ghost use Rattle.rl_defs.specs.declared.load.ScriptArg.{ScriptArg as Given};
ghost use Rattle.machine_defs.specs.Arguments.{moved_of};
ghost use Rattle.machine_defs.specs.Calling.{unless_moved};
ghost use Rattle.machine_defs.specs.Wants.{Names, arg_of};
ghost use Rattle.client_threads.specs.GivenUp.{AreHeldOnce, given_up_names};

/// Where no object is held by two names, the names that a call gives up are those that hold the
/// objects among its moved arguments.
pub fn the_moved_are_given_up()
    ensures { (names : Names) (args : List Given) → AreHeldOnce names
        → given_up_names args names ≡ map (unless_moved (moved_of (map (arg_of names) args))) names }
{}
