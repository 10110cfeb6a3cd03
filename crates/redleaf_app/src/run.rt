//! What `run` answers to the bytes of a bundle.
ghost use Rattle.std.specs.Prelude.{◌≡◌, ◌≤◌, [], length, IfOk};
ghost use Rattle.machine_defs.specs.State.{start};
ghost use Rattle.redleaf_app.specs.declared.command.Command.TheVariants as command;
ghost use Rattle.redleaf_app.specs.Replies.{Answers, TellsRunOf};

use crate::calm::LONGEST_BUNDLE;
use crate::refusal::refusal_text;
use crate::reply::Reply;
use crate::text::text_of;
use domain_loader::load::load;
use domain_machine::{Finish, World, builds};
use machine_laws::histories_tell_laws;
use rl_defs::load::Load;
use rl_defs::{LoadFault, Refusal};
use std::alloc::{AllocError, Global};

// What is not built yet is refused so.
const NOT_BUILT: Refusal = Refusal { line: 0, rule: 99 };

// Runs a world that was just made until every client is done or the history is full, and answers
// the text of the run.
fn run_to_end(alloc: Global, world: &mut World) -> Result<Reply, AllocError>
    requires log { world.old.log ≡ [] }
    requires state { world.old.state ≡ start world.old.load }
    ensures { IfOk result (λ reply. TellsRunOf world.old.load reply) }
{
    let finish = world.finish();
    world.is_kept();
    histories_tell_laws();
    match finish {
        Finish::Whole => Ok(Reply::Answered(text_of(alloc, world)?)),
        Finish::Long => Ok(Reply::Long(text_of(alloc, world)?)),
        Finish::Memory => Err(AllocError),
    }
}

// Runs a load, where it is one that is built.
fn run_load(alloc: Global, load: Load) -> Result<Reply, AllocError>
    ensures { IfOk result (λ reply. TellsRunOf load reply) }
{
    if !builds(&load) {
        return Ok(Reply::Refused(refusal_text(alloc, NOT_BUILT)?));
    }
    let mut world = World::new(alloc, load)?;
    run_to_end(alloc, &mut world)
}

/// What `run` answers.
pub(crate) fn run(alloc: Global, bytes: &[u8]) -> Result<Reply, AllocError>
    requires { length bytes.now ≤ LONGEST_BUNDLE }
    ensures { IfOk result (λ reply. Answers command.Run bytes.now reply) }
{
    match load(alloc, bytes) {
        Ok(load) => run_load(alloc, load),
        Err(LoadFault::Refused(at)) => Ok(Reply::Refused(refusal_text(alloc, at)?)),
        Err(LoadFault::Memory) => Err(AllocError),
    }
}
