//! Calls that are refused before they enter anything.
ghost use Rattle.std.specs.Prelude.{◌≡◌, [], Some, slice_get};
ghost use Rattle.std.specs.Option.{option_map_or};
ghost use Rattle.machine_defs.specs.declared.entry.Entry.TheVariants as entry;
ghost use Rattle.machine_defs.specs.declared.frame.Action.TheVariants as action;
ghost use Rattle.rl_defs.specs.CodeKinds.{moved};
ghost use Rattle.rl_defs.specs.Rows.{row, commands_of};
ghost use Rattle.machine_defs.specs.Calling.{refusal};
ghost use Rattle.machine_defs.specs.Frames.{instr_at};
ghost use Rattle.machine_defs.specs.Instructions.{all_given_up};
ghost use Rattle.machine_defs.specs.Seen.{change_row};
ghost use Rattle.client_threads.specs.GivenUp.{given_up_names};
ghost use Rattle.machine_steps.specs.Kept.{MayStep, Went};
ghost use Rattle.machine_steps.specs.Acting.{WouldAct, domain_in};
ghost use Rattle.machine_steps.specs.Calls.{ClientCalls};
ghost use Rattle.machine_steps.specs.Returning.{given_in};

use crate::act::{domain_of, go_on};
use crate::known::laws;
use crate::machine::Machine;
use crate::reply::end_call;
use crate::standing::Standing;
use client_threads::laws::the_moved_are_given_up;
use client_threads::{Thread, Threads};
use code_machine::answer::wait_for_call;
use instance_table::Instances;
use machine_defs::arrays::Args;
use machine_defs::entry::Entry;
use machine_defs::frame::Answer;
use machine_defs::values::RpcCode;
use proxies::give_up;
use rl_defs::load::{Command, Load, ScriptArg};

// The arguments that the next command of client `t` gives, where it is a call.
fn given_of<'a>(load: &'a Load, t: u32, thread: &Thread) -> &'a [ScriptArg]
    ensures { result.now ≡ given_in (slice_get (commands_of (row load.now.clients t)) thread.now.place) }
{
    match thread.command(load, t) {
        Some(Command::Call { args, .. }) => args.as_slice(),
        _ => &[],
    }
}

// The names that the next command of client `t`, a call, moves objects out of hold nothing any
// more.
fn give_up_names(load: &Load, threads: &mut Threads, t: u32)
    ensures { threads.new ≡ change_row threads.old t (λ x. record x {
      names = given_up_names (given_in (slice_get (commands_of (row load.now.clients t)) x.place)) x.names;
    })
        (row threads.old t) }
{
    let given = match threads.thread(t) {
        Some(thread) => given_of(load, t, thread),
        None => return,
    };
    threads.give_up(t, given);
}

// A frame of instance `i` that stands at a call's line waits: the objects that the call moves leave
// its registers.
fn wait(load: &Load, instances: &Instances, i: u32, stand: &mut Standing)
    ensures { stand.new ≡ record stand.old {
      registers = all_given_up
          (option_map_or moved (instr_at (domain_in load.now instances.now i) stand.old.line) []) stand.old.registers;
    } }
{
    if let Some(domain) = domain_of(load, instances.load_of(i)) {
        wait_for_call(domain, stand.line, &mut stand.registers);
    }
}

impl Machine {
    /// The call that client `t`'s script comes to is refused. Its moved arguments are dropped, with
    /// what hangs in them, and the command is done. It takes no memory.
    pub fn client_refused(&mut self, t: u32, x: u32, m: u32, args: &Args, why: RpcCode)
        requires may { MayStep self.old t }
        requires calls { ClientCalls self.old t x m args.now }
        requires refused { refusal self.old.load self.old.state t x ≡ Some why }
        ensures { Went self.old self.new (entry.Refuse t self.old.state.next_call why x m args.now) }
    {
        laws();
        the_moved_are_given_up();
        self.heap.is_kept();
        self.log.put(Entry::Refuse {
            thread: t,
            call: self.next_call,
            code: why,
            target: x,
            method: m,
            args: args.copied(),
        });
        self.next_call += 1;
        give_up(&mut self.heap, args.as_slice());
        self.threads
            .set_fuel(t, self.load.rows().fuel.saturating_sub(1));
        give_up_names(&self.load, &mut self.threads, t);
        end_call(&self.load, &mut self.threads, t, &Answer::Failed(why));
        self.heap.is_kept();
        self.heap.sweep(&mut self.log);
    }

    /// The call that client `t`'s top frame, of instance `j`, would make is refused. Its moved
    /// arguments are dropped, with what hangs in them, and the frame goes on from the code. It
    /// takes no memory.
    pub fn frame_refused(
        &mut self,
        t: u32,
        j: u32,
        stand: &mut Standing,
        x: u32,
        m: u32,
        args: &Args,
        why: RpcCode,
    )
        requires may { MayStep self.old t }
        requires wants { WouldAct self.old t j (action.Call x m args.now) stand.old }
        requires refused { refusal self.old.load self.old.state t x ≡ Some why }
        ensures { Went self.old self.new (entry.Refuse t self.old.state.next_call why x m args.now) }
    {
        laws();
        self.heap.is_kept();
        self.log.put(Entry::Refuse {
            thread: t,
            call: self.next_call,
            code: why,
            target: x,
            method: m,
            args: args.copied(),
        });
        self.next_call += 1;
        give_up(&mut self.heap, args.as_slice());
        wait(&self.load, &self.instances, j, stand);
        go_on(
            &self.load,
            &self.instances,
            &mut self.stacks,
            &mut self.threads,
            t,
            j,
            stand,
            &Answer::Failed(why),
        );
        self.heap.is_kept();
        self.heap.sweep(&mut self.log);
    }
}
