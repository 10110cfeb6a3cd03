use crate::thread::Thread;
use machine_defs::values::Arg;
use rl_defs::list::List;
use rl_defs::load::{ClientRow, Command, ScriptArg};
use rl_defs::name::Name;
use rl_defs::values::Value;
use std::alloc::{AllocError, Global};
use std::process::Abort;
use std::test::Fail;

// A client that makes an object, lends it and moves it in one call with one result, and shows the
// result.
fn client(alloc: Global) -> Result<ClientRow, AllocError> {
    let mut args = List::new(alloc);
    args.push(ScriptArg::Lent(0))?;
    args.push(ScriptArg::Name(0))?;
    let mut names = List::new(alloc);
    names.push(1)?;
    let mut commands = List::new(alloc);
    commands.push(Command::Let {
        name: 0,
        ty: 0,
        values: List::new(alloc),
    })?;
    commands.push(Command::Call {
        target: 1,
        method: 0,
        args,
        names,
    })?;
    commands.push(Command::Show(1))?;
    let Some(name) = Name::read(b"anna") else {
        return Err(AllocError);
    };
    Ok(ClientRow { name, commands })
}

// Whether the command at a place of the client's script has all names that it uses.
fn can_name(thread: &Thread, client: &ClientRow, place: usize) -> bool {
    match client.commands.get(place) {
        Some(command) => thread.has_names(command),
        None => false,
    }
}

#[test]
fn names_are_bound_and_given_up(rt: HostRuntime) -> Result<(), Fail> {
    let client = client(rt.alloc())?;
    let mut thread = Thread::first(rt.alloc(), &client)?;
    let call = [ScriptArg::Lent(0), ScriptArg::Name(0)];
    assert_eq!(rt; can_name(&thread, &client, 1), false);
    thread.end_command(&[0], &[Value::Obj(7)]);
    assert_eq!(rt; thread.place(), 1);
    assert_eq!(rt; can_name(&thread, &client, 1), true);
    let args = thread.args(&call);
    assert_eq!(rt; args.as_slice()[0], Arg::Lent(7));
    assert_eq!(rt; args.as_slice()[1], Arg::Moved(7));
    thread.give_up(&call);
    assert_eq!(rt; thread.name(0), None);
    thread.end_command(&[1], &[Value::Num(9)]);
    assert_eq!(rt; thread.name(1), Some(Value::Num(9)));
    thread.unbind(1);
    assert_eq!(rt; can_name(&thread, &client, 2), false);
    Ok(())
}
