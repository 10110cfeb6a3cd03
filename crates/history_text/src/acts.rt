//! What the words behind a thread and a verb are read as.
ghost use Rattle.std.specs.Prelude.{◌≡◌, IfOk};
ghost use Rattle.history_text.specs.Acts as acts;
ghost use Rattle.history_text.specs.Reading as reading;

use crate::fields::{read_cause, read_code, read_entered, read_instance, read_object, read_owner};
use crate::items::{read_args, read_list, read_numbers, read_results};
use crate::names::{read_method, read_slot, read_struct, read_target};
use crate::numbers::{read_32, read_64};
use crate::spellings::Spellings;
use crate::verb::Verb;
use crate::words::Words;
use machine_defs::entry::Entry;
use std::alloc::{AllocError, Global};

// The entry, where no word is left.
fn ended(words: Words<'_>, entry: Entry) -> Option<Entry>
    ensures { result ≡ reading.ended words.entry entry }
{
    if words.is_empty() { Some(entry) } else { None }
}

fn unwound(thread: u32, mut words: Words<'_>) -> Option<Entry>
    ensures { result ≡ acts.unwound_in thread words.entry }
{
    let call = read_32(words.next())?;
    ended(words, Entry::Unwound { thread, call })
}

fn reload(spellings: &Spellings, thread: u32, mut words: Words<'_>) -> Option<Entry>
    ensures { result ≡ acts.reload_in spellings.now thread words.entry }
{
    let shadow = read_target(spellings, words.next())?;
    let instance = read_instance(words.next())?;
    let left = read_32(words.next())?;
    ended(
        words,
        Entry::Reload {
            thread,
            shadow,
            instance,
            left,
        },
    )
}

fn again(spellings: &Spellings, thread: u32, mut words: Words<'_>) -> Option<Entry>
    ensures { result ≡ acts.again_in spellings.now thread words.entry }
{
    let call = read_32(words.next())?;
    let (shadow, instance) = read_entered(spellings, words.next())?;
    ended(
        words,
        Entry::Again {
            thread,
            call,
            shadow,
            instance,
        },
    )
}

fn trap(thread: u32, mut words: Words<'_>) -> Option<Entry>
    ensures { result ≡ acts.trap_in thread words.entry }
{
    let instance = read_instance(words.next())?;
    let cause = read_cause(words.next())?;
    ended(
        words,
        Entry::Trap {
            thread,
            instance,
            cause,
        },
    )
}

fn kill(thread: u32, mut words: Words<'_>) -> Option<Entry>
    ensures { result ≡ acts.kill_in thread words.entry }
{
    let instance = read_instance(words.next())?;
    ended(words, Entry::Kill { thread, instance })
}

fn given_up(thread: u32, mut words: Words<'_>) -> Option<Entry>
    ensures { result ≡ acts.drop_in thread words.entry }
{
    let object = read_object(words.next())?;
    ended(words, Entry::Drop { thread, object })
}

fn wput(thread: u32, mut words: Words<'_>) -> Option<Entry>
    ensures { result ≡ acts.wput_in thread words.entry }
{
    let instance = read_instance(words.next())?;
    let place = read_32(words.next())?;
    let value = read_64(words.next())?;
    ended(
        words,
        Entry::Wput {
            thread,
            instance,
            place,
            value,
        },
    )
}

fn take(thread: u32, mut words: Words<'_>) -> Option<Entry>
    ensures { result ≡ acts.take_in thread words.entry }
{
    let instance = read_instance(words.next())?;
    let slot = read_slot(words.next())?;
    let object = read_object(words.next())?;
    ended(
        words,
        Entry::Take {
            thread,
            instance,
            slot,
            object,
        },
    )
}

fn put(thread: u32, mut words: Words<'_>) -> Option<Entry>
    ensures { result ≡ acts.put_in thread words.entry }
{
    let instance = read_instance(words.next())?;
    let slot = read_slot(words.next())?;
    let object = read_object(words.next())?;
    ended(
        words,
        Entry::Put {
            thread,
            instance,
            slot,
            object,
        },
    )
}

fn devget(thread: u32, mut words: Words<'_>) -> Option<Entry>
    ensures { result ≡ acts.devget_in thread words.entry }
{
    let object = read_object(words.next())?;
    let block = read_64(words.next())?;
    ended(
        words,
        Entry::DevGet {
            thread,
            object,
            block,
        },
    )
}

fn devput(thread: u32, mut words: Words<'_>) -> Option<Entry>
    ensures { result ≡ acts.devput_in thread words.entry }
{
    let block = read_64(words.next())?;
    let object = read_object(words.next())?;
    ended(
        words,
        Entry::DevPut {
            thread,
            block,
            object,
        },
    )
}

fn hang(thread: u32, mut words: Words<'_>) -> Option<Entry>
    ensures { result ≡ acts.hang_in thread words.entry }
{
    let object = read_object(words.next())?;
    let place = read_32(words.next())?;
    let hung = read_object(words.next())?;
    ended(
        words,
        Entry::Hang {
            thread,
            object,
            place,
            hung,
        },
    )
}

fn unhang(thread: u32, mut words: Words<'_>) -> Option<Entry>
    ensures { result ≡ acts.unhang_in thread words.entry }
{
    let object = read_object(words.next())?;
    let place = read_32(words.next())?;
    let hung = read_object(words.next())?;
    ended(
        words,
        Entry::Unhang {
            thread,
            object,
            place,
            hung,
        },
    )
}

fn skip(thread: u32, mut words: Words<'_>) -> Option<Entry>
    ensures { result ≡ acts.skip_in thread words.entry }
{
    let command = read_32(words.next())?;
    ended(words, Entry::Skip { thread, command })
}

fn call(
    alloc: Global,
    spellings: &Spellings,
    thread: u32,
    mut words: Words<'_>,
) -> Result<Option<Entry>, AllocError>
    ensures { IfOk result (λ read. read ≡ acts.call_in spellings.now thread words.entry) }
{
    let Some(call) = read_32(words.next()) else {
        return Ok(None);
    };
    let Some((target, instance)) = read_entered(spellings, words.next()) else {
        return Ok(None);
    };
    let Some(method) = read_method(spellings, target, words.next()) else {
        return Ok(None);
    };
    let Some(args) = read_args(alloc, spellings, words)? else {
        return Ok(None);
    };
    Ok(Some(Entry::Call {
        thread,
        call,
        target,
        instance,
        method,
        args,
    }))
}

fn refuse(
    alloc: Global,
    spellings: &Spellings,
    thread: u32,
    mut words: Words<'_>,
) -> Result<Option<Entry>, AllocError>
    ensures { IfOk result (λ read. read ≡ acts.refuse_in spellings.now thread words.entry) }
{
    let Some(call) = read_32(words.next()) else {
        return Ok(None);
    };
    let Some(code) = read_code(words.next()) else {
        return Ok(None);
    };
    let Some(target) = read_target(spellings, words.next()) else {
        return Ok(None);
    };
    let Some(method) = read_method(spellings, target, words.next()) else {
        return Ok(None);
    };
    let Some(args) = read_args(alloc, spellings, words)? else {
        return Ok(None);
    };
    Ok(Some(Entry::Refuse {
        thread,
        call,
        code,
        target,
        method,
        args,
    }))
}

fn ret(
    alloc: Global,
    spellings: &Spellings,
    thread: u32,
    mut words: Words<'_>,
) -> Result<Option<Entry>, AllocError>
    ensures { IfOk result (λ read. read ≡ acts.ret_in spellings.now thread words.entry) }
{
    let Some(call) = read_32(words.next()) else {
        return Ok(None);
    };
    let Some(results) = read_results(alloc, spellings, words)? else {
        return Ok(None);
    };
    Ok(Some(Entry::Ret {
        thread,
        call,
        results,
    }))
}

fn made(
    alloc: Global,
    spellings: &Spellings,
    thread: u32,
    mut words: Words<'_>,
) -> Result<Option<Entry>, AllocError>
    ensures { IfOk result (λ read. read ≡ acts.new_in spellings.now thread words.entry) }
{
    let Some(owner) = read_owner(words.next()) else {
        return Ok(None);
    };
    let Some(object) = read_object(words.next()) else {
        return Ok(None);
    };
    let Some(ty) = read_struct(spellings, words.next()) else {
        return Ok(None);
    };
    let Some(values) = read_numbers(alloc, spellings, words)? else {
        return Ok(None);
    };
    Ok(Some(Entry::New {
        thread,
        owner,
        object,
        ty,
        values,
    }))
}

fn set(
    alloc: Global,
    spellings: &Spellings,
    thread: u32,
    mut words: Words<'_>,
) -> Result<Option<Entry>, AllocError>
    ensures { IfOk result (λ read. read ≡ acts.set_in thread words.entry) }
{
    let Some(object) = read_object(words.next()) else {
        return Ok(None);
    };
    let Some(place) = read_32(words.next()) else {
        return Ok(None);
    };
    let Some(values) = read_numbers(alloc, spellings, words)? else {
        return Ok(None);
    };
    Ok(Some(Entry::Set {
        thread,
        object,
        place,
        values,
    }))
}

fn show(
    alloc: Global,
    spellings: &Spellings,
    thread: u32,
    mut words: Words<'_>,
) -> Result<Option<Entry>, AllocError>
    ensures { IfOk result (λ read. read ≡ acts.show_in spellings.now thread words.entry) }
{
    let Some(object) = read_object(words.next()) else {
        return Ok(None);
    };
    let Some(values) = read_list(alloc, spellings, words)? else {
        return Ok(None);
    };
    Ok(Some(Entry::Show {
        thread,
        object,
        values,
    }))
}

/// The entry that is told by the words behind a thread and a verb.
pub(crate) fn read_act(
    alloc: Global,
    spellings: &Spellings,
    verb: Verb,
    thread: u32,
    words: Words<'_>,
) -> Result<Option<Entry>, AllocError>
    ensures { IfOk result (λ read. read ≡ acts.act_in spellings.now verb thread words.entry) }
{
    match verb {
        Verb::Call => call(alloc, spellings, thread, words),
        Verb::Refuse => refuse(alloc, spellings, thread, words),
        Verb::Ret => ret(alloc, spellings, thread, words),
        Verb::Unwound => Ok(unwound(thread, words)),
        Verb::Reload => Ok(reload(spellings, thread, words)),
        Verb::Again => Ok(again(spellings, thread, words)),
        Verb::Trap => Ok(trap(thread, words)),
        Verb::Kill => Ok(kill(thread, words)),
        Verb::New => made(alloc, spellings, thread, words),
        Verb::Drop => Ok(given_up(thread, words)),
        Verb::Set => set(alloc, spellings, thread, words),
        Verb::Wput => Ok(wput(thread, words)),
        Verb::Take => Ok(take(thread, words)),
        Verb::Put => Ok(put(thread, words)),
        Verb::DevGet => Ok(devget(thread, words)),
        Verb::DevPut => Ok(devput(thread, words)),
        Verb::Hang => Ok(hang(thread, words)),
        Verb::Unhang => Ok(unhang(thread, words)),
        Verb::Show => show(alloc, spellings, thread, words),
        Verb::Skip => Ok(skip(thread, words)),
        Verb::Done => Ok(ended(words, Entry::Done { thread })),
    }
}
