//! What a line lists behind its head: arguments, results and values.
ghost use Rattle.std.specs.Prelude.{◌≡◌, ℕ, List as Seq, [], ◌++◌, ◌≤◌, Option, length, take, OnOk, IfOk};
ghost use Rattle.std.specs.Option.{option_map};
ghost use Rattle.std.specs.List.{flat_map};
ghost use Rattle.std.specs.Fmt.{decimal};
ghost use Rattle.rl_defs.specs.declared.load.LoadRows.{LoadRows};
ghost use Rattle.history_text.specs.Reading.{number_of_64, arg_in, value_in, all_in, few};
ghost use Rattle.machine_defs.specs.Texts.{arg_text, value_text, spaced};

use crate::ending::Ending;
use crate::fields::read_object;
use crate::names::read_target;
use crate::numbers::read_64;
use crate::spellings::Spellings;
use crate::words::Words;
use machine_defs::arrays::{Args, Results};
use machine_defs::values::Arg;
use rl_defs::list::List;
use rl_defs::values::Value;
use std::alloc::{AllocError, Global};

/// What a line may list.
pub(crate) trait Item: Copy {
    /// The item's text, where names are those of a load's rows.
    ghost text: { LoadRows → Self → Seq ℕ };

    /// Puts a blank and the item's text in front of an empty line end.
    fn put(self, line: &mut Ending, spellings: &Spellings)
        requires { line.old ≡ [] }
        ensures { line.new ≡ spaced (text spellings.now self) };

    /// What a word is read as.
    ghost reading: { LoadRows → Seq ℕ → Option Self };

    /// The item that a word is.
    fn read(word: &[u8], spellings: &Spellings) -> Option<Self>
        ensures { result ≡ reading spellings.now word.now };
}

impl Item for u64 {
    ghost text = { λ _ n. decimal n };

    fn put(self, line: &mut Ending, _spellings: &Spellings) {
        line.put_number(b" ", self);
    }

    ghost reading = { λ _ w. number_of_64 w };

    fn read(word: &[u8], _spellings: &Spellings) -> Option<u64> {
        read_64(word)
    }
}

impl Item for Arg {
    ghost text = { arg_text };

    fn put(self, line: &mut Ending, spellings: &Spellings) {
        match self {
            Arg::Num(number) => line.put_number(b" ", number),
            Arg::Moved(object) => line.put_number(b" o", object),
            Arg::Lent(object) => line.put_number(b" &o", object),
            Arg::Cap(target) => line.put_name(b" @", spellings.target(target)),
        }
    }

    ghost reading = { arg_in };

    #[tactic(auto, unfolding(crate::specs::Reading::arg_in))]
    fn read(word: &[u8], spellings: &Spellings) -> Option<Arg> {
        match word {
            [b'o', digits @ ..] => Some(Arg::Moved(read_64(digits)?)),
            [b'&', object @ ..] => Some(Arg::Lent(read_object(object)?)),
            [b'@', name @ ..] => Some(Arg::Cap(read_target(spellings, name)?)),
            [] => None,
            _ => Some(Arg::Num(read_64(word)?)),
        }
    }
}

impl Item for Value {
    ghost text = { value_text };

    fn put(self, line: &mut Ending, spellings: &Spellings) {
        match self {
            Value::Num(number) => line.put_number(b" ", number),
            Value::Obj(object) => line.put_number(b" o", object),
            Value::Cap(target) => line.put_name(b" @", spellings.target(target)),
        }
    }

    ghost reading = { value_in };

    #[tactic(auto, unfolding(crate::specs::Reading::value_in))]
    fn read(word: &[u8], spellings: &Spellings) -> Option<Value> {
        match word {
            [b'o', digits @ ..] => Some(Value::Obj(read_64(digits)?)),
            [b'@', name @ ..] => Some(Value::Cap(read_target(spellings, name)?)),
            [] => None,
            _ => Some(Value::Num(read_64(word)?)),
        }
    }
}

/// Puts items last, each behind a blank. After `AllocError` some of them may stand there.
#[tactic(auto, using(crate::proofs::Kept::kept_append, crate::proofs::Kept::kept_then))]
pub(crate) fn put_items<T: Item>(
    spellings: &Spellings,
    out: &mut Vec<u8>,
    items: &[T],
) -> Result<(), AllocError>
    ensures ok { OnOk result (out.new.items
        ≡ out.old.items ++ flat_map (λ a. spaced (T.text spellings.now a)) items.now) }
    ensures kept { take (length out.old.items) out.new.items ≡ out.old.items }
{
    'items: for item in items {
        let mut line = Ending::new();
        item.put(&mut line, spellings);
        out.extend_from_slice(line.as_slice())?;
    }
    Ok(())
}

// The items that words are, where each is one.
fn read_items<T: Item + Drop>(
    alloc: Global,
    spellings: &Spellings,
    mut words: Words<'_>,
) -> Result<Option<Vec<T>>, AllocError>
    ensures { IfOk result (λ read. option_map (λ v. v.items) read ≡ all_in (T.reading spellings.now) words.entry) }
{
    let mut items = Vec::new(alloc);
    'words: while !words.is_empty() {
        let Some(item) = T::read(words.next(), spellings) else {
            return Ok(None);
        };
        items.push(item)?;
    }
    Ok(Some(items))
}

// At most 8 arguments.
fn args_of(items: &[Arg]) -> Args
    requires { length items.now ≤ 8 }
    ensures { result ≡ items.now }
{
    let mut args = Args::new();
    'items: for item in items {
        args.push(*item);
    }
    args
}

// At most 4 results.
fn results_of(items: &[Value]) -> Results
    requires { length items.now ≤ 4 }
    ensures { result ≡ items.now }
{
    let mut results = Results::new();
    'items: for item in items {
        results.push(*item);
    }
    results
}

/// The arguments that words are, at most 8.
pub(crate) fn read_args(
    alloc: Global,
    spellings: &Spellings,
    words: Words<'_>,
) -> Result<Option<Args>, AllocError>
    ensures { IfOk result (λ read. read ≡ few 8 (all_in (arg_in spellings.now) words.entry)) }
{
    match read_items(alloc, spellings, words)? {
        Some(items) if items.len() <= 8 => Ok(Some(args_of(&items))),
        _ => Ok(None),
    }
}

/// The results that words are, at most 4.
pub(crate) fn read_results(
    alloc: Global,
    spellings: &Spellings,
    words: Words<'_>,
) -> Result<Option<Results>, AllocError>
    ensures { IfOk result (λ read. read ≡ few 4 (all_in (value_in spellings.now) words.entry)) }
{
    match read_items(alloc, spellings, words)? {
        Some(items) if items.len() <= 4 => Ok(Some(results_of(&items))),
        _ => Ok(None),
    }
}

/// The list of items that words are.
pub(crate) fn read_list<T: Item + Drop>(
    alloc: Global,
    spellings: &Spellings,
    words: Words<'_>,
) -> Result<Option<List<T>>, AllocError>
    ensures { IfOk result (λ read. read ≡ all_in (T.reading spellings.now) words.entry) }
{
    match read_items(alloc, spellings, words)? {
        Some(items) => Ok(Some(List::from_vec(items))),
        None => Ok(None),
    }
}

/// The list of numbers that words are.
pub(crate) fn read_numbers(
    alloc: Global,
    spellings: &Spellings,
    words: Words<'_>,
) -> Result<Option<List<u64>>, AllocError>
    ensures { IfOk result (λ read. read ≡ all_in number_of_64 words.entry) }
{
    read_list(alloc, spellings, words)
}
