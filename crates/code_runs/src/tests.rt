//! What the tests of runs share: a bundle round one function, a view, and the reading of arguments
//! and answers.
use crate::enter::begin;
use crate::fits::view_fits;
use crate::run::{Bounds, frame_of, go_on, wants};
use crate::text::put_wanted;
use crate::view::{Cell, MemoryView, SeenObject};
use domain_loader::load::load;
use machine_defs::arrays::Results;
use machine_defs::frame::Answer;
use machine_defs::values::{Arg, RpcCode};
use rl_defs::checked::CheckedDomain;
use rl_defs::list::List;
use rl_defs::load::Load;
use rl_defs::values::Value;
use std::alloc::{AllocError, Global};
use std::test::Fail;

/// Struct 0 is `Item`, 1 `Bag`, 2 `Block`; trait 0 is `Peer`, 1 `Work`. Slot 0 is `full`, slot 1
/// `empty`.
const HEAD: &str =
    "[idl]\npub struct Item {\n    pub f: bool,\n    pub a: u8,\n    pub b: u16,\n    pub c: u32,\n    pub d: u64,\n}\npub struct Bag {\n    pub n: u64,\n    pub item: RRef<Item>,\n    pub other: RRef<Item>,\n}\npub struct Block {\n    pub w: [u64; 64],\n}\npub trait Peer {\n    fn ask(&self, a: u8, b: u64) -> RpcResult<u64>;\n    fn give(&self, item: RRef<Item>, look: &RRef<Item>, peer: &dyn Peer) -> RpcResult<(RRef<Item>, bool)>;\n    fn none(&self) -> RpcResult<()>;\n}\npub trait Work {\n    fn f(&self";

const DOMAIN: &str = ";\n}\n[domains]\ndomain Worker: Work {\n    words ";

const KEPT: &str =
    "\n    slot full: Item\n    slot empty: Item\n    import peer: Peer\n    fn f {\n";

const END: &str = "\n    }\n}\n";

/// A run to be made, and what it says: how many words the domain has, the parameters and results of
/// its method, the method's code, the arguments, the answers, the fuel, and how many objects are
/// live all the while.
#[derive(Clone, Copy)]
pub struct Case<'a> {
    pub words: &'a str,
    pub method: &'a str,
    pub code: &'a str,
    pub args: &'a str,
    pub answers: &'a str,
    pub fuel: u32,
    pub live: u32,
    pub says: &'a str,
}

/// Three words and 10 units of fuel, and nothing else.
pub const PLAIN: Case<'static> = Case {
    words: "3",
    method: "",
    code: "",
    args: "",
    answers: "",
    fuel: 10,
    live: 0,
    says: "",
};

// The load of a case, as the loader reads it.
fn load_of(alloc: Global, case: Case<'_>) -> Result<Load, Fail> {
    let mut text = String::new(alloc);
    for part in [HEAD, case.method, DOMAIN, case.words, KEPT, case.code, END] {
        text.push_str(part)?;
    }
    let bytes = text.as_str().as_bytes();
    if bytes.len() > 1_048_576 {
        return Err("too long")?;
    }
    Ok(load(alloc, bytes).map_err(|_| "no load")?)
}

fn object(alloc: Global, of: u32, cells: &[Cell]) -> Result<SeenObject, Fail> {
    let mut all = List::new(alloc);
    for cell in cells {
        all.push(*cell).map_err(|_| "memory")?;
    }
    Ok(SeenObject { of, cells: all })
}

fn item(alloc: Global, first: u64) -> Result<SeenObject, Fail> {
    let cells = [
        Cell::Num(first),
        Cell::Num(1),
        Cell::Num(2),
        Cell::Num(3),
        Cell::Num(4),
    ];
    object(alloc, 0, &cells)
}

fn block(alloc: Global) -> Result<SeenObject, Fail> {
    let mut cells = List::new(alloc);
    for number in 0u64..64 {
        cells.push(Cell::Num(number)).map_err(|_| "memory")?;
    }
    Ok(SeenObject { of: 2, cells })
}

// Objects 0, 1, 3 and 5 are items, 2 and 6 bags, and 4 is a block. 1 is in the full slot, 3 hangs
// in 2.
fn objects(alloc: Global) -> Result<List<SeenObject>, Fail> {
    let mut all = List::new(alloc);
    all.push(item(alloc, 0)?).map_err(|_| "memory")?;
    all.push(item(alloc, 1)?).map_err(|_| "memory")?;
    let bag = [Cell::Num(9), Cell::Holds(3), Cell::Empty];
    all.push(object(alloc, 1, &bag)?).map_err(|_| "memory")?;
    all.push(item(alloc, 0)?).map_err(|_| "memory")?;
    all.push(block(alloc)?).map_err(|_| "memory")?;
    all.push(item(alloc, 0)?).map_err(|_| "memory")?;
    let bag = [Cell::Num(0), Cell::Empty, Cell::Empty];
    all.push(object(alloc, 1, &bag)?).map_err(|_| "memory")?;
    Ok(all)
}

/// Words 10, 11 and 12, eight blocks, target 1 bound to the import, and targets 0 and 1 of `Peer`
/// and 2 of `Work`.
pub fn world(alloc: Global) -> Result<MemoryView, Fail> {
    let mut words = List::new(alloc);
    for word in 10u64..13 {
        words.push(word).map_err(|_| "memory")?;
    }
    let mut slots = List::new(alloc);
    slots.push(Some(1u64)).map_err(|_| "memory")?;
    slots.push(None).map_err(|_| "memory")?;
    let mut binds = List::new(alloc);
    binds.push(1u32).map_err(|_| "memory")?;
    let mut traits = List::new(alloc);
    for of in [0u32, 0, 1] {
        traits.push(of).map_err(|_| "memory")?;
    }
    Ok(MemoryView {
        objects: objects(alloc)?,
        words,
        slots,
        blocks: 8,
        binds,
        traits,
    })
}

fn number(word: &str) -> Result<u64, Fail> {
    Ok(word.parse::<u64>().map_err(|_| "no number")?)
}

fn target(word: &str) -> Result<u32, Fail> {
    Ok(word.parse::<u32>().map_err(|_| "no target")?)
}

// `o3` is object 3, `t1` target 1, and other words are numbers.
fn value(word: &str) -> Result<Value, Fail> {
    if let Some(rest) = word.strip_prefix("o") {
        return Ok(Value::Obj(number(rest)?));
    }
    if let Some(rest) = word.strip_prefix("t") {
        return Ok(Value::Cap(target(rest)?));
    }
    Ok(Value::Num(number(word)?))
}

// As values, and `&o3` is a loan.
fn arg(word: &str) -> Result<Arg, Fail> {
    if let Some(rest) = word.strip_prefix("&o") {
        return Ok(Arg::Lent(number(rest)?));
    }
    match value(word)? {
        Value::Num(number) => Ok(Arg::Num(number)),
        Value::Obj(object) => Ok(Arg::Moved(object)),
        Value::Cap(target) => Ok(Arg::Cap(target)),
    }
}

fn args_of(alloc: Global, words: &str) -> Result<Vec<Arg>, Fail> {
    let mut args = Vec::new(alloc);
    for word in words.split_whitespace() {
        args.push(arg(word)?)?;
    }
    Ok(args)
}

// The code of a failed call, by its word.
fn failure(word: &str) -> Option<RpcCode> {
    match word {
        "gone" => Some(RpcCode::Gone),
        "unwound" => Some(RpcCode::Unwound),
        "deep" => Some(RpcCode::Deep),
        "order" => Some(RpcCode::Order),
        _ => None,
    }
}

// Puts a value behind those that a call gives back.
fn also_back(answers: &mut Vec<Answer>, value: Value) -> Result<(), Fail> {
    match answers.pop() {
        Some(Answer::Back(mut values)) => {
            if values.len() < 4 {
                values.push(value);
            }
            answers.push(Answer::Back(values))?;
            Ok(())
        }
        _ => Err("a value that nothing gives back")?,
    }
}

// `done`, `made 3` as one word `made3`, a failed call's code, and `back` with the values behind it.
fn answers_of(alloc: Global, words: &str) -> Result<Vec<Answer>, Fail> {
    let mut answers = Vec::new(alloc);
    for word in words.split_whitespace() {
        if let Some(rest) = word.strip_prefix("made") {
            answers.push(Answer::Made(number(rest)?))?;
        } else if let Some(code) = failure(word) {
            answers.push(Answer::Failed(code))?;
        } else if word == "done" {
            answers.push(Answer::Went)?;
        } else if word == "back" {
            answers.push(Answer::Back(Results::new()))?;
        } else {
            also_back(&mut answers, value(word)?)?;
        }
    }
    Ok(answers)
}

// Why a run is cut off.
#[derive(Clone, Copy, Debug, PartialEq, Eq)]
enum RunFault {
    Memory,
    // The view doesn't fit the domain.
    View,
    // The domain has no such method, or the arguments don't fit it.
    Call,
    // An answer doesn't fit what the frame wants, or the frame wants none.
    Answer,
}

// What a frame wants from the entry of a method on, a line for each action or trap, where each
// action but the last is given the next answer. An action costs 1, as the machine charges it.
fn run(
    alloc: Global,
    domain: &CheckedDomain,
    view: &MemoryView,
    name: &[u8],
    args: &[Arg],
    mut bounds: Bounds,
    answers: Vec<Answer>,
) -> Result<Vec<u8>, RunFault> {
    if !view_fits(view, domain) {
        return Err(RunFault::View);
    }
    let Some(body) = begin(domain, view, name, args) else {
        return Err(RunFault::Call);
    };
    let mut frame = frame_of(body);
    let mut out = Vec::new(alloc);
    'answers: for answer in answers {
        let wanted = wants(domain, view, &frame, bounds);
        if put_wanted(&mut out, &wanted).is_err() {
            return Err(RunFault::Memory);
        }
        bounds.fuel = wanted.fuel.saturating_sub(1);
        match go_on(domain, view, wanted, answer) {
            Some(next) => frame = next,
            None => return Err(RunFault::Answer),
        }
    }
    let wanted = wants(domain, view, &frame, bounds);
    match put_wanted(&mut out, &wanted) {
        Ok(()) => Ok(out),
        Err(AllocError) => Err(RunFault::Memory),
    }
}

fn fault_word(fault: RunFault) -> &'static str {
    match fault {
        RunFault::Memory => "memory",
        RunFault::View => "the view doesn't fit",
        RunFault::Call => "the call doesn't fit",
        RunFault::Answer => "the answer doesn't fit",
    }
}

// What a case says in a view.
fn said_in(alloc: Global, view: &MemoryView, case: Case<'_>) -> Result<String, Fail> {
    let load = load_of(alloc, case)?;
    let domain = load.rows().domains.get(0).ok_or("no domain")?;
    let args = args_of(alloc, case.args)?;
    let answers = answers_of(alloc, case.answers)?;
    let bounds = Bounds {
        fuel: case.fuel,
        live: case.live,
    };
    match run(alloc, domain, view, b"f", args.as_slice(), bounds, answers) {
        Ok(text) => Ok(String::from_utf8(text).map_err(|_| "no text")?),
        Err(fault) => Ok(String::from_str(alloc, fault_word(fault))?),
    }
}

/// Fails at the first case that says something else in this view than it has to, and tells its
/// place, from 0, and what it says.
pub fn all_say_in(alloc: Global, view: &MemoryView, cases: &[Case<'_>]) -> Result<(), Fail> {
    for place in 0..cases.len() {
        let said = said_in(alloc, view, cases[place])?;
        if said.as_str() != cases[place].says {
            return Err(Fail::new(format!(in alloc; "case {place} says: {said}")?));
        }
    }
    Ok(())
}

/// As `all_say_in`, in the view that the cases share.
pub fn all_say(alloc: Global, cases: &[Case<'_>]) -> Result<(), Fail> {
    let view = world(alloc)?;
    all_say_in(alloc, &view, cases)
}
