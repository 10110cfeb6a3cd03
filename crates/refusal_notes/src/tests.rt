//! The notes as they are printed, and what the source and the sink keep.
use crate::keeping::{KeepingSink, KeepingSource};
use crate::note::note;
use crate::sentences::sentence;
use rl_defs::Refusal;
use rl_io::{MemSink, MemSource, read_whole, write_whole};
use rl_text::line::LONGEST_TEXT;
use std::alloc::Global;
use std::test::Fail;

// The note on a line of a text.
fn note_of(alloc: Global, text: &str, line: u32, rule: u8) -> Result<String, Fail> {
    let bytes = match text.as_bytes() {
        bytes if bytes.len() <= LONGEST_TEXT => Some(bytes),
        _ => None,
    };
    let said = note(alloc, Refusal { line, rule }, bytes).map_err(|_| "memory")?;
    Ok(String::from_utf8(said).map_err(|_| "text")?)
}

#[test]
fn tells_the_place_and_the_reason(rt: HostRuntime) -> Result<(), Fail> {
    let said = note_of(
        rt.alloc(),
        "[idl]\npub trait T {\n    fn f(&self) -> u64;\n}\n",
        3,
        20,
    )?;
    let wanted = "3:20: rule 20: the method's result isn't RpcResult, though each call may fail
    |     fn f(&self) -> u64;
    |                    ^^^
found: a result that begins with `u64`
expected: `RpcResult<..>` round it
see docs/RULES.md#rule-20
";
    assert_eq!(rt; said.as_str(), wanted);
    Ok(())
}

#[test]
fn tells_the_end_of_the_bundle(rt: HostRuntime) -> Result<(), Fail> {
    let said = note_of(rt.alloc(), "[idl]\npub trait T {\n", 3, 2)?;
    let wanted = "3:1: rule 2: the line may not stand here, or a block before it is left open
found: the end of the bundle
expected: `}` of the block that line 2 opens
line 2:
    | pub trait T {
see docs/RULES.md#rule-2
";
    assert_eq!(rt; said.as_str(), wanted);
    Ok(())
}

#[test]
fn shows_no_byte_that_a_terminal_obeys(rt: HostRuntime) -> Result<(), Fail> {
    let said = note_of(rt.alloc(), "[idl]\n\tx: \x1b[2J\n", 2, 1)?;
    assert!(rt; said.as_str().contains("\n    |  x: ?[2J\n    |     ^\n"));
    Ok(())
}

#[test]
fn marks_no_more_than_it_shows(rt: HostRuntime) -> Result<(), Fail> {
    let long = format!(in rt.alloc(); "[plan]\nfuel 1 {:>120}", "$")?;
    let said = note_of(rt.alloc(), long.as_str(), 2, 1)?;
    assert!(rt; said.as_str().starts_with("2:127: rule 1: "));
    assert!(rt; !said.as_str().contains("^"));
    Ok(())
}

#[test]
fn tells_what_is_not_built(rt: HostRuntime) -> Result<(), Fail> {
    let said = note_of(rt.alloc(), "[idl]\n", 0, 99)?;
    let wanted =
        "rule 99: the bundle uses something that this program can't run yet\nsee docs/RULES.md#rule-99\n";
    assert_eq!(rt; said.as_str(), wanted);
    Ok(())
}

#[test]
fn tells_what_it_can_without_the_bundle(rt: HostRuntime) -> Result<(), Fail> {
    let said = note(rt.alloc(), Refusal { line: 7, rule: 33 }, None).map_err(|_| "memory")?;
    let said = String::from_utf8(said).map_err(|_| "text")?;
    let wanted = "7:1: rule 33: the function has no such label\nsee docs/RULES.md#rule-33\n";
    assert_eq!(rt; said.as_str(), wanted);
    Ok(())
}

#[test]
fn each_rule_has_a_sentence_of_its_own(rt: HostRuntime) -> Result<(), Fail> {
    let rules = [
        1u8, 2, 3, 4, 10, 11, 12, 13, 20, 21, 22, 23, 30, 31, 32, 33, 34, 35, 36, 37, 40, 41, 42,
        43, 44, 45, 46, 50, 51, 99,
    ];
    for (place, rule) in rules.iter().enumerate() {
        assert!(rt; sentence(*rule) != sentence(0));
        for other in rules[..place].iter() {
            assert!(rt; sentence(*rule) != sentence(*other));
        }
    }
    Ok(())
}

#[test]
fn passes_on_and_keeps(rt: HostRuntime) -> Result<(), Fail> {
    let alloc = rt.alloc();
    let bytes = b"abcdef".to_vec(alloc)?;
    let mut source = KeepingSource::new(alloc, MemSource::new(bytes, 4, Vec::new(alloc)), 6);
    let mut sink = KeepingSink::new(
        alloc,
        MemSink::new(alloc, 10, 4, Vec::new(alloc)).map_err(|_| "memory")?,
        5,
    );
    let whole = read_whole(alloc, &mut source, 10).map_err(|_| "read")?;
    assert!(rt; whole.as_slice() == b"abcdef".as_slice());
    assert!(rt; source.kept() == Some(b"abcdef".as_slice()));
    write_whole(&mut sink, b"abcde").map_err(|_| "write")?;
    assert!(rt; sink.kept() == Some(b"abcde".as_slice()));
    write_whole(&mut sink, b"f").map_err(|_| "write")?;
    assert!(rt; sink.kept().is_none());
    Ok(())
}
