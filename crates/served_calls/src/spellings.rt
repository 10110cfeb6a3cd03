//! Worked examples of the whole call, from the bytes that come in to the bytes that go out.
use bundle_format::{Status, format_calm};
use rl_io::{MemSink, MemSource};
use std::alloc::Global;
use std::test::Fail;

const OLD: &str = "// A comment.
[ idl ]
trait T{ // of T
fn f( &self,n:u64 )->RpcResult< () >;
}
\t
[plan]
fuel 0x10      // hexadecimal
";

const NEW: &str = "// A comment.
[idl]
pub trait T { // of T
    fn f(&self, n: u64) -> RpcResult<()>;
}

[plan]
fuel 16        // hexadecimal
";

// What comes of a text with these words and so much room for what is written.
fn formatted(
    alloc: Global,
    words: &[String],
    text: &str,
    room: usize,
) -> Result<(Status, String), Fail> {
    let bytes = text.as_bytes().to_vec(alloc)?;
    let mut source = MemSource::new(bytes, 10, Vec::new(alloc));
    let mut sink = MemSink::new(alloc, room, 7, Vec::new(alloc))?;
    let status = format_calm(alloc, words, &mut source, &mut sink);
    let given = String::from_utf8(sink.given().to_vec(alloc)?).map_err(|_| "text")?;
    Ok((status, given))
}

#[test]
fn comments_keep_their_columns(rt: HostRuntime) -> Result<(), Fail> {
    let (status, text) = formatted(rt.alloc(), &[], OLD, 1000)?;
    assert_eq!(rt; status, Status::Done);
    assert_eq!(rt; text.as_str(), NEW);
    Ok(())
}

#[test]
fn what_is_formatted_stays(rt: HostRuntime) -> Result<(), Fail> {
    let (_, text) = formatted(rt.alloc(), &[], NEW, 1000)?;
    assert_eq!(rt; text.as_str(), NEW);
    Ok(())
}

#[test]
fn refused_lines_are_told(rt: HostRuntime) -> Result<(), Fail> {
    let (status, text) = formatted(rt.alloc(), &[], "[plan]\nfuel\n", 1000)?;
    assert_eq!(rt; status, Status::Refused);
    assert_eq!(rt; text.as_str(), "refused line 2 rule 1\n");
    Ok(())
}

#[test]
fn words_are_usage(rt: HostRuntime) -> Result<(), Fail> {
    let words = vec![in rt.alloc(); String::from_str(rt.alloc(), "check")?]?;
    let (status, text) = formatted(rt.alloc(), &words, NEW, 1000)?;
    assert_eq!(rt; status, Status::Usage);
    assert_eq!(rt; text.as_str(), "");
    Ok(())
}
