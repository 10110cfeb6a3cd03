//! Interface parts: texts, and what they are written back as.

use idl_syntax::{read_idl, write_idl};
use rl_defs::LoadFault;
use rl_text::line::lines;
use std::alloc::Global;
use std::test::Fail;

// A text, and what it is written back as, or the line and the rule that refuse it.
const ROWS: [(&[u8], &[u8], (u32, u8)); 6] = [
    (
        b"struct P {\na: [[u8; 0x10]; 2] // two\n}\n",
        b"pub struct P {\n    pub a: [[u8; 16]; 2],\n}\n",
        (0, 0),
    ),
    (
        b"pub struct P {\n    pub a: &mut Box<RRef<P>>,\n    pub b: u64,\n}\n",
        b"pub struct P {\n    pub a: &mut Box<RRef<P>>,\n    pub b: u64,\n}\n",
        (0, 0),
    ),
    (
        b"trait T {
#[idempotent]
fn f(&self, a: u64, b: &RRef<S>, c: &dyn T) -> RpcResult<(u64, RRef<S>)>;
}
",
        b"pub trait T {
    #[idempotent]
    fn f(&self, a: u64, b: &RRef<S>, c: &dyn T) -> RpcResult<(u64, RRef<S>)>;
}
",
        (0, 0),
    ),
    (b"a: u8,\nb: ,\n", b"", (1, 2)),
    (b"trait T {\n\nfn f(&self) -> (u8);\n", b"", (3, 1)),
    (b"trait T {\n", b"", (2, 2)),
];

// What a text is written back as, or the line and the rule that refuse it.
fn written(alloc: Global, text: &[u8]) -> Result<(Vec<u8>, (u32, u8)), Fail> {
    if text.len() > 4096 {
        return Err(Fail::from("long"));
    }
    let all = lines(alloc, text)?;
    match read_idl(alloc, text, &all) {
        Ok(idl) => Ok((write_idl(alloc, &idl)?, (0, 0))),
        Err(LoadFault::Refused(at)) => Ok((Vec::new(alloc), (at.line, at.rule))),
        Err(LoadFault::Memory) => Err(Fail::from("memory")),
    }
}

#[test]
fn rows(rt: HostRuntime) -> Result<(), Fail> {
    for (text, wanted, at) in ROWS {
        let (bytes, refused) = written(rt.alloc(), text)?;
        assert!(rt; bytes.as_slice() == wanted);
        assert_eq!(rt; refused, at);
    }
    Ok(())
}
