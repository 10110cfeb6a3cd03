//! Domain parts: worked domains, and lines with their answers.

use domain_code::{read_domains, write_domain};
use rl_defs::LoadFault;
use rl_text::line::lines;
use std::alloc::Global;
use std::test::Fail;

const DRIVER: &[u8] = b"domain Driver: BDev {
    fn size {
        devsize r0
        ret r0
    }
    fn read {
        new r1, Block
        devget r1, r0
        ret r1
    }
    fn write {
        devput r0, r1
        ret
    }
}
";

const SPIN: &[u8] = b"domain Spin: Spinner {
    words 1
    fn run {
        const r1, 0
        const r2, 1
        top: r0 num, r1 num, r2 num
        jz r0, end
        wput r1, r0
        sub r0, r0, r2
        jmp top
        end:
        ret
    }
}
";

const PASS: &[u8] = b"domain B: Pass {
    fn p {
        ret r0
    }
}
domain A: Pass {
    import next: Pass
    fn p {
        cap r1, next
        call r1.p(r0) -> r0 else r2, bad
        ret r0
        bad:
        trap
    }
}
";

const LOANS: &[u8] = b"domain F: L {
    fn l {
        const r1, 0
        get r2, r0, r1
        ret r2
    }
}
domain E: L {
    import next: L
    fn l {
        cap r1, next
        call r1.l(&r0) -> r2 else r3, bad
        ret r2
        bad: r3 num
        ret r3
    }
}
domain A: S {
    import first: L
    fn s {
        new r0, P
        cap r1, first
        call r1.l(&r0) -> r2 else r3, bad
        drop r0
        ret
        bad: r0 RRef<P>
        drop r0
        ret
    }
}
";

const MAKER: &[u8] = b"domain B: M {
    fn m {
        new r0, P
        ret r0
    }
}
domain A: S {
    import first: M
    fn s {
        cap r0, first
        call r0.m() -> r1 else r2, bad
        drop r1
        ret
        bad:
        ret
    }
}
";

const SELF_CALL: &[u8] = b"domain D: R {
    fn r {
        call r0.r(r0) -> r1 else r2, bad
        ret r1
        bad: r2 num
        ret r2
    }
}
";

const LEAF: &[u8] = b"domain D: W {
    fn go {
        call r0.leaf() -> r1 else r2, bad
        ret r1
        bad: r2 num
        ret r2
    }
    fn leaf {
        const r0, 9
        ret r0
    }
}
";

const HANG: &[u8] = b"domain D: Mk {
    fn mk {
        new r0, Q
        new r1, P
        hang r0, 0, r1
        ret r0
    }
}
";

const NATIVE: &[u8] = b"domain Fs: Files {
    import disk: BDev
    native fs
}
domain Rv: Posix {
    import files: Files
    native rv6
}
";

// The same in another spelling.
const BARE_DRIVER: &[u8] = b"  // the driver

domain Driver: BDev {
fn size {
devsize r0
ret r0
}
fn read {
new r1, Block
devget r1,r0 // a block
ret r1
}
fn write {
devput r0, r1
ret
}
}
";

// The canonical text of all domains of a part, or the line and the rule that refuse it.
fn written(alloc: Global, text: &[u8]) -> Result<(Vec<u8>, (u32, u8)), Fail> {
    if text.len() > 4096 {
        return Err(Fail::from("long"));
    }
    let all = lines(alloc, text)?;
    let mut out = Vec::new(alloc);
    match read_domains(alloc, text, &all) {
        Ok(domains) => {
            for domain in domains.as_slice() {
                let one = write_domain(alloc, domain)?;
                out.extend_from_slice(&one)?;
            }
            Ok((out, (0, 0)))
        }
        Err(LoadFault::Refused(at)) => Ok((out, (at.line, at.rule))),
        Err(LoadFault::Memory) => Err(Fail::from("memory")),
    }
}

#[test]
fn worked(rt: HostRuntime) -> Result<(), Fail> {
    let alloc = rt.alloc();
    let texts = [
        DRIVER, SPIN, PASS, LOANS, MAKER, SELF_CALL, LEAF, HANG, NATIVE,
    ];
    for text in texts {
        let (out, refused) = written(alloc, text)?;
        assert!(rt; out.as_slice() == text);
        assert_eq!(rt; refused, (0, 0));
    }
    let (out, _) = written(alloc, BARE_DRIVER)?;
    assert!(rt; out.as_slice() == DRIVER);
    // A block that is left open, a line behind a `ret`, the first failing line, and there the lower
    // rule.
    let rows: [(&[u8], (u32, u8)); 4] = [
        (b"domain D: T {\nfn f {\n}\n", (4, 2)),
        (b"domain D: T {\nfn f {\nret\nret\n}\n}\n", (4, 2)),
        (b"ret\nret r32\n", (1, 2)),
        (
            b"domain D: T {\nfn f {\nhang r0, 0x0, r1\nret\nret\n}\n}\n",
            (3, 1),
        ),
    ];
    for (text, at) in rows {
        let (_, refused) = written(alloc, text)?;
        assert_eq!(rt; refused, at);
    }
    Ok(())
}
