//! Worked examples of the whole call, from the bytes that come in to the bytes that go out.
use redleaf_app::{Status, redleaf_calm, refusal_in};
use rl_defs::Refusal;
use rl_io::{MemSink, MemSource};
use std::alloc::Global;
use std::test::Fail;

// What stands before the commands of a client that calls a domain which adds.
const HEAD: &str = "[idl]
pub trait Math {
    fn add(&self, a: u64, b: u64) -> RpcResult<u64>;
}
[domains]
domain Calc: Math {
    fn add {
        add r2, r0, r1
        ret r2
    }
}
[plan]
load calc = Calc
[clients]
client a {
";

// A bundle that passes an object from one domain to another and back, and gives it up.
const PASSES: &str = "[idl]
pub struct P {
    pub a: u64,
}
pub trait Pass {
    fn p(&self, o: RRef<P>) -> RpcResult<RRef<P>>;
}
[domains]
domain B: Pass {
    fn p {
        ret r0
    }
}
domain A: Pass {
    import next: Pass
    fn p {
        cap r1, next
        call r1.p(r0) -> r0 else r2, bad
        ret r0
        bad:
        trap
    }
}
[plan]
load b = B
load a = A
bind a.next = b
[clients]
client x {
    let o = new P 7
    call a.p(o) -> q
    drop q
}
";

// What its run prints.
const PASSED: &str = "history
c1 new c1 o1 P 7
c1 call 1 a/i2 p o1
c1 call 2 b/i1 p o1
c1 ret 2 o1
c1 ret 1 o1
c1 drop o1
c1 done
replies
c1 2 ok o1
report
c1 made 1 received 1 passed 1 freed 1
i1 made 0 received 1 passed 1 freed 0
i2 made 0 received 2 passed 2 freed 0
";

// What stands before the commands of a client that may make objects.
const STRUCT: &str = "[idl]
pub struct P {
    pub a: u64,
    pub b: u64,
}
[clients]
client x {
";

// A bundle with a load of a native body.
const NATIVE: &str = "[idl]
pub struct Block {
    pub w: [u64; 64],
}
pub struct Name {
    pub b: [u8; 32],
}
pub struct Bytes {
    pub b: [u8; 512],
}
pub trait BDev {
    #[idempotent]
    fn size(&self) -> RpcResult<u64>;
    #[idempotent]
    fn read(&self, n: u64) -> RpcResult<RRef<Block>>;
    #[idempotent]
    fn write(&self, n: u64, b: &RRef<Block>) -> RpcResult<()>;
}
pub trait Files {
    fn mkfs(&self) -> RpcResult<u64>;
    fn create(&self, name: &RRef<Name>) -> RpcResult<(u64, u64)>;
    fn find(&self, name: &RRef<Name>) -> RpcResult<(u64, u64)>;
    fn size(&self, ino: u64) -> RpcResult<(u64, u64)>;
    fn read(&self, ino: u64, pos: u64, len: u64, buf: RRef<Bytes>) -> RpcResult<(u64, u64, RRef<Bytes>)>;
    fn write(&self, ino: u64, pos: u64, len: u64, buf: &RRef<Bytes>) -> RpcResult<u64>;
    fn remove(&self, name: &RRef<Name>) -> RpcResult<u64>;
}
[domains]
domain Driver: BDev {
    fn size {
        devsize r0
        ret r0
    }
    fn read {
        new r1, Block
        devget r1, r0
        ret r1
    }
    fn write {
        devput r0, r1
        ret
    }
}
domain Fs: Files {
    import disk: BDev
    native fs
}
[plan]
load driver = Driver
load fs = Fs
device driver 64
bind fs.disk = driver
";

// What comes of the bytes of a bundle with this word, of which 10 are taken at a time, with this
// `take` failing and this room for the text.
fn served(
    alloc: Global,
    word: &str,
    bundle: &str,
    failing: u64,
    room: usize,
) -> Result<(Status, String), Fail> {
    let words = vec![in alloc; String::from_str(alloc, word)?]?;
    let bytes = bundle.as_bytes().to_vec(alloc)?;
    let mut source = MemSource::new(bytes, 10, vec![in alloc; failing]?);
    let mut sink = MemSink::new(alloc, room, 7, Vec::new(alloc)).map_err(|_| "memory")?;
    let status = redleaf_calm(alloc, &words, &mut source, &mut sink);
    let given = String::from_utf8(sink.given().to_vec(alloc)?).map_err(|_| "text")?;
    Ok((status, given))
}

#[test]
fn serves_no_other_words(rt: HostRuntime) -> Result<(), Fail> {
    let rows: [&[&str]; 5] = [
        &["run", "x"],
        &[],
        &["live", "0"],
        &["storm", "01"],
        &["Run"],
    ];
    for row in rows {
        let mut words = Vec::new(rt.alloc());
        for word in row {
            words.push(String::from_str(rt.alloc(), word)?)?;
        }
        let bytes = HEAD.as_bytes().to_vec(rt.alloc())?;
        let mut source = MemSource::new(bytes, 10, Vec::new(rt.alloc()));
        let mut sink = MemSink::new(rt.alloc(), 99, 99, Vec::new(rt.alloc())).map_err(
            |_| "memory",
        )?;
        let status = redleaf_calm(rt.alloc(), &words, &mut source, &mut sink);
        assert_eq!(rt; status.exit_status(), 2);
        assert_eq!(rt; source.calls(), 0);
        assert_eq!(rt; sink.calls(), 0);
    }
    Ok(())
}

#[test]
fn refuses_and_hands_on_faults(rt: HostRuntime) -> Result<(), Fail> {
    let good = format!(in rt.alloc(); "{HEAD}    call calc.add(2, 3)\n}}\n")?;
    let cut = format!(in rt.alloc(); "{HEAD}    call calc.add(2, 3)\n")?;
    let wide = format!(in rt.alloc(); "{HEAD}    call calc.add(18446744073709551616, 3)\n}}\n")?;
    let other = format!(in rt.alloc(); "{HEAD}    call calc.sub(2, 3)\n}}\n")?;
    // The word, the bundle, the `take` that fails, the room, how it ends and what is given.
    let rows = [
        (
            "run",
            cut.as_str(),
            0,
            99,
            Status::Refused,
            "refused line 17 rule 2\n",
        ),
        (
            "check",
            cut.as_str(),
            0,
            99,
            Status::Refused,
            "refused line 17 rule 2\n",
        ),
        (
            "run",
            wide.as_str(),
            0,
            99,
            Status::Refused,
            "refused line 16 rule 1\n",
        ),
        (
            "run",
            other.as_str(),
            0,
            99,
            Status::Refused,
            "refused line 16 rule 50\n",
        ),
        (
            "run",
            NATIVE,
            0,
            99,
            Status::Refused,
            "refused line 0 rule 99\n",
        ),
        ("run", NATIVE, 0, 4, Status::WriteFault, "refu"),
        ("check", NATIVE, 0, 99, Status::Done, "accepted\n"),
        ("check", good.as_str(), 0, 99, Status::Done, "accepted\n"),
        ("check", good.as_str(), 0, 3, Status::WriteFault, "acc"),
        ("run", good.as_str(), 2, 99, Status::ReadFault, ""),
    ];
    for (word, bundle, failing, room, status, text) in rows {
        let (ended, given) = served(rt.alloc(), word, bundle, failing, room)?;
        assert_eq!(rt; ended, status, "{word} {bundle}");
        assert_eq!(rt; given.as_str(), text, "{word} {bundle}");
    }
    Ok(())
}

#[test]
fn runs_calls(rt: HostRuntime) -> Result<(), Fail> {
    let one = format!(in rt.alloc(); "{HEAD}    call calc.add(2, 3)\n}}\n")?;
    let none = format!(in rt.alloc(); "{HEAD}}}\n")?;
    let wraps = format!(in rt.alloc();
        "{HEAD}    call calc.add(0, 18446744073709551615)\n    call calc.add(18446744073709551615, 18446744073709551615)\n}}\n"
    )?;
    let sum =
        "history\nc1 call 1 calc/i1 add 2 3\nc1 ret 1 5\nc1 done\nreplies\nc1 1 ok 5\nreport\n";
    let sums = "history
c1 call 1 calc/i1 add 0 18446744073709551615
c1 ret 1 18446744073709551615
c1 call 2 calc/i1 add 18446744073709551615 18446744073709551615
c1 ret 2 18446744073709551614
c1 done
replies
c1 1 ok 18446744073709551615
c1 2 ok 18446744073709551614
report
";
    let rows = [
        (one.as_str(), 999, Status::Done, sum),
        (one.as_str(), 10, Status::WriteFault, "history\nc1"),
        (
            none.as_str(),
            999,
            Status::Done,
            "history\nc1 done\nreplies\nreport\n",
        ),
        ("", 999, Status::Done, "history\nreplies\nreport\n"),
        (wraps.as_str(), 999, Status::Done, sums),
    ];
    for (bundle, room, status, text) in rows {
        let (ended, given) = served(rt.alloc(), "run", bundle, 0, room)?;
        assert_eq!(rt; ended, status, "{bundle}");
        assert_eq!(rt; given.as_str(), text, "{bundle}");
    }
    Ok(())
}

#[test]
fn reports_objects(rt: HostRuntime) -> Result<(), Fail> {
    let shown = format!(in rt.alloc();
        "{STRUCT}    let o = new P 7\n    let q = new P\n    show o\n    drop q\n    let s = new P 1, 2\n}}\n"
    )?;
    let left = "history
c1 new c1 o1 P 7
c1 new c1 o2 P
c1 show o1 7
c1 drop o2
c1 new c1 o3 P 1 2
c1 done
replies
c1 3 shown 7
report
o1 P c1 0
o3 P c1 0
c1 made 3 received 0 passed 0 freed 1
";
    for (bundle, text) in [(PASSES, PASSED), (shown.as_str(), left)] {
        let (ended, given) = served(rt.alloc(), "run", bundle, 0, 999)?;
        assert_eq!(rt; ended, Status::Done, "{bundle}");
        assert_eq!(rt; given.as_str(), text, "{bundle}");
    }
    Ok(())
}

#[test]
fn reads_a_refusal_back(rt: HostRuntime) -> Result<(), Fail> {
    let at = Refusal { line: 18, rule: 2 };
    assert_eq!(rt; refusal_in(b"refused line 18 rule 2\n"), Some(at));
    assert_eq!(rt; refusal_in(b"refused line 18 rule 02\n"), None);
    assert_eq!(rt; refusal_in(b"accepted\n"), None);
    Ok(())
}
