//! Plans and clients: worked parts, and lines with their answers.

use bundle_syntax::{read_clients, read_plan, write_clients, write_plan};
use rl_defs::LoadFault;
use rl_text::line::lines;
use std::alloc::Global;
use std::test::Fail;

// A load that is bound, calls and a loan between three of them, a shadow that is killed, two loads
// that wait for each other, files.
const PLANS: [&[u8]; 6] = [
    b"load calc = Calc\n",
    b"load b = B\nload a = A\nbind a.next = b\n",
    b"load f = F\nload e = E\nload a = A\nbind e.next = f\nbind a.first = e\norder x, x, x, y\n",
    b"load drv = Driver\ndevice drv 4\nshadow disk = drv restarts 1\norder x, x, y\n",
    b"load p = D\nload q = D\nserial p\nserial q\nfuel 1000000\n",
    b"load drv = Driver
load fs = Fs
load rv = Rv
device drv 64
shadow disk = drv restarts 3
bind fs.disk = disk
bind rv.files = fs
",
];

const CLIENTS: [&[u8]; 6] = [
    b"client a {\n    call calc.add(2, 3)\n}\n",
    b"client x {\n    let o = new P 7\n    call a.p(o) -> q\n    drop q\n}\n",
    b"client x {\n    call a.s()\n}\nclient y {\n    kill a\n}\n",
    b"client x {\n    call disk.read(0) -> b\n}\nclient y {\n    kill disk\n}\n",
    b"client x {\n    call q.go(@p)\n}\nclient y {\n    call p.go(@q)\n}\n",
    b"client x {
    text n = Name \"notes\"
    text t = Bytes \"hello\"
    let z = new Bytes
    text l = Name \"aaaaaaaaaaaaaaaaaaaaaaaa\"
    text m = Name \"aaaaaaaaaaaaaaaaaaaaaaaaa\"
    call fs.mkfs()
    call rv.open(&n, 1) -> e1, f
    call rv.write(f, 5, &t)
    kill disk
    call rv.seek(f, 0)
    call rv.read(f, 512, z) -> e2, k2, z2
    show z2
    call rv.write(f, 505, &z2)
    call rv.write(f, 5, &t)
    kill disk
    call rv.seek(f, 510)
    call rv.read(f, 512, z2) -> e3, k3, z3
    show z3
    call rv.read(f, 512, z3) -> e4, k4, z4
    call rv.seek(f, 516)
    call rv.unlink(&n)
    call rv.close(f)
    call rv.unlink(&n)
    call rv.open(&n, 0)
    call rv.close(f)
    call fs.create(&l)
    call fs.create(&m)
    call rv.pipe_put(42)
    call rv.pipe_get()
    call rv.pipe_get()
    let w = new P 1, 2, 18446744073709551615
    text u = Bytes \" a // b ~\"
    drop w
}
",
];

// What a part is written back as, or the line and the rule that refuse it.
#[derive(Drop)]
enum Answer {
    Written(Vec<u8>),
    Refused(u32, u8),
}

// What a text is read as and written back.
fn read_back(alloc: Global, is_plan: bool, text: &[u8]) -> Result<Answer, Fail> {
    if text.len() > 4096 {
        return Err(Fail::from("long"));
    }
    let all = lines(alloc, text)?;
    let fault = if is_plan {
        match read_plan(alloc, text, &all) {
            Ok(plan) => return Ok(Answer::Written(write_plan(alloc, &plan)?)),
            Err(fault) => fault,
        }
    } else {
        match read_clients(alloc, text, &all) {
            Ok(clients) => return Ok(Answer::Written(write_clients(alloc, &clients)?)),
            Err(fault) => fault,
        }
    };
    match fault {
        LoadFault::Refused(at) => Ok(Answer::Refused(at.line, at.rule)),
        LoadFault::Memory => Err(Fail::from("memory")),
    }
}

fn is_written(answer: &Answer, text: &[u8]) -> bool {
    match answer {
        Answer::Written(out) => out.as_slice() == text,
        Answer::Refused(_, _) => false,
    }
}

#[test]
fn worked(rt: HostRuntime) -> Result<(), Fail> {
    let alloc = rt.alloc();
    for text in PLANS {
        assert!(rt; is_written(&read_back(alloc, true, text)?, text));
    }
    for text in CLIENTS {
        assert!(rt; is_written(&read_back(alloc, false, text)?, text));
    }
    // The same in another spelling.
    let bare = read_back(alloc, true, b"// plan\n\nload\ta=B // one\r\nfuel 0x10")?;
    assert!(rt; is_written(&bare, b"load a = B\nfuel 16\n"));
    let bare = read_back(alloc, false, b"\nclient a{\ncall b.c(1,&d)->e//\n} // a")?;
    assert!(rt; is_written(&bare, b"client a {\n    call b.c(1, &d) -> e\n}\n"));
    // A line that is no form, and one that may not stand there.
    let broken = read_back(alloc, true, b"serial a\n\n}\n")?;
    assert!(rt; matches!(broken, Answer::Refused(3, 1)));
    let misplaced = read_back(alloc, false, b"client a {\n}\n\ncall a.b()\n")?;
    assert!(rt; matches!(misplaced, Answer::Refused(4, 2)));
    Ok(())
}
