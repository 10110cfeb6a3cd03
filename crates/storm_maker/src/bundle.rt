//! The bundle of a number.
ghost use Rattle.std.specs.Prelude.{◌≡◌, ◌++◌, ◌≤◌, length, OnOk, IfOk};
ghost use Rattle.storm_maker.specs.Draws.{after};
ghost use Rattle.storm_maker.specs.Fixed.{line_text, lines_text, fixed_lines};
ghost use Rattle.storm_maker.specs.StormText.{head_line, commands_after, client_lines, clients_lines, storm_text};

use crate::commands::put_draw;
use crate::draws::Draws;
use crate::put::{put, put_number};
use std::alloc::{AllocError, Global};

/// The largest number of which there is a storm.
pub const MOST: u32 = 1_000_000;

// How many clients a storm has at most.
const MOST_CLIENTS: u32 = 16;

// How often each client draws.
const DRAWS: u64 = 300;

// The lines before the clients.
const FIXED: &str = "[idl]
pub struct P {
    pub a: u64,
}
pub trait Pass {
    fn p(&self, o: RRef<P>) -> RpcResult<RRef<P>>;
}
pub trait Spinner {
    fn run(&self, n: u64) -> RpcResult<()>;
}
pub struct Block {
    pub w: [u64; 64],
}
pub trait BDev {
    #[idempotent]
    fn size(&self) -> RpcResult<u64>;
    #[idempotent]
    fn read(&self, n: u64) -> RpcResult<RRef<Block>>;
    #[idempotent]
    fn write(&self, n: u64, b: &RRef<Block>) -> RpcResult<()>;
}
[domains]
domain B: Pass {
    fn p {
        ret r0
    }
}
domain A: Pass {
    import next: Pass
    fn p {
        cap r1, next
        call r1.p(r0) -> r0 else r2, bad
        ret r0
        bad:
        trap
    }
}
domain Spin: Spinner {
    words 1
    fn run {
        const r1, 0
        const r2, 1
        top: r0 num, r1 num, r2 num
        jz r0, end
        wput r1, r0
        sub r0, r0, r2
        jmp top
        end:
        ret
    }
}
domain Driver: BDev {
    fn size {
        devsize r0
        ret r0
    }
    fn read {
        new r1, Block
        devget r1, r0
        ret r1
    }
    fn write {
        devput r0, r1
        ret
    }
}
[plan]
load b = B
load a = A
bind a.next = b
load spin = Spin
serial spin
load drv = Driver
device drv 64
shadow disk = drv restarts 16
[clients]
";

// Puts the lines before the clients.
fn put_fixed(out: &mut Vec<u8>) -> Result<(), AllocError>
    ensures { OnOk result (out.new.items ≡ out.old.items ++ lines_text fixed_lines) }
{
    put(out, FIXED)
}

// Puts the commands of so many draws.
fn put_commands(out: &mut Vec<u8>, draws: &mut Draws, count: u64) -> Result<(), AllocError>
    ensures text { OnOk result (out.new.items
        ≡ out.old.items ++ lines_text (commands_after draws.old.last count)) }
    ensures draws { OnOk result (draws.new.last ≡ after draws.old.last count) }
{
    for before in 0..count {
        let d = draws.draw();
        put_draw(out, before + 1, d)?;
    }
    Ok(())
}

// Puts the line that begins a client.
fn put_head(out: &mut Vec<u8>, client: u32) -> Result<(), AllocError>
    ensures { OnOk result (out.new.items ≡ out.old.items ++ line_text (head_line client)) }
{
    put(out, "client c")?;
    put_number(out, u64::from(client))?;
    put(out, " {\n")
}

// Puts the lines of a client.
fn put_client(out: &mut Vec<u8>, draws: &mut Draws, client: u32) -> Result<(), AllocError>
    ensures text { OnOk result (out.new.items
        ≡ out.old.items ++ lines_text (client_lines draws.old.last client)) }
    ensures draws { OnOk result (draws.new.last ≡ after draws.old.last DRAWS) }
{
    put_head(out, client)?;
    put_commands(out, draws, DRAWS)?;
    put(out, "}\n")
}

// Puts the lines of the first so many clients of a number.
fn put_clients(out: &mut Vec<u8>, n: u32, count: u32) -> Result<(), AllocError>
    ensures { OnOk result (out.new.items ≡ out.old.items ++ lines_text (clients_lines n count)) }
{
    let mut draws = Draws { last: u64::from(n) };
    for before in 0..count {
        put_client(out, &mut draws, before + 1)?;
    }
    Ok(())
}

/// The bundle of a number: the least of it and 16 is how many clients it has. Only want of memory
/// fails.
pub fn storm(alloc: Global, n: u32) -> Result<Vec<u8>, AllocError>
    requires { (1 ≤ n) × (n ≤ MOST) }
    ensures text { IfOk result (λ text. text.items ≡ storm_text n) }
    // No bundle is longer that is read.
    ensures short { IfOk result (λ text. length text.items ≤ 1048576) }
{
    let mut out = Vec::new(alloc);
    put_fixed(&mut out)?;
    put_clients(&mut out, n, n.min(MOST_CLIENTS))?;
    Ok(out)
}
