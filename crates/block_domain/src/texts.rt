//! The texts of the driver, as bundles have them: its interface and its code.

ghost use Rattle.block_domain.specs.Texts.{IsDriver, IsInterface};

/// The interface of a block device: a block of 64 numbers, and a trait whose methods may all be
/// issued again.
pub fn driver_idl() -> &'static str
    ensures { IsInterface result.now }
{
    "pub struct Block {
    pub w: [u64; 64],
}
pub trait BDev {
    #[idempotent]
    fn size(&self) -> RpcResult<u64>;
    #[idempotent]
    fn read(&self, n: u64) -> RpcResult<RRef<Block>>;
    #[idempotent]
    fn write(&self, n: u64, b: &RRef<Block>) -> RpcResult<()>;
}
"
}

/// The driver's code: `read` makes an object and gets the block into it, `write` puts the lent
/// object into the block.
pub fn driver_text() -> &'static str
    ensures { IsDriver result.now }
{
    "domain Driver: BDev {
    fn size {
        devsize r0
        ret r0
    }
    fn read {
        new r1, Block
        devget r1, r0
        ret r1
    }
    fn write {
        devput r0, r1
        ret
    }
}
"
}
