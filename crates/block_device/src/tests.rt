use crate::blocks::Blocks;
use std::process::Abort;
use std::test::Fail;

#[test]
fn blocks_keep_what_is_set(rt: HostRuntime) -> Result<(), Fail> {
    let mut blocks = Blocks::new(rt.alloc(), 3)?;
    assert_eq!(rt; blocks.len(), 3);
    let mut words = [0; 64];
    words[63] = 9;
    blocks.set(1, words.as_slice());
    blocks.set(3, words.as_slice());
    assert_eq!(rt; blocks.block(1) == words.as_slice(), true);
    assert_eq!(rt; blocks.block(2) == [0u64; 64].as_slice(), true);
    assert_eq!(rt; blocks.block(3).is_empty(), true);
    Ok(())
}
