//! Worked examples.
use crate::storm;
use std::test::Fail;

// The line before the clients, and the first lines of the one client of the storm of 1.
const FIRST_COMMANDS: &str = "[clients]
client c1 {
    call disk.read(31) -> w1
    drop w1
";

#[test]
fn the_storm_of_one_begins_with_a_read(rt: HostRuntime) -> Result<(), Fail> {
    let text = String::from_utf8(storm(rt.alloc(), 1)?)?;
    assert!(rt; text.as_str().starts_with("[idl]\npub struct P {\n"));
    assert!(rt; text.as_str().contains(FIRST_COMMANDS));
    assert!(rt; !text.as_str().contains("client c2 {\n"));
    Ok(())
}
