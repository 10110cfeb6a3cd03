//! Each call once.
use crate::word::{BorrowWord, MOST_LOANS};

#[test]
fn loans_are_counted(rt: HostRuntime) {
    let mut word = BorrowWord::new();
    assert_eq!(rt; word.count, 0);
    word.lend();
    word.lend();
    assert_eq!(rt; word.count, 2);
    word.give_back();
    assert_eq!(rt; word.count, 1);
    assert_eq!(rt; word.ended, false);
    assert!(rt; word.count < MOST_LOANS);
}

#[test]
fn what_nobody_can_reach_is_free(rt: HostRuntime) {
    let mut word = BorrowWord::new();
    assert_eq!(rt; word.is_free(), false);
    word.lend();
    word.end();
    assert_eq!(rt; word.is_free(), false);
    word.give_back();
    assert_eq!(rt; word.is_free(), true);
}
