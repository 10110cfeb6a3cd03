//! Worked blocks: those of a disk of 64 blocks with one file, `notes`, that holds `hello`.

use crate::bitmap::Bitmap;
use crate::dir_entry::DirEntry;
use crate::inode::Inode;
use crate::superblock::Super;
use std::process::Abort;
use std::test::Fail;

/// The bytes `notes`, the first lowest.
const NOTES: u64 = 0x73_6574_6f6e;

#[test]
fn superblock(rt: HostRuntime) -> Result<(), Fail> {
    let mut block = [9; 64];
    Super { blocks: 64 }.write(&mut block);
    assert_eq!(rt; block[0], 0x5236_f501);
    assert_eq!(rt; block[1], 64);
    assert_eq!(rt; block[63], 0);
    let Some(read) = Super::read(&block) else {
        return Err(Fail::from("refused"));
    };
    assert_eq!(rt; read.blocks, 64);
    block[63] = 1;
    assert_eq!(rt; Super::read(&block).is_none(), true);
    assert_eq!(rt; Super::read(&[0; 64]).is_none(), true);
    Ok(())
}

#[test]
fn bitmap(rt: HostRuntime) -> Result<(), Fail> {
    let mut block = [0; 64];
    assert_eq!(rt; Bitmap::read(&block).is_none(), true);
    block[0] = 0x3f_ffff;
    let Some(empty) = Bitmap::read(&block) else {
        return Err(Fail::from("refused"));
    };
    assert_eq!(rt; empty.is_used(21), true);
    assert_eq!(rt; empty.is_used(22), false);
    block[0] = 0x7f_ffff;
    block[1] = 2;
    let Some(read) = Bitmap::read(&block) else {
        return Err(Fail::from("refused"));
    };
    assert_eq!(rt; read.is_used(22), true);
    assert_eq!(rt; read.is_used(64), false);
    assert_eq!(rt; read.is_used(65), true);
    let mut copy = [0; 64];
    read.write(&mut copy);
    assert_eq!(rt; copy == block, true);
    block[0] = 0x7f_fffe;
    assert_eq!(rt; Bitmap::read(&block).is_none(), true);
    Ok(())
}

#[test]
fn inode(rt: HostRuntime) -> Result<(), Fail> {
    let mut block = [9; 64];
    assert_eq!(rt; Inode::read(&block, 1).is_none(), true);
    let notes = Inode {
        used: true,
        len: 5,
        blocks: [22, 0, 0, 0, 0, 0, 0, 0],
    };
    notes.write(&mut block, 1);
    assert_eq!(rt; block[15], 9);
    assert_eq!(rt; block[16], 1);
    assert_eq!(rt; block[17], 5);
    assert_eq!(rt; block[18], 22);
    assert_eq!(rt; block[31], 0);
    assert_eq!(rt; block[32], 9);
    let Some(read) = Inode::read(&block, 1) else {
        return Err(Fail::from("refused"));
    };
    assert_eq!(rt; read.used, true);
    assert_eq!(rt; read.len, 5);
    assert_eq!(rt; read.blocks == notes.blocks, true);
    block[17] = 4097;
    assert_eq!(rt; Inode::read(&block, 1).is_none(), true);
    block[17] = 4096;
    assert_eq!(rt; Inode::read(&block, 1).is_some(), true);
    block[31] = 1;
    assert_eq!(rt; Inode::read(&block, 1).is_none(), true);
    Ok(())
}

#[test]
fn dir_entry(rt: HostRuntime) -> Result<(), Fail> {
    let mut block = [0; 64];
    let notes = DirEntry {
        ino: Some(0),
        name: [NOTES, 0, 0],
    };
    notes.write(&mut block, 15);
    assert_eq!(rt; block[59], 0);
    assert_eq!(rt; block[60], 1);
    assert_eq!(rt; block[61], NOTES);
    let Some(read) = DirEntry::read(&block, 15) else {
        return Err(Fail::from("refused"));
    };
    assert_eq!(rt; read.ino == Some(0), true);
    assert_eq!(rt; read.name == notes.name, true);
    let Some(empty) = DirEntry::read(&block, 14) else {
        return Err(Fail::from("refused"));
    };
    assert_eq!(rt; empty.ino.is_none(), true);
    block[60] = 64;
    assert_eq!(rt; DirEntry::read(&block, 15).is_some(), true);
    block[60] = 65;
    assert_eq!(rt; DirEntry::read(&block, 15).is_none(), true);
    Ok(())
}
