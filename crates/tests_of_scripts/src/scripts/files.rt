//! Rows of managers that are saved and loaded.

use super::check;
use std::fs;
use std::test::Fail;

// The file of one entry: the key `aa` with the tag `1`, of weight 9.
const AA: [u8; 34] = [
    0x91, 0x92, 0x93, 0xdc, 0x00, 0x10, 0xcc, 0xac, 0x10, 0xcc, 0xf2, 0xcc, 0xae, 0xcc, 0xf1, 0x17,
    0x72, 0xcc, 0x9f, 0xcc, 0x8d, 0xcc, 0xad, 0x05, 0x6b, 0x30, 0x59, 0xcc, 0xeb, 0x7e, 0xc0, 0xa1,
    0x31, 0x09,
];

// The same of what a world saves: the entry has the number 0, which is that of the first write.
const AA_NUMBERED: [u8; 36] = [
    0x91, 0x92, 0x92, 0x93, 0xdc, 0x00, 0x10, 0xcc, 0xac, 0x10, 0xcc, 0xf2, 0xcc, 0xae, 0xcc, 0xf1,
    0x17, 0x72, 0xcc, 0x9f, 0xcc, 0x8d, 0xcc, 0xad, 0x05, 0x6b, 0x30, 0x59, 0xcc, 0xeb, 0x7e, 0xc0,
    0xa1, 0x31, 0x00, 0x09,
];

fn has(rt: &HostRuntime, path: &str, wanted: &[u8]) -> bool {
    match fs::read(rt, path) {
        Ok(bytes) => bytes.as_slice() == wanted,
        Err(_) => false,
    }
}

#[test]
fn a_manager_is_saved_in_a_new_folder(rt: HostRuntime) -> Result<(), Fail> {
    let _ = fs::remove_dir_all(&rt, "saved_by_script");
    let row = "open 1 -> ok\n\
        key 1 aa 1 -> ok\n\
        look 1 -> none write\n\
        miss 1 -> ok\n\
        meta 1 60 -> ok\n\
        begin 1 -> ok\n\
        write 1 xxxxxxxxx -> ok\n\
        finish 1 -> stored 9 evicted 0\n\
        save saved_by_script -> ok\n\
        load saved_by_script -> wrong call\n";
    check(&rt, rt.alloc(), &["9"], row, 0, "")?;
    assert!(rt; has(&rt, "saved_by_script/simple_lru.data", &AA_NUMBERED));
    fs::remove_dir_all(&rt, "saved_by_script")?;
    Ok(())
}

// What was loaded is evicted as what was admitted is, and a load evicts nothing itself.
#[test]
fn a_manager_is_loaded_before_the_first_call(rt: HostRuntime) -> Result<(), Fail> {
    let _ = fs::remove_dir_all(&rt, "loaded_by_script");
    fs::create_dir_all(&rt, "loaded_by_script")?;
    fs::write(&rt, "loaded_by_script/simple_lru.data", &AA)?;
    let row = "load loaded_by_script -> ok\n\
        stat -> stored 0 slots 0 weight 9 items 1 evicted 0 size 0\n\
        at 3 -> ok\n\
        load loaded_by_script -> ok\n\
        open 1 -> ok\n\
        load loaded_by_script -> wrong call\n\
        key 1 b 1 -> ok\n\
        look 1 -> none write\n\
        miss 1 -> ok\n\
        meta 1 60 -> ok\n\
        begin 1 -> ok\n\
        write 1 x -> ok\n\
        finish 1 -> stored 1 evicted 1\n\
        end 1 -> ok\n\
        open 2 -> ok\n\
        key 2 b 1 -> ok\n\
        look 2 -> hit 1\n";
    check(&rt, rt.alloc(), &["4"], row, 0, "")?;
    fs::remove_dir_all(&rt, "loaded_by_script")?;
    Ok(())
}

// A save is a call, and so is a load: only loads may come before one, also failed ones, and a late load is a wrong call
// and no bad line.
#[test]
fn a_load_after_a_save_is_a_wrong_call(rt: HostRuntime) -> Result<(), Fail> {
    let _ = fs::remove_dir_all(&rt, "saved_first");
    let row = "load saved_first -> refused E8\n\
        save saved_first -> ok\n\
        load saved_first -> wrong call\n\
        save saved_first -> ok\n\
        open 1 -> ok\n\
        load saved_first -> wrong call\n";
    check(&rt, rt.alloc(), &["9"], row, 0, "")?;
    let row = "load saved_first -> ok\n\
        load no_such_folder -> refused E8\n\
        load saved_first -> ok\n\
        end 1 -> wrong call\n\
        load saved_first -> wrong call\n";
    check(&rt, rt.alloc(), &["9"], row, 0, "")?;
    fs::remove_dir_all(&rt, "saved_first")?;
    Ok(())
}

// An entry that was saved without a number names no write, so everything of its key is removed with
// it.
#[test]
fn a_loaded_entry_of_a_key_alone_removes_all_of_the_key(rt: HostRuntime) -> Result<(), Fail> {
    let _ = fs::remove_dir_all(&rt, "loaded_key_alone");
    fs::create_dir_all(&rt, "loaded_key_alone")?;
    fs::write(&rt, "loaded_key_alone/simple_lru.data", &AA)?;
    let row = "load loaded_key_alone -> ok\n\
        open 1 -> ok\n\
        key 1 aa 1 -> ok\n\
        look 1 -> none write\n\
        miss 1 -> ok\n\
        meta 1 60 -> ok\n\
        begin 1 -> ok\n\
        write 1 x -> ok\n\
        finish 1 -> stored 1 evicted 1\n\
        end 1 -> ok\n\
        open 2 -> ok\n\
        key 2 aa 1 -> ok\n\
        look 2 -> none write\n\
        stat -> stored 0 slots 0 weight 1 items 1 evicted 1 size 9\n";
    check(&rt, rt.alloc(), &["9"], row, 0, "")?;
    fs::remove_dir_all(&rt, "loaded_key_alone")?;
    Ok(())
}

#[test]
fn folders_that_cannot_be_loaded(rt: HostRuntime) -> Result<(), Fail> {
    let _ = fs::remove_dir_all(&rt, "torn_for_script");
    fs::create_dir_all(&rt, "torn_for_script")?;
    let row = "load torn_for_script -> refused E8\n\
        load nowhere_at_all -> refused E8\n";
    check(&rt, rt.alloc(), &["4"], row, 0, "")?;
    fs::write(&rt, "torn_for_script/simple_lru.data", &AA[..33])?;
    check(
        &rt,
        rt.alloc(),
        &["4"],
        "load torn_for_script -> refused E2\nload\n",
        1,
        "line 2: bad call\n",
    )?;
    fs::remove_dir_all(&rt, "torn_for_script")?;
    Ok(())
}
