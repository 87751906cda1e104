// A keeper over files that are noted: what it asks of them, in which order, and what each refusal leaves.
use crate::{FileKeeper, Keeper};
use bow_noted::{Noted, Notes};
use std::fs;
use std::rc::Rc;
use std::rt::Files;
use std::test::Fail;

// A keeper of the text in this file, and what it asks for.
fn over_noted<H: Files + AllocGlobal + Clone + Drop>(
    rt: &H,
    path: &str,
) -> Result<(FileKeeper<Noted<H>>, Rc<Notes>), Fail> {
    let alloc = rt.alloc();
    let notes = Rc::new(alloc, Notes::new())?;
    let files = Noted::new(rt.clone()?, notes.clone()?);
    match FileKeeper::new(alloc, files, String::from_str(alloc, path)?) {
        Ok(keeper) => Ok((keeper, notes)),
        Err(_) => Err(Fail::from("memory for the names")),
    }
}

// What a keeper asks for as it replaces its text, tells and removes it, and removes and tells none.
fn asked<K: Keeper>(keeper: &mut K, notes: &Notes) -> Option<[u64; 5]> {
    keeper.replace(b"12").ok()?;
    let replaced = notes.take();
    keeper.get().ok()?;
    let told = notes.take();
    keeper.remove().ok()?;
    let removed = notes.take();
    keeper.remove().ok()?;
    let none_removed = notes.take();
    if keeper.get().ok()?.is_some() {
        return None;
    }
    Some([replaced, told, removed, none_removed, notes.take()])
}

#[test]
fn a_text_is_written_synced_named_and_synced(rt: HostRuntime) -> Result<(), Fail> {
    let (mut keeper, notes) = over_noted(&rt, "vold_meta_noted")?;
    // The new file is opened, written and synced, and gets its name; the folder is opened and synced. The folder is
    // opened and synced; the file is opened and read to its end. The file is removed, and the folder synced, also where
    // there is no file.
    assert_eq!(rt;
        asked(&mut keeper, &notes),
        Some([0x268918, 0x18155, 0xa18, 0xa18, 0x181])
    );
    Ok(())
}

// Whether a text is told after so many calls.
fn is_told<K: Keeper>(keeper: &mut K, notes: &Notes, through: u64) -> bool {
    notes.let_through(through);
    keeper.get().is_ok()
}

// Whether a text is told though the folder can't be opened, or can't be synced.
fn is_told_unsynced<H: Files + AllocGlobal + Clone + Drop>(rt: &H) -> Result<[bool; 3], Fail> {
    let path = "vold_meta_not_synced";
    fs::write(rt, path, b"1")?;
    let (mut keeper, notes) = over_noted(rt, path)?;
    let told = [
        is_told(&mut keeper, &notes, 0),
        is_told(&mut keeper, &notes, 1),
        is_told(&mut keeper, &notes, u64::MAX),
    ];
    fs::remove_file(rt, path)?;
    Ok(told)
}

#[test]
fn what_a_cut_may_take_back_is_not_read(rt: HostRuntime) -> Result<(), Fail> {
    assert_eq!(rt; is_told_unsynced(&rt)?, [false, false, true]);
    Ok(())
}

// Whether the file has this text after a change of `1` to `23` that was refused after so many calls.
fn leaves<H: Files + AllocGlobal + Clone + Drop>(
    rt: &H,
    through: u64,
    text: &[u8],
) -> Result<bool, Fail> {
    let path = "vold_meta_refused";
    fs::write(rt, path, b"1")?;
    let (mut keeper, notes) = over_noted(rt, path)?;
    notes.let_through(through);
    let refused = keeper.replace(b"23").is_err();
    let kept = fs::read(rt, path)?;
    fs::remove_file(rt, path)?;
    Ok(refused && kept.as_slice() == text)
}

#[test]
fn each_refusal_leaves_a_whole_text(rt: HostRuntime) -> Result<(), Fail> {
    for through in 0..4 {
        assert!(rt; leaves(&rt, through, b"1")?);
    }
    // The fourth call gives the new file its name.
    for through in 4..6 {
        assert!(rt; leaves(&rt, through, b"23")?);
    }
    let _ = fs::remove_file(&rt, "vold_meta_refused.new");
    Ok(())
}
