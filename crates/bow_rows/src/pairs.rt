// The program over several devices that commit together or roll back.
use crate::images::patterns;
use crate::phones::{Phone, disk_of, holds, phone_with, text, words_with};
use bow_disk::{MemDisk, Pick};
use bow_tool::pair_tool;
use bow_units::{MemSink, MemSource};
use std::alloc::Global;
use std::test::Fail;
use vold_meta::{AttemptText, MemKeeper};

const UPDATE: &str =
    "lane\ndiscard 8 8\nlane\ndiscard 8 8\nsection\nlane\nwrite 1 1 5\nlane\nwrite 2 1 6\n";

const COMMITTED: &[u8] = b"device 0\n0.0 done\n0.1 done\n0.0 wrote 1\n0.0 done\n\
device 1\n0.0 done\n0.1 done\n0.0 wrote 2\n0.0 done\ncommitted\n";

/// A keeper: the text of the decision that it keeps, and which of its calls fails, made or not.
#[derive(Drop)]
struct Keeping {
    kept: Option<AttemptText>,
    fails: Option<(u64, bool)>,
}

/// What came of a run: its status, what was told, the disks, and the text that is kept.
#[derive(Drop)]
struct Ran {
    status: u8,
    told: Vec<u8>,
    disks: Vec<MemDisk>,
    kept: Option<AttemptText>,
}

// A keeper that keeps nothing, and of which no call fails.
fn nothing() -> Keeping {
    Keeping {
        kept: None,
        fails: None,
    }
}

// The program with the words `image attempts 512` and these over the phones, with this script at its source.
fn run(
    alloc: Global,
    phones: &[Phone],
    keeping: Keeping,
    own: &[&str],
    script: &str,
) -> Result<Ran, Fail> {
    let words = words_with(alloc, own)?;
    let disks = disks_of(alloc, phones)?;
    if disks.len() < 2 || disks.len() > 8 {
        return Err(Fail::from("the number of the devices"));
    }
    let mut keeper = MemKeeper::new(alloc, keeping.kept);
    if let Some((call, made)) = keeping.fails {
        keeper.fail_at(call, made)?;
    }
    let mut source = MemSource::new(alloc, script.as_bytes().to_vec(alloc)?);
    let mut sink = MemSink::new(alloc, 65_536)?;
    let ended = pair_tool(alloc, &words, disks, keeper, &mut source, &mut sink);
    Ok(Ran {
        status: ended.status,
        told: sink.bytes().to_vec(alloc)?,
        disks: ended.disks,
        kept: ended.keeper.text(),
    })
}

// The disks of phones.
fn disks_of(alloc: Global, phones: &[Phone]) -> Result<Vec<MemDisk>, Fail> {
    let mut disks = Vec::new(alloc);
    for phone in phones {
        disks.push(disk_of(alloc, phone)?)?;
    }
    Ok(disks)
}

// Phones of so many blocks each.
fn phones(alloc: Global, blocks: &[usize]) -> Result<Vec<Phone>, Fail> {
    let mut phones = Vec::new(alloc);
    for count in blocks {
        phones.push(phone_with(patterns(alloc, *count)?))?;
    }
    Ok(phones)
}

// What a cut leaves of the disks.
fn cut(alloc: Global, disks: &[MemDisk], pick: Pick) -> Result<Vec<Phone>, Fail> {
    let mut phones = Vec::new(alloc);
    for disk in disks {
        phones.push(phone_with(disk.cut(alloc, pick)?))?;
    }
    Ok(phones)
}

// Whether block 1 of the first device and block 2 of the second hold their patterns with these seeds.
fn hold(alloc: Global, disks: &[MemDisk], first: u32, second: u32) -> Result<bool, Fail> {
    match disks {
        [one, other, ..] => Ok(
            holds(&one.image(alloc)?, 1, first) && holds(&other.image(alloc)?, 2, second),
        ),
        _ => Ok(false),
    }
}

// Whether a cut of these disks with this text is settled by a boot: both are rolled back, or both are committed.
fn is_settled(
    alloc: Global,
    disks: &[MemDisk],
    kept: &Option<AttemptText>,
    pick: Pick,
) -> Result<bool, Fail> {
    let keeping = Keeping {
        kept: kept.clone()?,
        fails: None,
    };
    let cut = cut(alloc, disks, pick)?;
    let booted = run(alloc, &cut, keeping, &["pair-boot", "other"], "")?;
    let together = hold(alloc, &booted.disks, 0, 0)? || hold(alloc, &booted.disks, 5, 6)?;
    Ok(booted.status == 0 && booted.kept.is_none() && together)
}

// Whether an update of two devices is settled however it is cut, if one of them stops after so many calls.
fn settles_after(alloc: Global, device: usize, calls: u64) -> Result<bool, Fail> {
    let mut phones = phones(alloc, &[16, 16])?;
    if let Some(phone) = phones.get_mut(device) {
        phone.stops = Some(calls);
    }
    let ran = run(alloc, &phones, nothing(), &["pair", "0", "other"], UPDATE)?;
    Ok(
        is_settled(alloc, &ran.disks, &ran.kept, Pick::Oldest)?
            && is_settled(alloc, &ran.disks, &ran.kept, Pick::Newest)?,
    )
}

// The same, if this call of the keeper fails, made or not.
fn settles_without(alloc: Global, call: u64, made: bool) -> Result<bool, Fail> {
    let keeping = Keeping {
        kept: None,
        fails: Some((call, made)),
    };
    let phones = phones(alloc, &[16, 16])?;
    let ran = run(alloc, &phones, keeping, &["pair", "0", "other"], UPDATE)?;
    Ok(
        ran.status == 7
            && is_settled(alloc, &ran.disks, &ran.kept, Pick::Oldest)?
            && is_settled(alloc, &ran.disks, &ran.kept, Pick::Newest)?,
    )
}

#[test]
fn devices_commit_together(rt: HostRuntime) -> Result<(), Fail> {
    let alloc: Global = rt.alloc();
    let two = phones(alloc, &[16, 16])?;
    let ran = run(alloc, &two, nothing(), &["pair", "0", "other"], UPDATE)?;
    assert!(rt; ran.status == 0 && ran.told.as_slice() == COMMITTED && ran.kept.is_none());
    assert!(rt; hold(alloc, &ran.disks, 5, 6)?);
    let left = cut(alloc, &ran.disks, Pick::Newest)?;
    let booted = run(alloc, &left, nothing(), &["pair-boot", "other"], "")?;
    assert!(rt; booted.status == 0 && booted.told.as_slice() == b"plain\n".as_slice());
    let three = phones(alloc, &[16, 24, 32])?;
    let own = ["pair", "7", "other", "third"];
    let ran = run(
        alloc,
        &three,
        nothing(),
        &own,
        "lane\nlane\nlane\nsection\nlane\nwrite 1 1 5\n",
    )?;
    assert!(rt; ran.status == 0 && ran.told.ends_with(b"not prepared 0\n"));
    Ok(())
}

#[test]
fn devices_are_settled_together_after_any_cut(rt: HostRuntime) -> Result<(), Fail> {
    let alloc: Global = rt.alloc();
    let two = phones(alloc, &[16, 16])?;
    let whole = run(alloc, &two, nothing(), &["pair", "0", "other"], UPDATE)?;
    for device in 0..whole.disks.len() {
        for calls in 0..whole.disks[device].calls().min(100) {
            assert!(rt; settles_after(alloc, device, calls)?);
        }
    }
    for call in 1..4u64 {
        for made in [false, true] {
            assert!(rt; settles_without(alloc, call, made)?);
        }
    }
    Ok(())
}

#[test]
fn devices_that_can_not_go_on(rt: HostRuntime) -> Result<(), Fail> {
    let alloc: Global = rt.alloc();
    let two = phones(alloc, &[16, 16])?;
    let script = "lane\ndiscard 8 8\nlane\ndiscard 15 1\nsection\nlane\nwrite 1 1 5\n";
    let ran = run(alloc, &two, nothing(), &["pair", "0", "other"], script)?;
    assert!(rt; ran.status == 0 && ran.told.ends_with(b"not prepared 1\n"));
    let left = cut(alloc, &ran.disks, Pick::Newest)?;
    let booted = run(alloc, &left, nothing(), &["pair-boot", "other"], "")?;
    assert!(rt; booted.status == 0 && booted.told.as_slice() == b"rolled back\n".as_slice());
    let keeping = Keeping {
        kept: Some(text(b"commi")),
        fails: None,
    };
    let refused = run(alloc, &two, keeping, &["pair-boot", "other"], "")?;
    assert!(rt; refused.status == 10 && refused.told.as_slice() == b"bad attempts\n".as_slice());
    let refused = run(alloc, &two, nothing(), &["pair", "0", "other"], "commit\n")?;
    assert!(rt;
        refused.status == 3 && refused.told.as_slice() == b"bad script at line 0\n".as_slice()
    );
    let refused = run(alloc, &two, nothing(), &["pair", "0"], UPDATE)?;
    assert!(rt; refused.status == 2 && refused.told.as_slice() == b"bad words\n".as_slice());
    Ok(())
}
