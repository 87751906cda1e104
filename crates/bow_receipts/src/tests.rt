// A program with two threads over a disk in memory: each writes a text of its own, and reads it back.
ghost use Rattle.std.specs.Prelude.{◌≡◌, ◌-◌, ◌^◌, ◌<◌, ◌≤◌, ℕ, [], length, IfOk};
ghost use Rattle.bow_receipts.specs.Openings.{may_of};

use crate::{Answer, CallFault, Callers, Closed, Desk, Naming, Pass};
use bow_core::Core;
use bow_disk::MemDisk;
use bow_history::Item;
use bow_ranges::RangeList;
use bow_units::{Extent, Geometry, NoMemory, Op, Outcome, Payload};
use std::alloc::Global;
use std::marker::Brand;
use std::sync::Wait;
use std::test::Fail;
use std::thread;
use std::thread::Threads;

// A block with a text at its beginning.
fn block_of(alloc: Global, text: &str) -> Result<Payload, NoMemory>
    ensures { IfOk result (λ payload. length payload ≡ 512) }
{
    let mut bytes = vec![in alloc; 0u8; 512]?;
    for (into, byte) in bytes.iter_mut().zip(text.as_bytes()) {
        *into = *byte;
    }
    Ok(Payload::new(bytes))
}

// Writes the text to the caller's own block, and reads that block: two calls, after which the pass is spent. It gives
// the answer to the read.
fn write_and_read<J: Naming<MemDisk>, H: Wait>(
    rt: &H,
    alloc: Global,
    desk: &Desk<J, MemDisk, RangeList>,
    pass: &mut Pass<J, MemDisk>,
    text: &str,
) -> Option<Answer>
    requires sizes { J.sizes.block_size ≡ 512 }
    ensures { pass.new.lane ≡ pass.old.lane }
{
    let own = Extent {
        first: 1 + pass.lane() as u64,
        count: 1,
    };
    let wrote = desk.call(rt, pass, Op::Write(own, block_of(alloc, text).ok()?));
    if wrote.is_err() {
        return None;
    }
    let buffer = block_of(alloc, "").ok()?;
    let answer = desk.call(rt, pass, Op::Read(own, buffer)).ok()?;
    match desk.call(rt, pass, Op::Flush) {
        Err((Op::Flush, CallFault::Spent)) => Some(answer),
        _ => None,
    }
}

// The same, with a pass that is handed over and given back.
fn go<J: Naming<MemDisk>, H: Wait>(
    rt: &H,
    alloc: Global,
    desk: &Desk<J, MemDisk, RangeList>,
    mut pass: Pass<J, MemDisk>,
    text: &str,
) -> (Pass<J, MemDisk>, Option<Answer>)
    requires sizes { J.sizes.block_size ≡ 512 }
    ensures { result.0.lane ≡ pass.lane }
{
    let answer = write_and_read(rt, alloc, desk, &mut pass, text);
    (pass, answer)
}

// What each of two callers read, and what their desk leaves.
type Ended = (Option<Answer>, Option<Answer>, Closed<MemDisk, RangeList>);

// Two callers, each in a thread of its own.
fn by_two<J: Naming<MemDisk> + Send + Sync, H: Threads + Wait + Sync>(
    rt: &H,
    alloc: Global,
    core: Core<MemDisk, RangeList>,
    callers: Callers,
) -> Result<Ended, Fail>
    requires named { (J.table ≡ callers.table) × (J.sizes ≡ core.geometry) × (J.callers ≡ length callers.calls)
        × (J.allowed ≡ may_of callers.calls) }
    requires plain { (lane n : ℕ) → J.section lane n ≡ 0 }
    requires begins { J.begins core }
    requires two { length callers.calls ≡ 2 }
    requires size { (callers.size ≡ core.geometry.block_size) × (core.geometry.block_size ≡ 512) }
    requires idle { core.memory.requests ≡ [] }
    requires places { core.places ≡ 16 }
    requires serials { core.admitted < 2 ^ 63 }
    requires early { core.calls ≤ 2 ^ 64 - 1 }
{
    let Ok((desk, mut passes)) = Desk::<J, MemDisk, RangeList>::set_up(alloc, core, callers) else {
        return Err(Fail::from("no memory"));
    };
    let Some(second) = passes.pop() else {
        return Err(Fail::from("no second pass"));
    };
    let Some(first) = passes.pop() else {
        return Err(Fail::from("no first pass"));
    };
    let (one, other) = thread::join(
        rt,
        || go(rt, alloc, &desk, first, "of the first"),
        || go(rt, alloc, &desk, second, "of the second"),
    );
    let (first, one) = one;
    let (second, other) = other;
    if first.lane() != 0 {
        return Err(Fail::from("another first caller"));
    }
    if second.lane() != 1 {
        return Err(Fail::from("another second caller"));
    }
    let mut all = Vec::new(alloc);
    all.push(first)?;
    all.push(second)?;
    Ok((one, other, desk.close(all)))
}

#[test]
fn two_callers(rt: HostRuntime) -> Result<(), Fail> {
    let alloc: Global = rt.alloc();
    let sizes = Geometry {
        block_size: 512,
        blocks: 16,
    };
    let image = vec![in alloc; 0u8; 8192]?;
    let disk = MemDisk::new(alloc, sizes, image, 10)?;
    let Ok(core) = Core::<MemDisk, RangeList>::open(alloc, disk, 16) else {
        return Err(Fail::from("no device"));
    };
    let geometry = core.geometry();
    if geometry.block_size != 512 {
        return Err(Fail::from("other sizes"));
    }
    let callers = Callers::new(alloc, &[2, 2], geometry.block_size)?;
    let (one, other, closed) = by_two::<Brand, HostRuntime>(&rt, alloc, core, callers)?;
    let (one, other) = (one.ok_or("no answer")?, other.ok_or("no answer")?);
    assert!(rt; one.bytes.as_slice().starts_with(b"of the first"));
    assert!(rt; other.bytes.as_slice().starts_with(b"of the second"));
    assert_eq!(rt; one.outcome, Outcome::Data);
    let place = closed.journal.get(one.place as usize).ok_or("no item")?;
    assert_eq!(rt;
        *place,
        Item::Answered {
            lane: 0,
            number: 1,
            outcome: Outcome::Data
        }
    );
    assert_eq!(rt; closed.journal.len(), 8);
    assert_eq!(rt; closed.calls.len(), 4);
    closed.core.close();
    Ok(())
}
