// The program with callers: what it tells of one lane; and a desk for one caller with one call.
ghost use Rattle.std.specs.Prelude.{◌≡◌, ◌-◌, ◌^◌, ◌<◌, ◌≤◌, ℕ, [], length};
ghost use Rattle.bow_receipts.specs.Openings.{may_of};

use crate::images::patterns;
use crate::phones::{phone_with, run};
use bow_core::Core;
use bow_disk::MemDisk;
use bow_ranges::RangeList;
use bow_receipts::{Answer, CallFault, Callers, Desk, Naming};
use bow_units::{Extent, Geometry, Op, Outcome, Payload, pattern_of};
use std::alloc::Global;
use std::marker::Brand;
use std::sync::Wait;
use std::test::Fail;

#[test]
fn callers_tell_receipts(rt: HostRuntime) -> Result<(), Fail> {
    let alloc: Global = rt.alloc();
    let phone = phone_with(patterns(alloc, 16)?);
    let script = "discard 8 8\nprepare\nwrite 1 1 5\n";
    let ran = run(&rt, alloc, &phone, &["callers"], script)?;
    assert_eq!(rt; ran.status, 0);
    assert_eq!(rt;
        ran.told.as_slice(),
        b"0.0 done\n0.1 done\n0.2 wrote 1\n0.2 done\nreceipt 0.0 at 0\nreceipt 0.1 at 1\nreceipt 0.2 at 3\n".as_slice()
    );
    Ok(())
}

// A caller that may make one call reads block 1, and then asks for a flush, which is handed back.
fn by_one<J: Naming<MemDisk>, H: Wait>(
    rt: &H,
    alloc: Global,
    core: Core<MemDisk, RangeList>,
    callers: Callers,
) -> Result<Answer, Fail>
    requires named { (J.table ≡ callers.table) × (J.sizes ≡ core.geometry) × (J.callers ≡ length callers.calls)
        × (J.allowed ≡ may_of callers.calls) }
    requires plain { (lane n : ℕ) → J.section lane n ≡ 0 }
    requires begins { J.begins core }
    requires size { (callers.size ≡ core.geometry.block_size) × (core.geometry.block_size ≡ 512) }
    requires idle { core.memory.requests ≡ [] }
    requires places { core.places ≡ 16 }
    requires serials { core.admitted < 2 ^ 63 }
    requires early { core.calls ≤ 2 ^ 64 - 1 }
{
    let Ok((desk, mut passes)) = Desk::<J, MemDisk, RangeList>::set_up(alloc, core, callers) else {
        return Err(Fail::from("no memory"));
    };
    let Some(mut pass) = passes.pop() else {
        return Err(Fail::from("no pass"));
    };
    let block = Extent { first: 1, count: 1 };
    let buffer = Payload::new(vec![in alloc; 0u8; 512]?);
    let Ok(answer) = desk.call(rt, &mut pass, Op::Read(block, buffer)) else {
        return Err(Fail::from("no answer"));
    };
    match desk.call(rt, &mut pass, Op::Flush) {
        Err((Op::Flush, CallFault::Spent)) => Ok(answer),
        _ => Err(Fail::from("a call too many")),
    }
}

#[test]
fn a_caller_makes_its_one_call(rt: HostRuntime) -> Result<(), Fail> {
    let alloc: Global = rt.alloc();
    let sizes = Geometry {
        block_size: 512,
        blocks: 16,
    };
    let image = patterns(alloc, 16)?;
    if image.len() != 8192 {
        return Err(Fail::from("the size of the image"));
    }
    let disk = MemDisk::new(alloc, sizes, image, 10)?;
    let Ok(core) = Core::<MemDisk, RangeList>::open(alloc, disk, 16) else {
        return Err(Fail::from("no device"));
    };
    let geometry = core.geometry();
    if geometry.block_size != 512 {
        return Err(Fail::from("other sizes"));
    }
    let callers = Callers::new(alloc, &[1], geometry.block_size)?;
    let answer = by_one::<Brand, HostRuntime>(&rt, alloc, core, callers)?;
    assert_eq!(rt; answer.place, 1);
    assert_eq!(rt; answer.outcome, Outcome::Data);
    let bytes = answer.bytes.as_slice();
    if bytes.len() != 512 {
        return Err(Fail::from("the bytes of one block"));
    }
    assert_eq!(rt; pattern_of(bytes), Some((1, 0)));
    Ok(())
}
