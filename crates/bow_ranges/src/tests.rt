ghost use Rattle.std.specs.Prelude.{◌≡◌, ◌+◌, ◌≤◌, length, IfOk};

use super::{RangeList, Ranges};
use bow_units::{Extent, Kind, NoMemory};
use std::alloc::Global;
use std::test::Fail;

fn extent(first: u64, count: u64) -> Extent
    ensures first { result.first ≡ first }
    ensures count { result.count ≡ count }
{
    Extent { first, count }
}

// Makes every even block free and every odd one changed.
fn alternate<R: Ranges>(table: &mut R, blocks: u64)
    requires { length (R.kinds table.old) ≡ blocks }
    ensures { length (R.kinds table.new) ≡ blocks }
{
    for block in 0..blocks {
        let kind = if block % 2 == 0 {
            Kind::Free
        } else {
            Kind::Changed
        };
        table.set(extent(block, 1), kind);
    }
}

#[test]
fn many_short_runs(rt: HostRuntime) -> Result<(), Fail> {
    let mut table = RangeList::open(rt.alloc(), 65_536)?;
    alternate(&mut table, 65_536);
    assert_eq!(rt; table.pick(2), Some(extent(0, 1)));
    assert_eq!(rt; table.free_blocks(), 32_768);
    table.set(extent(0, 65_536), Kind::Changed);
    assert_eq!(rt; table.pick(1), None);
    assert_eq!(rt; table.free_blocks(), 0);
    Ok(())
}

// Gives blocks of a device of 16 blocks a kind.
fn give(table: &mut RangeList, first: u64, count: u64, kind: Kind)
    requires size { length table.old ≡ 16 }
    requires inside { first + count ≤ 16 }
    ensures { length table.new ≡ 16 }
{
    table.set(extent(first, count), kind);
}

fn open_sixteen(alloc: Global) -> Result<RangeList, NoMemory>
    ensures { IfOk result (λ table. length table ≡ 16) }
{
    let mut table = RangeList::open(alloc, 16)?;
    give(&mut table, 0, 1, Kind::Sector0);
    give(&mut table, 8, 8, Kind::Free);
    give(&mut table, 10, 1, Kind::Changed);
    Ok(table)
}

#[test]
fn picks_the_first_that_suffices(rt: HostRuntime) -> Result<(), Fail> {
    let mut table = open_sixteen(rt.alloc())?;
    assert_eq!(rt; table.free_blocks(), 7);
    let picks = [(1, 8, 1), (2, 8, 2), (3, 11, 3), (5, 11, 5), (6, 11, 5)];
    for (want, first, count) in picks {
        assert_eq!(rt; picked(&table, want), Some(extent(first, count)));
    }
    give(&mut table, 13, 1, Kind::Backup);
    assert_eq!(rt; picked(&table, 3), Some(extent(8, 2)));
    assert_eq!(rt; table.run(12), extent(11, 2));
    assert_eq!(rt; table.run(5), extent(1, 7));
    assert_eq!(rt; table.kind(13), Kind::Backup);
    Ok(())
}

fn picked(table: &RangeList, want: u64) -> Option<Extent> {
    if want == 0 { None } else { table.pick(want) }
}

#[test]
fn reclaims_changed_blocks(rt: HostRuntime) -> Result<(), Fail> {
    let mut table = open_sixteen(rt.alloc())?;
    give(&mut table, 2, 3, Kind::Changed);
    give(&mut table, 6, 1, Kind::Saved);
    reclaim(&mut table);
    assert_eq!(rt; table.run(3), extent(2, 2));
    assert_eq!(rt; table.kind(3), Kind::Free);
    assert_eq!(rt; table.kind(4), Kind::Changed);
    assert_eq!(rt; table.kind(6), Kind::Saved);
    assert_eq!(rt; table.run(10), extent(8, 8));
    Ok(())
}

fn reclaim(table: &mut RangeList)
    requires { length table.old ≡ 16 }
    ensures { length table.new ≡ 16 }
{
    table.reclaim(extent(1, 12), &[extent(4, 2), extent(9, 1)]);
}
