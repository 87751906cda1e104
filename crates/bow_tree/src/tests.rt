ghost use Rattle.std.specs.Prelude.{◌≡◌, ◌+◌, ◌<◌, ◌≤◌, length};

use super::{RangeTree, Steps};
use bow_ranges::Ranges;
use bow_units::{Extent, Kind};
use std::marker::Brand;
use std::sync::ledger::{Blank, Ledger};
use std::test::Fail;

fn extent(first: u32, count: u32) -> Extent
    ensures first { result.first ≡ first }
    ensures count { result.count ≡ count }
{
    Extent {
        first: first as u64,
        count: count as u64,
    }
}

// Makes every even block free and every odd one changed.
fn alternate<R: Ranges>(table: &mut R, blocks: u32)
    requires { length (R.kinds table.old) ≡ blocks }
    ensures { length (R.kinds table.new) ≡ blocks }
{
    for block in 0..blocks {
        let kind = if block % 2 == 0 {
            Kind::Free
        } else {
            Kind::Changed
        };
        table.set(extent(block, 1), kind);
    }
}

// Picks two blocks, and visits few nodes.
fn pick_two<L: Ledger>(tree: &RangeTree, blank: Blank) -> Option<Extent>
    requires name { blank.name ≡ L.name }
    requires parts { blank.parts ≡ L.parts }
    requires some { 0 < blank.parts }
{
    let mut steps = Steps::<L>::new(blank);
    let picked = tree.pick_steps(2, &mut steps);
    few(&steps);
    picked
}

fn few<L: Ledger>(steps: &Steps<L>)
    requires { steps.now ≤ 64 }
{
    let _ = steps;
}

#[test]
fn many_short_runs(rt: HostRuntime) -> Result<(), Fail> {
    let mut table = RangeTree::open(rt.alloc(), 65_536)?;
    alternate(&mut table, 65_536);
    assert_eq!(rt; table.pick(2), Some(extent(0, 1)));
    assert_eq!(rt;
        pick_two::<Brand>(&table, Blank::new(1)),
        Some(extent(0, 1))
    );
    assert_eq!(rt; table.free_blocks(), 32_768);
    table.set(extent(0, 65_536), Kind::Changed);
    assert_eq!(rt; table.pick(1), None);
    assert_eq!(rt; table.free_blocks(), 0);
    Ok(())
}
