ghost use Rattle.std.specs.Prelude.{◌≡◌};

use crate::StatusCell;
use bow_units::{Phase, Seen, Status};
use std::test::Fail;

fn opening() -> Seen {
    Seen {
        version: 0,
        status: Status {
            phase: Phase::Trim,
            free: 0,
            sequence: 0,
            entries: 0,
        },
    }
}

#[test]
fn a_look_gives_the_opening_value_and_then_what_was_published(rt: HostRuntime) -> Result<(), Fail> {
    let Ok((cell, mut publisher, mut watchers)) = StatusCell::open(rt.alloc(), 2) else {
        panic!(rt; "memory");
    };
    let sent = Seen {
        version: 3,
        status: Status {
            phase: Phase::Checkpoint,
            free: 14,
            sequence: 1,
            entries: 20,
        },
    };
    assert_eq!(rt; cell.look(&rt, &mut watchers[0]), opening());
    assert_eq!(rt; cell.latest(&rt, &mut publisher), opening());
    cell.publish(&rt, &mut publisher, sent);
    assert_eq!(rt; cell.look(&rt, &mut watchers[0]), sent);
    assert_eq!(rt; cell.look(&rt, &mut watchers[1]), sent);
    assert_eq!(rt; cell.latest(&rt, &mut publisher), sent);
    Ok(())
}
