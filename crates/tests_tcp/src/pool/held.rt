//! Clients that are held up for as long as others are not done: these go on.

use crate::pool::fakes::{Changes, Crowd, Held, Manner, Plan, run, wanted};
use std::test::Fail;

/// Ten clients that are not held up.
const GOES_ON: (usize, Plan) = (
    10,
    Plan {
        rounds: 20,
        changes: Changes::EveryOther,
        held: Held::Never,
    },
);

/// Clients that are held up when they are read.
const IN_READ: Plan = Plan {
    rounds: 2,
    changes: Changes::Never,
    held: Held::InRead,
};

const IN_READ_WITH_CHANGES: Plan = Plan {
    changes: Changes::Always,
    ..IN_READ
};

const IN_HANDLE: Plan = Plan {
    held: Held::InHandle,
    ..IN_READ
};

const IN_HANDLE_WITH_CHANGES: Plan = Plan {
    changes: Changes::Always,
    ..IN_HANDLE
};

const IN_WRITE: Plan = Plan {
    held: Held::InWrite,
    ..IN_READ
};

/// All of them in one lane.
const CROWDS: &[&[(usize, Plan)]] = &[
    &[(24, IN_READ), GOES_ON],
    &[(24, IN_READ_WITH_CHANGES), GOES_ON],
    &[(24, IN_HANDLE), GOES_ON],
    &[(24, IN_HANDLE_WITH_CHANGES), GOES_ON],
    &[(24, IN_WRITE), GOES_ON],
    &[GOES_ON, (200, IN_READ)],
    &[GOES_ON, (200, IN_READ_WITH_CHANGES)],
    &[GOES_ON, (200, IN_HANDLE)],
    &[GOES_ON, (200, IN_HANDLE_WITH_CHANGES)],
    &[GOES_ON, (200, IN_WRITE)],
    &[
        (50, IN_READ),
        (50, IN_HANDLE_WITH_CHANGES),
        GOES_ON,
        (50, IN_WRITE),
        (50, IN_HANDLE),
    ],
];

/// While all of these are held up, in one lane, the others are served until they are done. Only then are those let go, and served too.
#[test]
fn clients_that_are_held_up_hold_up_no_other(rt: HostRuntime) -> Result<(), Fail> {
    for (number, plans) in CROWDS.iter().enumerate() {
        let crowd = Crowd {
            manner: Manner::InOrder,
            lanes: 1,
            plans: *plans,
        };
        let ran = run(rt, rt.alloc(), crowd)?;
        assert_eq!(rt; ran, wanted(crowd), "{number}");
    }
    Ok(())
}
