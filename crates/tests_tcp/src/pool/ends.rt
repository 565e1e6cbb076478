//! The end of a run: it comes while some threads wait, sleep or serve.

use crate::pool::fakes::{Changes, Crowd, Held, Manner, Plan, run, wanted};
use std::test::Fail;

/// A client that is done after one round.
const SHORT: Plan = Plan {
    rounds: 1,
    changes: Changes::Never,
    held: Held::Never,
};

const CHANGED: Plan = Plan {
    changes: Changes::Always,
    ..SHORT
};

/// How often each of these runs.
const TIMES: u32 = 20;

const CROWDS: &[Crowd] = &[
    // There is no client.
    Crowd {
        manner: Manner::InOrder,
        lanes: 4,
        plans: &[],
    },
    // Of 16 threads most wait or sleep.
    Crowd {
        manner: Manner::InOrder,
        lanes: 8,
        plans: &[(8, SHORT)],
    },
    Crowd {
        manner: Manner::InOrder,
        lanes: 2,
        plans: &[(2, SHORT), (2, CHANGED)],
    },
    Crowd {
        manner: Manner::Others,
        lanes: 2,
        plans: &[(1, SHORT), (1, CHANGED)],
    },
];

/// A run with no client starts no thread, and each other one ends.
#[test]
fn a_run_ends_while_threads_wait(rt: HostRuntime) -> Result<(), Fail> {
    for _ in 0..TIMES {
        for (number, crowd) in CROWDS.iter().enumerate() {
            let ran = run(rt, rt.alloc(), *crowd)?;
            let mut wanted = wanted(*crowd);
            if crowd.plans.is_empty() {
                wanted.stops = 0;
            }
            assert_eq!(rt; ran, wanted, "{number}");
        }
    }
    Ok(())
}
