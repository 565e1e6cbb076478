//! Crowds of clients: however they are told of, each is served until it is done.

use crate::pool::fakes::{Changes, Crowd, Held, Manner, Plan, run, wanted};
use std::test::Fail;

/// Clients that are read and handled three times.
const PLAIN: Plan = Plan {
    rounds: 3,
    changes: Changes::Never,
    held: Held::Never,
};

/// The same, with changes.
const CHANGED: Plan = Plan {
    changes: Changes::Always,
    ..PLAIN
};

/// The same, with changes every other time.
const MIXED: Plan = Plan {
    changes: Changes::EveryOther,
    ..PLAIN
};

/// Ten thousand clients.
const MANY: Crowd = Crowd {
    manner: Manner::InOrder,
    lanes: 4,
    plans: &[(2_000, PLAIN), (3_000, CHANGED), (5_000, MIXED)],
};

/// Three hundred clients.
const SOME: Crowd = Crowd {
    plans: &[(100, PLAIN), (100, CHANGED), (100, MIXED)],
    ..MANY
};

const CROWDS: &[Crowd] = &[
    MANY,
    Crowd { lanes: 1, ..MANY },
    Crowd { lanes: 16, ..MANY },
    // A thread for each.
    Crowd { lanes: 0, ..SOME },
    // Fewer clients than lanes, and none.
    Crowd {
        plans: &[(3, MIXED)],
        ..MANY
    },
    Crowd {
        manner: Manner::Unheard,
        ..SOME
    },
    Crowd {
        manner: Manner::Thrice,
        ..SOME
    },
    Crowd {
        manner: Manner::Others,
        ..SOME
    },
    Crowd {
        manner: Manner::TheSame,
        ..SOME
    },
    Crowd {
        manner: Manner::All,
        ..SOME
    },
    Crowd {
        manner: Manner::OnlyFree,
        ..SOME
    },
    Crowd {
        manner: Manner::Unwritten,
        ..SOME
    },
    Crowd {
        manner: Manner::Nothing,
        ..SOME
    },
];

/// Each client is read and handled as often as it plans. The watch is stopped once, and the run ends.
#[test]
fn each_client_is_served(rt: HostRuntime) -> Result<(), Fail> {
    for (number, crowd) in CROWDS.iter().enumerate() {
        let ran = run(rt, rt.alloc(), *crowd)?;
        assert_eq!(rt; ran, wanted(*crowd), "{number}");
    }
    Ok(())
}
