//! The limit of topics, and the codes and texts of refusals.

use kit_test::is_shown;
use rs_store::{MAX_TOPICS, Refusal, TopicLimit, content_law};
use std::test::Fail;

#[test]
fn a_limit_is_1_to_65_536(rt: HostRuntime) -> Result<(), Fail> {
    assert!(rt; TopicLimit::new(0).is_none());
    assert!(rt; TopicLimit::new(MAX_TOPICS + 1).is_none());
    assert!(rt; TopicLimit::new(1).ok_or("the least")?.get() == 1);
    assert!(rt; TopicLimit::new(MAX_TOPICS).ok_or("the greatest")?.get() == 65_536);
    content_law();
    Ok(())
}

/// Each refusal, its number and its text.
const REFUSALS: &[(Refusal, u8, &str)] = &[
    (
        Refusal::Full,
        20,
        "the store holds as many topics as it may, or has no number left; clear a topic or raise the limit",
    ),
    (
        Refusal::Stale,
        21,
        "the serial is not above the last one of its place; number the entries of a place in rising order",
    ),
    (
        Refusal::NoMemory,
        22,
        "memory was refused, and nothing was stored; free memory and try again",
    ),
];

#[test]
fn refusals_have_codes_and_texts(rt: HostRuntime) -> Result<(), Fail> {
    for (refusal, code, text) in REFUSALS {
        assert!(rt; refusal.code() == *code);
        assert!(rt; is_shown(rt.alloc(), refusal, text));
    }
    Ok(())
}
