//! The order of topic names, in which retained messages are replayed.

ghost use Rattle.std.specs.Prelude.{◌≡◌};
ghost use Rattle.rs_topic.specs.Order.{differing_cmp, path_cmp, topic_cmp};
ghost use Rattle.rs_topic.specs.Rests.{levels_from};

use std::cmp::Ordering;

/// The order of two texts whose bytes first differ in these: a slash ends a level, and so comes first.
fn compare_differing(x: u8, y: u8) -> Ordering
    ensures { result ≡ differing_cmp x y }
{
    if x == b'/' {
        Ordering::Less
    } else if y == b'/' {
        Ordering::Greater
    } else {
        x.cmp(&y)
    }
}

/// Compares level by level, each level by its bytes, a list of levels before its extensions. One walk along both texts is enough.
#[tactic(auto, using(crate::proofs::FirstDifference::differ_at, crate::proofs::FirstDifference::differ_nowhere))]
pub(crate) fn compare(a: &[u8], b: &[u8]) -> Ordering
    ensures { result ≡ topic_cmp a.now b.now }
{
    for i in 0..a.len().min(b.len()) {
        if a[i] != b[i] {
            return compare_differing(a[i], b[i]);
        }
    }
    a.len().cmp(&b.len())
}

/// Compares the levels of a text from the byte `at` on with those of another from the byte `from` on.
#[tactic(auto, using(crate::proofs::Rests::both_within, crate::proofs::Rests::one_within, crate::proofs::Rests::other_within, crate::proofs::Rests::none_within))]
pub fn compare_rests(text: &[u8], at: usize, other: &[u8], from: usize) -> Ordering
    ensures { result ≡ path_cmp (levels_from at text.now) (levels_from from other.now) }
{
    if at > text.len() {
        if from > other.len() {
            return Ordering::Equal;
        }
        return Ordering::Less;
    }
    if from > other.len() {
        return Ordering::Greater;
    }
    let (_, rest) = text.split_at(at);
    let (_, others) = other.split_at(from);
    compare(rest, others)
}
