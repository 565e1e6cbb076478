//! A chain of levels as one text, which has a slash before each level.

ghost use Rattle.std.specs.Prelude.{◌≡◌, ◌∷◌, [], ◌++◌, ◌≤◌, IfOk, IfSome, OnOk};
ghost use Rattle.std.specs.Option.{option_map};
ghost use Rattle.rs_topic.specs.Topics.{levels};
ghost use Rattle.rs_tree_bucket.specs.Chains.{behind, past};
ghost use Rattle.rs_topic.specs.Rests.{levels_from};

use rs_topic::{is_all_below, is_plus, level_at};
use std::alloc::{AllocError, Global};

/// The byte behind the levels of a chain, if the rest of a topic begins with them.
pub fn skip_chain(chain: &[u8], topic: &[u8], mut at: usize) -> Option<usize>
    ensures value { option_map (λ i. levels_from i topic.now) result ≡ behind (levels_from 1 chain.now) (levels_from at topic.now) }
    ensures further { IfSome result (λ i. at ≤ i) }
{
    let mut from = 1;
    while let Some((level, next)) = level_at(chain, from) {
        let Some((own, rest)) = level_at(topic, at) else {
            return None;
        };
        if level != own {
            return None;
        }
        from = next;
        at = rest;
    }
    Some(at)
}

/// The byte at which the rest of a filter goes on below a chain, if it fits anything there. A last `#` goes on as it is.
pub fn match_chain(chain: &[u8], filter: &[u8], mut at: usize) -> Option<usize>
    ensures { option_map (λ i. levels_from i filter.now) result ≡ past (levels_from 1 chain.now) (levels_from at filter.now) }
{
    let mut from = 1;
    while let Some((level, next)) = level_at(chain, from) {
        let Some((wanted, rest)) = level_at(filter, at) else {
            return None;
        };
        if is_all_below(wanted, filter, rest) {
            return Some(at);
        }
        if !is_plus(wanted) && wanted != level {
            return None;
        }
        from = next;
        at = rest;
    }
    Some(at)
}

/// Appends a level.
fn push_level(chain: &mut Vec<u8>, level: &[u8]) -> Result<(), AllocError>
    requires { levels level.now ≡ level.now ∷ [] }
    ensures { OnOk result (levels_from 1 chain.new.items ≡ levels_from 1 chain.old.items ++ level.now ∷ []) }
{
    chain.push(b'/')?;
    chain.extend_from_slice(level)?;
    Ok(())
}

/// Appends the levels of a text from a byte on.
fn push_levels(chain: &mut Vec<u8>, text: &[u8], mut at: usize) -> Result<(), AllocError>
    ensures { OnOk result (levels_from 1 chain.new.items ≡ levels_from 1 chain.old.items ++ levels_from at text.now) }
{
    while let Some((level, next)) = level_at(text, at) {
        push_level(chain, level)?;
        at = next;
    }
    Ok(())
}

/// A chain, a level and another chain as one chain.
pub fn join_chains(
    alloc: Global,
    upper: &[u8],
    level: &[u8],
    lower: &[u8],
) -> Result<Vec<u8>, AllocError>
    requires { levels level.now ≡ level.now ∷ [] }
    ensures { IfOk result (λ chain. levels_from 1 chain.items ≡ levels_from 1 upper.now ++ level.now ∷ levels_from 1 lower.now) }
{
    let mut chain = Vec::from_slice(alloc, upper)?;
    push_level(&mut chain, level)?;
    push_levels(&mut chain, lower, 1)?;
    chain.shrink_to_fit();
    Ok(chain)
}

/// The levels that the rests of two texts share.
#[derive(Drop)]
pub struct SharedLevels {
    pub chain: Vec<u8>,
    /// Where the first text goes on.
    pub at: usize,
    /// Where the other one goes on.
    pub from: usize,
}

/// The levels that the rests of two texts share.
pub fn shared_levels(
    alloc: Global,
    text: &[u8],
    mut at: usize,
    other: &[u8],
    mut from: usize,
) -> Result<SharedLevels, AllocError>
    ensures text { IfOk result (λ s. levels_from at text.now ≡ levels_from 1 s.chain.items ++ levels_from s.at text.now) }
    ensures other { IfOk result (λ s. levels_from from other.now ≡ levels_from 1 s.chain.items ++ levels_from s.from other.now) }
    ensures further { IfOk result (λ s. from ≤ s.from) }
{
    let mut chain = Vec::new(alloc);
    while let Some((level, next)) = level_at(text, at) {
        let Some((own, rest)) = level_at(other, from) else {
            break;
        };
        if level != own {
            break;
        }
        push_level(&mut chain, level)?;
        at = next;
        from = rest;
    }
    chain.shrink_to_fit();
    Ok(SharedLevels { chain, at, from })
}
