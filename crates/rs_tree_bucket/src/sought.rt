//! A level that is looked for among labels.

ghost use Rattle.std.specs.Prelude.{◌≡◌, ◌≢◌, false, IsTrue};
ghost use Rattle.std.specs.Cmp.Lexicographic.{slice_cmp};
ghost use Rattle.std.specs.Ordering.{nat_cmp};
ghost use Rattle.std.specs.declared.cmp.Ordering.TheVariants.{Less};

use crate::key::{Key, SHORT};
use crate::label::Label;
use std::cmp::Ordering;
use std::marker::Model;

/// A level that is compared with many labels. Short levels are compared as numbers. Contracts see its bytes.
#[derive(Drop)]
pub struct Sought<'a> {
    level: &'a [u8],
    key: Option<Key>,
}

impl<'a> Model for Sought<'a> {
    ghost use Rattle.std.specs.Prelude.{List, ℕ};
    ghost use Rattle.rs_tree_bucket.specs.Labels.{IsKeyIfAny};

    ghost Value = { List ℕ };

    ghost view = { λ s. s.level.now };

    ghost invariant = { λ s. IsKeyIfAny s.level.now s.key };
}

impl<'a> Sought<'a> {
    pub fn new(level: &'a [u8]) -> Sought<'a>
        ensures { result ≡ level.now }
    {
        if level.len() > SHORT {
            return Sought { level, key: None };
        }
        let key = Key::of_level(level);
        Sought {
            level,
            key: Some(key),
        }
    }

    /// The level comes before that of a label.
    pub fn is_before(&self, label: &Label) -> bool
        ensures before { IsTrue result → slice_cmp nat_cmp self.now label.now ≡ Less }
        ensures from { result ≡ false → slice_cmp nat_cmp self.now label.now ≢ Less }
    {
        if let (Some(own), Some(other)) = (self.key, label.key()) {
            return own.is_before(other);
        }
        match self.level.cmp(label.as_slice()) {
            Ordering::Less => true,
            _ => false,
        }
    }

    /// The level is that of a label.
    pub fn is_same(&self, label: &Label) -> bool
        ensures same { IsTrue result → self.now ≡ label.now }
        ensures other { result ≡ false → self.now ≢ label.now }
    {
        if let (Some(own), Some(other)) = (self.key, label.key()) {
            return own.is_same(other);
        }
        self.level == label.as_slice()
    }
}
