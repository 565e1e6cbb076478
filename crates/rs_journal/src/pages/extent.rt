//! Which pages have a stream.

ghost use Rattle.std.specs.Prelude.{◌≡◌, ◌+◌, IfSome};

/// So many pages behind page 1, which are numbered from the first one on.
#[derive(Clone, Copy, Debug)]
pub(crate) struct Extent {
    pub first: u64,
    pub count: u32,
}

impl Extent {
    /// The number behind those of its pages.
    pub fn next_number(self) -> Option<u64>
        ensures { IfSome result (λ n. n ≡ self.first + self.count) }
    {
        self.first.checked_add(u64::from(self.count))
    }

    /// The place of the page behind its pages.
    pub fn next_page(self) -> Option<u32>
        ensures { IfSome result (λ n. n ≡ self.count + 2) }
    {
        self.count.checked_add(2)
    }
}
