//! Short levels as numbers.

ghost use Rattle.std.specs.Prelude.{◌≡◌, ◌≢◌, ◌≤◌, false, length, take, IsTrue};
ghost use Rattle.std.specs.declared.cmp.Ordering.TheVariants.{Equal, Less};
ghost use Rattle.rs_tree_bucket.specs.Keys.{IsKey, key_cmp, padded};

/// The most bytes of a short level.
pub(crate) const SHORT: usize = 14;

/// The bytes of a short level, and zeros behind them.
pub(crate) fn pad(level: &[u8]) -> [u8; SHORT]
    requires { length level.now ≤ 14 }
    ensures same { result ≡ padded 14 level.now }
    ensures start { take (length level.now) result ≡ level.now }
{
    let mut bytes = [0; SHORT];
    for i in 0..level.len() {
        bytes[i] = level[i];
    }
    bytes
}

/// A short level as a number, whose 16 bytes are those of the level, zeros behind them, and its length. Keys lie as the levels do.
#[derive(Clone, Copy)]
pub(crate) struct Key {
    number: u128,
}

impl Key {
    /// The key of so many of these bytes.
    pub(crate) fn new(bytes: &[u8; SHORT], length: u8) -> Key
        requires short { length ≤ 14 }
        requires padded { bytes.now ≡ padded 14 (take length bytes.now) }
        ensures { IsKey (take length bytes.now) result }
    {
        let first = u64::from_be_bytes([
            bytes[0], bytes[1], bytes[2], bytes[3], bytes[4], bytes[5], bytes[6], bytes[7],
        ]);
        let middle = u32::from_be_bytes([bytes[8], bytes[9], bytes[10], bytes[11]]);
        let last = u16::from_be_bytes([bytes[12], bytes[13]]);
        let behind = (u64::from(middle) << 32) + (u64::from(last) << 16) + u64::from(length);
        Key {
            number: (u128::from(first) << 64) + u128::from(behind),
        }
    }

    /// The key of a short level.
    pub(crate) fn of_level(level: &[u8]) -> Key
        requires { length level.now ≤ 14 }
        ensures { IsKey level.now result }
    {
        let mut number: u128 = 0;
        for byte in level {
            number = (number << 8) + u128::from(*byte);
        }
        let zeros = SHORT + 1 - level.len();
        let padded = number << (8 * zeros);
        Key {
            number: (padded << 8) + level.len() as u128,
        }
    }

    /// The level comes before that of the other key.
    pub(crate) fn is_before(self, other: Key) -> bool
        ensures before { IsTrue result → key_cmp self other ≡ Less }
        ensures from { result ≡ false → key_cmp self other ≢ Less }
    {
        self.number < other.number
    }

    /// The level is that of the other key.
    pub(crate) fn is_same(self, other: Key) -> bool
        ensures same { IsTrue result → key_cmp self other ≡ Equal }
        ensures other { result ≡ false → key_cmp self other ≢ Equal }
    {
        self.number == other.number
    }
}
