//! How much one read may give.

ghost use Rattle.std.specs.Prelude.{◌<◌, ◌≤◌};
ghost use Rattle.rs_server.specs.declared.read_size.TheConstants.{MAX_READ, MIN_READ};

/// How many bytes a read asks for, of a client that sends little.
pub(crate) const MIN_READ: usize = 1024;

/// How many bytes one read may ask for.
const MAX_READ: usize = 32 * 1024;

/// How many bytes the buffer has room for when a read begins: few for a client that sends little, and more the longer its reads are full.
#[derive(Drop)]
pub(crate) struct ReadSize {
    bytes: usize,
    ghost not_less: { MIN_READ ≤ bytes },
    ghost not_more: { bytes ≤ MAX_READ },
}

impl ReadSize {
    /// Of a client that sent nothing yet.
    pub(crate) fn new() -> ReadSize {
        ReadSize { bytes: MIN_READ }
    }

    /// How many bytes to ask for, if `len` bytes are buffered of a packet that takes at least `needed`.
    pub(crate) fn bytes_to_ask(&self, len: usize, needed: usize) -> usize
        ensures some { 0 < result }
        ensures few { result ≤ MAX_READ }
    {
        let missing = self.bytes.max(needed).saturating_sub(len);
        missing.clamp(1, MAX_READ)
    }

    /// Takes note that a read behind `len` bytes was asked for `asked` bytes, and gave `got`. The rest of a packet that began before is
    /// no sign of a client that sends little.
    pub(crate) fn adapt(&mut self, len: usize, asked: usize, got: usize) {
        if got >= asked {
            self.bytes = (2 * self.bytes).min(MAX_READ);
        } else if len.saturating_add(got) < self.bytes / 4 {
            self.bytes = MIN_READ;
        }
    }
}
