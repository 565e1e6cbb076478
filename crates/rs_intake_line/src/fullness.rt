//! What the store lacks, for whoever wants to tell of it.

ghost use Rattle.std.specs.Prelude.{◌≡◌};
ghost use Rattle.rs_intake_line.specs.Fullness.{is_clear, lack_after, lack_once, last_after, makes_room};
ghost use Rattle.rs_intake_line.specs.declared.fullness.Lack.TheVariants.{Nothing};

use rs_message::Operation;
use rs_version::{PutFault, Receipt, StoreName};
use std::sync::Arc;
use std::sync::atomic::{AtomicU8, Ordering};

/// What the store lacks, as far as the outcomes of changes tell.
#[derive(Clone, Copy, Debug, PartialEq, Eq)]
pub enum Lack {
    /// Nothing.
    Nothing,
    /// Topics: a change was refused because as many hold a message as may. Since then no topic was cleared, no Sweep made space and no
    /// change was held.
    Topics,
    /// Memory: a change was refused for want of it. Since then none was accepted or held.
    Memory,
}

/// What the store lacks. The writer keeps it up. Whoever has it may look at any time, and waits for nobody.
#[derive(Drop)]
pub struct Fullness {
    lack: AtomicU8,
}

impl Fullness {
    /// Nothing was refused.
    pub fn new() -> Fullness {
        Fullness {
            lack: AtomicU8::new(Lack::Nothing as u8),
        }
    }

    /// What the store lacks. A topic that was cleared need not have held a message, and a change that was accepted need not have given
    /// anything back, so if it is nothing, the next change may be refused all the same.
    pub fn lack(&self) -> Lack {
        lack_of(self.lack.load(Ordering::SeqCst))
    }

    /// Shows what the store lacks from now on, and gives what was shown before.
    pub fn swap(&self, lack: Lack) -> Lack {
        lack_of(self.lack.swap(lack as u8, Ordering::SeqCst))
    }
}

/// What is shown by its number.
fn lack_of(number: u8) -> Lack {
    if number == Lack::Topics as u8 {
        Lack::Topics
    } else if number == Lack::Memory as u8 {
        Lack::Memory
    } else {
        Lack::Nothing
    }
}

/// Whether the entry of the receipt cleared a topic, or came behind a Sweep or an entry that was held. `last` is the number of the entry
/// before.
fn makes_room<N: StoreName>(last: u64, receipt: &Receipt<N>) -> bool
    ensures { result ≡ makes_room last receipt.now }
{
    is_clear(&receipt.entry().operation) || receipt.number() > last.saturating_add(1)
}

fn is_clear(operation: &Operation) -> bool
    ensures { result ≡ is_clear operation.now }
{
    match operation {
        Operation::Clear(_) => true,
        Operation::Set(_) | Operation::Sweep(_) => false,
    }
}

/// What the store lacks once a change was accepted, which may have made room for a topic.
fn lack_once(was: Lack, has_room: bool) -> Lack
    ensures { result ≡ lack_once was has_room }
{
    match was {
        Lack::Topics if !has_room => Lack::Topics,
        Lack::Nothing | Lack::Topics | Lack::Memory => Lack::Nothing,
    }
}

/// What the outcomes of changes say of it. Contracts see what they say, and not what is shown.
#[derive(Drop)]
pub struct FullnessWriter {
    shown: Arc<Fullness>,
    lack: Lack,
    // The number of the last entry for which there was a receipt.
    last: u64,
}

impl FullnessWriter {
    /// It lacked nothing, and nothing was published.
    pub fn new(shown: Arc<Fullness>) -> FullnessWriter
        ensures { (result.lack ≡ Nothing) × (result.last ≡ 0) }
    {
        FullnessWriter {
            shown,
            lack: Lack::Nothing,
            last: 0,
        }
    }

    /// After this outcome.
    pub(crate) fn note<N: StoreName>(&mut self, outcome: &Result<Receipt<N>, PutFault>)
        ensures lack { self.new.lack ≡ lack_after self.old.lack self.old.last outcome.now }
        ensures last { self.new.last ≡ last_after self.old.last outcome.now }
    {
        let lack = match outcome {
            Ok(receipt) => lack_once(self.lack, makes_room(self.last, receipt)),
            Err(PutFault::Full) => Lack::Topics,
            Err(PutFault::NoMemory) => Lack::Memory,
            // It is taken, and may clear a topic.
            Err(PutFault::Held) => Lack::Nothing,
            Err(PutFault::Stale) => self.lack,
        };
        if let Ok(receipt) = outcome {
            self.last = receipt.number();
        }
        if lack != self.lack {
            self.lack = lack;
            let _before = self.shown.swap(lack);
        }
    }
}
