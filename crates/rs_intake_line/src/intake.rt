//! Submitting to the writer.

ghost use Rattle.std.specs.Prelude.{◌≡◌, ◌≢◌, ◌≤◌, ◌+◌, ◌++◌, ◌∷◌, ◌⊎◌, [], false, Err, IfErr, IfOk};
ghost use Rattle.rs_message.specs.Messages.{is_sweep};
ghost use Rattle.rs_message.specs.declared.fault.SubmitFault.TheVariants.{Closed, Strange};
ghost use Rattle.rs_store.specs.History.{IsLegal};
ghost use Rattle.rs_version.specs.Receipts.{StandsAt};
ghost use Rattle.rs_intake_queue.specs.Changes.{entry_at};
ghost use Rattle.rs_intake_queue.specs.declared.job.TheConstants.{MAX_CHANGES};
ghost use Rattle.rs_intake_line.specs.Lines.{AddsAtMost, IsAheadAfter, IsOther, next_serial};
ghost use Rattle.rs_intake_line.specs.Refusals.{IsFaultOfReply, IsRefused, fault_for};

use crate::line::SeatLine;
use crate::name::LineName;
use crate::reply::WriterReply;
use crate::sizes::JobSizes;
use rs_message::{Entry, Operation, SubmitFault, is_same};
use rs_version::{PutFault, Receipt};
use std::marker::PhantomData;
use std::sync::Wait;

/// The way to the writer, for all lines. It holds no sender, which would keep the queue open when all lines are gone.
#[derive(Drop)]
pub struct Intake<N: LineName> {
    sizes: JobSizes,
    of: PhantomData<N>,
}

/// The fault that a line answers for the writer's refusal.
fn submit_fault_of(fault: PutFault) -> SubmitFault
    ensures fault { result ≡ fault_for fault }
    ensures open { result ≢ Closed }
{
    match fault {
        PutFault::Full => SubmitFault::Full,
        PutFault::NoMemory => SubmitFault::NoMemory,
        PutFault::Held => SubmitFault::Open,
        PutFault::Stale => SubmitFault::Strange,
    }
}

/// The receipt for this entry, or why the reply has none ([`submit`](Intake::submit) has the faults).
pub fn read_reply<N: LineName>(
    reply: WriterReply<N>,
    entry: &Entry,
) -> Result<Receipt<N>, SubmitFault>
    ensures entry { IfOk result (λ r. r.entry ≡ entry.now) }
    ensures stands { IfOk result (λ r. StandsAt r.entry r.number r.told) }
    ensures legal { IfOk result (λ r. IsLegal N.limit r.told) }
    ensures open { IfErr result (λ f. f ≢ Closed) }
    ensures came { IfOk result (λ r. reply ≡ record { origin = entry.now.origin; outcome = Ok r }) }
    ensures refused { IfErr result (λ f. IsFaultOfReply entry.now reply f) }
{
    let WriterReply { origin, outcome } = reply;
    if origin != entry.origin {
        return Err(SubmitFault::Strange);
    }
    let receipt = match outcome {
        Ok(receipt) => receipt,
        Err(fault) => return Err(submit_fault_of(fault)),
    };
    // For the proof: the token's call says that its list is legal.
    let _told = receipt.told();
    if is_same(receipt.entry(), entry) {
        Ok(receipt)
    } else {
        Err(SubmitFault::Strange)
    }
}

impl<N: LineName> Intake<N> {
    /// The way to the writer of this name.
    pub fn new() -> Intake<N> {
        Intake {
            sizes: JobSizes::new(),
            of: PhantomData,
        }
    }

    /// How many changes a line should have ahead at most ([`expect`](SeatLine::expect)): all that it may, or fewer while other clients wait for
    /// the replies to theirs.
    pub fn most_ahead(&self) -> usize
        ensures { result ≤ MAX_CHANGES }
    {
        self.sizes.most()
    }

    /// Says that a line sends these changes as a job, for those that ask [`most_ahead`](Intake::most_ahead).
    pub fn note_job(&self, changes: &Vec<Operation>) {
        self.sizes.note_job(changes);
    }

    /// Hands the operation, which is no Sweep, to the writer under the line's next serial, and waits for the receipt. The serial is
    /// used whatever is answered, unless there is no further one. The writer may make a Sweep first, so that there is space. The
    /// contract also says which reply came (`heard`), if one came. If the send or the receive failed, the line keeps its [`Gone`](rs_intake_queue::Gone).
    ///
    /// If the operation is the first that was sent ahead ([`expect`](SeatLine::expect)), nothing is sent, and the reply is the one to its
    /// entry. If something else is, nothing is done, and no serial is used.
    ///
    /// # Errors
    ///
    /// - [`Full`](SubmitFault::Full), [`NoMemory`](SubmitFault::NoMemory): no entry of the operation was made. A Sweep may have been.
    /// - [`Open`](SubmitFault::Open): no receipt came. The operation may become an entry, at most once.
    /// - [`Strange`](SubmitFault::Strange): what came back is not for this operation, or says that its serial is stale; or something else
    ///   was sent ahead.
    /// - [`Closed`](SubmitFault::Closed): the writer takes no more; the queue did not take the operation. No entry of it was made.
    pub fn submit<R: Wait>(
        &self,
        rt: &R,
        line: &mut SeatLine<N>,
        operation: Operation,
    ) -> Result<Receipt<N>, SubmitFault>
        requires { is_sweep operation ≡ false }
        ensures place { line.new.place ≡ line.old.place }
        ensures serial { (line.new.serial ≡ next_serial line.old.serial) ⊎ IsOther line.old.ahead operation }
        ensures other { IsOther line.old.ahead operation → (result ≡ Err Strange) × (line.new.serial ≡ line.old.serial)
            × (line.new.sent ≡ line.old.sent) }
        ensures sent { AddsAtMost line.old.sent (entry_at line.old.place line.new.serial operation) line.new.sent }
        ensures refused { IfErr result (λ f. IsRefused line.old line.new (entry_at line.old.place line.new.serial operation) f) }
        ensures closed { IfErr result (λ f. f ≡ Closed → line.new.sent ≡ line.old.sent) }
        ensures entry { IfOk result (λ r. r.entry ≡ entry_at line.old.place line.new.serial operation) }
        ensures above { IfOk result (λ r. line.new.serial ≡ line.old.serial + 1) }
        ensures last { IfOk result (λ r. line.new.sent ≡ line.old.sent ++ r.entry ∷ []) }
        ensures heard { IfOk result (λ r. line.new.heard ≡ line.old.heard ++ record { origin = r.entry.origin; outcome = Ok r } ∷ []) }
        ensures stands { IfOk result (λ r. StandsAt r.entry r.number r.told) }
        ensures legal { IfOk result (λ r. IsLegal N.limit r.told) }
        ensures ahead { IsAheadAfter line.old.ahead operation line.new.ahead }
    {
        self.sizes.note_submit(line.ahead_count(), &operation);
        let entry = line.send(rt, operation)?;
        match line.receive(rt) {
            Some(reply) => read_reply(reply, &entry),
            // Refused: the reply. The receive has failed.
            None => Err(SubmitFault::Open),
        }
    }
}
