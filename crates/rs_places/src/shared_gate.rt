//! A gate over a line of its own.

ghost use Rattle.std.specs.Prelude.{◌≡◌, ◌<◌, ◌≤◌, ◌⊎◌, ◌∷◌, [], List, false, length, refl, Err, IfOk, OnOk, Some};
ghost use mathlib.Core.List.{IsPrefix};
ghost use Rattle.rs_intake_queue.specs.Changes.{AreOfLine};
ghost use Rattle.rs_intake_line.specs.Lines.{next_serial};
ghost use Rattle.rs_intake_queue.specs.Ends.{IsClosed};
ghost use Rattle.rs_message.specs.declared.entry.Entry.{Entry};
ghost use Rattle.rs_message.specs.declared.entry.TheConstants.{MAX_LINES};
ghost use Rattle.rs_message.specs.declared.fault.SubmitFault.TheVariants.{Strange};
ghost use Rattle.rs_message.specs.Messages.{is_sweep};
ghost use Rattle.rs_places_steps.specs.Shared.{HandsOn, Knows, operations_of};
ghost use Rattle.rs_places.specs.Gates.{IsOtherPending, handed_on};
ghost use Rattle.rs_session.specs.Gate.{Grows, Sends, SendsAtMost, Submits, TakesPending, Uses, entry_by};
ghost use Rattle.rs_store.specs.History.{IsLegal};

use crate::counting::{change_of, count_change, count_filter};
use crate::seats::{Reads, Seats};
use rs_intake_line::{Intake, LineEnd, LineName, SeatLine};
use rs_message::{Found, Operation, SubmitFault};
use rs_metrics::FilterOutcome;
use rs_places_steps::{LineGate, StoreGate};
use rs_session::Gate;
use rs_topic::TopicFilter;
use rs_version::{Seat, StoreName, Told, Version};
use std::alloc::AllocError;
use std::marker::Model;
use std::sync::{Arc, Wait};

/// A client's gate to a store that other clients use too. It stands for the list that it knows, which is legal, and for no other.
///
/// It may send the changes that it is told to expect at once, in one job. The outcome of each is told when its own submit comes.
///
/// It keeps the handle `rt`, by which changes wait for space in the queue, a submit for its receipt, and `hand_on` for the replies to what
/// was sent ahead. An answer to a filter waits for nobody, if the gate has a seat of its own. If it shares seats, and all are taken, the
/// answer waits until one is free, which takes as long as a count.
#[derive(Drop)]
pub struct SharedGate<N: LineName, R: Wait + Copy> {
    rt: R,
    intake: Arc<Intake<N>>,
    known: Told<N>,
    reads: Reads<N>,
    line: SeatLine<N>,
}

impl<N: LineName, R: Wait + Copy> Model for SharedGate<N, R> {
    ghost use Rattle.rs_store.specs.History.{IsLegal};
    ghost use Rattle.rs_places_steps.specs.Shared.{SharedValue};
    ghost use Rattle.rs_places.specs.Gates.{gate_of};

    ghost Value = { SharedValue };

    ghost view = { λ g. gate_of g.known g.line };

    ghost invariant = { λ g. IsLegal N.limit g.known };
}

/// Makes the token that of the longer list of the two.
fn learn<N: StoreName>(known: &mut Told<N>, told: Told<N>)
    ensures one { (known.new ≡ known.old) ⊎ (known.new ≡ told) }
    ensures own { IsPrefix known.old known.new }
    ensures told { IsPrefix told known.new }
    ensures legal { IsLegal N.limit known.new }
{
    if !known.reaches(&told) {
        *known = told;
    }
}

impl<N: LineName, R: Wait + Copy> SharedGate<N, R> {
    /// A gate with a seat of its own. It knows what the seat knows, and goes on with the line's place and serial, as if the line were handed
    /// on ([`hand_on`](LineGate::hand_on)). Any seat of the store will do: a seat has no place. It waits for the writer only if something
    /// is ahead of the line.
    pub fn new(rt: R, intake: Arc<Intake<N>>, seat: Seat<N>, line: SeatLine<N>) -> SharedGate<N, R>
        ensures gate { result ≡ handed_on seat line }
        ensures legal { IsLegal N.limit result.known }
    {
        let known = seat.told();
        SharedGate::over(rt, intake, known, Reads::Alone(seat), line)
    }

    /// A gate that reads by seats that other gates use too, and looks first at the one of the number `index`. It knows the token's list,
    /// and goes on with the line as [`new`](SharedGate::new) does.
    pub fn sharing(
        rt: R,
        intake: Arc<Intake<N>>,
        seats: Arc<Seats<N>>,
        index: usize,
        known: Told<N>,
        line: SeatLine<N>,
    ) -> SharedGate<N, R>
        ensures gate { result ≡ handed_on known line }
        ensures legal { IsLegal N.limit result.known }
    {
        let mut line = line;
        line.share();
        let reads = Reads::Among { seats, from: index };
        SharedGate::over(rt, intake, known, reads, line)
    }

    /// A gate that knows this list, reads so, and goes on with this line.
    fn over(
        rt: R,
        intake: Arc<Intake<N>>,
        known: Told<N>,
        reads: Reads<N>,
        line: SeatLine<N>,
    ) -> SharedGate<N, R>
        ensures gate { result ≡ handed_on known line }
        ensures legal { IsLegal N.limit result.known }
    {
        // For the proof: this call says that the known list is legal.
        let _version = known.version();
        let mut line = line;
        // If the writer is gone, no reply is left for a later submit.
        drop(line.hand_on(&rt));
        SharedGate {
            rt,
            intake,
            known,
            reads,
            line,
        }
    }

    /// The number of entries of the list that it knows.
    pub fn version(&self) -> u64
        ensures version { result ≡ length self.now.known }
        ensures legal { IsLegal N.limit self.now.known }
    {
        self.known.version()
    }

    /// The version that is published, which has all that was known. Its list is known from then on.
    fn read(&mut self) -> Result<Version<N>, AllocError>
        ensures longer { IsPrefix self.old.known self.new.known }
        ensures legal { IsLegal N.limit self.new.known }
        ensures version { IfOk result (λ version. version ≡ self.new.known) }
        ensures same { (self.new.mark ≡ self.old.mark) × (self.new.pending ≡ self.old.pending) }
    {
        let version = self.reads.read(&self.rt, self.known.again())?;
        self.known = version.told();
        Ok(version)
    }

    /// Hands the change to the writer and waits for the receipt, as [`submit`](Gate::submit) says. It is not counted.
    fn hand_over(&mut self, operation: Operation) -> Result<(), SubmitFault>
        requires { is_sweep operation ≡ false }
        ensures list { Grows (Knows N.limit self.old) (Knows N.limit self.new) (Submits operation self.old.mark self.new.mark result) }
        ensures mark { Uses self.old.mark self.new.mark }
        ensures serial { (self.new.mark.serial ≡ next_serial self.old.mark.serial)
            ⊎ ((result ≡ Err Strange) × (self.new.mark ≡ self.old.mark) × IsOtherPending self.old.pending operation) }
        ensures sent { SendsAtMost self.old.mark.sent (entry_by operation self.new.mark) self.new.mark.sent }
        ensures last { OnOk result (Sends self.old.mark.sent (entry_by operation self.new.mark ∷ []) self.new.mark.sent) }
        ensures pending { TakesPending operation self.old.mark self.new.mark result self.old.pending self.new.pending }
    {
        // For the proof: this call says that the serial is a u64.
        let _serial = self.line.serial();
        let receipt = self.intake.submit(&self.rt, &mut self.line, operation)?;
        learn(&mut self.known, receipt.told());
        Ok(())
    }
}

impl<N: LineName, R: Wait + Copy> Gate for SharedGate<N, R> {
    ghost use Rattle.rs_intake_queue.specs.declared.job.TheConstants.{MAX_CHANGES};
    ghost use Rattle.rs_places_steps.specs.Shared.{Knows};

    ghost stands = { Knows N.limit };

    ghost mark = { λ gate. gate.mark };

    ghost pending = { λ gate. gate.pending };

    ghost most = { MAX_CHANGES };

    /// As many as go in one job, or fewer while other clients wait for the replies to their changes.
    fn most_expected(&self) -> usize {
        self.intake.most_ahead()
    }

    /// While the writer's last jobs were all of this line, and fewer than two of its jobs are ahead.
    fn runs_ahead(&self) -> bool {
        self.line.runs_ahead()
    }

    /// The line sends the changes at once, behind what is ahead of it, so that the writer works on them while the client's thread goes on. The
    /// packet of each lies whole in the buffer, so its change is submitted, unless the session ends first. No clause says so. A change that
    /// is not submitted may be an entry, like any publication that was not acknowledged.
    fn expect(&mut self, changes: Vec<Operation>) {
        self.intake.note_job(&changes);
        self.line.expect(&self.rt, changes);
    }

    /// How many are ahead of the line.
    fn pending_count(&self) -> usize {
        self.line.ahead_count()
    }

    /// Hands the change to the writer and waits for the receipt. The list of its token is known before `Ok` is answered. Beside what each
    /// gate promises, the line sent at most this change, under the next serial, and at `Ok` it did; or another change was sent ahead,
    /// and then nothing is done, and the answer is `Strange`.
    fn submit(&mut self, operation: Operation) -> Result<(), SubmitFault>
        requires { is_sweep operation ≡ false }
        ensures list { Grows (Knows N.limit self.old) (Knows N.limit self.new) (Submits operation self.old.mark self.new.mark result) }
        ensures mark { Uses self.old.mark self.new.mark }
        ensures serial { (self.new.mark.serial ≡ next_serial self.old.mark.serial)
            ⊎ ((result ≡ Err Strange) × (self.new.mark ≡ self.old.mark) × IsOtherPending self.old.pending operation) }
        ensures sent { SendsAtMost self.old.mark.sent (entry_by operation self.new.mark) self.new.mark.sent }
        ensures last { OnOk result (Sends self.old.mark.sent (entry_by operation self.new.mark ∷ []) self.new.mark.sent) }
        ensures pending { TakesPending operation self.old.mark self.new.mark result self.old.pending self.new.pending }
    {
        let change = change_of(&operation);
        let answer = self.hand_over(operation);
        count_change(self.line.meter(), change, &answer);
        answer
    }

    /// Answers from the published version, if there are at most `room` messages.
    fn answer_within(
        &mut self,
        filter: &TopicFilter,
        now: u64,
        room: usize,
    ) -> Result<Option<Vec<Found>>, AllocError> {
        let version = match self.read() {
            Ok(version) => version,
            Err(error) => {
                self.line
                    .meter()
                    .count_filter(FilterOutcome::OutOfMemory, 0);
                return Err(error);
            }
        };
        let answer = version.answer_within(filter, now, room);
        count_filter(self.line.meter(), &answer);
        answer
    }
}

impl<N: LineName, R: Wait + Copy> StoreGate for SharedGate<N, R> {
    type Name = N;

    ghost shared = { λ gate. gate };

    /// The number of the line, 1 to how many there are.
    fn place(&self) -> u16
        ensures place { result ≡ self.now.mark.place }
        ensures some { 0 < result }
        ensures there { result ≤ N.places }
        ensures small { result ≤ MAX_LINES }
    {
        self.line.place()
    }

    fn told(&self) -> Told<N> {
        self.known.again()
    }

    ghost knows = { λ gate list known. known };

    ghost known = { λ gate list known. known };

    ghost same_mark = { λ gate. refl };

    ghost same_pending = { λ gate. refl };

    ghost same_most = { refl };
}

impl<N: LineName, R: Wait + Copy> LineGate for SharedGate<N, R> {
    type End = LineEnd<N>;

    ghost closed = { λ end. end };

    fn hand_on(&mut self) {
        // If the writer is gone, no reply is left for a later submit.
        drop(self.line.hand_on(&self.rt));
    }

    fn close(self) -> LineEnd<N> {
        let SharedGate {
            rt,
            intake: _intake,
            known: _known,
            reads: _reads,
            line,
        } = self;
        line.close(&rt)
    }
}
