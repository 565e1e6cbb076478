//! The lines of the clients.

ghost use Rattle.std.specs.Prelude.{◌≡◌, ◌≢◌, ◌+◌, ◌-◌, ◌<◌, ◌≤◌, ◌^◌, ◌∷◌, ◌++◌, ◌⊎◌, [], List, All, length, true, false, IfErr, IfOk, IfSome, Decides, MatchBool, MatchOption, MatchResult, Err, None, Some};
ghost use Rattle.crossbeam_channel.specs.Claims.{view as known_by};
ghost use Rattle.crossbeam_channel.specs.Ends.{sends_on};
ghost use Rattle.rs_message.specs.Messages.{is_sweep};
ghost use Rattle.rs_message.specs.declared.entry.Entry.{Entry};
ghost use Rattle.rs_message.specs.declared.entry.Operation.{Operation};
ghost use Rattle.rs_message.specs.declared.entry.TheConstants.{MAX_LINES};
ghost use Rattle.rs_message.specs.declared.fault.SubmitFault.TheVariants as submit;
ghost use Rattle.rs_store.specs.History.{last_serial};
ghost use Rattle.rs_intake_queue.specs.Changes.{AreNext, AreOf, AreOfLine, entry_at, numbered};
ghost use Rattle.rs_intake_line.specs.Done.{ReplyValue};
ghost use Rattle.rs_intake_line.specs.Names.{IsQueue, IsIn};
ghost use Rattle.rs_intake_line.specs.Lines.{IsAheadAfter, IsOther, next_serial};
ghost use Rattle.rs_intake_queue.specs.Ends.{IsClosed};
ghost use Rattle.rs_intake_queue.specs.QueueRule.{AreAbove};
ghost use Rattle.rs_intake_line.specs.Refusals.{IsUnsent};
ghost use Rattle.rs_intake_queue.specs.declared.job.TheConstants.{MAX_CHANGES};
ghost use Rattle.rs_intake_queue.specs.declared.waiting.Gone.{Gone};

use crate::announced::{Ahead, announce};
use crate::name::LineName;
use crate::reply::{ReplyReceiver, WriterReply};
use crossbeam_channel::Pass;
use rs_intake_queue::steps::send;
use rs_intake_queue::{Changes, Gone, Job, JobSender, MAX_CHANGES, PassView, prepare_one};
use rs_message::{Entry, Operation, Origin, SubmitFault, is_same};
use rs_metrics::Meter;
use std::alloc::Global;
use std::marker::{Model, PhantomData};
use std::sync::Wait;

/// The sending half of a line that was not closed: its place, and what the queue took from it.
#[derive(Drop)]
pub struct LineSender<N: LineName> {
    place: u16,
    sent: u64,
    sender: JobSender,
    pass: Pass<Job, PassView>,
    meter: Meter,
    of: PhantomData<N>,
}

impl<N: LineName> Model for LineSender<N> {
    ghost use Rattle.std.specs.Prelude.{◌≡◌, []};
    ghost use Rattle.crossbeam_channel.specs.Claims.{view as known_by};
    ghost use Rattle.crossbeam_channel.specs.Ends.{sends_on};
    ghost use Rattle.rs_intake_queue.specs.Changes.{AreOfLine};
    ghost use Rattle.rs_intake_line.specs.Lines.{IsLine, LineSenderValue};

    ghost Value = { LineSenderValue };

    ghost view = { λ l. record { place = l.place; sent = (known_by l.pass).entries } };

    ghost invariant = { λ l. IsLine N.queue N.places (sends_on l.sender) l.pass l.place l.sent × ((known_by l.pass).ends ≡ [])
        × AreOfLine l.place (known_by l.pass).entries };
}

impl<N: LineName> LineSender<N> {
    fn place(&self) -> u16
        ensures place { result ≡ self.now.place }
        ensures some { 0 < result }
        ensures there { result ≤ N.places }
        ensures small { result ≤ MAX_LINES }
    {
        self.place
    }

    /// A line that sent nothing, by its sender and its pass. `meter` counts what it sends.
    pub fn new(
        place: u16,
        sender: JobSender,
        pass: Pass<Job, PassView>,
        meter: Meter,
    ) -> LineSender<N>
        requires queue { IsQueue N.queue (sends_on sender) × IsIn N.queue pass }
        requires new { ((known_by pass).sends ≡ true) × ((known_by pass).takes ≡ false) × ((known_by pass).from ≡ place)
            × ((known_by pass).entries ≡ []) × ((known_by pass).ends ≡ []) }
        requires place { (0 < place) × (place ≤ N.places) × (N.places ≤ MAX_LINES) }
        ensures { (result.place ≡ place) × (result.sent ≡ []) }
    {
        LineSender {
            place,
            sent: 0,
            sender,
            pass,
            meter,
            of: PhantomData,
        }
    }

    /// Sends the changes, as one job. [`Gone`] if the queue did not take it.
    fn send_changes<R: Wait>(&mut self, rt: &R, changes: Changes) -> Result<(), Gone>
        requires place { AreOf self.old.place changes }
        requires above { AreAbove self.old.sent changes }
        requires fits { length self.old.sent + length changes < 2 ^ 64 }
        ensures place { self.new.place ≡ self.old.place }
        ensures sent { MatchResult result (λ _. self.new.sent ≡ self.old.sent ++ changes) (λ _. self.new.sent ≡ self.old.sent) }
    {
        let count = changes.len() as u64;
        // Before, so that the writer takes no change that was not counted.
        self.meter.add_sent(count);
        match send(rt, &self.sender, &mut self.pass, Job::Put(changes)) {
            Ok(()) => {
                self.sent += count;
                Ok(())
            }
            Err(gone) => {
                self.meter.take_back_sent(count);
                Err(gone)
            }
        }
    }

    /// Sends the End, which tells the writer that the line sends nothing more.
    fn finish<R: Wait>(self, rt: &R) -> LineEnd<N>
        ensures { (result.place ≡ self.place) × (result.sent ≡ self.sent) }
    {
        let LineSender {
            place,
            sent,
            sender,
            mut pass,
            meter: _meter,
            of,
        } = self;
        let gone = match send(rt, &sender, &mut pass, Job::End(place)) {
            Ok(()) => None,
            Err(gone) => Some(gone),
        };
        LineEnd {
            place,
            sent,
            gone,
            sender,
            pass,
            of,
        }
    }
}

/// What is left of a line: its place, and what the queue took from it. Contracts see these entries, and the End that the queue took
/// behind them. If it took none, the send of the End has failed, and the line's end keeps its [`Gone`].
#[derive(Drop)]
pub struct LineEnd<N: LineName> {
    place: u16,
    sent: u64,
    gone: Option<Gone>,
    // By it `settle` reads the pass.
    sender: JobSender,
    pass: Pass<Job, PassView>,
    of: PhantomData<N>,
}

impl<N: LineName> Model for LineEnd<N> {
    ghost use Rattle.crossbeam_channel.specs.Claims.{view as known_by};
    ghost use Rattle.crossbeam_channel.specs.Ends.{sends_on};
    ghost use Rattle.rs_intake_queue.specs.Changes.{AreOfLine};
    ghost use Rattle.rs_intake_line.specs.Lines.{IsLine};
    ghost use Rattle.rs_intake_queue.specs.Ends.{Closed, IsClosed};

    ghost Value = { Closed };

    ghost view = { λ l. record { place = l.place; sent = (known_by l.pass).entries; ends = (known_by l.pass).ends; gone = l.gone } };

    ghost invariant = { λ l. IsLine N.queue N.places (sends_on l.sender) l.pass l.place l.sent
        × IsClosed l.place (known_by l.pass).ends l.gone × AreOfLine l.place (known_by l.pass).entries };
}

impl<N: LineName> LineEnd<N> {
    /// The place, 1 to the number of places.
    pub fn place(&self) -> u16
        ensures place { result ≡ self.now.place }
        ensures some { 0 < result }
        ensures there { result ≤ N.places }
        ensures small { result ≤ MAX_LINES }
    {
        self.place
    }

    /// How many entries the queue took from the line. All are of its place, and their serials rise.
    pub fn sent(&self) -> u64
        ensures count { result ≡ length self.now.sent }
        ensures line { AreOfLine self.now.place self.now.sent }
    {
        self.sent
    }

    /// Its sender, and its pass, which has what was sent.
    pub fn into_parts(self) -> (JobSender, Pass<Job, PassView>)
        ensures queue { IsQueue N.queue (sends_on result.0) × IsIn N.queue result.1 }
        ensures sent { ((known_by result.1).sends ≡ true) × ((known_by result.1).from ≡ self.place)
            × ((known_by result.1).entries ≡ self.sent) }
    {
        let LineEnd {
            place: _,
            sent: _,
            gone: _,
            sender,
            pass,
            of: _,
        } = self;
        (sender, pass)
    }
}

/// A client's way to the writer and back, with the last serial that was submitted. Nobody else uses it.
///
/// Changes that are announced ([`expect`](SeatLine::expect)) go to the writer together, in one job. They are ahead then: they were sent,
/// and are not submitted yet. The queue took what was sent and submitted, and then what is ahead, which is of at most two jobs.
#[derive(Drop)]
pub struct SeatLine<N: LineName> {
    line: LineSender<N>,
    serial: u64,
    replies: ReplyReceiver<N>,
    ahead: Ahead,
    // The last send or receive of a submit that failed.
    gone: Option<Gone>,
    alloc: Global,
}

impl<N: LineName> Model for SeatLine<N> {
    ghost use Rattle.rs_intake_line.specs.Lines.{IsSeatLine, Line};
    ghost use Rattle.rs_intake_queue.specs.Parts.{before};

    ghost Value = { Line };

    ghost view = { λ l. record {
      place = l.line.place;
      serial = l.serial;
      sent = before l.line.sent l.ahead;
      heard = l.replies.heard;
      came = l.replies.came;
      ahead = l.ahead;
      gone = l.gone;
    } };

    ghost invariant = { λ l. IsSeatLine l.line.place l.serial l.line.sent l.ahead };
}

impl<N: LineName> SeatLine<N> {
    /// A line by which nothing was sent, and its way back.
    pub fn new(alloc: Global, line: LineSender<N>, replies: ReplyReceiver<N>) -> SeatLine<N>
        requires { (line.sent ≡ []) × (replies.heard ≡ []) × (replies.came ≡ []) }
        ensures line { (result.place ≡ line.place) × (result.serial ≡ 0) × (result.sent ≡ []) }
        ensures replies { (result.heard ≡ []) × (result.came ≡ []) }
        ensures ahead { result.ahead ≡ [] }
        ensures gone { result.gone ≡ None }
    {
        SeatLine {
            line,
            serial: 0,
            replies,
            ahead: Ahead::empty(),
            gone: None,
            alloc,
        }
    }

    /// The place, 1 to the number of places.
    pub fn place(&self) -> u16
        ensures place { result ≡ self.now.place }
        ensures some { 0 < result }
        ensures there { result ≤ N.places }
        ensures small { result ≤ MAX_LINES }
    {
        self.line.place()
    }

    /// What counts for this line.
    pub fn meter(&self) -> &Meter {
        &self.line.meter
    }

    /// The last serial that was submitted, 0 at first.
    pub fn serial(&self) -> u64
        ensures { result ≡ self.now.serial }
    {
        self.serial
    }

    /// For a line whose client shares its threads with others: from now on it polls less before it sleeps, since they want the processors
    /// too.
    pub fn share(&mut self)
        ensures { self.new ≡ self.old }
    {
        self.replies.share();
    }

    /// Whether one more job may be sent: what is ahead is of one job at most, since the way back has space for the replies to two.
    fn has_space(&self) -> bool {
        self.ahead.is_empty() || self.ahead.is_one_job()
    }

    /// Whether a job is better sent while something is ahead, so that the writer has it when it has put the one before: the writer's last jobs
    /// were all of this line, so nobody waits behind a further one, and one more job may be sent.
    pub fn runs_ahead(&self) -> bool {
        self.replies.is_alone() && self.has_space()
    }

    /// Says which changes come next, behind what is ahead, none a Sweep. They are sent at once, as one job, and are ahead then, under the next
    /// serials. Nothing is sent if they are none, if more than [`MAX_CHANGES`] or more than two jobs would be ahead, if no serials are left for
    /// all, if memory is refused or short, or if the queue is gone.
    pub fn expect<R: Wait>(&mut self, rt: &R, changes: Vec<Operation>)
        requires { All (λ o. is_sweep o ≡ false) changes.items }
        ensures ahead { (self.new.ahead ≡ self.old.ahead)
            ⊎ (self.new.ahead ≡ self.old.ahead ++ numbered self.old.place (self.old.serial + length self.old.ahead) changes.items) }
        ensures place { (self.new.place ≡ self.old.place) × (self.new.serial ≡ self.old.serial) }
        ensures same { (self.new.sent ≡ self.old.sent) × (self.new.heard ≡ self.old.heard) × (self.new.came ≡ self.old.came) }
        ensures gone { self.new.gone ≡ self.old.gone }
    {
        let count = self.ahead.len();
        if changes.is_empty() || changes.len() > MAX_CHANGES.saturating_sub(count) {
            return;
        }
        if !self.has_space() {
            return;
        }
        let place = self.line.place();
        let Some((job, ahead)) = announce(self.alloc, place, self.last_serial(), changes) else {
            return;
        };
        if !self.ahead.append(ahead, self.alloc) {
            return;
        }
        match self.line.send_changes(rt, job) {
            Ok(()) => {}
            Err(_gone) => self.ahead.truncate(count),
        }
    }

    /// How many are ahead.
    pub fn ahead_count(&self) -> usize
        ensures { result ≡ length self.now.ahead }
    {
        self.ahead.len()
    }

    /// The serial of the last that is ahead, or the last that was submitted.
    fn last_serial(&self) -> u64
        ensures { result ≡ self.now.serial + length self.now.ahead }
    {
        self.serial + self.ahead.len() as u64
    }

    /// For a line that is handed on. What is ahead counts as submitted. It waits for as many replies as there is ahead, and drops them with
    /// all others that came, so that no later submit reads them.
    ///
    /// # Errors
    ///
    /// [`Gone`] if a receive failed before that, as it does once the writer is gone. Those that came are dropped, and the line is handed on all the
    /// same.
    pub fn hand_on<R: Wait>(&mut self, rt: &R) -> Result<(), Gone>
        ensures place { self.new.place ≡ self.old.place }
        ensures serial { self.new.serial ≡ self.old.serial + length self.old.ahead }
        ensures sent { self.new.sent ≡ self.old.sent ++ self.old.ahead }
        ensures next { AreNext self.old.place self.old.serial self.old.ahead }
        ensures heard { (more : List ReplyValue) × (self.new.heard ≡ self.old.heard ++ self.old.came ++ more) }
        ensures waited { IfOk result (λ _. length self.old.heard + length self.old.ahead ≤ length self.new.heard) }
        ensures fewer { IfErr result (λ _. length self.new.heard < length self.old.heard + length self.old.ahead) }
        ensures came { self.new.came ≡ [] }
        ensures none { self.new.ahead ≡ [] }
        ensures gone { self.new.gone ≡ self.old.gone }
    {
        let unread = self.ahead.len();
        self.serial = self.last_serial();
        self.ahead = Ahead::empty();
        self.replies.drop_next(rt, unread)
    }

    /// Whether the first of what is ahead is this entry. `None` if nothing is ahead.
    fn is_first_ahead(&self, entry: &Entry) -> Option<bool>
        ensures { MatchOption result (self.now.ahead ≡ [])
            (λ is. (first : Entry) × (rest : List Entry) × (self.now.ahead ≡ first ∷ rest)
            × (first.origin ≡ record { place = self.now.place; serial = self.now.serial + 1 }) × Decides is (first ≡ entry.now)) }
    {
        let first = self.ahead.first()?;
        Some(is_same(first, entry))
    }

    /// The first of what is ahead, which is this entry, counts as submitted.
    fn submit_ahead(&mut self, entry: &Entry)
        requires { (rest : List Entry) × (self.old.ahead ≡ entry.now ∷ rest) }
        ensures place { (self.new.place ≡ self.old.place) × (self.new.serial ≡ self.old.serial + 1) }
        ensures sent { self.new.sent ≡ self.old.sent ++ entry.now ∷ [] }
        ensures ahead { self.old.ahead ≡ entry.now ∷ self.new.ahead }
        ensures heard { self.new.heard ≡ self.old.heard }
        ensures gone { self.new.gone ≡ self.old.gone }
    {
        drop(self.ahead.pop());
        self.serial = entry.origin.serial();
    }

    /// Uses the next serial, and sends the entry, which has it, by itself. If the send fails, the line keeps its [`Gone`].
    fn send_alone<R: Wait>(&mut self, rt: &R, entry: Entry) -> Result<Entry, SubmitFault>
        requires plain { is_sweep entry.operation ≡ false }
        requires origin { entry.origin ≡ record { place = self.old.place; serial = self.old.serial + 1 } }
        requires none { self.old.ahead ≡ [] }
        ensures place { (self.new.place ≡ self.old.place) × (self.new.serial ≡ self.old.serial + 1) }
        ensures entry { IfOk result (λ e. e ≡ entry) }
        ensures sent { MatchResult result (λ e. self.new.sent ≡ self.old.sent ++ e ∷ []) (λ _. self.new.sent ≡ self.old.sent) }
        ensures same { (self.new.heard ≡ self.old.heard) × (self.new.ahead ≡ []) }
        ensures unsent { IfErr result (λ f. IsUnsent self.old.serial self.new f) }
        ensures gone { MatchResult result (λ _. self.new.gone ≡ self.old.gone)
            (λ f. (self.new.gone ≡ self.old.gone) ⊎ (f ≡ submit.Closed)) }
    {
        self.serial = entry.origin.serial();
        // For the proof: this call says that the place is not the writer's.
        let _place = self.line.place();
        let Ok(copy) = entry.copy() else {
            return Err(SubmitFault::NoMemory);
        };
        let Some(changes) = prepare_one(self.alloc, copy) else {
            // Refused: the memory for a list of one, or what has to be left.
            return Err(SubmitFault::NoMemory);
        };
        match self.line.send_changes(rt, changes) {
            Ok(()) => Ok(entry),
            // Refused: the job. The send has failed.
            Err(gone) => {
                self.gone = Some(gone);
                Err(SubmitFault::Closed)
            }
        }
    }

    /// Submits the operation under the next serial. If it is the first that is ahead, it was sent already; if nothing is ahead, it is sent
    /// alone. The result is its entry, or why nothing was sent: `Full` if there is no further serial, `NoMemory`, `Closed` if the send failed,
    /// whose [`Gone`] the line keeps, or `Strange` if something else is ahead, and then no serial is used.
    pub(crate) fn send<R: Wait>(
        &mut self,
        rt: &R,
        operation: Operation,
    ) -> Result<Entry, SubmitFault>
        requires { is_sweep operation ≡ false }
        ensures place { self.new.place ≡ self.old.place }
        ensures serial { (self.new.serial ≡ next_serial self.old.serial) ⊎ IsOther self.old.ahead operation }
        ensures other { IsOther self.old.ahead operation → (result ≡ Err submit.Strange) × (self.new.serial ≡ self.old.serial)
            × (self.new.sent ≡ self.old.sent) }
        ensures entry { IfOk result (λ e. (e ≡ entry_at self.old.place self.new.serial operation)
            × (self.new.serial ≡ self.old.serial + 1)) }
        ensures sent { MatchResult result (λ e. self.new.sent ≡ self.old.sent ++ e ∷ []) (λ _. self.new.sent ≡ self.old.sent) }
        ensures heard { self.new.heard ≡ self.old.heard }
        ensures unsent { IfErr result (λ f. IsUnsent self.old.serial self.new f
            ⊎ ((f ≡ submit.Strange) × (self.new.serial ≡ self.old.serial) × IsOther self.old.ahead operation)) }
        ensures ahead { IsAheadAfter self.old.ahead operation self.new.ahead }
        ensures gone { MatchResult result (λ _. self.new.gone ≡ self.old.gone)
            (λ f. (self.new.gone ≡ self.old.gone) ⊎ (f ≡ submit.Closed)) }
    {
        let Some(serial) = self.serial.checked_add(1) else {
            return Err(SubmitFault::Full);
        };
        let Some(origin) = Origin::of_line(self.line.place(), serial) else {
            unreachable!()
        };
        let entry = Entry { origin, operation };
        match self.is_first_ahead(&entry) {
            Some(true) => {
                self.submit_ahead(&entry);
                Ok(entry)
            }
            Some(false) => Err(SubmitFault::Strange),
            None => self.send_alone(rt, entry),
        }
    }

    /// The next reply of the writer. `None` if the receive failed, whose [`Gone`] the line keeps.
    pub(crate) fn receive<R: Wait>(&mut self, rt: &R) -> Option<WriterReply<N>>
        ensures same { (self.new.place ≡ self.old.place) × (self.new.serial ≡ self.old.serial) × (self.new.sent ≡ self.old.sent) }
        ensures heard { MatchOption result (self.new.heard ≡ self.old.heard) (λ reply. self.new.heard ≡ self.old.heard ++ reply ∷ []) }
        ensures gone { MatchOption result ((gone : Gone) × (self.new.gone ≡ Some gone)) (λ _. self.new.gone ≡ self.old.gone) }
        ensures ahead { self.new.ahead ≡ self.old.ahead }
    {
        match self.replies.wait(rt) {
            Ok(reply) => Some(reply),
            Err(gone) => {
                self.gone = Some(gone);
                None
            }
        }
    }

    /// Gives the line up: it sends one End, and nothing after it. If the queue is gone, it sends none. The line's end keeps what the
    /// queue took from the line, what is ahead too.
    pub fn close<R: Wait>(self, rt: &R) -> LineEnd<N>
        ensures place { result.place ≡ self.place }
        ensures sent { result.sent ≡ self.sent ++ self.ahead }
        ensures line { AreOfLine result.place result.sent }
        ensures end { IsClosed result.place result.ends result.gone }
    {
        let SeatLine {
            line,
            serial: _,
            replies: _replies,
            ahead: _ahead,
            gone: _,
            alloc: _,
        } = self;
        line.finish(rt)
    }
}
