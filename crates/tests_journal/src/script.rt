//! Runs of a journal, and what has to be found after them.

ghost use Rattle.std.specs.Prelude.{◌≡◌};

use crate::faulty::{Failing, Faulty};
use bytes::Bytes;
use rs_journal::{
    Error, Journal, JournalDisk, NotOpened, OperationSink, ReadFault, Retained, WriteFault,
};
use rs_journal_record::{put_record, read_record};
use rs_message::Operation;
use sqlite_disk::{Disk, Files, Memory};
use std::alloc::{AllocError, Global};
use std::test::Fail;

/// A disk in memory of which calls fail.
pub type Disks = Files<Faulty<Memory>>;

/// What was read, as the records of the operations.
#[derive(Drop)]
pub struct Taken {
    operations: Vec<Operation>,
}

impl Taken {
    pub fn new(alloc: Global) -> Taken {
        Taken {
            operations: Vec::new(alloc),
        }
    }

    pub fn records(&self, alloc: Global) -> Result<Vec<u8>, Fail> {
        let mut records = Vec::new(alloc);
        for operation in &self.operations {
            put_record(&mut records, operation)?;
        }
        Ok(records)
    }
}

impl OperationSink for Taken {
    ghost has_taken = { λ it operations. it.operations.items ≡ operations };

    fn take(&mut self, operation: Operation) -> Result<(), AllocError> {
        self.operations.push(operation)?;
        Ok(())
    }
}

/// What a run does next.
#[derive(Clone, Copy, Debug)]
pub enum Step {
    /// Pushes the operation of this number.
    Push(u64),
    Commit,
    /// Commits, and writes even if nothing was pushed.
    Sync,
    BeginAnew,
    /// Reads again what is retained, and lets a Set of each message take the place of all operations.
    Shorten,
    Checkpoint,
    /// Closes the journal, opens it, and looks at what is found.
    Reopen,
}

/// How many topics there are.
const TOPICS: u64 = 7;

/// After so many seconds a message is expired.
const INTERVAL: u32 = 60;

/// What the operation of a number is.
#[derive(Clone, Copy)]
enum Kind {
    Clear,
    Sweep,
    Set,
}

fn kind_of(n: u64) -> Kind {
    match n % 5 {
        0 => Kind::Clear,
        1 if n % 2 == 0 => Kind::Sweep,
        _ => Kind::Set,
    }
}

/// How long the payload of a Set is. Most messages take less than a page, some more than two.
fn payload_len(n: u64) -> u32 {
    if n % 17 == 15 {
        2716
    } else {
        (n % 17 * 20 + 1) as u32
    }
}

/// Appends the record of the operation of a number, which is its moment, too. The page of `rs_journal_record` has its bytes.
fn put_numbered(out: &mut Vec<u8>, n: u64) -> Result<(), AllocError> {
    let topic = b'a' + (n % TOPICS) as u8;
    match kind_of(n) {
        Kind::Clear => out.extend_from_slice(&[2, 0, 1, topic])?,
        Kind::Sweep => {
            out.push(3)?;
            out.extend_from_slice(&n.to_be_bytes())?;
        }
        Kind::Set => {
            // QoS 1, and an interval.
            out.extend_from_slice(&[1, 0, 1, topic, 1])?;
            out.extend_from_slice(&n.to_be_bytes())?;
            out.push(1)?;
            out.extend_from_slice(&INTERVAL.to_be_bytes())?;
            // Four properties that are absent, and none of the user.
            out.extend_from_slice(&[0, 0, 0, 0, 0, 0, 0, 0])?;
            let len = payload_len(n);
            out.extend_from_slice(&len.to_be_bytes())?;
            out.resize(out.len().saturating_add(len as usize), (n % 251) as u8)?;
        }
    }
    Ok(())
}

/// The operation of a number.
pub fn operation(alloc: Global, n: u64) -> Result<Operation, Fail> {
    let mut record = Vec::new(alloc);
    put_numbered(&mut record, n)?;
    let mut rest = Bytes::copy_from_slice(alloc, &record)?;
    match read_record(alloc, &mut rest) {
        Ok(operation) => Ok(operation),
        Err(_) => Err("an operation".into()),
    }
}

/// After the operation of this number the topic of this one holds the message of a number, or none.
fn holds_after(n: u64, topic: u64, held: Option<u64>) -> Option<u64> {
    match kind_of(n) {
        Kind::Sweep => match held {
            Some(set) if n.saturating_sub(set) < u64::from(INTERVAL) => held,
            _ => None,
        },
        _ if n % TOPICS != topic => held,
        Kind::Clear => None,
        Kind::Set => Some(n),
    }
}

/// The numbers of the Sets whose messages are retained after the operations of these numbers, in the order of their topics.
pub fn retained_after(alloc: Global, numbers: &[u64]) -> Result<Vec<u64>, Fail> {
    let mut retained = Vec::new(alloc);
    for topic in 0..TOPICS {
        let mut held = None;
        for n in numbers {
            held = holds_after(*n, topic, held);
        }
        if let Some(set) = held {
            retained.push(set)?;
        }
    }
    Ok(retained)
}

/// The records of the operations of these numbers.
pub fn records_of(alloc: Global, numbers: &[u64]) -> Result<Vec<u8>, Fail> {
    let mut records = Vec::new(alloc);
    for n in numbers {
        put_numbered(&mut records, *n)?;
    }
    Ok(records)
}

/// What became of a step.
#[derive(Clone, Copy)]
enum Outcome {
    Done,
    /// Nothing is done, and what was pushed stays.
    Failed,
    /// What was pushed since the last commit is forgotten.
    Refused,
    /// What was pushed since the last commit stands or does not.
    Doubtful,
}

fn outcome_of(done: Result<(), WriteFault>) -> Outcome {
    match done {
        Ok(()) => Outcome::Done,
        Err(WriteFault::Refused(_)) => Outcome::Refused,
        Err(WriteFault::Doubtful(_)) => Outcome::Doubtful,
    }
}

/// The numbers of the operations that stand, and of those that are seen.
#[derive(Drop)]
pub struct Expected {
    pub standing: Vec<u64>,
    pub seen: Vec<u64>,
    /// Whether the journal told that either may be left. Nothing is done after that.
    pub is_doubtful: bool,
    /// How many steps were done, and left the journal open.
    done: usize,
}

impl Expected {
    pub fn new(alloc: Global) -> Expected {
        Expected {
            standing: Vec::new(alloc),
            seen: Vec::new(alloc),
            is_doubtful: false,
            done: 0,
        }
    }

    /// The same of what stands.
    pub fn standing(alloc: Global, standing: &[u64]) -> Result<Expected, Fail> {
        Ok(Expected {
            standing: Vec::from_slice(alloc, standing)?,
            seen: Vec::from_slice(alloc, standing)?,
            is_doubtful: false,
            done: 0,
        })
    }

    /// Before a step: what it forgets, and what it puts in the place of all.
    fn prepare(&mut self, alloc: Global, step: Step) -> Result<(), Fail> {
        match step {
            Step::Shorten => self.seen = retained_after(alloc, &self.standing)?,
            Step::Reopen => self.seen = Vec::from_slice(alloc, &self.standing)?,
            Step::Push(_) | Step::Commit | Step::Sync | Step::BeginAnew | Step::Checkpoint => {}
        }
        Ok(())
    }

    /// After a step.
    fn follow(&mut self, alloc: Global, step: Step, outcome: Outcome) -> Result<(), Fail> {
        match (step, outcome) {
            (_, Outcome::Failed) => {}
            (_, Outcome::Doubtful) => self.is_doubtful = true,
            (_, Outcome::Refused) => self.seen = Vec::from_slice(alloc, &self.standing)?,
            (Step::Push(n), Outcome::Done) => self.seen.push(n)?,
            (Step::Commit | Step::Sync | Step::Shorten, Outcome::Done) => {
                self.standing = Vec::from_slice(alloc, &self.seen)?
            }
            (Step::BeginAnew, Outcome::Done) => self.seen.clear(),
            (Step::Checkpoint | Step::Reopen, Outcome::Done) => {}
        }
        Ok(())
    }

    /// Whether this may be found.
    pub fn allows(&self, alloc: Global, found: &[u8]) -> Result<bool, Fail> {
        if found == records_of(alloc, &self.standing)?.as_slice() {
            return Ok(true);
        }
        Ok(self.is_doubtful && found == records_of(alloc, &self.seen)?.as_slice())
    }
}

/// A journal over these files, whose operations the sink has taken. If it does not open, the files, and why.
pub fn opened<D: JournalDisk, S: OperationSink>(
    alloc: Global,
    files: Files<D>,
    sink: &mut S,
) -> Result<Journal<D>, NotOpened<D, Option<ReadFault>>> {
    if !files.may_be_used() {
        return Err(NotOpened { fault: None, files });
    }
    match Journal::open(alloc, files, 5, sink) {
        Ok(journal) => Ok(journal),
        Err(NotOpened { fault, files }) => Err(NotOpened {
            fault: Some(fault),
            files,
        }),
    }
}

/// What files stand for, as records, or the fault that their opening has.
pub fn found_in<D: JournalDisk + Drop>(
    alloc: Global,
    files: Files<D>,
) -> Result<Result<Vec<u8>, ReadFault>, Fail> {
    let mut taken = Taken::new(alloc);
    match opened(alloc, files, &mut taken) {
        Ok(_) => Ok(Ok(taken.records(alloc)?)),
        Err(refused) => match refused.fault {
            Some(fault) => Ok(Err(fault)),
            None => Err("files that may be used".into()),
        },
    }
}

/// Reads again what is retained, and keeps nothing else.
fn shorten<D: Disk>(alloc: Global, journal: &mut Journal<D>) -> Outcome {
    let mut retained = Retained::new(alloc);
    match journal.read_again(&mut retained) {
        Ok(()) => outcome_of(journal.shorten(&retained)),
        Err(_) => Outcome::Refused,
    }
}

/// Does one step of an open journal.
fn done<D: Disk>(alloc: Global, journal: &mut Journal<D>, step: Step) -> Result<Outcome, Fail> {
    Ok(match step {
        Step::Push(n) => outcome_of(journal.push(&operation(alloc, n)?)),
        Step::Commit => outcome_of(journal.commit()),
        Step::Sync => outcome_of(journal.sync()),
        Step::BeginAnew => outcome_of(journal.begin_anew()),
        Step::Shorten => shorten(alloc, journal),
        Step::Checkpoint => match journal.checkpoint() {
            Ok(()) => Outcome::Done,
            Err(_) => Outcome::Failed,
        },
        Step::Reopen => Outcome::Done,
    })
}

/// Does these steps from an opening on, as far as the journal stays open. An opening that finds something else is a failure.
pub fn run<D: JournalDisk + Drop>(
    alloc: Global,
    files: Files<D>,
    steps: &[Step],
    expected: &mut Expected,
) -> Result<Files<D>, Fail> {
    let mut journal = match opened(alloc, files, &mut Taken::new(alloc)) {
        Ok(journal) => journal,
        Err(refused) => return Ok(refused.files),
    };
    for step in steps {
        expected.prepare(alloc, *step)?;
        if let Step::Reopen = step {
            let mut taken = Taken::new(alloc);
            journal = match opened(alloc, journal.close(), &mut taken) {
                Ok(journal) => journal,
                Err(refused) => return Ok(refused.files),
            };
            if !expected.allows(alloc, &taken.records(alloc)?)? {
                return Err("what was committed".into());
            }
        }
        let outcome = done(alloc, &mut journal, *step)?;
        expected.follow(alloc, *step, outcome)?;
        if !journal.is_open() {
            return Ok(journal.close());
        }
        if let Outcome::Done = outcome {
            expected.done = expected.done.saturating_add(1);
        }
    }
    Ok(journal.close())
}

/// The same over files of which no call fails: a step that is not done is a failure.
pub fn run_all<D: JournalDisk + Drop>(
    alloc: Global,
    files: Files<D>,
    steps: &[Step],
    expected: &mut Expected,
) -> Result<Files<D>, Fail> {
    expected.done = 0;
    let files = run(alloc, files, steps, expected)?;
    if expected.done < steps.len() {
        return Err("each step done".into());
    }
    Ok(files)
}

/// Whether each call of a closed journal is refused.
pub fn refuses<D: Disk>(alloc: Global, journal: &mut Journal<D>) -> Result<bool, Fail> {
    let mut retained = Retained::new(alloc);
    Ok(
        journal.push(&operation(alloc, 2)?).is_err()
            && matches!(journal.commit(), Err(WriteFault::Refused(Error::Closed)))
            && journal.begin_anew().is_err()
            && journal.read_again(&mut retained).is_err()
            && journal.shorten(&retained).is_err()
            && journal.sync().is_err()
            && journal.checkpoint().is_err(),
    )
}

/// Steps of these numbers, which a fixed generator draws: mostly pushes.
pub fn drawn(alloc: Global, from: u64, to: u64) -> Result<Vec<Step>, Fail> {
    let mut steps = Vec::new(alloc);
    let mut state = from;
    for n in from..to {
        state = state.wrapping_mul(6364136223846793005).wrapping_add(1);
        let step = match (state >> 33) % 16 {
            0 => Step::BeginAnew,
            1 => Step::Shorten,
            2 => Step::Checkpoint,
            3 => Step::Reopen,
            4 => Step::Sync,
            5..=7 => Step::Commit,
            _ => Step::Push(n),
        };
        steps.push(step)?;
    }
    Ok(steps)
}

/// These bytes as a file.
pub fn file_of(alloc: Global, bytes: &[u8]) -> Result<Memory, Fail> {
    let mut file = Memory::new(alloc);
    file.write_at(0, bytes)?;
    file.sync()?;
    Ok(file)
}

/// The bytes of two files.
#[derive(Drop)]
pub struct Image {
    pub log: Vec<u8>,
    pub db: Vec<u8>,
}

impl Image {
    /// Of files of which nothing was made.
    pub fn new(alloc: Global) -> Image {
        Image {
            log: Vec::new(alloc),
            db: Vec::new(alloc),
        }
    }

    pub fn of(alloc: Global, files: &Disks) -> Result<Image, Fail> {
        Ok(Image {
            log: Vec::from_slice(alloc, files.log.inner.bytes())?,
            db: Vec::from_slice(alloc, files.db.inner.bytes())?,
        })
    }

    /// Files with these bytes, of which one fails after so many calls.
    pub fn files(
        &self,
        alloc: Global,
        is_log: bool,
        failing: Failing,
        calls: u64,
    ) -> Result<Disks, Fail> {
        let (log, db) = if is_log {
            (calls, u64::MAX)
        } else {
            (u64::MAX, calls)
        };
        Ok(Files {
            log: Faulty::new(alloc, file_of(alloc, &self.log)?, failing, log),
            db: Faulty::new(alloc, file_of(alloc, &self.db)?, failing, db),
        })
    }

    /// Files with these bytes, of which no call fails.
    pub fn sound(&self, alloc: Global) -> Result<Disks, Fail> {
        self.files(alloc, true, Failing::Once, u64::MAX)
    }
}
