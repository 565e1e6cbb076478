//! What a tree, and messages that were taken out of it, show after memory was refused to `add`. To take them takes none.

use kit_test::{Change, Failure, HOUSE, Keeper, Naming, Outcome, check, entry, topic};
use rs_message::{Entry, Found, Remaining};
use rs_store::{CalmCatalogue, Catalogue, Messages, TopicLimit};
use rs_topic::{TopicFilter, TopicName};
use rs_tree::{TreeCatalogue, TreeMessages};
use std::alloc::Global;

/// How many topics the tree takes: so many that it has to grow more than once.
const TOPICS: u32 = 64;

/// Each time that so many topics were added, the last one is cleared and added again. The messages are taken out of the tree before and
/// between, and kept as long, so that what they share with the tree has to be copied.
const ROUND: u32 = HOUSE as u32;

/// How many topics are added. So many of them find the tree full, or the space of those that are swept.
const ADDED: u32 = TOPICS + ROUND;

/// Of so many topics in a row the messages come at one moment, the next of those of the row before.
const ROW: u32 = 3;

/// The interval of all messages: when the tree is full, those of one row are expired.
const INTERVAL: u32 = TOPICS / ROW;

/// All topics, those of one house, and some whose levels lie on both sides of a branch that a Clear joins to its only child.
const FILTERS: &[&[u8]] = &[b"#", b"000002/#", b"+/door/main/+", b"+/+/side3"];

/// What a tree shows: the last is what each of the filters finds.
#[derive(Drop)]
struct Shown {
    version: u64,
    count: u64,
    serial: u64,
    sweeps: u64,
    found: Vec<(usize, Found)>,
}

/// The messages of a tree, and what it showed when they were taken out of it.
#[derive(Drop)]
struct Taken {
    messages: TreeMessages,
    shown: Shown,
}

/// A tree, and the filters that it is asked for.
#[derive(Drop)]
struct Run {
    alloc: Global,
    store: CalmCatalogue<TreeCatalogue>,
    filters: Vec<TopicFilter>,
    // How often memory was refused: to a topic of each kind of spot, which `Naming::Houses` has in turn, to one behind a Sweep, and
    // to a Clear.
    refused: Vec<u64>,
}

fn is_same_answer(a: &[(usize, Found)], b: &[(usize, Found)]) -> bool {
    if a.len() != b.len() {
        return false;
    }
    for i in 0..a.len() {
        let ((of_a, x), (of_b, y)) = (&a[i], &b[i]);
        if of_a != of_b || x != y {
            return false;
        }
    }
    true
}

fn is_same(a: &Shown, b: &Shown) -> bool {
    a.version == b.version
        && a.count == b.count
        && a.serial == b.serial
        && a.sweeps == b.sweeps
        && is_same_answer(a.found.as_slice(), b.found.as_slice())
}

fn shown_by(
    alloc: Global,
    tree: &TreeCatalogue,
    filters: &[TopicFilter],
) -> Result<Shown, Failure> {
    let mut found = Vec::with_capacity(alloc, FILTERS.len() * TOPICS as usize)?;
    for i in 0..filters.len() {
        for one in tree.answer(&filters[i], 0)? {
            found.push((i, one))?;
        }
    }
    Ok(Shown {
        version: tree.version(),
        count: u64::from(tree.count()),
        serial: tree.last_serial(1),
        sweeps: tree.last_serial(0),
        found,
    })
}

/// What each of the filters finds in the messages.
fn found_in(
    alloc: Global,
    messages: &TreeMessages,
    filters: &[TopicFilter],
) -> Result<Vec<(usize, Found)>, Failure> {
    let mut found = Vec::with_capacity(alloc, FILTERS.len() * TOPICS as usize)?;
    for i in 0..filters.len() {
        for one in messages.answer(&filters[i], 0)? {
            found.push((i, one))?;
        }
    }
    Ok(found)
}

/// What a change makes of a tree.
#[derive(Clone, Copy)]
enum Kind {
    /// One more topic.
    New,
    /// One more topic, behind a Sweep.
    Swept,
    /// One topic less.
    Clear,
}

/// The moment at which the message of the topic of this number comes.
fn moment(number: u32) -> u64 {
    u64::from(number / ROW)
}

/// What a Sweep of this moment makes of it.
fn swept(shown: Shown, moment: u64) -> Shown {
    let mut shown = shown;
    let mut count = 0u64;
    shown.found.retain(|(_, one)| one.message().remaining(moment) != Remaining::Expired);
    for (of, _) in &shown.found {
        // The first filter finds all topics.
        count = count.wrapping_add(u64::from(*of == 0));
    }
    shown.count = count;
    shown.version = shown.version.saturating_add(1);
    shown.sweeps = shown.sweeps.saturating_add(1);
    shown
}

/// The same with nothing of this topic in the answers.
fn without(shown: Shown, topic: &TopicName) -> Shown {
    let mut shown = shown;
    shown.found.retain(|(_, one)| one.topic() != topic);
    shown
}

/// What one more entry makes of it but for its topic.
fn changed(shown: Shown, kind: Kind, serial: u64) -> Shown {
    let mut shown = shown;
    shown.version = shown.version.saturating_add(1);
    shown.serial = serial;
    shown.count = match kind {
        Kind::New | Kind::Swept => shown.count.saturating_add(1),
        Kind::Clear => shown.count.saturating_sub(1),
    };
    shown
}

impl Run {
    fn shown(&self) -> Result<Shown, Failure> {
        shown_by(self.alloc, self.store.catalogue(), self.filters.as_slice())
    }

    /// Whether it shows this.
    fn shows(&self, wanted: &Shown) -> Result<bool, Failure> {
        Ok(is_same(wanted, &self.shown()?))
    }

    /// Adds the entry. `false` if memory is refused for it.
    fn adds(&mut self, entry: Entry) -> Result<bool, Failure> {
        if entry.operation.is_sweep() {
            return Err(Failure::Wrong);
        }
        match Keeper::add(&mut self.store, entry) {
            Outcome::Kept => Ok(true),
            Outcome::NoMemory => Ok(false),
            _ => Err(Failure::Wrong),
        }
    }

    /// Takes note that memory was refused to this kind of change.
    fn count(&mut self, kind: Kind, number: u32) {
        let at = match kind {
            Kind::New => (number % 4) as usize,
            Kind::Swept => 4,
            Kind::Clear => 5,
        };
        if let Some(count) = self.refused.get_mut(at) {
            *count = count.saturating_add(1);
        }
    }

    /// An entry that makes this change to the topic of this number.
    fn entry(&self, kind: Kind, number: u32) -> Result<Entry, Failure> {
        let change = match kind {
            Kind::New | Kind::Swept => Change::Set(moment(number), Some(INTERVAL)),
            Kind::Clear => Change::Clear,
        };
        let serial = self.store.catalogue().last_serial(1).saturating_add(1);
        entry(
            self.alloc,
            Naming::Houses,
            serial,
            u64::from(number),
            change,
        )
    }

    /// Adds the entry. If memory is refused for it, the tree must show the same as before, but for the Sweep before it, and take the
    /// same entry then.
    fn add(&mut self, entry: Entry, kind: Kind, number: u32, ready: &Shown) -> Result<(), Failure> {
        let again = entry.copy()?;
        let before = self.shown()?;
        if !self.adds(entry)? {
            check(self.shows(&before)? || self.shows(ready)?)?;
            check(self.adds(again)?)?;
            self.count(kind, number);
        }
        Ok(())
    }

    /// Makes the change. Then all answers must be as before but for the topic: they do not tell whether memory was refused for joining
    /// a branch to its only child.
    fn change(&mut self, kind: Kind, number: u32) -> Result<(), Failure> {
        let entry = self.entry(kind, number)?;
        let serial = entry.origin.serial();
        let topic = topic(self.alloc, Naming::Houses, u64::from(number))?;
        let mut ready = self.shown()?;
        if let Kind::Swept = kind {
            ready = swept(ready, moment(number));
        }
        self.add(entry, kind, number, &ready)?;
        let mut after = self.shown()?;
        match kind {
            Kind::Clear => ready = without(ready, &topic),
            Kind::New | Kind::Swept => after = without(after, &topic),
        }
        check(is_same(&changed(ready, kind, serial), &after))
    }

    /// The messages of the tree, and what it shows.
    fn taken(&self) -> Result<Taken, Failure> {
        let Ok(messages) = self.store.catalogue().messages() else {
            return Err(Failure::Wrong);
        };
        Ok(Taken {
            messages,
            shown: self.shown()?,
        })
    }

    /// The messages must answer what the tree did when they were taken.
    fn is_kept(&self, taken: &Taken) -> Result<(), Failure> {
        let found = found_in(self.alloc, &taken.messages, self.filters.as_slice())?;
        check(is_same_answer(taken.shown.found.as_slice(), found.as_slice()))
    }

    /// Clears the last topic and adds it again. Then the answers must be as before, and the messages must show what they did.
    fn clear_last(&mut self, number: u32) -> Result<(), Failure> {
        let full = self.taken()?;
        self.change(Kind::Clear, number)?;
        let cleared = self.taken()?;
        self.change(Kind::New, number)?;
        self.is_kept(&full)?;
        self.is_kept(&cleared)?;
        let after = self.shown()?;
        check(is_same_answer(full.shown.found.as_slice(), after.found.as_slice()))
    }

    /// Adds the topic of this number, and sometimes clears.
    fn round(&mut self, number: u32) -> Result<(), Failure> {
        if self.store.catalogue().count() == TOPICS {
            self.change(Kind::Swept, number)?;
        } else {
            self.change(Kind::New, number)?;
        }
        if number % ROUND == ROUND - 1 {
            self.clear_last(number)?;
        }
        Ok(())
    }
}

/// A tree that has no topic.
fn new(alloc: Global) -> Result<Run, Failure> {
    let mut filters = Vec::new(alloc);
    for text in FILTERS {
        filters.push(TopicFilter::read(alloc, text)?)?;
    }
    let limit = TopicLimit::new(TOPICS).ok_or(Failure::Wrong)?;
    Ok(Run {
        alloc,
        store: CalmCatalogue::new(alloc, limit)?,
        filters,
        refused: vec![in alloc; 0u64, 0, 0, 0, 0, 0]?,
    })
}

/// Adds new topics one after the other, clears now and then, and returns how often memory was refused for a topic of each
/// kind of spot, for one behind a Sweep, and for a Clear.
pub fn work(alloc: Global) -> Result<Vec<u64>, Failure> {
    let mut run = new(alloc)?;
    for number in 0..ADDED {
        run.round(number)?;
    }
    check(run.store.catalogue().last_serial(0) == u64::from(ROUND.div_ceil(ROW)))?;
    Ok(run.refused)
}
