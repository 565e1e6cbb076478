//! The two copies, as the writer has them.

ghost use Rattle.std.specs.Prelude.{◌≡◌, ◌≤◌, ◌∷◌, [], length, drop, fold, Some, MatchResult, OnOk};
ghost use Rattle.left_right.specs.Sides.{view};
ghost use Rattle.rs_version.specs.VersionRule.{Follows, known, applied, state};
ghost use Rattle.rs_version.specs.Copies.{listed, shown, steps_of};

use crate::catalogue::StoreCatalogue;
use crate::catalogue_copy::{CatalogueCopy, CopyStep};
use crate::prefix::Prefix;
use crate::rule::{KnownVersion, Notes, Sees, VersionRule};
use core::mem::replace_with;
use left_right::writer::Writer;
use std::alloc::AllocError;
use std::sync::Wait;

/// Reads the published copy, for a seat.
pub type CopyReader = left_right::reader::Reader<CatalogueCopy, Option<KnownVersion>, VersionRule>;

/// Changes the copy that is not published, and publishes it.
pub type CopyWriter = Writer<CatalogueCopy, CopyStep, Option<KnownVersion>, VersionRule>;

/// Both copies, and at most one step that the published one lacks. It is not `Drop`: end it by `end`.
pub struct Copies {
    /// The copies, and the log of the steps that one of them lacks.
    pub writer: CopyWriter,
    /// A step for which the log had no memory.
    pub waiting: Option<CopyStep>,
}

/// Publishes the step of the log, if there is one. It waits for the seats that still read the other copy.
pub fn publish_once<R: Wait>(rt: &R, writer: CopyWriter) -> (CopyWriter, Result<(), AllocError>)
    requires one { length (drop writer.behind writer.log.items) ≤ 1 }
    requires follows { (s : CopyStep) → drop writer.behind writer.log.items ≡ s ∷ [] → Follows writer.desk.shown.value s }
    ensures { MatchResult result.1
        (λ _. (state result.0.desk.shown.value ≡ fold applied (state writer.desk.shown.value) (drop writer.behind writer.log.items))
        × (drop result.0.behind result.0.log.items ≡ []) × (view result.0.desk.place ≡ Some (known result.0.desk.shown.value)))
        (λ _. (result.0.desk.shown.value ≡ writer.desk.shown.value)
        × (drop result.0.behind result.0.log.items ≡ drop writer.behind writer.log.items)) }
{
    writer.publish_as::<Sees, R>(rt)
}

/// The same in place.
fn publish_in<R: Wait>(rt: &R, writer: &mut CopyWriter) -> Result<(), AllocError>
    requires one { length (drop writer.old.behind writer.old.log.items) ≤ 1 }
    requires follows { (s : CopyStep) → drop writer.old.behind writer.old.log.items ≡ s ∷ [] → Follows writer.old.desk.shown.value s }
    ensures { MatchResult result
        (λ _. (state writer.new.desk.shown.value
        ≡ fold applied (state writer.old.desk.shown.value) (drop writer.old.behind writer.old.log.items))
        × (drop writer.new.behind writer.new.log.items ≡ []))
        (λ _. (writer.new.desk.shown.value ≡ writer.old.desk.shown.value)
        × (drop writer.new.behind writer.new.log.items ≡ drop writer.old.behind writer.old.log.items)) }
{
    replace_with(
        writer,
        rt,
        |writer: CopyWriter, rt: &R| -> (CopyWriter, Result<(), AllocError>)
            requires one { length (drop writer.behind writer.log.items) ≤ 1 }
            requires follows { (s : CopyStep) → drop writer.behind writer.log.items ≡ s ∷ [] → Follows writer.desk.shown.value s }
            ensures { MatchResult result.1
                (λ _. (state result.0.desk.shown.value ≡ fold applied (state writer.desk.shown.value) (drop writer.behind writer.log.items))
                × (drop result.0.behind result.0.log.items ≡ []))
                (λ _. (result.0.desk.shown.value ≡ writer.desk.shown.value)
                × (drop result.0.behind result.0.log.items ≡ drop writer.behind writer.log.items)) }
        { publish_once(rt, writer) },
    )
}

/// Tells a reader what the writer knows. Both are of one table of readers.
pub fn inform(writer: &mut CopyWriter, reader: &mut CopyReader)
    requires { reader.old.place.table_id ≡ writer.old.desk.place.table_id }
    ensures told { view reader.new.place ≡ view writer.old.desk.place }
    ensures kept { (view writer.new.desk.place ≡ view writer.old.desk.place) × (writer.new.desk.shown ≡ writer.old.desk.shown)
        × (writer.new.log ≡ writer.old.log) × (writer.new.behind ≡ writer.old.behind) }
{
    reader.learn::<Notes>(writer.tell::<Notes>());
}

impl Copies {
    /// Takes a step. If there is no memory for it in the log, it waits beside the log.
    pub fn push(&mut self, step: CopyStep)
        requires { steps_of self.old ≡ [] }
        ensures shown { shown self.new ≡ shown self.old }
        ensures steps { steps_of self.new ≡ step ∷ [] }
    {
        if let Err(step) = self.writer.append(step) {
            self.waiting = Some(step);
        }
    }

    /// Moves the waiting step into the log.
    fn bring(&mut self) -> Result<(), AllocError>
        ensures shown { shown self.new ≡ shown self.old }
        ensures steps { steps_of self.new ≡ steps_of self.old }
        ensures none { OnOk result (listed self.new.waiting ≡ []) }
    {
        let Some(step) = self.waiting.take() else {
            return Ok(());
        };
        match self.writer.append(step) {
            Ok(()) => Ok(()),
            Err(step) => {
                self.waiting = Some(step);
                Err(AllocError)
            }
        }
    }

    /// Publishes the step, if there is one. If memory is refused, the published copy is as it was.
    pub fn publish<R: Wait>(&mut self, rt: &R) -> Result<(), AllocError>
        requires one { length (steps_of self.old) ≤ 1 }
        requires follows { (s : CopyStep) → steps_of self.old ≡ s ∷ [] → Follows (shown self.old) s }
        ensures { MatchResult result
            (λ _. (state (shown self.new) ≡ fold applied (state (shown self.old)) (steps_of self.old)) × (steps_of self.new ≡ []))
            (λ _. (shown self.new ≡ shown self.old) × (steps_of self.new ≡ steps_of self.old)) }
    {
        self.bring()?;
        publish_in(rt, &mut self.writer)
    }

    /// The catalogue of the published copy.
    pub fn catalogue(&self) -> &StoreCatalogue
        ensures { result.now ≡ (shown self.now).catalogue }
    {
        &self.writer.published().catalogue
    }

    /// The prefix of the published copy.
    pub fn published(&self) -> Prefix
        ensures { result ≡ (shown self.now).prefix }
    {
        self.writer.published().prefix.again()
    }

    /// Waits until no seat reads. A step that was not published is dropped.
    pub fn end<R: Wait>(self, rt: &R) {
        let Copies {
            writer,
            waiting: _waiting,
        } = self;
        drop(writer.take(rt));
    }
}
