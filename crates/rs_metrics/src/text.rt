//! Prometheus' text format 0.0.4.

ghost use Rattle.std.specs.Prelude.{◌≡◌, ◌++◌, OnOk};
ghost use Rattle.std.specs.String.{string_bytes};
ghost use Rattle.rs_metrics.specs.Texts.{families_text, family_text, line_text, row_text, rows_text};

use crate::families::{Family, Kind, Row};
use crate::snapshot::Snapshot;
use std::alloc::AllocError;

/// Appends the text of these families, of which a server has [`FAMILIES`](crate::FAMILIES), with the numbers of the snapshot.
///
/// # Errors
///
/// Only if memory is refused. Then a part of the text may be appended.
pub fn write_text(
    text: &mut String,
    snapshot: &Snapshot,
    families: &[Family],
) -> Result<(), AllocError>
    ensures { OnOk result (string_bytes text.new ≡ string_bytes text.old ++ families_text snapshot.now families.now) }
{
    for family in families {
        write_family(text, snapshot, family)?;
    }
    Ok(())
}

/// Appends the lines of a family.
fn write_family(text: &mut String, snapshot: &Snapshot, family: &Family) -> Result<(), AllocError>
    ensures { OnOk result (string_bytes text.new ≡ string_bytes text.old ++ family_text snapshot.now family.now) }
{
    let Family {
        name,
        help,
        kind,
        rows,
    } = family;
    write_line(text, "# HELP ", name, " ", help)?;
    write_line(text, "# TYPE ", name, " ", kind.word())?;
    write_rows(text, snapshot, name, *kind, rows)
}

fn write_rows(
    text: &mut String,
    snapshot: &Snapshot,
    name: &str,
    kind: Kind,
    rows: &[Row],
) -> Result<(), AllocError>
    ensures { OnOk result (string_bytes text.new ≡ string_bytes text.old ++ rows_text snapshot.now name.now kind rows.now) }
{
    for row in rows {
        write_row(text, snapshot, name, kind, row)?;
    }
    Ok(())
}

/// Appends the line of a row, if it has a number.
fn write_row(
    text: &mut String,
    snapshot: &Snapshot,
    name: &str,
    kind: Kind,
    row: &Row,
) -> Result<(), AllocError>
    ensures { OnOk result (string_bytes text.new ≡ string_bytes text.old ++ row_text snapshot.now name.now kind row.now) }
{
    let Some(number) = snapshot.number(row.source) else {
        return Ok(());
    };
    text.push_str(name)?;
    text.push_str(row.labels)?;
    text.push_str(" ")?;
    write!(text, "{number}")?;
    text.push_str(kind.power())?;
    text.push_str("\n")
}

/// Appends a line of these four words.
fn write_line(
    text: &mut String,
    first: &str,
    second: &str,
    third: &str,
    fourth: &str,
) -> Result<(), AllocError>
    ensures { OnOk result (string_bytes text.new ≡ string_bytes text.old ++ line_text first.now second.now third.now fourth.now) }
{
    text.push_str(first)?;
    text.push_str(second)?;
    text.push_str(third)?;
    text.push_str(fourth)?;
    text.push_str("\n")
}
