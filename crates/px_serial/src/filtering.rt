//! Which filters a document of a feed matches, behind the changes that came before it.

ghost use Rattle.std.specs.Prelude.{◌≡◌, Ok, IfOk, OnOk};
ghost use Rattle.px_text.specs.Nodes.{Root};
ghost use Rattle.px_feed.specs.Items.{Showing};
ghost use Rattle.px_workload.specs.Changes.{history};
ghost use Rattle.px_xpath.specs.Histories.{live, matches};
ghost use Rattle.px_tiers.specs.Standings.{StandFor};
ghost use Rattle.px_serial.specs.Noting.{TellsOf};
ghost use Rattle.px_lines.specs.Replying.{Answered};
ghost use Rattle.px_serial.specs.Replying.{changed};
ghost use Rattle.px_lines.specs.Replying.{IsOf};

use px_feed::OutLine;
use px_reader::Doc;
use px_text::Ids;
use px_tiers::Tiers;
use px_workload::Journal;
use std::alloc::AllocError;

/// The line for a document: the version, and the ids of the live filters that match, rising. The
/// machines of changed filters are built before. Its only failure is want of memory; the tiers may
/// then only be dropped.
pub fn line_of_document(
    tiers: &mut Tiers,
    journal: &Journal,
    doc: &Doc,
) -> Result<OutLine, AllocError>
    requires stand { StandFor tiers.old (live (history journal.now.changes)) }
    ensures line { (root : Root) → IsOf doc.now root → IfOk result (λ line.
        Answered (Showing root) journal.now.changes journal.now.changes line) }
    ensures stand { OnOk result (StandFor tiers.new (live (history journal.now.changes))) }
{
    let ids = ids_on(tiers, journal, doc)?;
    Ok(OutLine::Matched {
        version: journal.version(),
        ids,
    })
}

// The ids of the live filters that a document matches, rising.
fn ids_on(tiers: &mut Tiers, journal: &Journal, doc: &Doc) -> Result<Ids, AllocError>
    requires stand { StandFor tiers.old (live (history journal.now.changes)) }
    ensures ids { (root : Root) → IsOf doc.now root → IfOk result (λ ids. ids ≡
        matches (history journal.now.changes) root) }
    ensures stand { OnOk result (StandFor tiers.new (live (history journal.now.changes))) }
{
    tiers.matches(journal, doc.events())
}

/// Tells the tiers of the change that a line answers, and hands the line on. They then stand for
/// the filters that are live behind it; a change that is refused leaves them. Its only failure is
/// want of memory, of its own or that of the line; the tiers may then only be dropped.
pub fn noted(tiers: &mut Tiers, line: Result<OutLine, AllocError>) -> Result<OutLine, AllocError>
    ensures same { IfOk result (λ one. line ≡ Ok one) }
    ensures stand { IfOk result (λ one. TellsOf one tiers.old tiers.new) }
{
    match line {
        Ok(one) => {
            note(tiers, &one)?;
            Ok(one)
        }
        Err(error) => Err(error),
    }
}

// Tells the tiers of the change that a line answers.
fn note(tiers: &mut Tiers, line: &OutLine) -> Result<(), AllocError>
    ensures stand { OnOk result (TellsOf line.now tiers.old tiers.new) }
{
    match changed_id(line) {
        Some(id) => tiers.change(id),
        None => Ok(()),
    }
}

// The id whose filter a line says was added, dropped or replaced.
fn changed_id(line: &OutLine) -> Option<u32>
    ensures id { result ≡ changed line.now }
{
    match line {
        OutLine::Added { id } => Some(*id),
        OutLine::Dropped { id, .. } => Some(*id),
        OutLine::Replaced { id, .. } => Some(*id),
        _ => None,
    }
}
