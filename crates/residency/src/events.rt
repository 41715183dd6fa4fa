//! Enters an entry into the tables, by its kind.

ghost use Rattle.std.specs.Prelude.{◌≡◌, ◌∷◌, ◌++◌, [], OnErr, OnOk, true};
ghost use Rattle.residency.specs.History.{needs_no_memory};
ghost use Rattle.residency.specs.Internal.Tables.{AreTables, IsNext};

use crate::changes::{
    ask, fail, full, install, narrow, pin, settle, spoil, starve, stop, take, unpin,
};
use crate::tables::Tables;
use crate::{Entry, Layout, What};
use geom_core::Memory;
use pool_tables::{FrameId, MakerId};
use std::alloc::Global;

/// Enters an Unpin, Install, Fail, Spoil, Starve or Stop, which need no memory.
pub fn enter_kept(tables: &mut Tables, layout: &Layout, journal: &[Entry], entry: &Entry)
    requires next { IsNext layout.now journal.now tables.old entry.now }
    requires kept { needs_no_memory entry.now.what ≡ true }
    ensures { AreTables layout.now (journal.now ++ entry.now ∷ []) tables.new }
{
    let by = MakerId(entry.by);
    match &entry.what {
        What::Unpin { frame } => unpin(tables, layout, journal, by, FrameId(*frame)),
        What::Install { page, digest } => install(tables, layout, journal, by, *page, *digest),
        What::Fail {
            page,
            before,
            after,
        } => fail(tables, layout, journal, by, *page, *before, *after),
        What::Spoil { page, why } => spoil(tables, layout, journal, by, *page, why),
        What::Starve { page } => starve(tables, layout, journal, by, *page),
        What::Stop => stop(tables, layout, journal, by),
        What::Pin { .. }
        | What::Settle { .. }
        | What::Ask { .. }
        | What::Narrow { .. }
        | What::Take { .. }
        | What::Full { .. } => {}
    }
}

/// Enters an entry of any kind. After Memory the tables are as before.
pub fn enter(
    tables: &mut Tables,
    alloc: Global,
    layout: &Layout,
    journal: &[Entry],
    entry: &Entry,
) -> Result<(), Memory>
    requires { IsNext layout.now journal.now tables.old entry.now }
    ensures tables { OnOk result (AreTables layout.now (journal.now ++ entry.now ∷ []) tables.new) }
    ensures unchanged { OnErr result (tables.new ≡ tables.old) }
{
    let by = MakerId(entry.by);
    match &entry.what {
        What::Pin { frame } => pin(tables, alloc, layout, journal, by, FrameId(*frame)),
        What::Settle {
            frame,
            pages,
            missing,
        } => {
            let frame = FrameId(*frame);
            settle(
                tables,
                alloc,
                layout,
                journal,
                by,
                frame,
                pages.as_slice(),
                missing.as_slice(),
            )
        }
        What::Ask { frame, pages } => {
            ask(
                tables,
                layout,
                journal,
                by,
                FrameId(*frame),
                pages.as_slice(),
            )
        }
        What::Narrow { frame, pages } => {
            let frame = FrameId(*frame);
            narrow(tables, alloc, layout, journal, by, frame, pages.as_slice())
        }
        What::Take {
            frame,
            page,
            victim,
        } => take(tables, layout, journal, by, *frame, *page, *victim),
        What::Full { frame } => {
            full(tables, layout, journal, by, FrameId(*frame));
            Ok(())
        }
        What::Unpin { .. }
        | What::Install { .. }
        | What::Fail { .. }
        | What::Spoil { .. }
        | What::Starve { .. }
        | What::Stop => {
            enter_kept(tables, layout, journal, entry);
            Ok(())
        }
    }
}
