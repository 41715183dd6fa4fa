//! What each kind of entry changes in the tables: one function per kind.

ghost use Rattle.std.specs.Prelude.{◌≡◌, ◌∷◌, ◌++◌, [], OnErr, OnOk};
ghost use Rattle.journal.specs.declared.entries.What.TheVariants.{Ask, Fail, Full, Install, Narrow, Pin, Settle, Spoil, Starve, Stop, Take, Unpin};
ghost use Rattle.residency.specs.Internal.Tables.{AreTables, IsNext};

use crate::page_events::{evict, load, lose, next_count, pin_pages, unpin_frame};
use crate::tables::Tables;
use crate::{Entry, Layout, Spoilt};
use geom_core::{Digest32, Memory};
use pool_tables::{ExplicitPins, FrameId, MakerId, QueuedWant};
use std::alloc::Global;

/// Enters a Pin. After Memory the tables are as before.
pub fn pin(
    tables: &mut Tables,
    alloc: Global,
    layout: &Layout,
    journal: &[Entry],
    by: MakerId,
    frame: FrameId,
) -> Result<(), Memory>
    requires { IsNext layout.now journal.now tables.old
        (record { by = by.0; what = Pin frame.0 }) }
    ensures tables { OnOk result (AreTables layout.now
        (journal.now ++ record { by = by.0; what = Pin frame.0 } ∷ []) tables.new) }
    ensures unchanged { OnErr result (tables.new ≡ tables.old) }
{
    let count = next_count(journal);
    tables
        .frames
        .pin(&mut tables.pages, alloc, frame, by, count)?;
    Ok(())
}

/// Enters a Settle. After Memory the tables are as before.
pub fn settle(
    tables: &mut Tables,
    alloc: Global,
    layout: &Layout,
    journal: &[Entry],
    by: MakerId,
    frame: FrameId,
    pages: &[u32],
    missing: &[u32],
) -> Result<(), Memory>
    requires { IsNext layout.now journal.now tables.old
        (record { by = by.0; what = Settle frame.0 pages.now missing.now }) }
    ensures tables { OnOk result (AreTables layout.now
        (journal.now ++ record { by = by.0; what = Settle frame.0 pages.now missing.now } ∷ [])
        tables.new) }
    ensures unchanged { OnErr result (tables.new ≡ tables.old) }
{
    let count = next_count(journal);
    let pins = ExplicitPins::settled(alloc, pages, missing)?;
    tables.wants.reserve(missing.len())?;
    unpin_frame(&mut tables.pages, &tables.frames, frame);
    pin_pages(&mut tables.pages, &tables.frames, pages);
    tables.pages.use_pages(pages, count);
    tables.frames.settle(frame, by, count, pins);
    let like = QueuedWant {
        frame,
        page: 0,
        settled: true,
        made_at: count,
    };
    tables
        .wants
        .append(&tables.frames, &tables.pages, like, missing);
    Ok(())
}

/// Enters an Ask. After Memory the tables are as before.
pub fn ask(
    tables: &mut Tables,
    layout: &Layout,
    journal: &[Entry],
    by: MakerId,
    frame: FrameId,
    pages: &[u32],
) -> Result<(), Memory>
    requires { IsNext layout.now journal.now tables.old
        (record { by = by.0; what = Ask frame.0 pages.now }) }
    ensures tables { OnOk result (AreTables layout.now
        (journal.now ++ record { by = by.0; what = Ask frame.0 pages.now } ∷ []) tables.new) }
    ensures unchanged { OnErr result (tables.new ≡ tables.old) }
{
    let count = next_count(journal);
    tables.wants.reserve(pages.len())?;
    tables.frames.ask(frame, count);
    let like = QueuedWant {
        frame,
        page: 0,
        settled: false,
        made_at: count,
    };
    tables
        .wants
        .append(&tables.frames, &tables.pages, like, pages);
    Ok(())
}

/// Enters a Narrow. After Memory the tables are as before.
pub fn narrow(
    tables: &mut Tables,
    alloc: Global,
    layout: &Layout,
    journal: &[Entry],
    by: MakerId,
    frame: FrameId,
    pages: &[u32],
) -> Result<(), Memory>
    requires { IsNext layout.now journal.now tables.old
        (record { by = by.0; what = Narrow frame.0 pages.now }) }
    ensures tables { OnOk result (AreTables layout.now
        (journal.now ++ record { by = by.0; what = Narrow frame.0 pages.now } ∷ []) tables.new) }
    ensures unchanged { OnErr result (tables.new ≡ tables.old) }
{
    let count = next_count(journal);
    let named = Vec::from_slice(alloc, pages)?;
    unpin_frame(&mut tables.pages, &tables.frames, frame);
    pin_pages(&mut tables.pages, &tables.frames, pages);
    tables.pages.use_pages(pages, count);
    tables.frames.narrow(frame, by, named);
    Ok(())
}

/// Enters a Take. After Memory the tables are as before.
pub fn take(
    tables: &mut Tables,
    layout: &Layout,
    journal: &[Entry],
    by: MakerId,
    frame: Option<u32>,
    page: u32,
    victim: Option<u32>,
) -> Result<(), Memory>
    requires { IsNext layout.now journal.now tables.old
        (record { by = by.0; what = Take frame page victim }) }
    ensures tables { OnOk result (AreTables layout.now
        (journal.now ++ record { by = by.0; what = Take frame page victim } ∷ []) tables.new) }
    ensures unchanged { OnErr result (tables.new ≡ tables.old) }
{
    tables.makers.begin(by)?;
    if let Some(victim) = victim {
        evict(&mut tables.pages, layout, victim);
        load(&mut tables.pages, layout, page, by);
        return Ok(());
    }
    load(&mut tables.pages, layout, page, by);
    Ok(())
}

/// Enters an Unpin.
pub fn unpin(tables: &mut Tables, layout: &Layout, journal: &[Entry], by: MakerId, frame: FrameId)
    requires { IsNext layout.now journal.now tables.old
        (record { by = by.0; what = Unpin frame.0 }) }
    ensures { AreTables layout.now
        (journal.now ++ record { by = by.0; what = Unpin frame.0 } ∷ []) tables.new }
{
    unpin_frame(&mut tables.pages, &tables.frames, frame);
    tables.frames.unpin(frame, next_count(journal));
}

/// Enters an Install.
pub fn install(
    tables: &mut Tables,
    layout: &Layout,
    journal: &[Entry],
    by: MakerId,
    page: u32,
    digest: Digest32,
)
    requires { IsNext layout.now journal.now tables.old
        (record { by = by.0; what = Install page digest }) }
    ensures { AreTables layout.now
        (journal.now ++ record { by = by.0; what = Install page digest } ∷ []) tables.new }
{
    let pins = tables
        .wants
        .install(&mut tables.frames, &tables.pages, page);
    // There are fewer than 2^63 frames, and each pins a page at most twice: the count has room for these pins.
    let _frames = tables.frames.len();
    tables.pages.pin(page, pins as u64);
    tables.pages.install(page, next_count(journal));
}

/// Enters a Fail.
pub fn fail(
    tables: &mut Tables,
    layout: &Layout,
    journal: &[Entry],
    by: MakerId,
    page: u32,
    before: u64,
    after: u64,
)
    requires { IsNext layout.now journal.now tables.old
        (record { by = by.0; what = Fail page before after }) }
    ensures { AreTables layout.now
        (journal.now ++ record { by = by.0; what = Fail page before after } ∷ []) tables.new }
{
    tables.makers.fail(by, after);
    lose(&mut tables.pages, layout, page, next_count(journal));
}

/// Enters a Spoil.
pub fn spoil(
    tables: &mut Tables,
    layout: &Layout,
    journal: &[Entry],
    by: MakerId,
    page: u32,
    why: &Spoilt,
)
    requires { IsNext layout.now journal.now tables.old
        (record { by = by.0; what = Spoil page why.now }) }
    ensures { AreTables layout.now
        (journal.now ++ record { by = by.0; what = Spoil page why.now } ∷ []) tables.new }
{
    lose(&mut tables.pages, layout, page, next_count(journal));
}

/// Enters a Starve.
pub fn starve(tables: &mut Tables, layout: &Layout, journal: &[Entry], by: MakerId, page: u32)
    requires { IsNext layout.now journal.now tables.old
        (record { by = by.0; what = Starve page }) }
    ensures { AreTables layout.now
        (journal.now ++ record { by = by.0; what = Starve page } ∷ []) tables.new }
{
    lose(&mut tables.pages, layout, page, next_count(journal));
}

/// Enters a Full, which changes nothing.
pub fn full(tables: &mut Tables, layout: &Layout, journal: &[Entry], by: MakerId, frame: FrameId)
    requires { IsNext layout.now journal.now tables.old
        (record { by = by.0; what = Full frame.0 }) }
    ensures { AreTables layout.now
        (journal.now ++ record { by = by.0; what = Full frame.0 } ∷ []) tables.new }
{}

/// Enters a Stop.
pub fn stop(tables: &mut Tables, layout: &Layout, journal: &[Entry], by: MakerId)
    requires { IsNext layout.now journal.now tables.old
        (record { by = by.0; what = Stop }) }
    ensures { AreTables layout.now
        (journal.now ++ record { by = by.0; what = Stop } ∷ []) tables.new }
{
    tables.stopped = true;
}
