//! A probe, and no part of the product: it steps through a journal, and says whether a step that memory
//! refuses leaves the pool as it was, in all that it keeps.
//!
//! Standard input is a journal's text. Entries of the kinds that need no memory are entered by `step_kept`, after
//! room was made for each, the others by `step`. Before each of these and after each refusal the pool is
//! written as `Debug` writes it, and the two texts are compared; then the entry is tried once more. At the end the
//! journal and all answers are compared with those of a pool that is replayed.
//! `tools/check_memory` refuses one allocation a run, each in its turn.
#![tactic(auto)]

ghost use Rattle.std.specs.Prelude.{◌≡◌, ◌≤◌, true, IfOk, OnOk};
ghost use Rattle.journal.specs.Layout.{InBounds};
ghost use Rattle.residency.specs.History.{needs_no_memory};

use journal::{Entry, Journal, Layout, What, read_journal};
use residency::{Pool, StepFault};
use std::alloc::Global;
use std::fmt::Write;
use std::io::Read;
use std::process::ExitCode;

/// How often a text of the pool is tried: memory is refused once.
const TRIES: u32 = 2;

/// The frames of a journal are below this number.
const FRAMES: u32 = 8;

/// Why the probe stops before the journal's end.
#[derive(Clone, Copy, PartialEq, Eq)]
enum Stop {
    /// A refused step left another pool than it found, or the pool answers otherwise than a replayed one.
    Changed,
    /// The rules don't allow the entry.
    Illegal,
    /// Memory was refused outside the steps, or the text is no journal.
    Outside,
}

fn main(rt: HostRuntime) -> ExitCode {
    let mut text = Vec::new(rt.alloc());
    if rt.stdin().read_to_end(&mut text).is_err() {
        return ExitCode::FAILURE;
    }
    let said = match probe(rt.alloc(), &text) {
        Ok(0) => "no step was refused",
        Ok(_) => "as before",
        Err(Stop::Changed) => "CHANGED",
        Err(Stop::Illegal) => "not allowed",
        Err(Stop::Outside) => "refused outside the steps",
    };
    match println!(rt; "{said}") {
        Ok(()) => ExitCode::SUCCESS,
        Err(_) => ExitCode::FAILURE,
    }
}

/// Returns how many steps of the text's journal memory refused, each of which left the pool as it was.
fn probe(alloc: Global, text: &[u8]) -> Result<u64, Stop> {
    let (layout, entries) = journal_of(alloc, text)?;
    // A step takes its entry, so a second reading has those for the second tries.
    let (_, again) = journal_of(alloc, text)?;
    let Ok(mut pool) = Pool::begin(alloc, layout) else {
        return Err(Stop::Outside);
    };
    let mut refused = 0u64;
    for (first, second) in entries.into_iter().zip(again) {
        if entry_is_refused(alloc, &mut pool, first, second)? {
            refused = refused.saturating_add(1);
        }
    }
    compare_with_replayed(alloc, &pool, text)?;
    Ok(refused)
}

/// Returns the layout and the entries that the text spells.
fn journal_of(alloc: Global, text: &[u8]) -> Result<(Layout, Vec<Entry>), Stop>
    ensures { IfOk result (λ journal. InBounds journal.0) }
{
    match read_journal(alloc, text) {
        Ok(Journal { layout, entries }) => Ok((layout, entries.into_vec())),
        Err(_) => Err(Stop::Outside),
    }
}

/// Whether an event of this kind needs no memory but its place in the journal.
fn needs_no_memory(what: &What) -> bool
    ensures { result ≡ needs_no_memory what.now }
{
    match what {
        What::Unpin { .. }
        | What::Install { .. }
        | What::Fail { .. }
        | What::Spoil { .. }
        | What::Starve { .. }
        | What::Stop => true,
        What::Pin { .. }
        | What::Settle { .. }
        | What::Ask { .. }
        | What::Narrow { .. }
        | What::Take { .. }
        | What::Full { .. } => false,
    }
}

/// Enters the entry, and compares the pool and tries again if memory refuses. Returns whether it did.
fn entry_is_refused(
    alloc: Global,
    pool: &mut Pool,
    first: Entry,
    second: Entry,
) -> Result<bool, Stop> {
    if needs_no_memory(&first.what) {
        return keep_is_refused(alloc, pool, first);
    }
    step_is_refused(alloc, pool, first, second)
}

/// Steps, and compares the pool and steps again if memory refuses. Returns whether it did.
fn step_is_refused(
    alloc: Global,
    pool: &mut Pool,
    first: Entry,
    second: Entry,
) -> Result<bool, Stop> {
    let before = written(alloc, pool)?;
    match pool.step(alloc, first) {
        Ok(()) => Ok(false),
        Err(StepFault::Illegal) => Err(Stop::Illegal),
        Err(StepFault::Memory) => {
            compare(alloc, pool, &before)?;
            match pool.step(alloc, second) {
                Ok(()) => Ok(true),
                Err(_) => Err(Stop::Changed),
            }
        }
    }
}

/// Makes room for the entry, as `room_is_refused` does, and enters it there.
fn keep_is_refused(alloc: Global, pool: &mut Pool, entry: Entry) -> Result<bool, Stop>
    requires kind { needs_no_memory entry.what ≡ true }
{
    let refused = room_is_refused(alloc, pool)?;
    if !pool.allows(&entry) {
        return Err(Stop::Illegal);
    }
    pool.step_kept(entry);
    Ok(refused)
}

/// Makes room for an entry, and compares the pool and tries again if memory refuses. Returns whether it did.
fn room_is_refused(alloc: Global, pool: &mut Pool) -> Result<bool, Stop>
    ensures spare { OnOk result (1 ≤ pool.new.spare) }
{
    let before = written(alloc, pool)?;
    if pool.reserve(1).is_ok() {
        return Ok(false);
    }
    compare(alloc, pool, &before)?;
    match pool.reserve(1) {
        Ok(()) => Ok(true),
        Err(_) => Err(Stop::Changed),
    }
}

/// Compares the pool with its text before.
fn compare(alloc: Global, pool: &Pool, before: &str) -> Result<(), Stop> {
    if written(alloc, pool)?.as_str() != before {
        return Err(Stop::Changed);
    }
    Ok(())
}

/// Compares the journal and all answers with those of a pool that is replayed from the text.
fn compare_with_replayed(alloc: Global, pool: &Pool, text: &[u8]) -> Result<(), Stop> {
    let (layout, entries) = journal_of(alloc, text)?;
    let Ok(replayed) = Pool::replay(alloc, layout, entries) else {
        return Err(Stop::Outside);
    };
    if answers(alloc, pool)? != answers(alloc, &replayed)? {
        return Err(Stop::Changed);
    }
    Ok(())
}

/// Returns the pool as `Debug` writes it, tried again if memory is refused.
fn written(alloc: Global, pool: &Pool) -> Result<String, Stop> {
    for _ in 0..TRIES {
        if let Some(text) = written_once(alloc, pool) {
            return Ok(text);
        }
    }
    Err(Stop::Outside)
}

/// Returns the pool as `Debug` writes it; None if memory is refused.
fn written_once(alloc: Global, pool: &Pool) -> Option<String> {
    let mut text = String::with_capacity(alloc, 1 << 14).ok()?;
    write!(text, "{pool:?}").ok()?;
    Some(text)
}

/// Returns the text of the pool's journal and answers, tried again if memory is refused.
fn answers(alloc: Global, pool: &Pool) -> Result<String, Stop> {
    for _ in 0..TRIES {
        if let Some(text) = answers_once(alloc, pool) {
            return Ok(text);
        }
    }
    Err(Stop::Outside)
}

/// Returns the text of the pool's journal and answers; None if memory is refused.
fn answers_once(alloc: Global, pool: &Pool) -> Option<String> {
    let mut text = String::with_capacity(alloc, 1 << 14).ok()?;
    write!(text, "{:?} {}", pool.journal(), pool.is_stopped()).ok()?;
    write!(text, " {:?}", pool.next_for(None)).ok()?;
    for frame in 0..FRAMES {
        write!(text, " {:?}", pool.next_for(Some(frame))).ok()?;
    }
    for page in 0..pool.layout().pages {
        let resident = pool.is_resident(page);
        write!(text, " {resident} {:?}", pool.victim(page)).ok()?;
    }
    Some(text)
}
