ghost use Rattle.std.specs.Prelude.{◌≡◌, List, Ok};
ghost use Rattle.std.specs.List.{All};
ghost use Rattle.journal.specs.Layout.{InBounds};
ghost use Rattle.journal.specs.Grammar.{journal_of};
ghost use Rattle.journal.specs.Spelling.{journal_bytes};
ghost use Rattle.journal.specs.Typed.{IsTyped};
ghost use Rattle.journal.specs.declared.entries.Entry.{Entry};
ghost use Rattle.journal.specs.declared.layouts.Layout.{Layout};

/// What is printed reads back: the text of a layout in bounds and of entries whose numbers are within
/// their types spells that layout and those entries.
#[tactic(auto, using(crate::proofs::PrintedJournal::reads_back))]
pub fn printed_journal_reads_back()
    ensures { (layout : Layout) (entries : List Entry) → InBounds layout → All IsTyped entries →
        journal_of (journal_bytes layout entries) ≡
        Ok (record { layout = layout; entries = entries }) }
{}
