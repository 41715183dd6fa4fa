ghost use Rattle.std.specs.Prelude.{◌≡◌, List, Ok};
ghost use Rattle.std.specs.List.{All};
ghost use Rattle.journal.specs.Layout.{InBounds};
ghost use Rattle.journal.specs.Grammar.{journal_of};
ghost use Rattle.journal.specs.Typed.{IsTyped};
ghost use Rattle.journal.specs.declared.entries.Entry.{Entry};
ghost use Rattle.journal.specs.declared.layouts.Layout.{Layout};
ghost use Rattle.report_text.specs.Report.{report_of};
ghost use Rattle.report_text.specs.declared.frame_records.FrameRecord.{FrameRecord};

/// A report reads back: whatever its frames, the text spells the journal at its end, so no line of a frame is
/// judged. The layout is in bounds and the entries' numbers are within their types.
#[tactic(auto, using(crate::proofs::ReadBack::report_reads_back))]
pub fn report_reads_back()
    ensures { (records : List FrameRecord) (layout : Layout) (entries : List Entry) →
        InBounds layout → All IsTyped entries →
        journal_of (report_of records layout entries) ≡
        Ok (record { layout = layout; entries = entries }) }
{}
