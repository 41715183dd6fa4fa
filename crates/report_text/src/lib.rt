//! The texts of reports: of a frame, of a journal and of a picture.
//!
//! A report is the texts of its frames in order and then the journal's: `specs/Report`. Each line of a frame
//! begins with `# `, which a journal takes for a comment, so a report reads back as its journal
//! ([`report_reads_back`]). On `Memory` nothing is returned.
#![tactic(auto)]

mod event_texts;
mod frame_records;
mod frame_texts;
mod journal_texts;
mod line_fields;
mod picture_texts;
mod round_trips;

pub use frame_records::{FrameRecord, PictureRows};
pub use frame_texts::frame_text;
pub use journal_texts::journal_text;
pub use picture_texts::picture_text;
pub use round_trips::report_reads_back;
