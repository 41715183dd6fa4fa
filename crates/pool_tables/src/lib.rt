//! The tables of the page pool: what is kept of each page, of each frame and of the wants.
//!
//! Internal to `residency`; nothing here is public API. Each table is proved to say what the fold of the
//! journal in `pool_rules` says of its part of the state.
//!
//! On `Memory` the value is unchanged unless the item says otherwise.
#![tactic(auto)]

mod ascending;
mod explicit_pins;
mod frame_item;
mod frames;
mod free_pages;
mod makers;
mod page_list;
mod page_record;
mod page_table;
mod pin_moves;
mod queued_want;
mod snapshot;
mod want_rules;
mod wants;

pub use ascending::{is_among_ascending, place_among};
pub use explicit_pins::ExplicitPins;
pub use frame_item::{FrameId, FrameItem};
pub use frames::FrameTable;
pub use makers::MakerTable;
pub use page_list::{PageList, PagesLeft};
pub use page_record::{MakerId, NO_RECORD, PageRecord, is_in_snapshot, opening_record};
pub use page_table::PageTable;
pub use pin_moves::{pin_each, unpin_item};
pub use queued_want::QueuedWant;
pub use wants::WantList;
