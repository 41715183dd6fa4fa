ghost use Rattle.std.specs.Prelude.{◌≡◌, IfOk, OnOk};
ghost use Rattle.journal.specs.Grammar.{up_to};

use crate::entries::{Entries, Entry};
use crate::fields::Fields;
use crate::journals::Journal;
use crate::layouts::{Layout, Uppers};
use crate::lines::parse_entry;
use crate::numbers::parse_below;
use crate::page_lists::parse_some_numbers;
use crate::pages::ascends;
use geom_core::limits::MAX_PAGES;
use geom_core::{Memory, Nums};
use std::alloc::Global;
use std::marker::Model;

/// Appends an empty list for each page below `page` that has none yet.
fn pad_to(alloc: Global, uppers: &mut Vec<Nums>, page: usize) -> Result<(), Memory>
    ensures { OnOk result (uppers.new.items ≡ up_to uppers.old.items page) }
{
    for _ in uppers.len()..page {
        uppers.push(Nums::of(Vec::new(alloc)))?;
    }
    Ok(())
}

/// A journal that is read line by line. A contract sees a `Journal` whose list of uppers may end before
/// the last page.
#[derive(Drop)]
pub struct JournalBuilder {
    pages: u32,
    roots: u32,
    slots: u32,
    uppers: Vec<Nums>,
    entries: Vec<Entry>,
}

impl Model for JournalBuilder {
    ghost use Rattle.journal.specs.declared.journals.Journal.{Journal};

    ghost Value = { Journal };

    ghost view = { λ builder. record {
      layout = record { pages = builder.pages; roots = builder.roots; slots = builder.slots; uppers = builder.uppers.items };
      entries = builder.entries.items;
    } };
}

impl JournalBuilder {
    ghost use Rattle.std.specs.Prelude.{[]};
    ghost use Rattle.std.specs.Option.{option_map};
    ghost use Rattle.journal.specs.Grammar.{with_all_uppers, layout_of, with_entry, with_upper};

    /// Returns a journal without uppers and entries from the fields of `layout PAGES ROOTS SLOTS`, or None
    /// if they are not in the grammar.
    #[tactic(auto, unfolding(crate::specs::Grammar::layout_of))]
    pub fn from_layout_line(alloc: Global, fields: Fields) -> Option<JournalBuilder>
        ensures { result ≡
            option_map (λ layout. record { layout = layout; entries = [] }) (layout_of fields.entry) }
    {
        let (first, second, third) = fields.after_word(b"layout")?.triple()?;
        let pages = parse_below(first, u64::from(MAX_PAGES) + 1)?;
        let roots = parse_below(second, u64::from(pages) + 1)?;
        let slots = parse_below(third, u64::from(MAX_PAGES) + 1)?;
        if 1 <= roots && roots <= slots {
            Some(JournalBuilder {
                pages,
                roots,
                slots,
                uppers: Vec::new(alloc),
                entries: Vec::new(alloc),
            })
        } else {
            None
        }
    }

    /// Appends the uppers of a page, from the fields of an `upper` line after its first word: `P L`. Returns
    /// None if they are not in the grammar or out of order.
    #[tactic(auto, unfolding(crate::specs::Grammar::with_upper))]
    pub fn with_upper(
        mut self,
        alloc: Global,
        fields: Fields,
    ) -> Result<Option<JournalBuilder>, Memory>
        ensures { IfOk result (λ found. found ≡ with_upper self fields.entry) }
    {
        let Some((field, rest)) = fields.split_first() else {
            return Ok(None);
        };
        let Some(page) = parse_below(field, u64::from(self.pages)) else {
            return Ok(None);
        };
        let Some(listed) = parse_some_numbers(alloc, rest, u64::from(page))? else {
            return Ok(None);
        };
        if self.entries.is_empty()
            && self.uppers.len() <= page as usize
            && ascends(listed.as_slice())
        {
            pad_to(alloc, &mut self.uppers, page as usize)?;
            self.uppers.push(listed)?;
            Ok(Some(self))
        } else {
            Ok(None)
        }
    }

    /// Appends the entry of a line. Returns None if the line is not in the grammar.
    #[tactic(auto, unfolding(crate::specs::Grammar::with_entry))]
    pub fn with_entry(
        mut self,
        alloc: Global,
        fields: Fields,
    ) -> Result<Option<JournalBuilder>, Memory>
        ensures { IfOk result (λ found. found ≡ with_entry self fields.entry) }
    {
        let Some(entry) = parse_entry(alloc, fields)? else {
            return Ok(None);
        };
        self.entries.push(entry)?;
        Ok(Some(self))
    }

    /// Returns the journal; each page after the last `upper` line has no uppers.
    #[tactic(auto, unfolding(crate::specs::Grammar::with_all_uppers))]
    pub fn build(mut self, alloc: Global) -> Result<Journal, Memory>
        ensures { IfOk result (λ journal. journal ≡ with_all_uppers self) }
    {
        pad_to(alloc, &mut self.uppers, self.pages as usize)?;
        let JournalBuilder {
            pages,
            roots,
            slots,
            uppers,
            entries,
        } = self;
        let layout = Layout {
            pages,
            roots,
            slots,
            uppers: Uppers::of(uppers),
        };
        Ok(Journal {
            layout,
            entries: Entries::of(entries),
        })
    }
}
