ghost use Rattle.std.specs.Prelude.{◌≡◌, ◌++◌, ◌∷◌, [], IfOk, OnOk, map};
ghost use Rattle.std.specs.Fmt.{decimal};
ghost use Rattle.std.specs.List.{concat};
ghost use Rattle.journal.specs.Spelling.{journal_bytes, layout_fields, upper_lines};
ghost use Rattle.journal.specs.Spelling.{entry_fields, line_text};
ghost use Rattle.report_text.specs.Internal.Spaced.{spaced};

use crate::event_texts::push_event;
use crate::line_fields::{push_decimal, push_number, push_numbers};
use geom_core::{Memory, Nums};
use journal::{Entry, Layout};
use std::alloc::Global;

/// Returns the text of a journal, which `journal::read_journal` reads: the line of the layout, a line for the
/// uppers of each page that has some, and a line for each entry.
pub fn journal_text(alloc: Global, layout: &Layout, entries: &[Entry]) -> Result<Vec<u8>, Memory>
    ensures { IfOk result (λ text. text.items ≡ journal_bytes layout.now entries.now) }
{
    let mut text = Vec::new(alloc);
    push_layout(&mut text, layout)?;
    push_uppers(&mut text, layout.uppers.as_slice())?;
    push_entries(&mut text, entries)?;
    Ok(text)
}

/// Appends the line of the layout.
fn push_layout(text: &mut Vec<u8>, layout: &Layout) -> Result<(), Memory>
    ensures { OnOk result
        (text.new.items ≡ text.old.items ++ line_text (layout_fields layout.now)) }
{
    text.extend_from_slice(b"layout")?;
    push_number(text, layout.pages.into())?;
    push_number(text, layout.roots.into())?;
    push_number(text, layout.slots.into())?;
    text.push(b'\n')?;
    Ok(())
}

/// Appends the line of each page that has uppers, by page.
fn push_uppers(text: &mut Vec<u8>, uppers: &[Nums]) -> Result<(), Memory>
    ensures { OnOk result (text.new.items
        ≡ text.old.items ++ concat (map line_text (upper_lines 0 uppers.now))) }
{
    for (page, listed) in uppers.iter().enumerate() {
        push_upper(text, page as u64, listed.as_slice())?;
    }
    Ok(())
}

/// Appends the line of a page's uppers if it has some.
fn push_upper(text: &mut Vec<u8>, page: u64, listed: &[u32]) -> Result<(), Memory>
    ensures { OnOk result (text.new.items
        ≡ text.old.items ++ concat (map line_text (upper_lines page (listed.now ∷ [])))) }
{
    if listed.is_empty() {
        return Ok(());
    }
    text.extend_from_slice(b"upper")?;
    push_number(text, page)?;
    push_numbers(text, listed)?;
    text.push(b'\n')?;
    Ok(())
}

/// Appends the line of each entry.
fn push_entries(text: &mut Vec<u8>, entries: &[Entry]) -> Result<(), Memory>
    ensures { OnOk result (text.new.items
        ≡ text.old.items ++ concat (map line_text (map entry_fields entries.now))) }
{
    for entry in entries {
        push_entry(text, entry)?;
    }
    Ok(())
}

/// Appends the line of an entry.
fn push_entry(text: &mut Vec<u8>, entry: &Entry) -> Result<(), Memory>
    ensures { OnOk result
        (text.new.items ≡ text.old.items ++ line_text (entry_fields entry.now)) }
{
    push_decimal(text, entry.by.into())?;
    push_event(text, &entry.what)?;
    text.push(b'\n')?;
    Ok(())
}

#[cfg(test)]
mod tests {
    use super::*;
    use journal::read_journal;
    use std::test::Fail;

    #[test]
    fn journals_are_printed_as_they_were_read(rt: HostRuntime) -> Result<(), Fail> {
        let text = "layout 5 1 4\nupper 1 0\nupper 2 0 1\nupper 4 2\n0 pin 7\n\
            0 settle 7 pages 0 1 missing 3\n0 settle 7 pages - missing -\n12 ask 1 pages 4 10\n\
            0 narrow 7 pages -\n0 unpin 7\n3 take 7 3 -\n3 take - 2 1\n\
            3 install 3 0123456789abcdef00000000000000000000000000000000000000000000ff10\n\
            4 fail 2 0 18446744073709551615\n\
            4 spoil 2 digest 0123456789abcdef00000000000000000000000000000000000000000000ff10 \
            00000000000000000000000000000000000000000000000000000000000000a7\n\
            4 spoil 2 grammar 255 65536\n4 spoil 2 short 65504\n4 starve 4294967295\n0 full 7\n\
            0 stop\n";
        let journal = read_journal(rt.alloc(), text.as_bytes())?;
        let printed = journal_text(rt.alloc(), &journal.layout, journal.entries.as_slice())?;
        assert_eq!(rt; printed.as_slice(), text.as_bytes());
        Ok(())
    }
}
