ghost use Rattle.std.specs.Prelude.{◌≡◌, ◌++◌, ◌∷◌, [], OnOk, codes};
ghost use Rattle.std.specs.Fmt.{decimal};
ghost use Rattle.journal.specs.Spelling.{event_fields, list_fields, spoilt_fields};
ghost use Rattle.journal.specs.declared.entries.What.TheVariants as event;
ghost use Rattle.report_text.specs.Internal.Spaced.{spaced};

use crate::line_fields::{
    push_digest, push_number, push_number_or_dash, push_word, push_word_and_list,
    push_word_and_number,
};
use geom_core::{Digest32, Memory};
use journal::{Spoilt, What};

/// Appends the word of an event and its fields, each after a space.
pub(crate) fn push_event(text: &mut Vec<u8>, what: &What) -> Result<(), Memory>
    ensures { OnOk result (text.new.items ≡ text.old.items ++ spaced (event_fields what.now)) }
{
    match what {
        What::Pin { frame } => push_word_and_number(text, b"pin", u64::from(*frame)),
        What::Settle {
            frame,
            pages,
            missing,
        } => push_settle(text, *frame, pages.as_slice(), missing.as_slice()),
        What::Ask { frame, pages } => push_pages(text, b"ask", *frame, pages.as_slice()),
        What::Narrow { frame, pages } => push_pages(text, b"narrow", *frame, pages.as_slice()),
        What::Unpin { frame } => push_word_and_number(text, b"unpin", u64::from(*frame)),
        What::Take {
            frame,
            page,
            victim,
        } => push_take(text, *frame, *page, *victim),
        What::Install { page, digest } => push_install(text, *page, *digest),
        What::Fail {
            page,
            before,
            after,
        } => push_fail(text, *page, *before, *after),
        What::Spoil { page, why } => push_spoil(text, *page, *why),
        What::Starve { page } => push_word_and_number(text, b"starve", u64::from(*page)),
        What::Full { frame } => push_word_and_number(text, b"full", u64::from(*frame)),
        What::Stop => push_word(text, b"stop"),
    }
}

/// Appends the word of an event, a frame, and the list of its pages.
fn push_pages(text: &mut Vec<u8>, word: &[u8], frame: u32, pages: &[u32]) -> Result<(), Memory>
    ensures { OnOk result (text.new.items ≡ text.old.items
        ++ spaced (word.now ∷ decimal frame ∷ codes "pages" ∷ list_fields pages.now)) }
{
    push_word_and_number(text, word, frame.into())?;
    push_word_and_list(text, b"pages", pages)
}

/// Appends a Settle.
fn push_settle(text: &mut Vec<u8>, frame: u32, pages: &[u32], missing: &[u32]) -> Result<(), Memory>
    ensures { OnOk result (text.new.items
        ≡ text.old.items ++ spaced (event_fields (event.Settle frame pages.now missing.now))) }
{
    push_pages(text, b"settle", frame, pages)?;
    push_word_and_list(text, b"missing", missing)
}

/// Appends a Take.
fn push_take(
    text: &mut Vec<u8>,
    frame: Option<u32>,
    page: u32,
    victim: Option<u32>,
) -> Result<(), Memory>
    ensures { OnOk result (text.new.items
        ≡ text.old.items ++ spaced (event_fields (event.Take frame page victim))) }
{
    push_word(text, b"take")?;
    push_number_or_dash(text, frame)?;
    push_number(text, page.into())?;
    push_number_or_dash(text, victim)
}

/// Appends an Install.
fn push_install(text: &mut Vec<u8>, page: u32, digest: Digest32) -> Result<(), Memory>
    ensures { OnOk result (text.new.items
        ≡ text.old.items ++ spaced (event_fields (event.Install page digest))) }
{
    push_word_and_number(text, b"install", page.into())?;
    push_digest(text, digest)
}

/// Appends a Fail.
fn push_fail(text: &mut Vec<u8>, page: u32, before: u64, after: u64) -> Result<(), Memory>
    ensures { OnOk result (text.new.items
        ≡ text.old.items ++ spaced (event_fields (event.Fail page before after))) }
{
    push_word_and_number(text, b"fail", page.into())?;
    push_number(text, before)?;
    push_number(text, after)
}

/// Appends a Spoil.
fn push_spoil(text: &mut Vec<u8>, page: u32, why: Spoilt) -> Result<(), Memory>
    ensures { OnOk result (text.new.items
        ≡ text.old.items ++ spaced (event_fields (event.Spoil page why))) }
{
    push_word_and_number(text, b"spoil", page.into())?;
    push_spoilt(text, why)
}

/// Appends what was wrong with a page's bytes.
fn push_spoilt(text: &mut Vec<u8>, why: Spoilt) -> Result<(), Memory>
    ensures { OnOk result (text.new.items ≡ text.old.items ++ spaced (spoilt_fields why)) }
{
    match why {
        Spoilt::Digest { stated, found } => {
            push_word(text, b"digest")?;
            push_digest(text, stated)?;
            push_digest(text, found)
        }
        Spoilt::Grammar { rule, offset } => {
            push_word(text, b"grammar")?;
            push_number(text, rule.into())?;
            push_number(text, offset.into())
        }
        Spoilt::Short { got } => push_word_and_number(text, b"short", got.into()),
    }
}
