ghost use Rattle.std.specs.Prelude.{◌≡◌, IfOk};
ghost use Rattle.journal.specs.Grammar.{entry_of, fail_of, install_of, frame_and_pages_of, single_number_of, event_without_list_of, settle_of, spoil_of, spoilt_digest_of, spoilt_grammar_of, spoilt_of, spoilt_short_of, stop_of, take_of, event_of};

use crate::entries::{Entry, Spoilt, What};
use crate::fields::{Fields, is_word};
use crate::numbers::{parse_digest, parse_u8, parse_u32, parse_u32_or_dash, parse_u64};
use crate::page_lists::{pages_until_missing, parse_pages};
use geom_core::{Memory, Nums};
use std::alloc::Global;

/// Returns the number of a line's rest that is one number: `F` or `P`.
#[tactic(auto, unfolding(crate::specs::Grammar::single_number_of))]
fn single_number(fields: Fields) -> Option<u32>
    ensures { result ≡ single_number_of fields.entry }
{
    parse_u32(fields.single()?)
}

/// Returns the Take of `F P V`.
#[tactic(auto, unfolding(crate::specs::Grammar::take_of))]
fn parse_take(fields: Fields) -> Option<What>
    ensures { result ≡ take_of fields.entry }
{
    let (first, second, third) = fields.triple()?;
    Some(What::Take {
        frame: parse_u32_or_dash(first)?.number(),
        page: parse_u32(second)?,
        victim: parse_u32_or_dash(third)?.number(),
    })
}

/// Returns the Install of `P DIGEST`.
#[tactic(auto, unfolding(crate::specs::Grammar::install_of))]
fn parse_install(fields: Fields) -> Option<What>
    ensures { result ≡ install_of fields.entry }
{
    let (first, second) = fields.pair()?;
    Some(What::Install {
        page: parse_u32(first)?,
        digest: parse_digest(second)?,
    })
}

/// Returns the Fail of `P BEFORE AFTER`.
#[tactic(auto, unfolding(crate::specs::Grammar::fail_of))]
fn parse_fail(fields: Fields) -> Option<What>
    ensures { result ≡ fail_of fields.entry }
{
    let (first, second, third) = fields.triple()?;
    Some(What::Fail {
        page: parse_u32(first)?,
        before: parse_u64(second)?,
        after: parse_u64(third)?,
    })
}

/// Returns the digests of `STATED FOUND`.
#[tactic(auto, unfolding(crate::specs::Grammar::spoilt_digest_of))]
fn parse_spoilt_digest(fields: Fields) -> Option<Spoilt>
    ensures { result ≡ spoilt_digest_of fields.entry }
{
    let (first, second) = fields.pair()?;
    Some(Spoilt::Digest {
        stated: parse_digest(first)?,
        found: parse_digest(second)?,
    })
}

/// Returns the broken rule of `RULE OFFSET`.
#[tactic(auto, unfolding(crate::specs::Grammar::spoilt_grammar_of))]
fn parse_spoilt_grammar(fields: Fields) -> Option<Spoilt>
    ensures { result ≡ spoilt_grammar_of fields.entry }
{
    let (first, second) = fields.pair()?;
    Some(Spoilt::Grammar {
        rule: parse_u8(first)?,
        offset: parse_u32(second)?,
    })
}

/// Returns the number of bytes of `GOT`.
#[tactic(auto, unfolding(crate::specs::Grammar::spoilt_short_of))]
fn parse_spoilt_short(fields: Fields) -> Option<Spoilt>
    ensures { result ≡ spoilt_short_of fields.entry }
{
    Some(Spoilt::Short {
        got: parse_u32(fields.single()?)?,
    })
}

/// Returns what was wrong with the bytes, from the word and the fields after it.
#[tactic(auto, unfolding(crate::specs::Grammar::spoilt_of))]
fn parse_spoilt(word: &[u8], fields: Fields) -> Option<Spoilt>
    ensures { result ≡ spoilt_of word.now fields.entry }
{
    if is_word(word, b"digest") {
        parse_spoilt_digest(fields)
    } else if is_word(word, b"grammar") {
        parse_spoilt_grammar(fields)
    } else if is_word(word, b"short") {
        parse_spoilt_short(fields)
    } else {
        None
    }
}

/// Returns the Spoil of `P` and what was wrong with the bytes.
#[tactic(auto, unfolding(crate::specs::Grammar::spoil_of))]
fn parse_spoil(fields: Fields) -> Option<What>
    ensures { result ≡ spoil_of fields.entry }
{
    let (field, rest) = fields.split_first()?;
    let page = parse_u32(field)?;
    let (word, more) = rest.split_first()?;
    Some(What::Spoil {
        page,
        why: parse_spoilt(word, more)?,
    })
}

/// Returns a Stop if no field is left.
fn parse_stop(fields: Fields) -> Option<What>
    ensures { result ≡ stop_of fields.entry }
{
    if fields.is_empty() {
        Some(What::Stop)
    } else {
        None
    }
}

/// Returns the frame and the list of `F pages L`.
#[tactic(auto, unfolding(crate::specs::Grammar::frame_and_pages_of))]
fn frame_and_pages(alloc: Global, fields: Fields) -> Result<Option<(u32, Nums)>, Memory>
    ensures { IfOk result (λ found. found ≡ frame_and_pages_of fields.entry) }
{
    let Some((field, rest)) = fields.split_first() else {
        return Ok(None);
    };
    let (Some(frame), Some(list)) = (parse_u32(field), rest.after_word(b"pages")) else {
        return Ok(None);
    };
    Ok(parse_pages(alloc, list)?.map(|pages| (frame, pages)))
}

/// Returns the Settle of `F pages L missing L`.
#[tactic(auto, unfolding(crate::specs::Grammar::settle_of))]
fn parse_settle(alloc: Global, fields: Fields) -> Result<Option<What>, Memory>
    ensures { IfOk result (λ found. found ≡ settle_of fields.entry) }
{
    let Some((field, rest)) = fields.split_first() else {
        return Ok(None);
    };
    let (Some(frame), Some(lists)) = (parse_u32(field), rest.after_word(b"pages")) else {
        return Ok(None);
    };
    let Some((present, awaited)) = pages_until_missing(alloc, lists)? else {
        return Ok(None);
    };
    Ok(parse_pages(alloc, awaited)?.map(|missing| What::Settle {
        frame,
        pages: present,
        missing,
    }))
}

/// Returns the event of a word that no list of pages follows.
#[tactic(auto, unfolding(crate::specs::Grammar::event_without_list_of))]
fn parse_event_without_list(word: &[u8], fields: Fields) -> Option<What>
    ensures { result ≡ event_without_list_of word.now fields.entry }
{
    if is_word(word, b"pin") {
        Some(What::Pin {
            frame: single_number(fields)?,
        })
    } else if is_word(word, b"unpin") {
        Some(What::Unpin {
            frame: single_number(fields)?,
        })
    } else if is_word(word, b"take") {
        parse_take(fields)
    } else if is_word(word, b"install") {
        parse_install(fields)
    } else if is_word(word, b"fail") {
        parse_fail(fields)
    } else if is_word(word, b"spoil") {
        parse_spoil(fields)
    } else if is_word(word, b"starve") {
        Some(What::Starve {
            page: single_number(fields)?,
        })
    } else if is_word(word, b"full") {
        Some(What::Full {
            frame: single_number(fields)?,
        })
    } else if is_word(word, b"stop") {
        parse_stop(fields)
    } else {
        None
    }
}

/// Returns the event of a word and the fields after it.
#[tactic(auto, unfolding(crate::specs::Grammar::event_of))]
fn parse_event(alloc: Global, word: &[u8], fields: Fields) -> Result<Option<What>, Memory>
    ensures { IfOk result (λ found. found ≡ event_of word.now fields.entry) }
{
    if is_word(word, b"settle") {
        parse_settle(alloc, fields)
    } else if is_word(word, b"ask") {
        Ok(frame_and_pages(alloc, fields)?.map(|(frame, pages)| What::Ask { frame, pages }))
    } else if is_word(word, b"narrow") {
        Ok(frame_and_pages(alloc, fields)?.map(|(frame, pages)| What::Narrow { frame, pages }))
    } else {
        Ok(parse_event_without_list(word, fields))
    }
}

/// Returns the entry of a line: its maker's number and the event. None if the line is not in the grammar.
#[tactic(auto, unfolding(crate::specs::Grammar::entry_of))]
pub fn parse_entry(alloc: Global, fields: Fields) -> Result<Option<Entry>, Memory>
    ensures { IfOk result (λ found. found ≡ entry_of fields.entry) }
{
    let Some((field, rest)) = fields.split_first() else {
        return Ok(None);
    };
    let (Some(by), Some((word, more))) = (parse_u32(field), rest.split_first()) else {
        return Ok(None);
    };
    Ok(parse_event(alloc, word, more)?.map(|what| Entry { by, what }))
}
