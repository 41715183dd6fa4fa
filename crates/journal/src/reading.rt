ghost use Rattle.std.specs.Prelude.{◌≡◌, ◌<◌, ◌∷◌, Err, IfOk, MatchOption, Ok, [], length, ℕ};
ghost use Rattle.journal.specs.Layout.{InBounds};
ghost use Rattle.std.specs.List.{All};
ghost use Rattle.journal.specs.Typed.{IsTyped};
ghost use Rattle.journal.specs.Grammar.{is_comment, journal_of, lines_of, with_line};
ghost use Rattle.journal.specs.LineResult.{line_result};
ghost use Rattle.journal.specs.declared.reading.LineResult.TheVariants as LineResult;

use crate::fields::{Fields, cut_at};
use crate::journal_builder::JournalBuilder;
use crate::journals::{Journal, JournalFault};
use geom_core::Memory;
use std::alloc::Global;

/// What one line of a text is, given the lines before it.
#[derive(Drop)]
pub enum LineResult {
    /// A comment: what was read so far stays as it is.
    Comment,
    /// A line of the grammar: what was read so far, with this line.
    Accepted(JournalBuilder),
    /// A line outside the grammar, or out of order.
    Bad,
}

/// Returns the first line of a text without its LF, and the text after it; None if the text is empty.
fn first_line(text: &[u8]) -> Option<(&[u8], &[u8])>
    ensures line { MatchOption result (lines_of text.now ≡ [])
        (λ found. lines_of text.now ≡ found.0.now ∷ lines_of found.1.now) }
    ensures shorter { MatchOption result (length text.now ≡ 0)
        (λ found. length found.1.now < length text.now) }
{
    if text.is_empty() {
        return None;
    }
    let (line, rest) = cut_at(text, b'\n');
    match rest {
        Some(rest) => Some((line, rest)),
        None => Some((line, &[])),
    }
}

/// Whether the line begins with `#`.
fn is_comment(text: &[u8]) -> bool
    ensures { result ≡ is_comment text.now }
{
    match text {
        [first, ..] => *first == b'#',
        [] => false,
    }
}

/// Returns the journal so far with the line of these fields, or None if the line is not in the grammar.
#[tactic(auto, unfolding(crate::specs::Grammar::with_line))]
fn with_line(
    alloc: Global,
    so_far: Option<JournalBuilder>,
    fields: Fields,
) -> Result<Option<JournalBuilder>, Memory>
    ensures { IfOk result (λ found. found ≡ with_line so_far fields.entry) }
{
    match so_far {
        None => Ok(JournalBuilder::from_layout_line(alloc, fields)),
        Some(builder) => match fields.reborrow().after_word(b"upper") {
            Some(rest) => builder.with_upper(alloc, rest),
            None => builder.with_entry(alloc, fields),
        },
    }
}

/// Reads one line. Moves the journal so far into the answer, unless the line is a comment.
#[tactic(auto, unfolding(crate::specs::LineResult::line_result))]
fn read_line(
    alloc: Global,
    so_far: &mut Option<JournalBuilder>,
    text: &[u8],
) -> Result<LineResult, Memory>
    ensures line_result { IfOk result (λ read. read ≡ line_result so_far.old text.now) }
    ensures unchanged { result ≡ Ok LineResult.Comment → so_far.new ≡ so_far.old }
{
    if is_comment(text) {
        return Ok(LineResult::Comment);
    }
    match with_line(alloc, so_far.take(), Fields::from_line(text))? {
        Some(builder) => Ok(LineResult::Accepted(builder)),
        None => Ok(LineResult::Bad),
    }
}

/// Reads the journal that a text spells, in one pass over its lines.
///
/// The first line is `layout PAGES ROOTS SLOTS`, with 1 to `MAX_PAGES` pages, 1 to PAGES root pages,
/// and ROOTS to `MAX_PAGES` slots. Then each page P that has uppers has a line `upper P L`, in ascending
/// order of P; the uppers L of a page ascend and are below P. Then each entry has a line, which begins
/// with its maker's number:
///
/// | Entry | After the maker's number |
/// |---|---|
/// | `Pin`, `Unpin`, `Full` | `pin F`, `unpin F`, `full F` |
/// | `Settle` | `settle F pages L missing L` |
/// | `Ask`, `Narrow` | `ask F pages L`, `narrow F pages L` |
/// | `Take` | `take F P VICTIM`, with `-` for no frame and for no victim |
/// | `Install` | `install P DIGEST` |
/// | `Fail` | `fail P BEFORE AFTER` |
/// | `Spoil` | `spoil P digest STATED FOUND`, `spoil P grammar RULE OFFSET`, `spoil P short GOT` |
/// | `Starve` | `starve P` |
/// | `Stop` | `stop` |
///
/// Single spaces separate the fields of a line, and a line has no other blank. A number is decimal,
/// without a sign or a leading zero, and within its type; a digest has 64 lower-case hexadecimal digits;
/// a list L has numbers, or is `-` if it is empty. LF ends a line; the last line may lack it. A line that
/// begins with `#` is a comment: it may be anywhere, changes nothing, and counts as a line. Whether the
/// pool's rules allow an entry is not checked here.
///
/// Returns `Line` for the first line outside the grammar. `Memory` may come at any line. The memory taken
/// grows with the text and with the number of pages.
pub fn read_journal(alloc: Global, text: &[u8]) -> Result<Journal, JournalFault>
    ensures read { IfOk result (λ journal. journal_of text.now ≡ Ok journal) }
    ensures in_bounds { IfOk result (λ journal. InBounds journal.layout) }
    ensures typed { IfOk result (λ journal. All IsTyped journal.entries) }
    ensures outside { (line : ℕ) → result ≡ Err (JournalFault.Line line) →
        journal_of text.now ≡ Err line }
{
    let mut so_far = None;
    let mut line = 1;
    let mut left = text;
    while let Some((this, rest)) = first_line(left) {
        match read_line(alloc, &mut so_far, this)? {
            LineResult::Comment => {}
            LineResult::Accepted(builder) => so_far = Some(builder),
            LineResult::Bad => return Err(JournalFault::Line { line }),
        }
        line += 1;
        left = rest;
    }
    match so_far {
        Some(builder) => Ok(builder.build(alloc)?),
        None => Err(JournalFault::Line { line }),
    }
}

#[cfg(test)]
mod tests {
    use super::*;
    use crate::entries::{Spoilt, What};
    use std::alloc::Global;
    use std::test::Fail;

    /// Returns the entry of a line, as `Debug` prints it.
    fn entry_read(alloc: Global, line: &str) -> Result<String, Fail> {
        let text = format!(in alloc; "layout 9 1 4\n{line}\n")?;
        let journal = read_journal(alloc, text.as_bytes())?;
        let entry = journal.entries.as_slice().first().ok_or("no entry")?;
        Ok(format!(in alloc; "{entry:?}")?)
    }

    #[test]
    fn each_kind_of_entry_is_read(rt: HostRuntime) -> Result<(), Fail> {
        let cases = [
            ("0 pin 7", "Entry { by: 0, what: Pin { frame: 7 } }"),
            (
                "0 settle 7 pages 0 1 missing 3",
                "Entry { by: 0, what: Settle { frame: 7, pages: Nums { items: [0, 1] }, missing: Nums { items: [3] } } }",
            ),
            (
                "0 settle 7 pages - missing -",
                "Entry { by: 0, what: Settle { frame: 7, pages: Nums { items: [] }, missing: Nums { items: [] } } }",
            ),
            (
                "12 ask 1 pages 4 10",
                "Entry { by: 12, what: Ask { frame: 1, pages: Nums { items: [4, 10] } } }",
            ),
            (
                "0 narrow 7 pages -",
                "Entry { by: 0, what: Narrow { frame: 7, pages: Nums { items: [] } } }",
            ),
            ("0 unpin 7", "Entry { by: 0, what: Unpin { frame: 7 } }"),
            (
                "3 take 7 3 -",
                "Entry { by: 3, what: Take { frame: Some(7), page: 3, victim: None } }",
            ),
            (
                "3 take - 2 1",
                "Entry { by: 3, what: Take { frame: None, page: 2, victim: Some(1) } }",
            ),
            (
                "4 fail 2 0 18446744073709551615",
                "Entry { by: 4, what: Fail { page: 2, before: 0, after: 18446744073709551615 } }",
            ),
            (
                "4 spoil 2 grammar 255 65536",
                "Entry { by: 4, what: Spoil { page: 2, why: Grammar { rule: 255, offset: 65536 } } }",
            ),
            (
                "4 spoil 2 short 65504",
                "Entry { by: 4, what: Spoil { page: 2, why: Short { got: 65504 } } }",
            ),
            (
                "4 starve 4294967295",
                "Entry { by: 4, what: Starve { page: 4294967295 } }",
            ),
            ("0 full 7", "Entry { by: 0, what: Full { frame: 7 } }"),
            ("0 stop", "Entry { by: 0, what: Stop }"),
        ];
        for (line, want) in cases {
            let read = entry_read(rt.alloc(), line)?;
            assert_eq!(rt; read.as_str(), want, "{line}");
        }
        Ok(())
    }

    #[test]
    fn digests_are_read(rt: HostRuntime) -> Result<(), Fail> {
        let zeros = "0000000000000000000000000000000000000000000000000000000000000000";
        let other = "0123456789abcdef00000000000000000000000000000000000000000000ff10";
        let text = format!(in rt.alloc();
            "layout 9 1 4\n3 install 3 {other}\n4 spoil 2 digest {zeros} {other}"
        )?;
        let journal = read_journal(rt.alloc(), text.as_bytes())?;
        let entries = journal.entries.as_slice();
        assert_eq!(rt; entries.len(), 2);
        let want = [
            1, 35, 69, 103, 137, 171, 205, 239, 0, 0, 0, 0, 0, 0, 0, 0, 0, 0, 0, 0, 0, 0, 0, 0, 0,
            0, 0, 0, 0, 0, 255, 16,
        ];
        assert!(rt;
            matches!(&entries[0].what, What::Install { page: 3, digest } if digest.bytes == want)
        );
        let What::Spoil {
            page: 2,
            why: Spoilt::Digest { stated, found },
        } = &entries[1].what
        else {
            return Err("no spoilt digest".into());
        };
        assert_eq!(rt; stated.bytes, [0; 32]);
        assert_eq!(rt; found.bytes, want);
        Ok(())
    }

    #[test]
    fn layouts_are_read(rt: HostRuntime) -> Result<(), Fail> {
        let least = read_journal(rt.alloc(), b"layout 1 1 1")?;
        assert_eq!(rt;
            (least.layout.pages, least.layout.roots, least.layout.slots),
            (1, 1, 1)
        );
        assert_eq!(rt; least.entries.as_slice().len(), 0);

        let text =
            b"# five pages\nlayout 5 2 4\nupper 2 0 1\n#\nupper 4 2\n#\n0 pin 0\n# the end\n";
        let five = read_journal(rt.alloc(), text)?;
        assert_eq!(rt;
            (five.layout.pages, five.layout.roots, five.layout.slots),
            (5, 2, 4)
        );
        let uppers = five.layout.uppers.as_slice();
        let want = [[].as_slice(), &[], &[0, 1], &[], &[2]];
        assert_eq!(rt; uppers.len(), want.len());
        for (listed, want) in uppers.iter().zip(want) {
            assert_eq!(rt; listed.as_slice(), want);
        }
        assert_eq!(rt; five.entries.as_slice().len(), 1);

        let largest = read_journal(rt.alloc(), b"layout 1 1 8388608\n")?;
        assert_eq!(rt; largest.layout.slots, 8_388_608);
        Ok(())
    }

    #[test]
    fn want_of_memory_is_no_wrong_line(rt: HostRuntime) {
        let text =
            b"layout 5 2 4\nupper 4 2 3\n0 settle 7 pages 0 1 missing 3\n0 settle 7 pages - missing -\n0 ask 1 pages 4\n0 stop\n";
        match read_journal(rt.alloc(), text) {
            Ok(journal) => assert_eq!(rt; journal.entries.as_slice().len(), 4),
            Err(fault) => assert_eq!(rt; fault, JournalFault::Memory),
        }
    }

    #[test]
    fn other_lines_are_refused(rt: HostRuntime) {
        let cases = [
            ("no line", "", 1),
            ("a comment alone", "# nothing", 2),
            ("a comment and its LF", "# nothing\n", 2),
            ("an empty line", "\nlayout 1 1 1", 1),
            ("an entry before the layout", "0 stop\nlayout 1 1 1", 1),
            (
                "the layout behind two comments",
                "#\n# layout 1 1 1\nlayout 1 1",
                3,
            ),
            ("no page", "layout 0 0 0", 1),
            ("no root page", "layout 1 0 1", 1),
            ("more root pages than pages", "layout 1 2 2", 1),
            ("slots below the root pages", "layout 3 2 1", 1),
            ("too many pages", "layout 8388609 1 1", 1),
            ("too many slots", "layout 1 1 8388609", 1),
            ("four numbers", "layout 1 1 1 1", 1),
            ("a second layout", "layout 1 1 1\nlayout 1 1 1", 2),
            ("a leading zero", "layout 1 1 1\n0 pin 01", 2),
            ("a leading zero of the maker", "layout 1 1 1\n00 pin 1", 2),
            ("a sign", "layout 1 1 1\n0 pin +1", 2),
            ("a number without digits", "layout 1 1 1\n0 pin -", 2),
            ("a frame past 32 bits", "layout 1 1 1\n0 pin 4294967296", 2),
            (
                "a count past 64 bits",
                "layout 1 1 1\n0 fail 0 0 18446744073709551616",
                2,
            ),
            (
                "a rule past 8 bits",
                "layout 1 1 1\n0 spoil 0 grammar 256 0",
                2,
            ),
            ("two spaces", "layout 1 1 1\n0 pin  1", 2),
            ("a tab", "layout 1 1 1\n0\tpin 1", 2),
            ("a blank in front", "layout 1 1 1\n 0 pin 1", 2),
            ("a blank at the end", "layout 1 1 1\n0 pin 1 ", 2),
            ("a blank line", "layout 1 1 1\n ", 2),
            ("a comment behind a blank", "layout 1 1 1\n #", 2),
            ("a CR before the LF", "layout 1 1 1\n0 pin 1\r\n", 2),
            ("a CR behind the layout", "layout 1 1 1\r\n", 1),
            ("an empty line in the middle", "layout 1 1 1\n\n0 stop", 2),
            ("an empty line at the end", "layout 1 1 1\n0 stop\n\n", 3),
            ("no word", "layout 1 1 1\n0", 2),
            ("another word", "layout 1 1 1\n0 pins 1", 2),
            ("a word in upper case", "layout 1 1 1\n0 Pin 1", 2),
            ("a field too few", "layout 1 1 1\n0 take - 1", 2),
            ("a field too many", "layout 1 1 1\n0 stop 1", 2),
            ("a page that is missing", "layout 1 1 1\n0 take 1 - 1", 2),
            ("a list without `-`", "layout 1 1 1\n0 ask 1 pages", 2),
            ("`-` before a number", "layout 1 1 1\n0 ask 1 pages - 1", 2),
            ("no `pages`", "layout 1 1 1\n0 narrow 1 1", 2),
            ("no `missing`", "layout 1 1 1\n0 settle 1 pages 1", 2),
            (
                "nothing before `missing`",
                "layout 1 1 1\n0 settle 1 pages missing 1",
                2,
            ),
            (
                "nothing behind `missing`",
                "layout 1 1 1\n0 settle 1 pages 1 missing",
                2,
            ),
            (
                "`missing` twice",
                "layout 1 1 1\n0 settle 1 pages 1 missing 2 missing 3",
                2,
            ),
            (
                "`-` and a number before `missing`",
                "layout 1 1 1\n0 settle 1 pages - 1 missing 2",
                2,
            ),
            ("an upper of itself", "layout 3 1 3\nupper 1 1", 2),
            ("an upper above its page", "layout 3 1 3\nupper 1 2", 2),
            ("uppers that fall", "layout 3 1 3\nupper 2 1 0", 2),
            ("an upper twice", "layout 3 1 3\nupper 2 1 1", 2),
            ("uppers of no page", "layout 3 1 3\nupper 3 0", 2),
            ("no uppers", "layout 3 1 3\nupper 2 -", 2),
            ("pages that fall", "layout 3 1 3\nupper 2 0\nupper 1 0", 3),
            ("a page twice", "layout 3 1 3\nupper 1 0\n#\nupper 1 0", 4),
            (
                "uppers behind an entry",
                "layout 3 1 3\n0 stop\nupper 1 0",
                3,
            ),
            (
                "a digest in upper case",
                "layout 1 1 1\n0 install 0 000000000000000000000000000000000000000000000000000000000000000A",
                2,
            ),
            (
                "a digest of 63 digits",
                "layout 1 1 1\n0 install 0 000000000000000000000000000000000000000000000000000000000000000",
                2,
            ),
            (
                "a digest of 66 digits",
                "layout 1 1 1\n0 install 0 000000000000000000000000000000000000000000000000000000000000000000",
                2,
            ),
            ("the first of two", "layout 1 1 1\n0 pin 01\n0 pin 02", 2),
        ];
        for (name, text, line) in cases {
            let fault = read_journal(rt.alloc(), text.as_bytes()).err();
            assert_eq!(rt; fault, Some(JournalFault::Line { line }), "{name}");
        }
    }
}
