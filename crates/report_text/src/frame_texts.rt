ghost use Rattle.std.specs.Prelude.{◌≡◌, ◌++◌, IfOk, OnOk, IfSome};
ghost use Rattle.std.specs.List.{join_with_byte, flat_map};
ghost use Rattle.report_text.specs.FrameText.{comment_line, frame_fields, count_fields, cut_fields};
ghost use Rattle.report_text.specs.FrameText.{row_texts, frame_text_of, HasWholeRows};
ghost use Rattle.report_text.specs.Internal.Spaced.{spaced};
ghost use Rattle.report_text.specs.PictureText.{row_text};

use crate::frame_records::{FrameRecord, PictureRows};
use crate::line_fields::{
    push_digest, push_list, push_number, push_word, push_word_and_list, push_word_and_number,
};
use crate::picture_texts::push_row;
use geom_core::Memory;
use std::alloc::Global;

/// Bytes of a word of a picture row in a text: 16 digits, and a space or a line feed.
const WORD_BYTES: usize = 17;

/// Bytes of `# ` at the beginning of a picture row's line.
const MARK_BYTES: usize = 2;

/// Returns the text of a frame: the line
/// `# frame F at A resident L missing L nodes N lit K sha256 DIGEST`, the line `# cut L`, and if the frame is
/// printed a line for each picture row, from the top down: `# `, then the row as in `picture_text`.
///
/// A list `L` is numbers separated by one space, or `-` if it is empty. The digest is 64 hexadecimal digits in
/// lower case.
#[tactic(auto, unfolding(crate::specs::FrameText::frame_text_of, crate::specs::FrameText::frame_lines))]
pub fn frame_text(alloc: Global, shown: &FrameRecord) -> Result<Vec<u8>, Memory>
    requires rows { IfSome shown.now.rows HasWholeRows }
    ensures { IfOk result (λ text. text.items ≡ frame_text_of shown.now) }
{
    let mut text = Vec::new(alloc);
    push_frame_line(&mut text, shown)?;
    push_cut_line(&mut text, shown)?;
    push_picture(&mut text, &shown.rows)?;
    Ok(text)
}

/// Appends the frame's first line.
fn push_frame_line(text: &mut Vec<u8>, shown: &FrameRecord) -> Result<(), Memory>
    ensures { OnOk result (text.new.items
        ≡ text.old.items ++ comment_line (join_with_byte 32 (frame_fields shown.now))) }
{
    text.extend_from_slice(b"# frame")?;
    push_number(text, shown.frame.into())?;
    push_word_and_number(text, b"at", shown.at)?;
    push_word_and_list(text, b"resident", shown.resident.as_slice())?;
    push_word_and_list(text, b"missing", shown.missing.as_slice())?;
    push_counts(text, shown)?;
    text.push(b'\n')?;
    Ok(())
}

/// Appends the numbers of nodes and of lit pixels, and the digest, each field after a space.
fn push_counts(text: &mut Vec<u8>, shown: &FrameRecord) -> Result<(), Memory>
    ensures { OnOk result
        (text.new.items ≡ text.old.items ++ spaced (count_fields shown.now)) }
{
    push_word_and_number(text, b"nodes", shown.nodes.into())?;
    push_word_and_number(text, b"lit", shown.lit.into())?;
    push_word(text, b"sha256")?;
    push_digest(text, shown.digest)
}

/// Appends the line of the frame's cut.
fn push_cut_line(text: &mut Vec<u8>, shown: &FrameRecord) -> Result<(), Memory>
    ensures { OnOk result (text.new.items
        ≡ text.old.items ++ comment_line (join_with_byte 32 (cut_fields shown.now))) }
{
    text.extend_from_slice(b"# cut")?;
    push_list(text, shown.cut.as_slice())?;
    text.push(b'\n')?;
    Ok(())
}

/// Appends the lines of the picture rows if the frame is printed.
fn push_picture(text: &mut Vec<u8>, rows: &Option<PictureRows>) -> Result<(), Memory>
    requires rows { IfSome rows.now HasWholeRows }
    ensures { OnOk result (text.new.items
        ≡ text.old.items ++ flat_map comment_line (row_texts rows.now)) }
{
    match rows {
        Some(rows) => push_rows(text, rows),
        None => Ok(()),
    }
}

/// Appends a line for each picture row, from the top down. Room for all rows is taken once.
fn push_rows(text: &mut Vec<u8>, rows: &PictureRows) -> Result<(), Memory>
    requires rows { HasWholeRows rows.now }
    ensures { OnOk result (text.new.items
        ≡ text.old.items ++ flat_map comment_line (row_texts (Some rows.now))) }
{
    let width = rows.width as usize;
    let words = rows.words.as_slice();
    let marks = words.len() / width * MARK_BYTES;
    text.reserve(words.len().saturating_mul(WORD_BYTES).saturating_add(marks))?;
    for row in 0..words.len() / width {
        push_comment_row(text, &words[row * width..(row + 1) * width])?;
    }
    Ok(())
}

/// Appends the line of one picture row.
fn push_comment_row(text: &mut Vec<u8>, row: &[u64]) -> Result<(), Memory>
    ensures { OnOk result (text.new.items ≡ text.old.items ++ comment_line (row_text row.now)) }
{
    text.extend_from_slice(b"# ")?;
    push_row(text, row)?;
    text.push(b'\n')?;
    Ok(())
}

#[cfg(test)]
mod tests {
    use super::*;
    use geom_core::{Digest32, Nums, Words};
    use std::test::Fail;

    #[test]
    fn frames_are_printed(rt: HostRuntime) -> Result<(), Fail> {
        let alloc = rt.alloc();
        let shown = FrameRecord {
            frame: 4_294_967_295,
            at: 18_446_744_073_709_551_615,
            resident: Nums::of(vec![in alloc; 0u32, 2, 10]?),
            missing: Nums::of(vec![in alloc; 1u32]?),
            nodes: 40,
            lit: 1,
            digest: Digest32 { bytes: [171; 32] },
            cut: Nums::of(Vec::new(alloc)),
            rows: Some(PictureRows {
                words: Words::of(vec![in alloc; 0u64, 16, 0xfedc_ba98_7654_3210, 0]?),
                width: 2,
            }),
        };
        let want =
            "# frame 4294967295 at 18446744073709551615 resident 0 2 10 missing 1 nodes 40 lit 1 sha256 \
            abababababababababababababababababababababababababababababababab\n\
            # cut -\n\
            # 0000000000000000 0000000000000010\n\
            # fedcba9876543210 0000000000000000\n";
        let text = frame_text(alloc, &shown)?;
        assert_eq!(rt; text.as_slice(), want.as_bytes());
        Ok(())
    }
}
