ghost use Rattle.std.specs.Prelude.{◌≡◌, ◌%◌, ◌++◌, ◌∷◌, [], length, OnOk, IfOk};
ghost use Rattle.geom_core.specs.Limits.{IsSide};
ghost use Rattle.report_text.specs.PictureText.{word_text, row_text, picture_text_of};

use geom_core::Memory;
use std::alloc::Global;

/// Returns the text of a picture: a line for each row, from the top down, of words that are separated by
/// one space. A word is 16 hexadecimal digits in lower case.
pub fn picture_text(alloc: Global, words: &[u64], width: u32) -> Result<Vec<u8>, Memory>
    requires side { IsSide width }
    requires whole_rows { length words.now % width ≡ 0 }
    ensures { IfOk result (λ text. text.items ≡ picture_text_of words.now width) }
{
    let width = width as usize;
    let mut text = Vec::with_capacity(alloc, words.len().saturating_mul(17))?;
    for row in 0..words.len() / width {
        push_row(&mut text, &words[row * width..(row + 1) * width])?;
        text.push(b'\n')?;
    }
    Ok(text)
}

/// Appends the words of a row, separated by one space.
pub(crate) fn push_row(text: &mut Vec<u8>, row: &[u64]) -> Result<(), Memory>
    ensures { OnOk result (text.new.items ≡ text.old.items ++ row_text row.now) }
{
    for (column, word) in row.iter().enumerate() {
        if column > 0 {
            text.push(b' ')?;
        }
        push_word(text, *word)?;
    }
    Ok(())
}

/// Appends the 16 digits of a word.
#[tactic(auto, unfolding(crate::specs::PictureText::word_text))]
fn push_word(text: &mut Vec<u8>, word: u64) -> Result<(), Memory>
    ensures { OnOk result (text.new.items ≡ text.old.items ++ word_text word) }
{
    let mut digits = [0; 16];
    let written = hex::encode_to_slice(word.to_be_bytes(), &mut digits);
    prove!(written.is_ok());
    text.extend_from_slice(&digits)?;
    Ok(())
}

#[cfg(test)]
mod tests {
    use super::*;
    use std::test::Fail;

    #[test]
    fn pictures_have_a_line_for_each_row(rt: HostRuntime) -> Result<(), Fail> {
        let text = picture_text(rt.alloc(), &[1, 0xfedc_ba98_7654_3210, 3, 4, 5, 16], 3)?;
        let want = "0000000000000001 fedcba9876543210 0000000000000003\n\
            0000000000000004 0000000000000005 0000000000000010\n";
        assert_eq!(rt; text.as_slice(), want.as_bytes());
        Ok(())
    }
}
