ghost use Rattle.std.specs.Prelude.{◌≡◌, ◌*◌, ℕ, List, [], IfOk, length};
ghost use Rattle.geom_core.specs.Limits.{IsPicture};
ghost use Rattle.geom_core.specs.Picture.{picture_of_words};

use geom_core::{Memory, Size};
use raster64::PixelSink;
use std::alloc::Global;

/// A visibility buffer: for each pixel the greatest word put there so far, and 0 if none was put.
/// Pixels are numbered row by row from the upper left corner.
#[derive(Drop)]
pub struct VisibilityBuffer {
    /// The words, one for each pixel.
    pub words: Vec<u64>,
    /// The size of the picture.
    pub size: Size,
    ghost whole: { length words.items ≡ size.width * size.height },
}

impl VisibilityBuffer {
    /// Returns a buffer of this size in which nothing was drawn.
    pub fn new(alloc: Global, size: Size) -> Result<VisibilityBuffer, Memory>
        requires { IsPicture size }
        ensures size { IfOk result (λ buffer. buffer.size ≡ size) }
        ensures empty { IfOk result (λ buffer. buffer.words.items ≡ picture_of_words size []) }
    {
        let count = size.width as usize * size.height as usize;
        let words = vec![in alloc; 0; count]?;
        Ok(VisibilityBuffer { words, size })
    }

    /// Returns the words, one for each pixel.
    pub fn into_words(self) -> Vec<u64>
        ensures { result.items ≡ self.words.items }
    {
        let VisibilityBuffer { words, .. } = self;
        words
    }
}

/// What is known of a buffer, besides what was put, is its size, which does not change.
impl PixelSink for VisibilityBuffer {
    type Rest = Size;

    ghost pixels = { λ buffer. buffer.size.width * buffer.size.height };

    ghost shows = { λ buffer size puts.
        (buffer.size ≡ size) × (buffer.words.items ≡ picture_of_words size puts) };

    fn put(&mut self, pixel: u32, word: u64) {
        let pixel = pixel as usize;
        self.words[pixel] = self.words[pixel].max(word);
    }
}

#[cfg(test)]
mod tests {
    use super::*;
    use std::test::Fail;

    fn is_shared<T: Send + Sync>(_value: &T) -> bool {
        true
    }

    const THREE_BY_FIVE: Size = Size {
        width: 3,
        height: 5,
    };

    #[test]
    fn the_greatest_word_is_kept(rt: HostRuntime) -> Result<(), Fail> {
        let mut buffer = VisibilityBuffer::new(rt.alloc(), THREE_BY_FIVE)?;
        assert!(rt; is_shared(&buffer));
        for (pixel, word) in [(4, 2), (14, 7), (4, 3), (4, 1)] {
            buffer.put(pixel, word);
        }
        let want = [0, 0, 0, 0, 3, 0, 0, 0, 0, 0, 0, 0, 0, 0, 7];
        assert_eq!(rt; buffer.into_words().as_slice(), want.as_slice());
        Ok(())
    }
}
