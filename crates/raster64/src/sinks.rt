ghost use Rattle.std.specs.Prelude.{◌≡◌, ◌<◌, ℕ, List, [], ◌∷◌, ◌++◌};

/// What takes the words of pixels, one at a time: a picture, a share of one, or a record.
///
/// Its meaning is a relation to the list of all puts, each a pixel's number and a word. So a buffer that
/// keeps only the greatest word of each pixel has a meaning too, though it can't give the list back.
pub trait PixelSink {
    /// Whatever else has to be known to stay while pixels are put.
    type Rest;

    /// The number of pixels: a pixel's number is below it.
    ghost pixels: { Self → ℕ };

    /// Whether the sink shows these puts, first to last, beside this rest.
    ghost shows: { Self → Self.Rest → List (ℕ × ℕ) → Type 0 };

    /// Draws a word at a pixel.
    fn put(&mut self, pixel: u32, word: u64)
        requires { pixel < pixels self.old }
        ensures same_size { pixels self.new ≡ pixels self.old }
        ensures shown { (rest : Self.Rest) (before : List (ℕ × ℕ)) → shows self.old rest before
            → shows self.new rest (before ++ (pixel, word) ∷ []) };
}
