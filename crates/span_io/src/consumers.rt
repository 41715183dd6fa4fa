ghost use Rattle.std.specs.Prelude.{◌≤◌, ◌+◌, ◌++◌, ℕ, List, length};
ghost use Rattle.span_io.specs.Consumers.{FeedDoes};

/// What a consumer answers to a piece.
#[derive(Clone, Copy, Debug, PartialEq, Eq)]
pub enum Fed<T> {
    /// It takes further bytes.
    Continue,
    /// It takes no further byte: this came of those that it was fed.
    Stop(T),
}

/// What takes the bytes of a source piece by piece, in order, and may stop before their end.
pub trait Consumer {
    /// What comes of it when it stops.
    type Outcome;

    /// The most bytes that it may be fed.
    ghost byte_limit: { ℕ };

    /// `has_fed start now bytes`: the consumer `start` is `now` after it was fed these bytes, and takes more.
    ghost has_fed: { Self → Self → List ℕ → Type 0 };

    /// `stops start bytes outcome`: the consumer `start`, fed these bytes in some pieces, stopped with this
    /// outcome at the last piece.
    ghost stops: { Self → List ℕ → Self.Outcome → Type 0 };

    /// Takes the next bytes, perhaps none.
    fn feed(&mut self, piece: &[u8]) -> Fed<Self::Outcome>
        requires room { (start : Self) × (bytes : List ℕ) × has_fed start self.old bytes
            × (length bytes + length piece.now ≤ byte_limit) }
        ensures outcome { (start : Self) (bytes : List ℕ) → has_fed start self.old bytes →
            FeedDoes (has_fed start self.new (bytes ++ piece.now))
            (stops start (bytes ++ piece.now)) result };
}
