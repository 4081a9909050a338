ghost use Rattle.std.specs.Prelude.{◌≡◌, ℕ, ◌<◌, Bool, true, Option, nat_le};
ghost use Rattle.names.specs.Sets.{how_many};
ghost use Rattle.names.specs.Draws.{Drawn};

/// A source of fresh names.
///
/// `ahead` is the set of names that can still come, as a test on numbers: a finite set, and 0 is
/// never in it. `draws` says what one draw of this make gives and leaves; of a source of unknown
/// make nothing is known but `ahead`.
pub trait Source {
    ghost ahead: { Self → ℕ → Bool };

    ghost draws: { Self → Option ℕ → Self → Type 0 };

    /// Whether the name is ahead.
    fn is_ahead(&self, name: u32) -> bool
        ensures { result ≡ ahead self.now name };

    /// Whether at least so many names are ahead.
    fn at_least(&self, count: usize) -> bool
        ensures { result ≡ nat_le count (how_many (ahead self.now)) };

    /// A name that was ahead, and is no longer; nothing exactly where no name is ahead.
    fn draw(&mut self) -> Option<u32>
        ensures drawn { Drawn (ahead self.old) result (ahead self.new) }
        ensures step { draws self.old result self.new };

    ghost names: { (s : Self) (n : ℕ) → ahead s n ≡ true → (0 < n) × (n < 4294967296) };
}
