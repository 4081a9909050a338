ghost use Rattle.std.specs.Prelude.{◌≡◌};
ghost use Rattle.script.specs.Numbers.{number_up_to};

/// The number that a word of decimal digits writes, if it is at most `most`; a sign is no digit.
pub fn read_number(word: &str, most: usize) -> Option<usize>
    ensures { result ≡ number_up_to most word.now }
{
    // `parse` takes a plus sign, too.
    if word.starts_with('+') {
        return None;
    }
    word.parse().ok().filter(|number| *number <= most)
}
