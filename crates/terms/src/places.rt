ghost use Rattle.std.specs.Prelude.{◌≡◌};
ghost use Rattle.std.specs.Option.{option_copied};
ghost use Rattle.terms.specs.Rows.{is_row};
ghost use Rattle.terms.specs.Numbered.{numbered, at};

/// Whether the number is one of `count`, counted from 1.
pub fn is_number(count: usize, number: usize) -> bool
    ensures { result ≡ is_row count number }
{
    0 < number && number <= count
}

/// The element with the number, counted from 1; `None` at 0 and past the last.
pub fn numbered<T>(items: &[T], number: usize) -> Option<&T>
    ensures { option_copied result ≡ numbered items.now number }
{
    items.get(number.checked_sub(1)?)
}

/// The same, or `none` where there is no such element.
pub fn at<T: Copy>(items: &[T], number: usize, none: T) -> T
    ensures { result ≡ at none items.now number }
{
    numbered(items, number).copied().unwrap_or(none)
}
