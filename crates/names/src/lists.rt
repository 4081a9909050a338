ghost use Rattle.std.specs.Prelude.{◌≡◌, ◌≤◌, length, vec_capacity};

/// Puts the numbers in the place of those of a list that has memory for them.
pub(crate) fn refill(list: &mut Vec<u32>, numbers: &[u32])
    requires room { length numbers.now ≤ vec_capacity list.old }
    ensures items { list.new.items ≡ numbers.now }
    ensures capacity { vec_capacity list.old ≤ vec_capacity list.new }
{
    list.clear();
    // It cannot fail: the list has memory for the numbers.
    let _ = list.extend_from_slice(numbers);
}
