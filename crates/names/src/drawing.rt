ghost use Rattle.std.specs.Prelude.{◌≡◌, vec_len, vec_capacity};
ghost use Rattle.names.specs.Many.{can_draw, AllOrNone};

use crate::source::Source;

/// Draws so many names in turn and puts them behind the list, or draws none: true exactly if at
/// least so many are ahead and the list has memory for them.
// A bool, and no error with a cause: a caller can tell the two causes by the source and the list.
pub fn draw_names<S: Source>(source: &mut S, names: &mut Vec<u32>, count: usize) -> bool
    ensures test { result ≡ can_draw count (S.ahead source.old) (vec_len names.old) (vec_capacity names.old) }
    ensures drawn { AllOrNone result count (S.ahead source.old) names.old.items (S.ahead source.new) names.new.items }
    ensures capacity { vec_capacity names.new ≡ vec_capacity names.old }
{
    if !source.at_least(count) || count > names.capacity() - names.len() {
        return false;
    }
    for _ in 0..count {
        let Some(name) = source.draw() else {
            unreachable!()
        };
        names.push_reserved(name);
    }
    true
}
