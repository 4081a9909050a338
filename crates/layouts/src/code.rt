ghost use Rattle.std.specs.Prelude.{◌≡◌};
ghost use Rattle.layouts.specs.Codes.{code_of, Apart};

use terms::row::Item;

/// The code by which an item is told to a layout: 0 where it is absent, a name's number, and
/// 4,294,967,296 more than a variable's number. No two items in range have one code.
// A rule of the project: layouts are told items by code, so that their law can speak of any function
// on codes.
pub fn code(item: Option<Item>) -> u64
    ensures value { result ≡ code_of item }
    ensures apart { Apart item }
{
    match item {
        None => 0,
        Some(Item::Name(name)) => u64::from(name),
        Some(Item::Variable(variable)) => 4_294_967_296 + u64::from(variable),
    }
}
