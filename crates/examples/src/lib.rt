//! Worked examples, which stand in specs/: what the judgments say of some names, types and rules over
//! the report layout. The only code is how many there are; the theorem is that each holds.
#![tactic(auto)]

ghost use Rattle.std.specs.Prelude.{◌≡◌, length};
ghost use Rattle.examples.specs.Starred.{All, starred};

/// How many examples the list has. Each of them holds.
pub fn starred_examples_hold() -> usize
    ensures count { result ≡ length starred }
    ensures hold { All starred }
{
    15
}
