ghost use Rattle.std.specs.Prelude.{◌≡◌, ◌+◌, ◌^◌, ◌<◌, false, not, length, take, IfSome};
ghost use Rattle.std.specs.List.{find, position_from};
ghost use Rattle.terms.specs.Numbered.{at};
ghost use Rattle.terms.specs.Held.{rows_of};
ghost use Rattle.terms.specs.Marks.{marks_of};
ghost use Rattle.access.specs.Places.{setting_of};
ghost use Rattle.access.specs.Tests.{closed_rows_check, all_made_check, is_made, can_build, can_rows, arguments_check, all_built_check};

use crate::faults::{AccessFault, Denied};
use crate::setting::Setting;
use layouts::layout::Layout;
use refusals::fault::Fault;
use refusals::walk::{check_each, demand};
use terms::book::Book;
use terms::book::marking::Marks;
use terms::places::at;
use terms::row::{Item, Row};
use theory::data::{Fact, Ty};
use theory::owner::Owner;

/// The place, counted from 0, of the first of so many rows that is received and stays closed.
fn first_closed(closed: &[bool], rows: usize) -> Option<usize>
    ensures value { result ≡ position_from (λ b. b) 0 (take rows closed.now) }
    ensures within { IfSome result (λ n. n < rows) }
{
    closed.iter().take(rows).position(|closed| *closed)
}

/// What a rule's owner builds with: who that is, how many variables there are, and which rows are
/// items that are held.
#[derive(Clone, Copy)]
pub(crate) struct Builder<'a> {
    pub owner: Owner,
    pub universal: usize,
    pub made: usize,
    pub held: &'a [bool],
}

impl Builder<'_> {
    /// Whether the item is one of the made variables, which come after the universal ones.
    fn makes(self, item: Item) -> bool
        ensures { result ≡ is_made self.entry.universal self.entry.made item }
    {
        match item {
            Item::Name(_) => false,
            Item::Variable(v) => {
                self.universal < v as usize && v as usize - self.universal <= self.made
            }
        }
    }

    /// Whether the row can be built, told of which rows before it can.
    fn can_build(self, number: usize, can: &[bool], row: Row) -> bool
        ensures { result ≡ can_build self.entry.owner self.entry.universal self.entry.made self.entry.held.now number can.now row }
    {
        match row {
            Row::Item(item) => at(self.held, number, false) || self.makes(self.owner.read(item)),
            Row::Pair(content, key) | Row::Seal { content, key } | Row::Lock { content, key } => {
                at(can, content, false) && at(can, key, false)
            }
        }
    }

    /// Which rows can be built.
    pub(crate) fn buildable_rows(self, book: &Book) -> Marks
        ensures { marks_of result ≡ can_rows self.entry.owner self.entry.universal self.entry.made self.entry.held.now (rows_of book.now) }
    {
        book.mark_rows(|seen, can, row| self.can_build(seen.len() + 1, can, row))
    }
}

/// The first argument that can't be built.
fn first_unbuilt(can: &[bool], arguments: &[usize]) -> Option<usize>
    ensures { result ≡ find (λ k. not (at false can.now k)) arguments.now }
{
    arguments.iter().copied().find(|row| !at(can, *row, false))
}

/// Whether each argument can be built.
fn check_arguments(can: &[bool], arguments: &[usize]) -> Result<(), Denied>
    ensures { result ≡ arguments_check can.now arguments.now }
{
    first_unbuilt(can, arguments).map_or(Ok(()), |row| Err(Denied::NotBuildable(row)))
}

impl<L: Layout> Setting<'_, L> {
    /// The lowest row that is received and stays closed.
    pub(crate) fn check_closed(&self, closed: &[bool]) -> Result<(), AccessFault>
        ensures { result ≡ closed_rows_check (setting_of self.now) closed.now }
    {
        // No `map_or`: under a generic type its closure's meaning was not carried.
        match first_closed(closed, self.book.rows().len()) {
            Some(place) => Err(Fault {
                role: self.role,
                rule: self.rule,
                spot: 0,
                why: Denied::StaysClosed(place + 1),
            }),
            None => Ok(()),
        }
    }

    /// Made variables in order; the first has the number after `base`.
    pub(crate) fn check_made(&self, made: &[Ty], base: usize) -> Result<(), AccessFault>
        requires { base + length made.now < 2 ^ 64 }
        ensures { result ≡ all_made_check (L.meaning self.now.layout.now) (setting_of self.now) base made.now }
    {
        check_each(made, self.after(base), |_, of| {
            demand(self.layout.may_be_made(of.family), Denied::NotMakeable)
        })
    }

    /// Right facts in order; the first has the spot after `base`.
    pub(crate) fn check_built(
        &self,
        can: &[bool],
        facts: &[Fact],
        base: usize,
    ) -> Result<(), AccessFault>
        requires { base + length facts.now < 2 ^ 64 }
        ensures { result ≡ all_built_check (setting_of self.now) can.now base facts.now }
    {
        check_each(facts, self.after(base), |_, fact| {
            check_arguments(can, fact.rows.as_slice())
        })
    }
}
