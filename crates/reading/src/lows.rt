ghost use Rattle.std.specs.Prelude.{◌≡◌, ◌≤◌, length};
ghost use Rattle.terms.specs.Adding.{number_in};
ghost use Rattle.terms.specs.Held.{rows_of};
ghost use Rattle.reading.specs.Lows.{reduced, lows};

use arrayvec::ArrayVec;
use terms::book::{Book, MAX_ROWS};
use terms::places::at;
use terms::row::Row;
use theory::owner::Owner;

/// For each row the number of a row.
pub(crate) type Numbers = ArrayVec<usize, MAX_ROWS>;

/// The row as it is compared: items read, and parts replaced by the lowest rows of the same terms.
fn reduce(owner: Owner, low: &[usize], row: Row) -> Row
    ensures { result ≡ reduced owner low.now row }
{
    // 0 is no row's number: parts that are no rows are compared as equal, and no others with them.
    let lowest = |number: usize| at(low, number, 0);
    match row {
        Row::Item(item) => Row::Item(owner.read(item)),
        Row::Pair(a, b) => Row::Pair(lowest(a), lowest(b)),
        Row::Seal { content, key } => Row::Seal {
            content: lowest(content),
            key: lowest(key),
        },
        Row::Lock { content, key } => Row::Lock {
            content: lowest(content),
            key: lowest(key),
        },
    }
}

/// The number of the first of the rows that equals this one, or else the next.
fn number_in(rows: &[Row], row: Row) -> usize
    ensures { result ≡ number_in rows.now row }
{
    row.place_in(rows).unwrap_or(rows.len()) + 1
}

/// For each row the lowest row that the owner reads as the same term. Only in an anchored role, where
/// variable 0 and the anchor's name are one item, is that ever another row.
pub(crate) fn lowest_rows(owner: Owner, book: &Book) -> Numbers
    ensures { result.items ≡ lows owner (rows_of book.now) }
{
    let rows = book.rows();
    let mut low = Numbers::new();
    let mut seen: ArrayVec<Row, MAX_ROWS> = ArrayVec::new();
    for row in rows {
        let sought = reduce(owner, low.as_slice(), *row);
        low.push(number_in(seen.as_slice(), sought));
        seen.push(sought);
    }
    low
}
