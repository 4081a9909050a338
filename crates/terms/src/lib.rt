//! The book of terms: items, rows, and a theory's book, in which each row stands for one term.
#![tactic(auto)]

pub mod book;
pub mod faults;
pub mod places;
pub mod row;

#[cfg(test)]
mod tests {
    use crate::book::{Book, MAX_ROWS};
    use crate::faults::BookFault;
    use crate::row::{Item, Row};

    // What adding the item to an empty book answers.
    fn alone(rt: &HostRuntime, item: Item) -> Result<usize, BookFault> {
        let mut book = Book::new(rt.alloc());
        book.add(Row::Item(item))
    }

    #[test]
    fn the_edges_of_an_item(rt: HostRuntime) {
        assert!(rt; alone(&rt, Item::Name(0)) == Err(BookFault::OutOfRange));
        assert!(rt; alone(&rt, Item::Name(1)) == Ok(1));
        assert!(rt; alone(&rt, Item::Name(4_294_967_295)) == Ok(1));
        assert!(rt; alone(&rt, Item::Variable(0)) == Ok(1));
        assert!(rt; alone(&rt, Item::Variable(23)) == Ok(1));
        assert!(rt; alone(&rt, Item::Variable(24)) == Err(BookFault::OutOfRange));
        assert!(rt; alone(&rt, Item::Variable(255)) == Err(BookFault::OutOfRange));
    }

    #[test]
    fn the_lowest_refusal_comes_first(rt: HostRuntime) {
        let mut book = Book::new(rt.alloc());
        assert!(rt; book.add(Row::Item(Item::Name(10))) == Ok(1));
        assert!(rt; book.add(Row::Pair(1, 2)) == Err(BookFault::PartMissing));
        assert!(rt; book.add(Row::Pair(1, 1)) == Ok(2));
        assert!(rt; book.add(Row::Seal { content: 3, key: 2 }) == Err(BookFault::PartMissing));
        assert!(rt; book.add(Row::Seal { content: 0, key: 1 }) == Err(BookFault::PartMissing));
        assert!(rt; book.add(Row::Seal { content: 1, key: 2 }) == Err(BookFault::KeyNotItem));
        assert!(rt; book.add(Row::Lock { content: 2, key: 1 }) == Ok(3));
        assert!(rt; book.row(3) == Some(Row::Lock { content: 2, key: 1 }));
        assert!(rt; book.row(0) == None);
        assert!(rt; book.row(4) == None);
    }

    #[test]
    fn a_full_book_still_answers_its_rows(rt: HostRuntime) {
        let mut book = Book::new(rt.alloc());
        for name in 1..=512u32 {
            assert!(rt; book.add(Row::Item(Item::Name(name))) == Ok(name as usize));
        }
        assert!(rt; book.row(MAX_ROWS) == Some(Row::Item(Item::Name(512))));
        assert!(rt; book.add(Row::Item(Item::Name(7))) == Ok(7));
        assert!(rt; book.add(Row::Item(Item::Name(513))) == Err(BookFault::Full));
        assert!(rt; book.add(Row::Pair(0, 1)) == Err(BookFault::PartMissing));
        assert!(rt; book.row(513) == None);
    }
}
