//! Theories as plain data, finished or not, and the check that their tables are whole.
#![tactic(auto)]

mod counts;
pub mod data;
pub mod faults;
mod missing;
pub mod owner;
pub mod tables;

#[cfg(test)]
mod tests {
    use crate::data::{Fact, Symbol, Theory};
    use crate::faults::{Flaw, TableFault};
    use crate::tables::check_tables;
    use refusals::Refusal;
    use std::test::Fail;
    use terms::book::Book;
    use terms::row::{Item, Row};

    #[test]
    fn initial_facts_are_128_at_most(rt: HostRuntime) -> Result<(), Fail> {
        let heap = rt.alloc();
        let mut theory = Theory {
            book: Book::new(heap),
            names: Vec::new(heap),
            memory: Vec::new(heap),
            roles: Vec::new(heap),
        };
        let _ = theory.book.add(Row::Item(Item::Name(10)));
        let mut facts = Vec::new(heap);
        for _ in 0..128 {
            let mut rows = Vec::new(heap);
            rows.push(1)?;
            facts.push(Fact {
                symbol: Symbol::Network,
                rows,
            })?;
        }
        assert!(rt; check_tables(&theory, facts.as_slice()) == Ok(()));
        facts.push(Fact {
            symbol: Symbol::Memory(1),
            rows: Vec::new(heap),
        })?;
        let full = TableFault {
            role: 0,
            rule: 0,
            spot: 129,
            why: Flaw::TooMany,
        };
        assert!(rt; check_tables(&theory, facts.as_slice()) == Err(full));
        let told = Refusal {
            number: 8,
            layer: 2,
            role: 0,
            rule: 0,
            spot: 129,
            row: 0,
        };
        assert!(rt; Refusal::from(full) == told);
        Ok(())
    }
}
