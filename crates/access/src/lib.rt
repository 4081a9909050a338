//! The access check of a theory, over any layout: may each role's owner read and build what its
//! rules read and build? And all checks of a theory, one after the other.
#![tactic(auto)]

mod building;
pub mod check;
mod entries;
pub mod faults;
mod owners;
mod rules;
mod setting;

#[cfg(test)]
mod tests {
    use crate::check::check_access;
    use crate::faults::{CheckFault, Denied};
    use layouts::any::AnyLayout;
    use std::alloc::Global;
    use std::test::Fail;
    use terms::book::Book;
    use terms::row::{Item, Row};
    use theory::data::{Fact, Role, Rule, Symbol, Theory};

    // A full book: names 1 to 257, and the seals of 2 to 256, each under the name before. Rows are
    // read from the last down, so a pass opens one seal at most.
    fn chain(heap: Global) -> Result<Book, Fail> {
        let mut book = Book::new(heap);
        for name in 1..=257u32 {
            let _ = book.add(Row::Item(Item::Name(name)));
        }
        for key in 1..=255usize {
            let _ = book.add(Row::Seal {
                content: key + 1,
                key,
            });
        }
        Ok(book)
    }

    // The theory of one rule, for everybody, that reads the rows on the network and sends one.
    fn reads_and_sends(heap: Global, reads: Vec<usize>, sends: usize) -> Result<Theory, Fail> {
        let mut left = Vec::new(heap);
        left.push(Fact {
            symbol: Symbol::Network,
            rows: reads,
        })?;
        let mut sent = Vec::new(heap);
        sent.push(sends)?;
        let mut right = Vec::new(heap);
        right.push(Fact {
            symbol: Symbol::Network,
            rows: sent,
        })?;
        let mut rules = Vec::new(heap);
        rules.push(Rule {
            universal: Vec::new(heap),
            left,
            made: Vec::new(heap),
            right,
        })?;
        let mut roles = Vec::new(heap);
        roles.push(Role {
            anchor: None,
            predicates: Vec::new(heap),
            rules,
        })?;
        Ok(Theory {
            book: chain(heap)?,
            names: Vec::new(heap),
            memory: Vec::new(heap),
            roles,
        })
    }

    #[test]
    fn a_chain_of_seals_is_opened_to_its_end(rt: HostRuntime) -> Result<(), Fail> {
        let heap = rt.alloc();
        let mut reads = Vec::new(heap);
        reads.push(1)?;
        for row in 258..=512usize {
            reads.push(row)?;
        }
        let theory = reads_and_sends(heap, reads, 256)?;
        assert!(rt; check_access(&AnyLayout::Report, &theory).is_ok());
        Ok(())
    }

    #[test]
    fn a_chain_without_its_first_key_stays_closed(rt: HostRuntime) -> Result<(), Fail> {
        let heap = rt.alloc();
        let mut reads = Vec::new(heap);
        for row in 258..=512usize {
            reads.push(row)?;
        }
        let theory = reads_and_sends(heap, reads, 256)?;
        let Err(CheckFault::Access(fault)) = check_access(&AnyLayout::Report, &theory) else {
            return Err(Fail::new("it is opened"));
        };
        assert!(rt; fault.why == Denied::StaysClosed(258));
        Ok(())
    }
}
