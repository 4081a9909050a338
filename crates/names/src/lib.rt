//! Sources of fresh names: the trait that says what a source is, its makes, and names drawn
//! in turn from any of them.
#![tactic(auto)]

pub mod any;
pub mod counter;
pub mod drawing;
pub mod faults;
mod lists;
pub mod roll;
pub mod source;
pub mod withholding;

#[cfg(test)]
mod tests {
    use crate::any::AnySource;
    use crate::counter::Counter;
    use crate::drawing::draw_names;
    use crate::faults::ListFault;
    use crate::roll::Roll;
    use crate::source::Source;
    use crate::withholding::Withholding;
    use std::test::Fail;

    #[test]
    fn a_counter_ends_with_the_last_name(rt: HostRuntime) {
        let mut counter = Counter::new(4_294_967_295);
        assert!(rt; counter.at_least(1));
        assert!(rt; !counter.at_least(2));
        assert!(rt; counter.draw() == Some(4_294_967_295));
        assert!(rt; counter.draw() == None);
        assert!(rt; Counter::new(0).is_ahead(1));
        assert!(rt; !Counter::new(0).is_ahead(0));
    }

    #[test]
    fn a_roll_takes_512_names(rt: HostRuntime) -> Result<(), Fail> {
        let mut numbers = Vec::new(rt.alloc());
        for name in 1..=512u32 {
            numbers.push(name)?;
        }
        let Ok(mut roll) = Roll::new(rt.alloc()) else {
            return Err(Fail::new("no memory"));
        };
        assert!(rt; roll.draw() == None);
        assert!(rt; roll.load(numbers.as_slice()) == Ok(()));
        assert!(rt; roll.draw() == Some(1));
        assert!(rt; roll.load(&[7, 8, 7]) == Err(ListFault::Unfit { place: 3 }));
        assert!(rt; roll.load(&[7, 0]) == Err(ListFault::Unfit { place: 2 }));
        numbers.push(1)?;
        assert!(rt; roll.load(numbers.as_slice()) == Err(ListFault::RollTooLong));
        assert!(rt; roll.at_least(511) && !roll.at_least(512));
        assert!(rt; roll.draw() == Some(2));
        Ok(())
    }

    #[test]
    fn a_layer_withholds_32_numbers(rt: HostRuntime) -> Result<(), Fail> {
        let Ok(mut source) = Withholding::new(rt.alloc(), AnySource::Counter(Counter::new(100)))
        else {
            return Err(Fail::new("no memory"));
        };
        assert!(rt; source.withhold(&[101; 33]) == Err(ListFault::LayerTooLong));
        assert!(rt; source.is_ahead(101));
        assert!(rt; source.withhold(&[101; 32]) == Ok(()));
        assert!(rt; source.draw() == Some(100) && source.draw() == Some(102));
        let mut names = Vec::with_capacity(rt.alloc(), 2)?;
        assert!(rt; !draw_names(&mut source, &mut names, 5_000_000_000));
        assert!(rt; draw_names(&mut source, &mut names, 2));
        assert!(rt; names.as_slice().last() == Some(&104));
        Ok(())
    }
}
