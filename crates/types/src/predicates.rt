ghost use Rattle.std.specs.Prelude.{◌≡◌, ◌+◌, ◌^◌, ◌<◌, length};
ghost use Rattle.types.specs.Predicates.{slot_suited, argument_formed, arguments_formed, predicate_check, predicates_check};

use crate::faults::{Ill, TypeFault};
use crate::forms::is_formed_by;
use crate::names::{has_family, name_type};
use layouts::layout::{Layout, PRINCIPAL};
use refusals::walk::{Place, check_each, demand};
use terms::places::numbered;
use theory::data::{Argument, Declared, Predicate, Slot};

/// Whether a parameter is of a family: a declared name, or an earlier argument.
fn is_slot_of(names: &[Declared], earlier: &[Argument], slot: Slot, family: u8) -> bool
    ensures { result ≡ slot_suited names.now earlier.now slot family }
{
    match slot {
        Slot::Name(n) => has_family(name_type(names, n), family),
        Slot::Place(p) => numbered(earlier, p).is_some_and(|argument| argument.family == family),
    }
}

/// The declared names, under a layout: what predicates are checked in.
#[derive(Drop)]
pub(crate) struct Signature<'a, L> {
    pub layout: &'a L,
    pub names: &'a [Declared],
}

impl<L: Layout> Signature<'_, L> {
    fn is_argument_formed(&self, earlier: &[Argument], argument: Argument) -> bool
        ensures { result ≡ argument_formed (L.meaning self.now.layout.now) self.now.names.now earlier.now argument }
    {
        is_formed_by(
            self.layout,
            argument,
            |slot, family| is_slot_of(self.names, earlier, slot, family),
        )
    }

    fn check_argument_types(&self, arguments: &[Argument]) -> Result<(), Ill>
        ensures { result ≡ arguments_formed (L.meaning self.now.layout.now) self.now.names.now arguments.now }
    {
        // Only the reason is told of an argument, so the place that goes into the fault is left
        // out. Tried as an `all` over `&arguments[..i]`: the slice asks for a bound on i, and the
        // proof did not close.
        let place = Place {
            role: 0,
            rule: 0,
            before: 0,
        };
        check_each(
            arguments,
            place,
            |earlier, argument| demand(self.is_argument_formed(earlier, *argument), Ill::Unformed),
        )
        .map_err(|fault| fault.why)
    }

    fn check_predicate(&self, arguments: &[Argument]) -> Result<(), Ill>
        ensures { result ≡ predicate_check (L.meaning self.now.layout.now) self.now.names.now arguments.now }
    {
        self.check_argument_types(arguments)?;
        let is_principal = arguments
            .first()
            .is_some_and(|first| first.family == PRINCIPAL);
        demand(is_principal, Ill::NoPrincipal)
    }

    /// Predicates in order; the first has the spot after `base`.
    pub(crate) fn check_predicates(
        &self,
        predicates: &[Predicate],
        role: usize,
        base: usize,
    ) -> Result<(), TypeFault>
        requires { base + length predicates.now < 2 ^ 64 }
        ensures { result ≡ predicates_check (L.meaning self.now.layout.now) self.now.names.now role base predicates.now }
    {
        let place = Place {
            role,
            rule: 0,
            before: base,
        };
        check_each(
            predicates,
            place,
            |_, predicate| self.check_predicate(predicate.arguments.as_slice()),
        )
    }
}
