ghost use Rattle.std.specs.Prelude.{◌≡◌, [], ◌∷◌, ◌++◌, IfOk, MatchResult};
ghost use Rattle.layouts.specs.Any.{meaning_of};
ghost use Rattle.names.specs.Any.{view_of};
ghost use Rattle.script.specs.Facts.{said_fact};
ghost use Rattle.script.specs.Said.{said, said_part};
ghost use Rattle.terms.specs.Held.{capacity_of};
ghost use Rattle.bench.specs.Answers.{answered};
ghost use Rattle.bench.specs.Changes.{Kept};
ghost use Rattle.bench.specs.Roles.{blank_role};
ghost use Rattle.bench.specs.States.{written_of, nothing, state_of, empty};
ghost use Rattle.bench.specs.Playing.{with_name, with_memory, with_roles, with_theory, with_initial, RowAdded, PartAdded, Checks, Chosen, Layers, Loaded, Withholds, Carried, Answered};

use crate::answer::Answer;
use crate::faults::Fault;
use crate::roles::{add_to_role, begun_role, put};
use access::check::check;
use layouts::any::AnyLayout;
use names::any::AnySource;
use names::counter::Counter;
use names::roll::Roll;
use names::withholding::Withholding;
use script::command::{Command, Line, Part, read_line};
use std::alloc::{AllocError, Global};
use terms::book::Book;
use terms::row::Row;
use theory::data::{Argument, Declared, Fact, Predicate, Theory};

/// A theory with nothing in it.
fn blank(heap: Global) -> Theory
    ensures { written_of result ≡ nothing }
{
    Theory {
        book: Book::new(heap),
        names: Vec::new(heap),
        memory: Vec::new(heap),
        roles: Vec::new(heap),
    }
}

/// What a script works on: the theory that it writes down, and the layout and the source for the
/// next session. The source always has a withholding layer over it, which withholds nothing until
/// the script asks for it.
#[derive(Drop)]
pub struct Desk {
    heap: Global,
    theory: Theory,
    initial: Vec<Fact>,
    layout: AnyLayout,
    source: Withholding<AnySource>,
    // A flag, and no second type of source: the memory for the layer is taken with the source, so
    // that `withholding` cannot fail for want of it.
    layered: bool,
}

impl Desk {
    /// A desk with an empty theory, the report layout and an empty roll.
    pub fn new(heap: Global) -> Result<Self, AllocError>
        ensures { IfOk result (λ d. state_of d ≡ empty) }
    {
        let roll = Roll::new(heap).map_err(|_| AllocError)?;
        Ok(Desk {
            heap,
            theory: blank(heap),
            initial: Vec::new(heap),
            layout: AnyLayout::Report,
            source: Withholding::new(heap, AnySource::Roll(roll))?,
            layered: false,
        })
    }

    /// Answers a line of a script; `None` where the line is only echoed.
    pub fn answer(&mut self, line: &[u8]) -> Result<Option<Answer>, AllocError>
        ensures { MatchResult result (Answered self.old.theory (state_of self.old) line.now (state_of self.new)) (λ _. self.new ≡ self.old) }
    {
        match read_line(self.heap, line)? {
            Line::Silent => Ok(None),
            Line::Unreadable => Ok(Some(Answer::NotUnderstood)),
            Line::Command(command) => Ok(Some(
                self.carry_out(command).unwrap_or_else(Answer::Refused),
            )),
        }
    }

    /// Carries out a command.
    fn carry_out(&mut self, command: Command) -> Result<Answer, Fault>
        ensures { Carried self.old.theory (state_of self.old) (said command) (state_of self.new) (answered result) }
    {
        match command {
            Command::Row(row) => self.add_row(row),
            Command::New => {
                self.theory = blank(self.heap);
                self.initial = Vec::new(self.heap);
                Ok(Answer::Noted)
            }
            Command::Layout(layout) => {
                self.layout = layout;
                Ok(Answer::Noted)
            }
            Command::Counter(first) => self.choose(AnySource::Counter(Counter::new(first))),
            Command::Roll => {
                let roll = Roll::new(self.heap)?;
                self.choose(AnySource::Roll(roll))
            }
            Command::Withholding => self.add_layer(),
            Command::Load(numbers) => self.load(numbers.as_slice()),
            Command::Withhold(numbers) => self.withhold(numbers.as_slice()),
            Command::Name(declared) => self.declare(declared),
            Command::Memory(arguments) => self.add_memory(arguments),
            Command::Role(anchor) => self.add_role(anchor),
            Command::Part(part) => self.add_part(part),
            Command::Fact(fact) => self.add_fact(fact),
            Command::Check => self.check(),
        }
    }

    /// Adds a row to the theory's book.
    fn add_row(&mut self, row: Row) -> Result<Answer, Fault>
        ensures { RowAdded (capacity_of self.old.theory.book) (state_of self.old) row (state_of self.new) (answered result) }
    {
        let number = self.theory.book.add(row)?;
        Ok(Answer::Row(number))
    }

    /// Declares a name.
    fn declare(&mut self, declared: Declared) -> Result<Answer, Fault>
        ensures { Kept (state_of self.old) (with_theory (state_of self.old) (with_name (state_of self.old).theory declared)) (state_of self.new) (answered result) }
    {
        put(&mut self.theory.names, declared)
    }

    /// Adds a memory predicate.
    fn add_memory(&mut self, arguments: Vec<Argument>) -> Result<Answer, Fault>
        ensures { Kept (state_of self.old) (with_theory (state_of self.old) (with_memory (state_of self.old).theory arguments.items)) (state_of self.new) (answered result) }
    {
        put(&mut self.theory.memory, Predicate { arguments })
    }

    /// Begins a role.
    fn add_role(&mut self, anchor: Option<u32>) -> Result<Answer, Fault>
        ensures { Kept (state_of self.old) (with_theory (state_of self.old) (with_roles (state_of self.old).theory ((state_of self.old).theory.roles ++ blank_role anchor ∷ []))) (state_of self.new) (answered result) }
    {
        let begun = begun_role(self.heap, anchor);
        put(&mut self.theory.roles, begun)
    }

    /// Adds to the last role.
    fn add_part(&mut self, part: Part) -> Result<Answer, Fault>
        ensures { PartAdded (state_of self.old) (said_part part) (state_of self.new) (answered result) }
    {
        let Some(mut last) = self.theory.roles.pop() else {
            return Ok(Answer::NotUnderstood);
        };
        let added = add_to_role(self.heap, &mut last, part);
        self.theory.roles.push_reserved(last);
        added
    }

    /// Adds an initial fact.
    fn add_fact(&mut self, fact: Fact) -> Result<Answer, Fault>
        ensures { Kept (state_of self.old) (with_initial (state_of self.old) ((state_of self.old).initial ++ said_fact fact ∷ [])) (state_of self.new) (answered result) }
    {
        put(&mut self.initial, fact)
    }

    /// Checks the tables, the types and the data access of the theory.
    fn check(&self) -> Result<Answer, Fault>
        ensures { Checks (meaning_of self.now.layout) self.now.theory (answered result) }
    {
        // The theory alone: the initial facts are checked when a session is opened with them.
        check(&self.layout, &self.theory)?;
        Ok(Answer::Passed)
    }

    /// Chooses the source for the next session.
    fn choose(&mut self, source: AnySource) -> Result<Answer, Fault>
        ensures { Chosen (state_of self.old) (view_of source) (state_of self.new) (answered result) }
    {
        self.source = Withholding::new(self.heap, source)?;
        self.layered = false;
        Ok(Answer::Noted)
    }

    /// Puts the withholding layer over the source, once.
    fn add_layer(&mut self) -> Result<Answer, Fault>
        ensures { Layers self.old.layered (state_of self.old) (state_of self.new) (answered result) }
    {
        if self.layered {
            return Ok(Answer::NotUnderstood);
        }
        self.layered = true;
        Ok(Answer::Noted)
    }

    /// Loads the roll.
    fn load(&mut self, numbers: &[u32]) -> Result<Answer, Fault>
        ensures { Loaded (state_of self.old).source (state_of self.old) numbers.now (state_of self.new) (answered result) }
    {
        let Some(loaded) = self.source.load(numbers) else {
            return Ok(Answer::NotUnderstood);
        };
        loaded?;
        Ok(Answer::Loaded(numbers.len()))
    }

    /// Sets the layer's list.
    fn withhold(&mut self, numbers: &[u32]) -> Result<Answer, Fault>
        ensures { Withholds self.old.layered (state_of self.old) numbers.now (state_of self.new) (answered result) }
    {
        if !self.layered {
            return Ok(Answer::NotUnderstood);
        }
        self.source.withhold(numbers)?;
        Ok(Answer::Withheld(numbers.len()))
    }
}
