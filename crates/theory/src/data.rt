use layouts::layout::Params;
use terms::book::Book;
use terms::row::Item;

/// A type: a family of the layout, and its parameters, which are items.
#[derive(Clone, Copy, PartialEq, Eq, Default)]
pub struct Ty<P = Item> {
    pub family: u8,
    pub params: Params<P>,
}

/// A declared name with its type.
#[derive(Clone, Copy)]
pub struct Declared {
    pub name: u32,
    pub of: Ty,
}

/// A parameter of an argument's type: a declared name, or the argument at an earlier place, counted
/// from 1.
#[derive(Clone, Copy)]
pub enum Slot {
    Name(u32),
    Place(usize),
}

/// The type of an argument, which may depend on earlier arguments.
pub type Argument = Ty<Slot>;

/// A memory or role predicate, by the types of its arguments.
#[derive(Drop)]
pub struct Predicate {
    pub arguments: Vec<Argument>,
}

/// Which predicate a fact is of: the network, or a memory predicate or a predicate of the role, by
/// its number from 1.
#[derive(Clone, Copy)]
pub enum Symbol {
    Network,
    Memory(usize),
    Role(usize),
}

/// A fact: a predicate, and the rows of its arguments.
#[derive(Drop)]
pub struct Fact {
    pub symbol: Symbol,
    pub rows: Vec<usize>,
}

/// A rule. Its universal variables are numbered from 1, and its made ones go on from there.
#[derive(Drop)]
pub struct Rule {
    pub universal: Vec<Ty>,
    pub left: Vec<Fact>,
    pub made: Vec<Ty>,
    pub right: Vec<Fact>,
}

/// A role: generic, or anchored to a declared principal; its own predicates, and its rules in
/// sequence. Variable 0 is its owner.
#[derive(Drop)]
pub struct Role {
    pub anchor: Option<u32>,
    pub predicates: Vec<Predicate>,
    pub rules: Vec<Rule>,
}

/// A theory: its terms, its signature, its memory predicates and its roles.
#[derive(Drop)]
pub struct Theory {
    pub book: Book,
    pub names: Vec<Declared>,
    pub memory: Vec<Predicate>,
    pub roles: Vec<Role>,
}
