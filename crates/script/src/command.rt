ghost use Rattle.std.specs.Prelude.{◌≡◌, map, IfOk};
ghost use Rattle.std.specs.Option.{option_map};
ghost use Rattle.script.specs.Said.{in_rule, said, said_line};
ghost use Rattle.script.specs.Commands.{item_of, compound_of, layout_of, anchor_of, name_with, plain_of, command_of};
ghost use Rattle.script.specs.Lines.{is_silent, Reads};

use crate::facts::read_fact;
use crate::readable::{Readable, read_list};
use crate::words::split_words;
use layouts::any::AnyLayout;
use std::alloc::{AllocError, Global};
use std::str::from_utf8;
use terms::row::{Item, Row};
use theory::data::{Argument, Declared, Fact, Ty};

/// A command of a script.
#[derive(Drop)]
pub enum Command {
    /// `row ..`: adds a row to the theory's book.
    Row(Row),
    /// `new`: begins an empty theory.
    New,
    /// `layout ..`: chooses the layout.
    Layout(AnyLayout),
    /// `counter N`: chooses a counter from N as source.
    Counter(u32),
    /// `roll`: chooses an empty roll as source.
    Roll,
    /// `withholding`: puts the withholding layer over the source.
    Withholding,
    /// `load ..`: loads the roll.
    Load(Vec<u32>),
    /// `withhold ..`: sets the layer's list.
    Withhold(Vec<u32>),
    /// `name ..`: declares a name with its type.
    Name(Declared),
    /// `memory ..`: a memory predicate with its argument types.
    Memory(Vec<Argument>),
    /// `role ..`: begins a role, generic or anchored to a name.
    Role(Option<u32>),
    /// A line that adds to the last role.
    Part(Part),
    /// `fact ..`: the next initial fact.
    Fact(Fact),
    /// `check`: checks the theory.
    Check,
}

/// What a line adds to the last role.
#[derive(Drop)]
pub enum Part {
    /// `local ..`: a predicate of the role.
    Predicate(Vec<Argument>),
    /// `rule`: begins a rule.
    Rule,
    /// A line that adds to the last rule of the role.
    OfRule(RulePart),
}

/// What a line adds to the last rule.
#[derive(Drop)]
pub enum RulePart {
    /// `forall ..`: the next universal variable.
    Universal(Ty),
    /// `make ..`: the next made variable.
    Made(Ty),
    /// `left ..`: the next left fact.
    Left(Fact),
    /// `right ..`: the next right fact.
    Right(Fact),
}

impl From<RulePart> for Command {
    ghost from_gives = { λ part command. command ≡ in_rule part };

    fn from(part: RulePart) -> Command {
        Command::Part(Part::OfRule(part))
    }
}

/// What a line of a script is.
#[derive(Drop)]
pub enum Line {
    /// A blank line or a comment, which is only echoed.
    Silent,
    /// A line that is no command.
    Unreadable,
    Command(Command),
}

/// What the line is; no more than memory can be wanting.
pub fn read_line(heap: Global, line: &[u8]) -> Result<Line, AllocError>
    ensures { IfOk result (λ l. Reads line.now (said_line l)) }
{
    if begins_silent(line) {
        return Ok(Line::Silent);
    }
    let Ok(text) = from_utf8(line) else {
        return Ok(Line::Unreadable);
    };
    let words = split_words(heap, text)?;
    Ok(read_command(heap, words.as_slice())?.map_or(Line::Unreadable, Line::Command))
}

/// Whether the line is blank or a comment: its first byte that is no blank, if any, is `#`.
fn begins_silent(line: &[u8]) -> bool
    ensures { result ≡ is_silent line.now }
{
    line.iter()
        .find(|byte| **byte != b' ')
        .is_none_or(|byte| *byte == b'#')
}

/// The command that the words give.
fn read_command(heap: Global, words: &[&str]) -> Result<Option<Command>, AllocError>
    ensures { IfOk result (λ c. option_map said c ≡ command_of (map (λ w. w.now) words.now)) }
{
    match words {
        ["load", rest @ ..] => Ok(read_list(heap, rest)?.map(Command::Load)),
        ["withhold", rest @ ..] => Ok(read_list(heap, rest)?.map(Command::Withhold)),
        ["memory", rest @ ..] => Ok(read_list(heap, rest)?.map(Command::Memory)),
        ["local", rest @ ..] => Ok(
            read_list(heap, rest)?
                .map(Part::Predicate)
                .map(Command::Part),
        ),
        ["left", rest @ ..] => Ok(
            read_fact(heap, rest)?
                .map(RulePart::Left)
                .map(Command::from),
        ),
        ["right", rest @ ..] => Ok(
            read_fact(heap, rest)?
                .map(RulePart::Right)
                .map(Command::from),
        ),
        ["fact", rest @ ..] => Ok(read_fact(heap, rest)?.map(Command::Fact)),
        // Apart from these: as one match over all commands, tried once, three goals stayed open.
        _ => Ok(read_plain(words)),
    }
}

/// The command that the words give, of those that hold no list.
fn read_plain(words: &[&str]) -> Option<Command>
    ensures { option_map said result ≡ plain_of (map (λ w. w.now) words.now) }
{
    match words {
        ["new"] => Some(Command::New),
        ["roll"] => Some(Command::Roll),
        ["withholding"] => Some(Command::Withholding),
        ["check"] => Some(Command::Check),
        ["rule"] => Some(Command::Part(Part::Rule)),
        ["layout", word] => AnyLayout::read(word).map(Command::Layout),
        ["counter", start] => u32::read(start).map(Command::Counter),
        ["role", anchor] => read_anchor(anchor).map(Command::Role),
        ["forall", of] => Ty::read(of).map(RulePart::Universal).map(Command::from),
        ["make", of] => Ty::read(of).map(RulePart::Made).map(Command::from),
        ["row", kind, number] => read_item(kind, number).map(Command::Row),
        ["row", kind, first, second] => read_compound(kind, first, second).map(Command::Row),
        ["name", name, of] => read_name(name, of).map(Command::Name),
        _ => None,
    }
}

/// What a role is anchored to: a name, or with `*` nothing.
fn read_anchor(word: &str) -> Option<Option<u32>>
    ensures { result ≡ anchor_of word.now }
{
    match word {
        "*" => Some(None),
        _ => u32::read(word).map(Some),
    }
}

/// The declaration of a name: its number and its type.
fn read_name(name: &str, of: &str) -> Option<Declared>
    ensures { result ≡ name_with name.now of.now }
{
    let name = u32::read(name)?;
    let of = Ty::read(of)?;
    Some(Declared { name, of })
}

/// A layout by its word.
impl Readable for AnyLayout {
    ghost reads = { layout_of };

    fn read(word: &str) -> Option<AnyLayout> {
        match word {
            "report" => Some(AnyLayout::Report),
            "keyserver" => Some(AnyLayout::KeyServer),
            _ => None,
        }
    }
}

/// An item's row.
fn read_item(kind: &str, number: &str) -> Option<Row>
    ensures { result ≡ item_of kind.now number.now }
{
    match kind {
        "name" => u32::read(number).map(Item::Name).map(Row::Item),
        "variable" => u8::read(number).map(Item::Variable).map(Row::Item),
        _ => None,
    }
}

/// A pair's, seal's or lock's row.
fn read_compound(kind: &str, first: &str, second: &str) -> Option<Row>
    ensures { result ≡ compound_of kind.now first.now second.now }
{
    let a = usize::read(first)?;
    let b = usize::read(second)?;
    match kind {
        "pair" => Some(Row::Pair(a, b)),
        "seal" => Some(Row::Seal { content: a, key: b }),
        "lock" => Some(Row::Lock { content: a, key: b }),
        _ => None,
    }
}
