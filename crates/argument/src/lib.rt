// What an argument's word says where a form is asked, or what is wrong with it.
#![tactic(auto)]

ghost use Rattle.std.specs.Prelude.{◌≡◌, ◌≤◌, length};
ghost use Rattle.argument.specs.Refusal.{number_of};
ghost use Rattle.argument.specs.Holds.{name_of, operand_of, value_of, letters_of, small_of};
ghost use Rattle.argument.specs.Holds.{comparison_of, text_of, wrong_of};
ghost use Rattle.argument.specs.Code.{numbered};
ghost use Rattle.argument.specs.Argument.{empty_said, new_said, name_said, literal_said, operand_said, type_said};
ghost use Rattle.argument.specs.Argument.{number_said, comparison_at, comparison_said, said, is_text, text_at};
ghost use Rattle.argument.specs.Argument.{SaysAt};

use table::{Operand, Text};
use value::{Comparison, Value};
use word::Class;

// What is wrong with a script's text.
#[derive(Clone, Copy)]
pub enum Refusal {
    TooLong,
    NoEnd,
    LongLine,
    TooManyItems,
    UnknownCommand,
    BadArguments,
    Undeclared,
    DeclaredTwice,
    TooManyNames,
}

// What is asked of an argument's word.
#[derive(Clone, Copy)]
pub enum Form {
    Nothing,
    New,
    Name,
    Operand,
    Literal,
    Letters,
    Number,
    Comparison,
    Text,
}

// What an argument's word says. What is wrong stands among the rest and is no Err: all the words of a line are read
// before the lowest of their refusals is known, so nothing could hand the first one on by `?`.
#[derive(Clone, Copy)]
pub enum Argument {
    Nothing,
    Name(usize),
    Operand(Operand),
    Literal(Value),
    Letters(u16),
    Number(u8),
    Comparison(Comparison),
    Text(Text),
    Wrong(Refusal),
}

// An argument, and where in the line its word stopped.
#[derive(Clone, Copy)]
pub struct Said {
    pub argument: Argument,
    pub stop: usize,
}

const MOST_NAMES: usize = 32;

// 01's number of a refusal, 10 to 18.
impl From<Refusal> for u8 {
    ghost from_gives = { λ why r. r ≡ number_of why };

    #[tactic(auto, unfolding(crate::specs::Refusal::number_of))]
    fn from(why: Refusal) -> u8 {
        match why {
            Refusal::TooLong => 10,
            Refusal::NoEnd => 11,
            Refusal::LongLine => 12,
            Refusal::TooManyItems => 13,
            Refusal::UnknownCommand => 14,
            Refusal::BadArguments => 15,
            Refusal::Undeclared => 16,
            Refusal::DeclaredTwice => 17,
            Refusal::TooManyNames => 18,
        }
    }
}

// ---- what an argument says, where it says something of the sort, and otherwise nothing of meaning: no Option, since
// an item is made only where every argument is of the sort that its place asks for

// A name's number; 0 for what is no name.
pub fn name_of(x: Argument) -> usize
    ensures { result ≡ name_of x }
{
    match x {
        Argument::Name(n) => n,
        _ => 0,
    }
}

// The operand; the literal 0i for what is none.
pub fn operand_of(x: Argument) -> Operand
    ensures { result ≡ operand_of x }
{
    match x {
        Argument::Operand(o) => o,
        _ => Operand::Literal(Value::Whole(0)),
    }
}

// The value of a literal; 0i for what is none.
pub fn value_of(x: Argument) -> Value
    ensures { result ≡ value_of x }
{
    match x {
        Argument::Literal(v) => v,
        _ => Value::Whole(0),
    }
}

// The letters of a type; 0 for what is none.
pub fn letters_of(x: Argument) -> u16
    ensures { result ≡ letters_of x }
{
    match x {
        Argument::Letters(t) => t,
        _ => 0,
    }
}

// A small number; 0 for what is none.
pub fn small_of(x: Argument) -> u8
    ensures { result ≡ small_of x }
{
    match x {
        Argument::Number(n) => n,
        _ => 0,
    }
}

// The comparison; equal for what is none.
pub fn comparison_of(x: Argument) -> Comparison
    ensures { result ≡ comparison_of x }
{
    match x {
        Argument::Comparison(c) => c,
        _ => Comparison::Equal,
    }
}

// The range of a text; the empty one at 0 for what is none.
pub fn text_of(x: Argument) -> Text
    ensures { result ≡ text_of x }
{
    match x {
        Argument::Text(t) => t,
        _ => Text { start: 0, end: 0 },
    }
}

// What is wrong with an argument, if something is.
pub fn wrong_of(x: Argument) -> Option<Refusal>
    ensures { numbered result ≡ wrong_of x }
{
    match x {
        Argument::Wrong(why) => Some(why),
        _ => None,
    }
}

// ---- what a word says

// No word: a missing word is an empty one.
#[tactic(auto, unfolding(crate::specs::Argument::empty_said))]
fn empty_said(word: &[u8]) -> Argument
    ensures { result ≡ empty_said word.now }
{
    if word.is_empty() {
        return Argument::Nothing;
    }
    Argument::Wrong(Refusal::BadArguments)
}

// A name that was declared.
#[tactic(auto, unfolding(crate::specs::Argument::name_said))]
fn name_said(word: &[u8], names: &[[u8; 16]]) -> Argument
    ensures { result ≡ name_said names.now word.now }
{
    if !word::is_name(word) {
        return Argument::Wrong(Refusal::BadArguments);
    }
    match word::seek_word(names, word) {
        Some(i) => Argument::Name(i),
        None => Argument::Wrong(Refusal::Undeclared),
    }
}

// A name that is new.
#[tactic(auto, unfolding(crate::specs::Argument::new_said))]
fn new_said(word: &[u8], names: &[[u8; 16]]) -> Argument
    ensures { result ≡ new_said names.now word.now }
{
    if !word::is_name(word) {
        return Argument::Wrong(Refusal::BadArguments);
    }
    match word::seek_word(names, word) {
        Some(_) => Argument::Wrong(Refusal::DeclaredTwice),
        None if names.len() < MOST_NAMES => Argument::Name(names.len()),
        None => Argument::Wrong(Refusal::TooManyNames),
    }
}

#[tactic(auto, unfolding(crate::specs::Argument::literal_said))]
fn literal_said(word: &[u8]) -> Argument
    ensures { result ≡ literal_said word.now }
{
    match value::read_literal(word) {
        Ok((v, _)) => Argument::Literal(v),
        Err(_) => Argument::Wrong(Refusal::BadArguments),
    }
}

// A name or a literal.
#[tactic(auto, unfolding(crate::specs::Argument::operand_said))]
fn operand_said(word: &[u8], names: &[[u8; 16]]) -> Argument
    ensures { result ≡ operand_said names.now word.now }
{
    if word::is_name(word) {
        return match word::seek_word(names, word) {
            Some(i) => Argument::Operand(Operand::Name(i)),
            None => Argument::Wrong(Refusal::Undeclared),
        };
    }
    match value::read_literal(word) {
        Ok((v, _)) => Argument::Operand(Operand::Literal(v)),
        Err(_) => Argument::Wrong(Refusal::BadArguments),
    }
}

#[tactic(auto, unfolding(crate::specs::Argument::type_said))]
fn type_said(word: &[u8]) -> Argument
    ensures { result ≡ type_said word.now }
{
    match word::read_type(word) {
        Some(t) => Argument::Letters(t),
        None => Argument::Wrong(Refusal::BadArguments),
    }
}

#[tactic(auto, unfolding(crate::specs::Argument::number_said))]
fn number_said(word: &[u8]) -> Argument
    ensures { result ≡ number_said word.now }
{
    match word::read_small(word) {
        Some(n) => Argument::Number(n),
        None => Argument::Wrong(Refusal::BadArguments),
    }
}

const SIGNS: [[u8; 16]; 6] = [
    *b"==              ",
    *b"!=              ",
    *b"<               ",
    *b"<=              ",
    *b">               ",
    *b">=              ",
];

// The comparison that the sign of a row stands for. A word is looked for as a row, filled up with spaces, so the words
// themselves can be no arms.
#[tactic(auto, unfolding(crate::specs::Argument::comparison_at))]
fn comparison_at(i: usize) -> Comparison
    ensures { result ≡ comparison_at i }
{
    match i {
        0 => Comparison::Equal,
        1 => Comparison::Unequal,
        2 => Comparison::Less,
        3 => Comparison::AtMost,
        4 => Comparison::Greater,
        _ => Comparison::AtLeast,
    }
}

fn comparison_said(word: &[u8]) -> Argument
    ensures { result ≡ comparison_said word.now }
{
    match word::seek_word(&SIGNS, word) {
        Some(i) => Argument::Comparison(comparison_at(i)),
        None => Argument::Wrong(Refusal::BadArguments),
    }
}

// What a word says where a form is asked.
#[tactic(auto, unfolding(crate::specs::Argument::said))]
fn say(form: Form, word: &[u8], names: &[[u8; 16]]) -> Argument
    ensures { result ≡ said form names.now word.now }
{
    match form {
        Form::Nothing => empty_said(word),
        Form::New => new_said(word, names),
        Form::Name => name_said(word, names),
        Form::Operand => operand_said(word, names),
        Form::Literal => literal_said(word),
        Form::Letters => type_said(word),
        Form::Number => number_said(word),
        Form::Comparison => comparison_said(word),
        Form::Text => Argument::Wrong(Refusal::BadArguments),
    }
}

fn is_text(form: Form) -> bool
    ensures { result ≡ is_text form }
{
    matches!(form, Form::Text)
}

// The text of send_string from a place of its line.
#[tactic(auto, unfolding(crate::specs::Argument::text_at))]
fn text_at(line: &[u8], at: usize) -> Said
    ensures value { result ≡ text_at line.now at }
    ensures inside { result.stop ≤ length line.now }
{
    let n = line.len();
    let wrong = Said {
        argument: Argument::Wrong(Refusal::BadArguments),
        stop: n,
    };
    let open = word::run_from(line, at, Class::Blank);
    if n <= open {
        return wrong;
    }
    if line[open] != b'"' {
        return wrong;
    }
    let start = open + 1;
    let end = text::next_byte(line, start, b'"');
    if n <= end {
        return wrong;
    }
    Said {
        argument: Argument::Text(Text { start, end }),
        stop: end + 1,
    }
}

// The argument that begins at a place.
pub fn say_at(form: Form, line: &[u8], at: usize, names: &[[u8; 16]]) -> Said
    ensures { SaysAt names.now line.now form at result }
{
    if is_text(form) {
        return text_at(line, at);
    }
    let w = word::word_at(line, at);
    let argument = say(form, word::part_of(line, w), names);
    Said {
        argument,
        stop: w.end,
    }
}
