// One line of a script: its command, its arguments, and the item that they make, or what is wrong with it.
#![tactic(auto)]

ghost use Rattle.std.specs.Prelude.{◌≡◌, length};
ghost use Rattle.word.specs.Word.{seek};
ghost use Rattle.argument.specs.Argument.{said_at};
ghost use Rattle.argument.specs.Code.{numbered};
ghost use Rattle.line.specs.Code.{row_of, over, all_over};
ghost use Rattle.line.specs.Command.{condition_of, sweep_of, act_of, pack_of, head_of, branch_of, item_of};
ghost use Rattle.line.specs.Command.{command_words, command_at, form_of};
ghost use Rattle.line.specs.Line.{arguments_at, lower, lowest, meaning, judged};

use argument::{Argument, Form, Refusal, Said};
use table::{Act, Branch, Close, Condition, Head, Item, Pack, Sweep};
use value::Operation;

// What a command makes of its arguments.
#[derive(Clone, Copy)]
pub enum MakeAct {
    Var,
    Store,
    Copy,
    Calc(Operation),
    Meas,
    TimerGet,
    SendString,
    Wait,
    SetE,
    SetMode,
    TimerStart,
    CellOn,
    CellOff,
    Abort,
}

#[derive(Clone, Copy)]
pub enum MakePack {
    Start,
    Add,
    End,
}

#[derive(Clone, Copy)]
pub enum MakeHead {
    If,
    Loop,
    Sweep,
}

#[derive(Clone, Copy)]
pub enum MakeBranch {
    ElseIf,
    Else,
}

#[derive(Clone, Copy)]
pub enum Make {
    Act(MakeAct),
    Pack(MakePack),
    Open(MakeHead),
    Branch(MakeBranch),
    Close(Close),
    Break,
    Tag,
}

// The arguments of a command, and what stands after them. Names and no array: most lines are over after the third, and
// the others are then not looked for.
#[derive(Clone, Copy)]
pub struct Arguments {
    pub a: Argument,
    pub b: Argument,
    pub c: Argument,
    pub d: Argument,
    pub e: Argument,
    pub f: Argument,
    pub end: Argument,
}

// ---- commands: by the number of its row in 01, what a command makes, the letters of its arguments, and its word

#[tactic(auto, unfolding(crate::specs::Command::command_at, crate::specs::Command::commands))]
fn make_at(k: usize) -> Make
    ensures { result ≡ (command_at k).make }
{
    match k {
        0 => Make::Act(MakeAct::Var),
        1 => Make::Act(MakeAct::Store),
        2 => Make::Act(MakeAct::Copy),
        3 => Make::Act(MakeAct::Calc(Operation::Add)),
        4 => Make::Act(MakeAct::Calc(Operation::Sub)),
        5 => Make::Act(MakeAct::Calc(Operation::Mul)),
        6 => Make::Act(MakeAct::Calc(Operation::Div)),
        7 => Make::Open(MakeHead::If),
        8 => Make::Branch(MakeBranch::ElseIf),
        9 => Make::Open(MakeHead::Loop),
        10 => Make::Open(MakeHead::Sweep),
        11 => Make::Act(MakeAct::Meas),
        12 => Make::Act(MakeAct::TimerGet),
        13 => Make::Pack(MakePack::Add),
        14 => Make::Act(MakeAct::SendString),
        15 => Make::Act(MakeAct::Wait),
        16 => Make::Act(MakeAct::SetE),
        17 => Make::Act(MakeAct::SetMode),
        18 => Make::Branch(MakeBranch::Else),
        19 => Make::Close(Close::EndIf),
        20 => Make::Close(Close::EndLoop),
        21 => Make::Break,
        22 => Make::Act(MakeAct::TimerStart),
        23 => Make::Pack(MakePack::Start),
        24 => Make::Pack(MakePack::End),
        25 => Make::Act(MakeAct::CellOn),
        26 => Make::Act(MakeAct::CellOff),
        27 => Make::Act(MakeAct::Abort),
        _ => Make::Tag,
    }
}

// As 01 writes them: v a name, x a name or literal (also where 01 writes f), t a type, n a number; w a new name, l a
// literal, o a comparison, s a text. A match and no table, which would be laid down anew for each line. Letters and no
// forms: so a row reads as it does in 01, and as the definition has it.
#[tactic(auto, unfolding(crate::specs::Command::command_at, crate::specs::Command::commands))]
fn shape_at(k: usize) -> [u8; 6]
    ensures { result ≡ (command_at k).shape }
{
    match k {
        0 => *b"w     ",
        1 => *b"vlt   ",
        2 => *b"vv    ",
        3 | 4 | 5 | 6 => *b"vx    ",
        7 | 8 | 9 => *b"xox   ",
        10 => *b"vvxxxx",
        11 => *b"xvt   ",
        12 | 13 => *b"v     ",
        14 => *b"s     ",
        15 | 16 => *b"x     ",
        17 => *b"n     ",
        _ => *b"      ",
    }
}

// The row of a word that is among these, each with its row.
fn among(word: &[u8], words: &[[u8; 16]], rows: &[usize]) -> Option<usize>
    ensures { result ≡ row_of rows.now (seek words.now word.now) }
{
    let i = word::seek_word(words, word)?;
    rows.get(i).copied()
}

// The row of a command's word, which is looked for among the words that begin with its letter. They stand in the arms:
// constants would all be laid down, whatever the letter.
fn find_command(word: &[u8]) -> Option<usize>
    ensures { result ≡ seek command_words word.now }
{
    if word.len() == 0 {
        return None;
    }
    match word[0] {
        b'a' => among(
            word,
            &[*b"add_var         ", *b"abort           "],
            &[3, 27],
        ),
        b'b' => among(word, &[*b"breakloop       "], &[21]),
        b'c' => among(
            word,
            &[
                *b"copy_var        ",
                *b"cell_on         ",
                *b"cell_off        ",
            ],
            &[2, 25, 26],
        ),
        b'd' => among(word, &[*b"div_var         "], &[6]),
        b'e' => among(
            word,
            &[
                *b"elseif          ",
                *b"else            ",
                *b"endif           ",
                *b"endloop         ",
            ],
            &[8, 18, 19, 20],
        ),
        b'i' => among(word, &[*b"if              "], &[7]),
        b'l' => among(word, &[*b"loop            "], &[9]),
        b'm' => among(
            word,
            &[
                *b"mul_var         ",
                *b"meas_loop_lsv   ",
                *b"meas            ",
            ],
            &[5, 10, 11],
        ),
        b'o' => among(word, &[*b"on_finished:    "], &[28]),
        b'p' => among(
            word,
            &[
                *b"pck_add         ",
                *b"pck_start       ",
                *b"pck_end         ",
            ],
            &[13, 23, 24],
        ),
        b's' => among(
            word,
            &[
                *b"store_var       ",
                *b"sub_var         ",
                *b"send_string     ",
                *b"set_e           ",
                *b"set_pgstat_mode ",
            ],
            &[1, 4, 14, 16, 17],
        ),
        b't' => among(
            word,
            &[*b"timer_get       ", *b"timer_start     "],
            &[12, 22],
        ),
        b'v' => among(word, &[*b"var             "], &[0]),
        b'w' => among(word, &[*b"wait            "], &[15]),
        _ => None,
    }
}

#[tactic(auto, unfolding(crate::specs::Command::form_of))]
fn form_of(letter: u8) -> Form
    ensures { result ≡ form_of letter }
{
    match letter {
        b'w' => Form::New,
        b'v' => Form::Name,
        b'x' => Form::Operand,
        b'l' => Form::Literal,
        b't' => Form::Letters,
        b'n' => Form::Number,
        b'o' => Form::Comparison,
        b's' => Form::Text,
        _ => Form::Nothing,
    }
}

// Whether a letter asks for nothing, and the line is at its end.
fn is_over(letter: u8, line: &[u8], at: usize) -> bool
    ensures { result ≡ over letter (length line.now) at }
{
    letter == b' ' && at == line.len()
}

// The argument that a letter asks for at a place.
fn say_next(letter: u8, line: &[u8], at: usize, names: &[[u8; 16]]) -> Said
    ensures { result ≡ said_at names.now line.now (form_of letter) at }
{
    if is_over(letter, line, at) {
        return Said {
            argument: Argument::Nothing,
            stop: at,
        };
    }
    argument::say_at(form_of(letter), line, at, names)
}

// Whether the arguments from the fourth on are asked for by no letter, and the line is at its end.
fn is_all_over(shape: [u8; 6], line: &[u8], at: usize) -> bool
    ensures { result ≡ all_over shape (length line.now) at }
{
    let over = is_over(shape[3], line, at);
    over & (shape[4] == b' ') & (shape[5] == b' ')
}

// All arguments, and that nothing follows them. Most lines end with their third at the latest.
fn say_all(shape: [u8; 6], line: &[u8], at: usize, names: &[[u8; 16]]) -> Arguments
    ensures { result ≡ arguments_at names.now line.now shape at }
{
    let a = say_next(shape[0], line, at, names);
    let b = say_next(shape[1], line, a.stop, names);
    let c = say_next(shape[2], line, b.stop, names);
    if is_all_over(shape, line, c.stop) {
        return Arguments {
            a: a.argument,
            b: b.argument,
            c: c.argument,
            d: Argument::Nothing,
            e: Argument::Nothing,
            f: Argument::Nothing,
            end: Argument::Nothing,
        };
    }
    let d = argument::say_at(form_of(shape[3]), line, c.stop, names);
    let e = argument::say_at(form_of(shape[4]), line, d.stop, names);
    let f = argument::say_at(form_of(shape[5]), line, e.stop, names);
    let g = argument::say_at(Form::Nothing, line, f.stop, names);
    Arguments {
        a: a.argument,
        b: b.argument,
        c: c.argument,
        d: d.argument,
        e: e.argument,
        f: f.argument,
        end: g.argument,
    }
}

// ---- items

fn condition_of(a: Argument, b: Argument, c: Argument) -> Condition
    ensures { result ≡ condition_of a b c }
{
    Condition {
        left: argument::operand_of(a),
        by: argument::comparison_of(b),
        right: argument::operand_of(c),
    }
}

fn sweep_of(x: Arguments) -> Sweep
    ensures { result ≡ sweep_of x }
{
    Sweep {
        potential: argument::name_of(x.a),
        current: argument::name_of(x.b),
        begin: argument::operand_of(x.c),
        end: argument::operand_of(x.d),
        step: argument::operand_of(x.e),
        rate: argument::operand_of(x.f),
    }
}

fn act_of(make: MakeAct, a: Argument, b: Argument, c: Argument) -> Act
    ensures { result ≡ act_of make a b c }
{
    match make {
        MakeAct::Var => Act::Var(argument::name_of(a)),
        MakeAct::Store => Act::Store(
            argument::name_of(a),
            argument::value_of(b),
            argument::letters_of(c),
        ),
        MakeAct::Copy => Act::Copy(argument::name_of(a), argument::name_of(b)),
        MakeAct::Calc(by) => Act::Calc(by, argument::name_of(a), argument::operand_of(b)),
        MakeAct::Meas => Act::Meas(
            argument::operand_of(a),
            argument::name_of(b),
            argument::letters_of(c),
        ),
        MakeAct::TimerGet => Act::TimerGet(argument::name_of(a)),
        MakeAct::SendString => Act::SendString(argument::text_of(a)),
        MakeAct::Wait => Act::Wait(argument::operand_of(a)),
        MakeAct::SetE => Act::SetE(argument::operand_of(a)),
        MakeAct::SetMode => Act::SetMode(argument::small_of(a)),
        MakeAct::TimerStart => Act::TimerStart,
        MakeAct::CellOn => Act::CellOn,
        MakeAct::CellOff => Act::CellOff,
        MakeAct::Abort => Act::Abort,
    }
}

fn pack_of(make: MakePack, a: Argument) -> Pack
    ensures { result ≡ pack_of make a }
{
    match make {
        MakePack::Start => Pack::Start,
        MakePack::Add => Pack::Add(argument::name_of(a)),
        MakePack::End => Pack::End,
    }
}

fn head_of(make: MakeHead, x: Arguments) -> Head
    ensures { result ≡ head_of make x }
{
    match make {
        MakeHead::If => Head::If(condition_of(x.a, x.b, x.c)),
        MakeHead::Loop => Head::Loop(condition_of(x.a, x.b, x.c)),
        MakeHead::Sweep => Head::Sweep(sweep_of(x)),
    }
}

fn branch_of(make: MakeBranch, a: Argument, b: Argument, c: Argument) -> Branch
    ensures { result ≡ branch_of make a b c }
{
    match make {
        MakeBranch::ElseIf => Branch::ElseIf(condition_of(a, b, c)),
        MakeBranch::Else => Branch::Else,
    }
}

fn item_of(make: Make, x: Arguments) -> Item
    ensures { result ≡ item_of make x }
{
    match make {
        Make::Act(m) => Item::Act(act_of(m, x.a, x.b, x.c)),
        Make::Pack(m) => Item::Pack(pack_of(m, x.a)),
        Make::Open(m) => Item::Open(head_of(m, x)),
        Make::Branch(m) => Item::Branch(branch_of(m, x.a, x.b, x.c)),
        Make::Close(m) => Item::Close(m),
        Make::Break => Item::Break,
        Make::Tag => Item::Tag,
    }
}

// ---- the line

// Of what is wrong, if something is, that with the lower number.
#[tactic(auto, unfolding(crate::specs::Line::lower))]
fn worse_of(a: Option<Refusal>, b: Option<Refusal>) -> Option<Refusal>
    ensures { numbered result ≡ lower (numbered a) (numbered b) }
{
    match (a, b) {
        (Some(m), Some(n)) => if u8::from(m) < u8::from(n) { a } else { b },
        (Some(_), None) => a,
        (None, _) => b,
    }
}

// What is wrong with the arguments by the lowest number.
#[tactic(auto, unfolding(crate::specs::Line::lowest))]
fn worst_of(x: Arguments) -> Option<Refusal>
    ensures { numbered result ≡ lowest x }
{
    let wf = worse_of(argument::wrong_of(x.f), argument::wrong_of(x.end));
    let we = worse_of(argument::wrong_of(x.e), wf);
    let wd = worse_of(argument::wrong_of(x.d), we);
    let wc = worse_of(argument::wrong_of(x.c), wd);
    let wb = worse_of(argument::wrong_of(x.b), wc);
    worse_of(argument::wrong_of(x.a), wb)
}

// A line that is not skipped, from `at` up to the end of these bytes of the script, where some names are declared: its
// item, or what is wrong with it.
pub fn judge_line(script: &[u8], at: usize, names: &[[u8; 16]]) -> Result<Item, Refusal>
    ensures { meaning result ≡ judged names.now script.now at }
{
    let w = word::word_at(script, at);
    match find_command(word::part_of(script, w)) {
        None => Err(Refusal::UnknownCommand),
        Some(k) => {
            let shape = shape_at(k);
            let make = make_at(k);
            let x = say_all(shape, script, w.end, names);
            match worst_of(x) {
                Some(why) => Err(why),
                None => Ok(item_of(make, x)),
            }
        }
    }
}
