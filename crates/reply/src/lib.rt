// A reply: the verdict on the whole, the rows that the caller lends, and a reader of lines.
#![tactic(auto)]

ghost use Rattle.std.specs.Prelude.{◌≡◌, ◌<◌, ℕ, List, get_or, length, slice_set};
ghost use Rattle.reply.specs.Reply.{verdict, meaning, outcome_of};
ghost use Rattle.reply.specs.Rows.{script_row, ReadRows, table_meaning, read_table};
ghost use Rattle.reply.specs.Lines.{next_line, place_after, Begins, Serves};
ghost use Rattle.reply.specs.Code.{seen_at, place_by, one_more, raised_row, change, change_by};
ghost use Rattle.reply.specs.Code.{begun_at, memory, place_in, turned, Passed};

use reply_line::{Line, Refusal, RowKind};
use reply_step::Step;

pub mod numbers;

// The longest reply.
const MOST_BYTES: usize = 65536;

// The rows of a table by value.
const TABLE_ROWS: usize = 1024;

// Row 0 is the script, the others are loops and scans.
#[derive(Clone, Copy)]
pub struct Row {
    pub kind: RowKind,
    pub mark: u32,
    pub parent: usize,
    pub packages: usize,
}

// The script's row before the first package. It stands wherever there is no row.
const SCRIPT_ROW: Row = Row {
    kind: RowKind::Script,
    mark: 0,
    parent: 0,
    packages: 0,
};

// Of a reply that is read: the code of its last line, the bytes used, and how many rows there are.
#[derive(Clone, Copy)]
pub struct Read {
    pub code: u32,
    pub used: usize,
    pub rows: usize,
}

// The next line of a reply: where its bytes stand, and where the one after it starts.
#[derive(Clone, Copy)]
pub struct NextLine {
    pub start: usize,
    pub end: usize,
    pub next: usize,
}

// ---- the verdict: a pass that writes nothing

// The line that starts at a place. Bytes after the last newline are no line.
#[tactic(auto, unfolding(crate::specs::Lines::next_line))]
fn next_line(reply: &[u8], at: usize) -> Option<NextLine>
    ensures { result ≡ next_line reply.now at }
{
    let e = text::next_byte(reply, at, b'\n');
    if e < reply.len() {
        Some(NextLine {
            start: at,
            end: e,
            next: e + 1,
        })
    } else {
        None
    }
}

// The verdict on a whole reply, for a table of n rows: a refusal has its line, from 1; one of the whole reply has 01's
// line 0. Nothing is written. A step goes as far as its line is long, so no range counts the places.
#[tactic(auto, using(crate::proofs::Lines::found))]
fn judge(reply: &[u8], n: usize) -> Result<Read, (Refusal, usize)>
    ensures { result ≡ verdict n reply.now }
{
    if MOST_BYTES < reply.len() {
        return Err((Refusal::TooLong, 0));
    }
    let mut st = reply_step::nothing_open();
    let mut at: usize = 0;
    let mut k: usize = 1;
    while let Some(found) = next_line(reply, at) {
        let line = reply_line::line_at(&reply[found.start..found.end], k, n);
        match reply_step::step_of(line, st, n) {
            Ok(Step::On(after)) => {
                st = after;
                at = found.next;
                k += 1;
            }
            Ok(Step::Ends(code)) => {
                return Ok(Read {
                    code,
                    used: found.next,
                    rows: st.rows,
                });
            }
            Err(why) => {
                return Err((why, k));
            }
        }
    }
    Err((Refusal::NoEnding, k))
}

// The verdict on a whole reply, for a table of n rows that nobody need lend.
#[tactic(auto, unfolding(crate::specs::Reply::outcome_of))]
pub fn judge_reply(reply: &[u8], n: usize) -> Result<Read, (Refusal, usize)>
    ensures { meaning result ≡ outcome_of n reply.now }
{
    judge(reply, n)
}

// ---- the second pass, over a reply that is known to be good: a turn a line

// A line, and where the next one starts.
#[derive(Clone, Copy)]
pub struct Seen {
    pub line: Line,
    pub next: usize,
}

// Where the second pass stands: at a line, read already; where the last line ends; the row of the innermost that is
// open, and how many rows there are.
#[derive(Clone, Copy)]
pub struct Stand {
    pub pos: usize,
    pub end: usize,
    pub line: Line,
    pub next: usize,
    pub holder: usize,
    pub rows: usize,
}

// What a line makes of the row that it is about, and of the place among the rows.
#[derive(Clone, Copy)]
pub struct Change {
    pub row: Row,
    pub holder: usize,
    pub rows: usize,
}

#[derive(Clone, Copy)]
pub struct Turn {
    pub row: Row,
    pub next: Stand,
}

#[tactic(auto, using(crate::proofs::Lines::found, crate::proofs::Turns::seen_found, crate::proofs::Turns::seen_none))]
fn seen_at(reply: &[u8], pos: usize, end: usize) -> Seen
    ensures { result ≡ seen_at reply.now end pos }
{
    match next_line(reply, pos) {
        Some(found) => Seen {
            line: reply_line::known_line(&reply[found.start..found.end]),
            next: found.next,
        },
        None => Seen {
            line: Line::Quiet,
            next: end,
        },
    }
}

// One more; no reply has so many rows or packages that this stands still.
#[tactic(auto, unfolding(crate::specs::Code::one_more))]
fn one_more(count: usize) -> usize
    ensures { result ≡ one_more count }
{
    if count < MOST_BYTES { count + 1 } else { count }
}

#[tactic(auto, unfolding(crate::specs::Code::raised_row))]
fn raised_row(old: Row) -> Row
    ensures { result ≡ raised_row old }
{
    let mut row = old;
    row.packages = one_more(old.packages);
    row
}

fn changed(row: Row, holder: usize, rows: usize) -> Change
    ensures { result ≡ change row holder rows }
{
    Change { row, holder, rows }
}

// Where the second pass starts, over so many bytes: the first line opens the script's row.
fn begin(reply: &[u8], used: usize) -> Stand
    ensures { result ≡ begun_at reply.now used }
{
    Stand {
        pos: 0,
        end: used,
        line: Line::Opens(RowKind::Script, 0),
        next: seen_at(reply, 0, used).next,
        holder: 0,
        rows: 0,
    }
}

impl Stand {
    // Which row the line is about: an opening mark the next free one, any other the innermost.
    #[tactic(auto, unfolding(crate::specs::Code::place_by))]
    fn place_by(self) -> usize
        ensures { result ≡ place_by self.line self.holder self.rows }
    {
        match self.line {
            Line::Opens(_, _) => self.rows,
            _ => self.holder,
        }
    }

    // Which of n rows that is.
    #[tactic(auto, unfolding(crate::specs::Code::place_in))]
    fn place_in(self, n: usize) -> usize
        ensures { result ≡ place_in self n }
    {
        let p = self.place_by();
        if p < n { p } else { 0 }
    }

    // What that row is to be.
    #[tactic(auto, unfolding(crate::specs::Code::change_by))]
    fn change_by(self, old: Row) -> Change
        ensures { result ≡ change_by self.line self.holder self.rows old }
    {
        match self.line {
            Line::Opens(kind, mark) => {
                let row = Row {
                    kind,
                    mark,
                    parent: self.holder,
                    packages: 0,
                };
                changed(row, self.rows, one_more(self.rows))
            }
            Line::Closes(_) => changed(old, old.parent, self.rows),
            Line::Package => changed(raised_row(old), self.holder, self.rows),
            _ => changed(old, self.holder, self.rows),
        }
    }

    // The row, and where the pass stands then.
    #[tactic(auto, unfolding(crate::specs::Code::turned))]
    fn take_turn(self, reply: &[u8], old: Row) -> Turn
        ensures { result ≡ turned reply.now self old }
    {
        let change = self.change_by(old);
        let seen = seen_at(reply, self.next, self.end);
        Turn {
            row: change.row,
            next: Stand {
                pos: self.next,
                end: self.end,
                line: seen.line,
                next: seen.next,
                holder: change.holder,
                rows: change.rows,
            },
        }
    }
}

// ---- what rows are kept in

// Rows side by side: how many have room, how one is read, and how one is put.
trait Keep: Copy {
    ghost use Rattle.reply.specs.declared.Row.{Row};

    ghost room: { List Self → ℕ };

    ghost got: { List Self → ℕ → Row };

    ghost put: { List Self → ℕ → Row → List Self };

    fn room(lent: &[Self]) -> usize
        ensures { result ≡ room lent.now };

    fn row_in(lent: &[Self], at: usize) -> Row
        requires { at < room lent.now }
        ensures { result ≡ got lent.now at };

    fn put_row(lent: &mut [Self], at: usize, row: Row)
        requires { at < room lent.old }
        ensures { lent.new ≡ put lent.old at row };

    ghost keeps_room: { (xs ys : List Self) → length xs ≡ length ys → room xs ≡ room ys };
}

impl Keep for Row {
    ghost room = { λ rows. length rows };

    ghost got = { λ rows at. get_or rows at script_row };

    ghost put = { λ rows at row. slice_set rows at row };

    ghost keeps_room = { λ xs ys same. same };

    fn room(lent: &[Row]) -> usize {
        lent.len()
    }

    fn row_in(lent: &[Row], at: usize) -> Row {
        lent[at]
    }

    fn put_row(lent: &mut [Row], at: usize, row: Row) {
        lent[at] = row;
    }
}

// The whole: the verdict first, then one store a line.
#[tactic(auto, using(crate::proofs::Turns::place_below))]
fn read_into<K: Keep>(reply: &[u8], lent: &mut [K]) -> Result<Read, (Refusal, usize)>
    ensures { Passed (memory K.got K.put) (K.room lent.old) reply.now lent.old result lent.new }
{
    let n = K::room(lent);
    let read = judge(reply, n)?;
    let mut st = begin(reply, read.used);
    while st.pos < st.end {
        let at = st.place_in(n);
        let t = st.take_turn(reply, K::row_in(lent, at));
        K::put_row(lent, at, t.row);
        st = t.next;
    }
    Ok(read)
}

// A reply read into rows.
pub fn read_reply(reply: &[u8], rows: &mut [Row]) -> Result<Read, (Refusal, usize)>
    ensures { ReadRows reply.now rows.old result rows.new }
{
    read_into(reply, rows)
}

// What a table of 1,024 rows holds after a reply is read into it.
#[derive(Clone, Copy)]
pub struct RowTable {
    pub rows: [Row; TABLE_ROWS],
    pub answer: Result<Read, (Refusal, usize)>,
}

// The same by value, for those who lend no table of their own.
#[tactic(auto, unfolding(crate::specs::Rows::table_meaning, crate::specs::Rows::read_table))]
pub fn read_table(reply: &[u8]) -> RowTable
    ensures { table_meaning result ≡ read_table reply.now }
{
    let mut rows = [SCRIPT_ROW; TABLE_ROWS];
    let answer = read_reply(reply, &mut rows);
    RowTable { rows, answer }
}

// A row of the table, or the script's where there is no such place.
#[tactic(auto, using(crate::proofs::Rows::past_rows))]
pub fn row_of(table: RowTable, at: usize) -> Row
    ensures { result ≡ get_or table.rows at script_row }
{
    if at < TABLE_ROWS {
        table.rows[at]
    } else {
        SCRIPT_ROW
    }
}

// ---- lines

// A reader of lines: it stands over a lent reply, at the place where the next line starts.
#[derive(Clone, Copy)]
pub struct LineReader<'a> {
    pub reply: &'a [u8],
    pub at: usize,
}

// Where a reader stands after a line; with no line left, where it stood.
#[tactic(auto, unfolding(crate::specs::Lines::place_after))]
fn place_after(line: Option<NextLine>, at: usize) -> usize
    ensures { result ≡ place_after line at }
{
    match line {
        Some(found) => found.next,
        None => at,
    }
}

// A reader at the first line.
pub fn lines_of<'a>(reply: &'a [u8]) -> LineReader<'a>
    ensures { Begins reply.entry result }
{
    LineReader { reply, at: 0 }
}

impl<'a> LineReader<'a> {
    // The line at the reader's place, which then is that of the one after it.
    pub fn next<'s>(&'s mut self) -> Option<NextLine>
        ensures { Serves self.old result self.new }
    {
        let at = self.at;
        let line = next_line(self.reply, at);
        self.at = place_after(line, at);
        line
    }
}
