// What a step hands out, as text: 01's marks for the loops, and for each other thing a word with what it carries.
#![tactic(auto)]

ghost use Rattle.std.specs.Prelude.{◌≡◌, ℕ, List, [], ◌∷◌, ◌++◌, ◌+◌, ◌%◌, ◌≤◌, ◌<◌, length, take};
ghost use Rattle.std.specs.Float.{binary64};
ghost use Rattle.std.specs.Float.Ieee.{to_bits};
ghost use Rattle.text.specs.Decimal.{decimal};
ghost use Rattle.text.specs.Hex.{hex4};
ghost use Rattle.state.specs.State.{pack_part, says, sets_mode};
ghost use Rattle.state.specs.Meaning.{out_of, order_of};
ghost use Rattle.thing_text.specs.Thing.{hex16, sign_text, whole_text, value_text, amount_text};
ghost use Rattle.thing_text.specs.Thing.{enter_text, leave_text, text_of, write};
ghost use Rattle.thing_text.specs.Answer.{number_of, leaves_by};

use state::{LoopSort, Order, What};
use std::marker::Model;
use table::Text;
use value::Value;

const SIXTEEN_BITS: u64 = 65536;

// The bytes of a text so far, the first ones of these; a contract sees them as a list.
#[derive(Drop)]
struct Words {
    bytes: [u8; 64],
    count: usize,
}

impl Model for Words {
    ghost Value = { List ℕ };

    ghost view = { λ w. take w.count w.bytes };

    ghost invariant = { λ w. w.count ≤ 64 };
}

// The lent buffer is too short, 5.
#[derive(Clone, Copy)]
pub struct Short;

// 01's number of an answer: 5 for a short buffer, 0 where the text was written. The answer is a type of the library, so
// that no conversion of it can stand here.
pub fn number(put: Result<usize, Short>) -> u8
    ensures { result ≡ number_of put }
{
    match put {
        Ok(_) => 0,
        Err(Short) => 5,
    }
}

fn low_bits(n: u64) -> u16
    ensures { result ≡ n % 65536 }
{
    (n % SIXTEEN_BITS) as u16
}

impl Words {
    fn of(s: &[u8]) -> Words
        requires { length s.now ≤ 64 }
        ensures { result ≡ s.now }
    {
        let mut words = Words {
            bytes: [0; 64],
            count: 0,
        };
        words.push_all(s);
        words
    }

    fn as_slice(&self) -> &[u8]
        ensures { result.now ≡ self.now }
    {
        &self.bytes[..self.count]
    }

    // ---- bytes behind bytes. Each asks for the room that it takes, no two for the same.

    fn push(&mut self, b: u8)
        requires { length self.old < 64 }
        ensures bytes { self.new ≡ self.old ++ b ∷ [] }
        ensures count { length self.new ≡ length self.old + 1 }
    {
        self.bytes[self.count] = b;
        self.count += 1;
    }

    fn push_all(&mut self, s: &[u8])
        requires { length self.old + length s.now ≤ 64 }
        ensures bytes { self.new ≡ self.old ++ s.now }
        ensures count { length self.new ≡ length self.old + length s.now }
    {
        let end = self.count + s.len();
        self.bytes[self.count..end].copy_from_slice(s);
        self.count = end;
    }

    // ---- numbers

    fn push_hex4(&mut self, n: u16)
        requires { length self.old + 4 ≤ 64 }
        ensures bytes { self.new ≡ self.old ++ hex4 n }
        ensures count { length self.new ≡ length self.old + 4 }
    {
        let mut digits = [0u8; 4];
        text::put_hex4(&mut digits, 0, n);
        self.push_all(&digits);
    }

    fn push_hex16(&mut self, n: u64)
        requires { length self.old + 16 ≤ 64 }
        ensures { self.new ≡ self.old ++ hex16 n }
    {
        let second = n / SIXTEEN_BITS;
        let third = second / SIXTEEN_BITS;
        let fourth = third / SIXTEEN_BITS;
        self.push_hex4(low_bits(fourth));
        self.push_hex4(low_bits(third));
        self.push_hex4(low_bits(second));
        self.push_hex4(low_bits(n));
    }

    fn push_decimal(&mut self, n: u64)
        requires { length self.old + 20 ≤ 64 }
        ensures bytes { self.new ≡ self.old ++ decimal n }
        ensures count { length self.new ≤ length self.old + 20 }
    {
        self.push_all(text::decimal_of(n).digits());
    }

    fn push_sign(&mut self, n: i32)
        requires { length self.old < 64 }
        ensures bytes { self.new ≡ self.old ++ sign_text n }
        ensures count { length self.new ≤ length self.old + 1 }
    {
        if n < 0 {
            self.push(b'-');
        }
    }

    #[tactic(auto, unfolding(crate::specs::Thing::whole_text))]
    fn push_whole(&mut self, n: i32)
        requires { length self.old + 21 ≤ 64 }
        ensures { self.new ≡ self.old ++ whole_text n }
    {
        self.push_sign(n);
        self.push_decimal(n.unsigned_abs() as u64);
    }

    // ---- values

    // What an order carries: a float without its letter.
    #[tactic(auto, unfolding(crate::specs::Thing::amount_text))]
    fn push_amount(&mut self, v: Value)
        requires { length self.old + 22 ≤ 64 }
        ensures { self.new ≡ self.old ++ amount_text v }
    {
        match v {
            Value::Whole(n) => {
                self.push(b'i');
                self.push_whole(n);
            }
            Value::Real(x) => self.push_hex16(value::bits_of(x)),
        }
    }

    #[tactic(auto, unfolding(crate::specs::Thing::value_text, crate::specs::Thing::amount_text))]
    fn push_value(&mut self, v: Value)
        requires { length self.old + 23 ≤ 64 }
        ensures { self.new ≡ self.old ++ value_text v }
    {
        match v {
            Value::Whole(_) => self.push_amount(v),
            Value::Real(_) => {
                self.push(b'f');
                self.push_amount(v);
            }
        }
    }
}

// ---- things

fn enter_words(s: LoopSort) -> Words
    ensures { result ≡ enter_text s }
{
    match s {
        LoopSort::Loop => Words::of(b"L"),
        LoopSort::Sweep => Words::of(b"M0000"),
    }
}

fn leave_words(s: LoopSort) -> Words
    ensures { result ≡ leave_text s }
{
    match s {
        LoopSort::Loop => Words::of(b"+"),
        LoopSort::Sweep => Words::of(b"*"),
    }
}

fn part_words(v: Value, letters: u16) -> Words
    ensures { result ≡ text_of (pack_part v letters) }
{
    let mut words = Words::of(b"part:");
    words.push_hex4(letters);
    words.push(b':');
    words.push_value(v);
    words
}

fn range_words(text: Text) -> Words
    ensures { result ≡ text_of (says text) }
{
    let mut words = Words::of(b"text:");
    words.push_decimal(text.start as u64);
    words.push(b':');
    words.push_decimal(text.end as u64);
    words
}

// An order's word, with the amount that it carries.
fn amount_words(word: &[u8], v: Value) -> Words
    requires { length word.now + 22 ≤ 64 }
    ensures { result ≡ word.now ++ amount_text v }
{
    let mut words = Words::of(word);
    words.push_amount(v);
    words
}

fn mode_words(n: u8) -> Words
    ensures { result ≡ text_of (sets_mode n) }
{
    let mut words = Words::of(b"set_pgstat_mode:");
    words.push_decimal(n as u64);
    words
}

fn order_words(o: Order) -> Words
    ensures { result ≡ text_of (order_of o) }
{
    match o {
        Order::Wait(v) => amount_words(b"wait:", v),
        Order::SetE(v) => amount_words(b"set_e:", v),
        Order::SetMode(n) => mode_words(n),
        Order::CellOn => Words::of(b"cell_on"),
        Order::CellOff => Words::of(b"cell_off"),
    }
}

fn words_of(what: What) -> Words
    ensures { result ≡ text_of (out_of what) }
{
    match what {
        What::Nothing => Words::of(b"nothing"),
        What::Enter(s) => enter_words(s),
        What::Leave(s) => leave_words(s),
        What::Start => Words::of(b"start"),
        What::Part(v, letters) => part_words(v, letters),
        What::End => Words::of(b"end"),
        What::Text(text) => range_words(text),
        What::Order(o) => order_words(o),
    }
}

// The text of a thing at the start of the lent buffer; where that is too short, nothing is written.
pub fn put_thing(buf: &mut [u8], thing: What) -> Result<usize, Short>
    ensures { leaves_by result buf.new ≡ write (text_of (out_of thing)) buf.old }
{
    let words = words_of(thing);
    let bytes = words.as_slice();
    if buf.len() < bytes.len() {
        return Err(Short);
    }
    text::put_bytes(buf, 0, bytes);
    Ok(bytes.len())
}
