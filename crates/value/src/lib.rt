// Values: whole numbers and floats, literals, arithmetic and comparison.
#![tactic(auto)]

ghost use Rattle.std.specs.Prelude.{◌≡◌, ◌+◌, ◌^◌, ◌<◌, ◌≤◌, length, drop, pos, ◌*ℤ◌, neg_ℤ};
ghost use Rattle.std.specs.Prelude.{if◌then◌else◌, nat_lt, to_bits};
ghost use Rattle.std.specs.Float.{binary64};
ghost use Rattle.std.specs.Int.Signed.{mag};
ghost use Rattle.value.specs.Arithmetic.{rest, wrap, wholes, is_zero, reals, checked, is_finite};
ghost use Rattle.value.specs.Arithmetic.{finite, calculated, compare_wholes, compare_reals, compares};
ghost use Rattle.prefix.specs.Prefix.{prefix_of};
ghost use Rattle.value.specs.Literal.{lettered, suffixed, signed, finish, read_digits, literal};

// Inside the machine a value is either a whole number or a float.
#[derive(Clone, Copy)]
pub enum Value {
    Whole(i32),
    Real(f64),
}

// add_var, sub_var, mul_var, div_var
#[derive(Clone, Copy)]
pub enum Operation {
    Add,
    Sub,
    Mul,
    Div,
}

// == != < <= > >=
#[derive(Clone, Copy)]
pub enum Comparison {
    Equal,
    Unequal,
    Less,
    AtMost,
    Greater,
    AtLeast,
}

// Why an operation gives nothing: a division by zero, or a result that is not finite.
#[derive(Clone, Copy)]
pub enum Stop {
    ByZero,
    NotFinite,
}

// ---- literals

const MOST_DIGITS: usize = 10;
// Whole numbers have 32 bits: they lie from -HALF up to, and without, HALF.
const HALF: u64 = 2147483648;

const TEN_3: f64 = 1000.0;

const TEN_6: f64 = 1000000.0;

const TEN_9: f64 = 1000000000.0;

const TEN_12: f64 = 1000000000000.0;

const TEN_15: f64 = 1000000000000000.0;

const TEN_18: f64 = 1000000000000000000.0;

// Each letter has an arm of its own, as it has a row in 01: by the exponent alone each would be matched twice.
fn by_letter(z: i32, at: usize, c: u8) -> Result<(Value, usize), usize>
    requires { at < 2 ^ 63 }
    ensures { result ≡ lettered z at (prefix_of c) }
{
    let after = at + 1;
    match c {
        b'i' => Ok((Value::Whole(z), after)),
        b'a' => Ok((Value::Real(z as f64 / TEN_18), after)),
        b'f' => Ok((Value::Real(z as f64 / TEN_15), after)),
        b'p' => Ok((Value::Real(z as f64 / TEN_12), after)),
        b'n' => Ok((Value::Real(z as f64 / TEN_9), after)),
        b'u' => Ok((Value::Real(z as f64 / TEN_6), after)),
        b'm' => Ok((Value::Real(z as f64 / TEN_3), after)),
        b'k' => Ok((Value::Real(z as f64 * TEN_3), after)),
        b'M' => Ok((Value::Real(z as f64 * TEN_6), after)),
        b'G' => Ok((Value::Real(z as f64 * TEN_9), after)),
        b'T' => Ok((Value::Real(z as f64 * TEN_12), after)),
        b'P' => Ok((Value::Real(z as f64 * TEN_15), after)),
        b'E' => Ok((Value::Real(z as f64 * TEN_18), after)),
        _ => Err(at),
    }
}

// What follows the digits, from `i` on.
fn with_suffix(s: &[u8], i: usize, z: i32) -> Result<(Value, usize), usize>
    requires { i ≤ length s.now }
    ensures { result ≡ suffixed z i (drop i s.now) }
{
    let n = s.len();
    if n <= i {
        return Ok((Value::Real(z as f64), i));
    }
    if n - i == 1 {
        by_letter(z, i, s[i])
    } else {
        Err(i)
    }
}

fn negated(v: u64) -> i32
    requires { v ≤ 2 ^ 31 }
    ensures { result ≡ neg_ℤ (pos v) }
{
    if v == 0 {
        return 0;
    }
    let w = (v - 1) as i32;
    -1 - w
}

// Whether the number with its sign has 32 bits. To ask `i32::try_from`, it would first go through 128.
fn in_range(v: u64, neg: bool) -> bool
    ensures { result ≡ nat_lt (mag (signed neg v)) (2 ^ 31) }
{
    if neg { v <= HALF } else { v < HALF }
}

// The number with its sign.
fn with_sign(v: u64, neg: bool) -> i32
    requires { mag (signed neg v) < 2 ^ 31 }
    ensures { result ≡ signed neg v }
{
    if neg { negated(v) } else { v as i32 }
}

// After k digits that make v.
#[tactic(auto, unfolding(crate::specs::Literal::finish))]
fn finished(s: &[u8], i: usize, k: usize, v: u64, neg: bool) -> Result<(Value, usize), usize>
    requires { i ≤ length s.now }
    ensures { result ≡ finish neg k v i (drop i s.now) }
{
    if k == 0 {
        return Err(i);
    }
    if !in_range(v, neg) {
        return Err(i);
    }
    let z = with_sign(v, neg);
    with_suffix(s, i, z)
}

// The digits from `at` on, and what follows them.
fn digits(s: &[u8], at: usize, neg: bool) -> Result<(Value, usize), usize>
    requires { at ≤ length s.now }
    ensures { result ≡ read_digits neg at (drop at s.now) }
{
    let read = text::decimal_at(s, at);
    let next = read.next;
    let k = next - at;
    if MOST_DIGITS < k {
        return Err(at + MOST_DIGITS);
    }
    finished(s, next, k, read.number, neg)
}

// Where the digits begin.
fn past_sign(neg: bool) -> usize
    ensures { result ≡ (if neg then 1 else 0) }
{
    if neg { 1 } else { 0 }
}

// The value of a whole word as a literal, and the place in it where reading stopped; or that place alone.
pub fn read_literal(word: &[u8]) -> Result<(Value, usize), usize>
    ensures { result ≡ literal word.now }
{
    if word.len() == 0 {
        return Err(0);
    }
    let neg = word[0] == b'-';
    digits(word, past_sign(neg), neg)
}

// ---- whole numbers

// The two's-complement word of a number.
#[tactic(auto, using(crate::proofs::Wrap::word_is))]
pub fn word_of(x: i32) -> u32
    ensures { result ≡ rest x (2 ^ 32) }
{
    x.cast_unsigned()
}

// How many words of 32 bits there are.
const TURN: u64 = 4294967296;

// 01 names a product of the project's own: the exact one of 64 bits, of which the low 32 are kept.
fn wrapping_mul(a: i32, b: i32) -> i32
    ensures { result ≡ wrap (a *ℤ b) }
{
    let exact = i64::from(a) * i64::from(b);
    let low = (exact.cast_unsigned() % TURN) as u32;
    low.cast_signed()
}

// The lowest number by -1 wraps too.
#[tactic(auto, using(crate::proofs::Wrap::zero_divisor, crate::proofs::Wrap::gave_quotient))]
fn calculate_wholes(by: Operation, a: i32, b: i32) -> Result<Value, Stop>
    ensures { result ≡ wholes by a b }
{
    match by {
        Operation::Add => Ok(Value::Whole(a.wrapping_add(b))),
        Operation::Sub => Ok(Value::Whole(a.wrapping_sub(b))),
        Operation::Mul => Ok(Value::Whole(wrapping_mul(a, b))),
        Operation::Div => {
            if b == 0 {
                return Err(Stop::ByZero);
            }
            Ok(Value::Whole(a.wrapping_div(b)))
        }
    }
}

// Here and of floats each comparison is one test of its type: by an order that both have (`PartialOrd`) it would be up
// to three, since a float's order tries less, equal and greater in turn.
fn compare_wholes(by: Comparison, a: i32, b: i32) -> bool
    ensures { result ≡ compare_wholes by a b }
{
    match by {
        Comparison::Equal => a == b,
        Comparison::Unequal => a != b,
        Comparison::Less => a < b,
        Comparison::AtMost => a <= b,
        Comparison::Greater => b < a,
        Comparison::AtLeast => b <= a,
    }
}

// ---- floats

// The pattern of every NaN here.
const NAN: u64 = 9221120237041090560;

// The 64 bits of a float: the library's ask for one that is no NaN.
pub fn bits_of(x: f64) -> u64
    ensures { result ≡ to_bits binary64 x }
{
    if x != x { NAN } else { f64::to_bits(x) }
}

// A float less itself is zero exactly where it is finite.
fn finite_float(x: f64) -> bool
    ensures { result ≡ is_finite x }
{
    x - x == 0.0
}

fn is_zero(x: f64) -> bool
    ensures { result ≡ is_zero x }
{
    x == 0.0
}

fn check(x: f64) -> Result<Value, Stop>
    ensures { result ≡ checked x }
{
    if finite_float(x) {
        return Ok(Value::Real(x));
    }
    Err(Stop::NotFinite)
}

fn calculate_reals(by: Operation, a: f64, b: f64) -> Result<Value, Stop>
    ensures { result ≡ reals by a b }
{
    match by {
        Operation::Add => check(a + b),
        Operation::Sub => check(a - b),
        Operation::Mul => check(a * b),
        Operation::Div => {
            if is_zero(b) {
                return Err(Stop::ByZero);
            }
            check(a / b)
        }
    }
}

fn compare_reals(by: Comparison, a: f64, b: f64) -> bool
    ensures { result ≡ compare_reals by a b }
{
    match by {
        Comparison::Equal => a == b,
        Comparison::Unequal => a != b,
        Comparison::Less => a < b,
        Comparison::AtMost => a <= b,
        Comparison::Greater => b < a,
        Comparison::AtLeast => b <= a,
    }
}

// ---- values

// A whole number is finite; a float where it is neither infinite nor no number.
pub fn is_finite(v: Value) -> bool
    ensures { result ≡ finite v }
{
    match v {
        Value::Whole(_) => true,
        Value::Real(x) => finite_float(x),
    }
}

// A result, or why there is none: a division by zero, or a result that is not finite. Of two kinds there is none
// either, and no run gets there: fault 61 is tested before.
#[tactic(auto, unfolding(crate::specs::Arithmetic::calculated))]
pub fn calculate(by: Operation, a: Value, b: Value) -> Result<Value, Stop>
    ensures { result ≡ calculated by a b }
{
    match (a, b) {
        (Value::Whole(x), Value::Whole(y)) => calculate_wholes(by, x, y),
        (Value::Real(x), Value::Real(y)) => calculate_reals(by, x, y),
        _ => Err(Stop::NotFinite),
    }
}

// Whether two values compare so; values of two kinds never do.
#[tactic(auto, unfolding(crate::specs::Arithmetic::compares))]
pub fn compare(by: Comparison, a: Value, b: Value) -> bool
    ensures { result ≡ compares by a b }
{
    match (a, b) {
        (Value::Whole(x), Value::Whole(y)) => compare_wholes(by, x, y),
        (Value::Real(x), Value::Real(y)) => compare_reals(by, x, y),
        _ => false,
    }
}
