// What an item reads and writes.
ghost use Rattle.std.specs.Prelude.{◌≡◌};
ghost use Rattle.table.specs.ReadWrite.{reads_of, act_reads, head_reads, condition_reads, writes_of, act_writes};
ghost use Rattle.table.specs.ReadWrite.{head_writes};
ghost use Rattle.table.specs.Code.{all_reads, all_writes};

use super::{Act, Branch, Condition, Head, Item, Operand, Pack, Read, Reads, Write, Writes};

fn condition_reads(condition: Condition) -> Reads
    ensures { all_reads result ≡ condition_reads condition }
{
    Reads::One(Read::Alike(condition.left, condition.right))
}

fn act_reads(act: Act) -> Reads
    ensures { all_reads result ≡ act_reads act }
{
    match act {
        Act::Copy(from, _) => Reads::One(Read::Any(Operand::Name(from))),
        Act::Calc(_, v, x) => Reads::One(Read::Alike(Operand::Name(v), x)),
        Act::Meas(f, _, _) | Act::Wait(f) | Act::SetE(f) => Reads::One(Read::Float(f)),
        _ => Reads::Nothing,
    }
}

fn head_reads(head: Head) -> Reads
    ensures { all_reads result ≡ head_reads head }
{
    match head {
        Head::If(c) | Head::Loop(c) => condition_reads(c),
        Head::Sweep(w) => Reads::FourFloats(w.begin, w.end, w.step, w.rate),
    }
}

// What an item reads.
pub fn reads_of(item: Item) -> Reads
    ensures { all_reads result ≡ reads_of item }
{
    match item {
        Item::Act(a) => act_reads(a),
        Item::Pack(Pack::Add(v)) => Reads::One(Read::Any(Operand::Name(v))),
        Item::Open(h) => head_reads(h),
        Item::Branch(Branch::ElseIf(c)) => condition_reads(c),
        _ => Reads::Nothing,
    }
}

fn act_writes(act: Act) -> Writes
    ensures { all_writes result ≡ act_writes act }
{
    match act {
        Act::Store(v, l, _) => Writes::One(Write::Like(v, Operand::Literal(l))),
        Act::Copy(from, to) => Writes::One(Write::Like(to, Operand::Name(from))),
        Act::Calc(_, v, _) => Writes::One(Write::Like(v, Operand::Name(v))),
        Act::Meas(_, v, _) | Act::TimerGet(v) => Writes::One(Write::Float(v)),
        _ => Writes::Nothing,
    }
}

fn head_writes(head: Head) -> Writes
    ensures { all_writes result ≡ head_writes head }
{
    match head {
        Head::If(_) | Head::Loop(_) => Writes::Nothing,
        Head::Sweep(w) => Writes::TwoFloats(w.potential, w.current),
    }
}

// What an item writes.
pub fn writes_of(item: Item) -> Writes
    ensures { all_writes result ≡ writes_of item }
{
    match item {
        Item::Act(a) => act_writes(a),
        Item::Open(h) => head_writes(h),
        _ => Writes::Nothing,
    }
}
