// Kinds of names: that of the first writing in text order.
ghost use Rattle.std.specs.Prelude.{◌≡◌, [], ◌∷◌, ◌≤◌, replicate};
ghost use Rattle.table.specs.ReadWrite.{kind_at, kind_in, differ, wrong, wrong_write};
ghost use Rattle.table.specs.Code.{all_reads, all_writes};
ghost use Rattle.table.specs.Shape.{items_of};
ghost use Rattle.rules.specs.Check.{learn, kinds_of};
ghost use Rattle.rules.specs.Code.{kinds_in, learnt, wrong_both};

use sets::NameSet;
use table::{Kind, Operand, Read, Reads, Table, Write, Writes};
use value::Value;

// The whole ones among the names, and the floats.
#[derive(Clone, Copy)]
pub struct Sorted {
    pub whole: NameSet,
    pub real: NameSet,
}

impl Sorted {
    #[tactic(auto, using(crate::proofs::Sorting::none_known))]
    fn none() -> Sorted
        ensures { kinds_in result ≡ replicate 32 None }
    {
        Sorted {
            whole: NameSet::none(),
            real: NameSet::none(),
        }
    }

    #[tactic(auto, using(crate::proofs::Sorting::there))]
    fn of_name(self, n: usize) -> Option<Kind>
        ensures { result ≡ kind_at (kinds_in self) n }
    {
        if self.whole.has_name(n) {
            Some(Kind::Whole)
        } else if self.real.has_name(n) {
            Some(Kind::Real)
        } else {
            None
        }
    }

    fn of(self, x: Operand) -> Option<Kind>
        ensures { result ≡ kind_in (kind_at (kinds_in self)) x }
    {
        match x {
            Operand::Name(n) => self.of_name(n),
            Operand::Literal(Value::Whole(_)) => Some(Kind::Whole),
            Operand::Literal(Value::Real(_)) => Some(Kind::Real),
        }
    }

    // ---- the kinds' pass, before any rule is judged

    // A name that has a kind keeps it.
    #[tactic(auto, using(crate::proofs::Sorting::learning))]
    fn learn(self, n: usize, kind: Kind) -> Sorted
        ensures { kinds_in result ≡ learnt (kinds_in self) n (Some kind) }
    {
        if self.of_name(n).is_some() {
            return self;
        }
        match kind {
            Kind::Whole => Sorted {
                whole: self.whole.with_name(n),
                ..self
            },
            Kind::Real => Sorted {
                real: self.real.with_name(n),
                ..self
            },
        }
    }

    #[tactic(auto, using(crate::proofs::Sorting::teaches_none))]
    fn learn_like(self, n: usize, x: Operand) -> Sorted
        ensures { kinds_in result ≡ learnt (kinds_in self) n (kind_in (kind_at (kinds_in self)) x) }
    {
        match self.of(x) {
            Some(kind) => self.learn(n, kind),
            None => self,
        }
    }

    fn learn_written(self, writes: Writes) -> Sorted
        ensures { kinds_in result ≡ learn (kinds_in self) (all_writes writes) }
    {
        match writes {
            Writes::Nothing => self,
            Writes::One(Write::Like(n, x)) => self.learn_like(n, x),
            Writes::One(Write::Float(n)) => self.learn(n, Kind::Real),
            Writes::TwoFloats(a, b) => self.learn(a, Kind::Real).learn(b, Kind::Real),
        }
    }

    // ---- 19

    // Two kinds that are known, and differ.
    fn unlike(self, x: Operand, y: Operand) -> bool
        ensures { result ≡ differ (kind_in (kind_at (kinds_in self)) x) (kind_in (kind_at (kinds_in self)) y) }
    {
        matches!(
            (self.of(x), self.of(y)),
            (Some(Kind::Whole), Some(Kind::Real)) | (Some(Kind::Real), Some(Kind::Whole))
        )
    }

    fn no_float(self, x: Operand) -> bool
        ensures { result ≡ differ (kind_in (kind_at (kinds_in self)) x) (Some Kind.Real) }
    {
        matches!(self.of(x), Some(Kind::Whole))
    }

    fn one_wrong(self, read: Read) -> bool
        ensures { result ≡ wrong (kind_at (kinds_in self)) (read ∷ []) }
    {
        match read {
            Read::Any(_) => false,
            Read::Alike(x, y) => self.unlike(x, y),
            Read::Float(x) => self.no_float(x),
        }
    }

    fn any_wrong(self, reads: Reads) -> bool
        ensures { result ≡ wrong (kind_at (kinds_in self)) (all_reads reads) }
    {
        match reads {
            Reads::Nothing => false,
            Reads::One(w) => self.one_wrong(w),
            Reads::FourFloats(a, b, c, d) => {
                self.no_float(d) || self.no_float(c) || self.no_float(b) || self.no_float(a)
            }
        }
    }

    fn any_wrong_write(self, writes: Writes) -> bool
        ensures { result ≡ wrong_write (kind_at (kinds_in self)) (all_writes writes) }
    {
        match writes {
            Writes::Nothing => false,
            Writes::One(Write::Like(n, x)) => self.unlike(Operand::Name(n), x),
            Writes::One(Write::Float(n)) => self.no_float(Operand::Name(n)),
            Writes::TwoFloats(a, b) => self.no_float(Operand::Name(b))
                || self.no_float(Operand::Name(a)),
        }
    }

    pub(crate) fn wrong_kinds(self, reads: Reads, writes: Writes) -> bool
        ensures { result ≡ wrong_both (kind_at (kinds_in self)) (all_reads reads) (all_writes writes) }
    {
        self.any_wrong(reads) || self.any_wrong_write(writes)
    }
}

// Arithmetic and a copy whose source has no kind write a name with a kind that is its own already or that nobody knows,
// so they teach nothing.
#[tactic(auto, using(crate::proofs::Writes::kinds_next, crate::proofs::Writes::kinds_end))]
pub(crate) fn kinds_of(table: Table) -> Sorted
    requires { table.count ≤ 128 }
    ensures { kinds_in result ≡ kinds_of (replicate 32 None) (items_of table) }
{
    let mut kinds = Sorted::none();
    for i in 0..table.count {
        kinds = kinds.learn_written(table::writes_of(table.items[i].item));
    }
    kinds
}
