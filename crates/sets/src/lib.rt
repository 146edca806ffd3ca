// Sets of names.
#![tactic(auto, using(crate::proofs::Bits::sets))]

ghost use Rattle.std.specs.Prelude.{◌≡◌, true, [], ◌∷◌, set};
ghost use Rattle.table.specs.ReadWrite.{has};
ghost use Rattle.table.specs.Code.{all_reads, all_writes};
ghost use Rattle.sets.specs.Names.{nothing, everything, both, either, outside, ask, asks, put, names_of};

use table::{NAMES, Operand, Read, Reads, Write, Writes};

// No bit of a word, and every bit.
const NONE: u32 = 0;

const ALL: u32 = u32::MAX;

// A set of names as the bits of a word: a name's number is its bit's.
#[derive(Clone, Copy)]
pub struct NameSet(u32);

impl NameSet {
    // The set of no name.
    pub fn none() -> NameSet
        ensures { names_of result ≡ nothing }
    {
        NameSet(NONE)
    }

    // The set of all 32 names.
    pub fn all() -> NameSet
        ensures { names_of result ≡ everything }
    {
        NameSet(ALL)
    }

    // Whether a name is in the set; past the last name none is.
    pub fn has_name(self, n: usize) -> bool
        ensures { result ≡ has (names_of self) n }
    {
        if n < NAMES {
            return (self.0 >> n) % 2 == 1;
        }
        false
    }

    // The set with a name in it; past the last name the set as it was.
    pub fn with_name(self, n: usize) -> NameSet
        ensures { names_of result ≡ set (names_of self) n true }
    {
        if n < NAMES {
            return NameSet(self.0 | (1 << n));
        }
        self
    }

    // The names that are in both sets.
    pub fn in_both(self, other: NameSet) -> NameSet
        ensures { names_of result ≡ both (names_of self) (names_of other) }
    {
        NameSet(self.0 & other.0)
    }

    // The names that are in one of the sets or both.
    pub fn in_either(self, other: NameSet) -> NameSet
        ensures { names_of result ≡ either (names_of self) (names_of other) }
    {
        NameSet(self.0 | other.0)
    }

    // Whether a name of the set is not in the other.
    pub fn any_outside(self, other: NameSet) -> bool
        ensures { result ≡ outside (names_of self) (names_of other) }
    {
        self.0 & other.0 != self.0
    }

    fn with_operand(self, x: Operand) -> NameSet
        ensures { names_of result ≡ ask (names_of self) x }
    {
        match x {
            Operand::Name(n) => self.with_name(n),
            Operand::Literal(_) => self,
        }
    }

    fn with_one_read(self, read: Read) -> NameSet
        ensures { names_of result ≡ asks (names_of self) (read ∷ []) }
    {
        match read {
            Read::Any(x) | Read::Float(x) => self.with_operand(x),
            Read::Alike(x, y) => self.with_operand(x).with_operand(y),
        }
    }

    // The names of the set and those that are read.
    pub fn with_read(self, reads: Reads) -> NameSet
        ensures { names_of result ≡ asks (names_of self) (all_reads reads) }
    {
        match reads {
            Reads::Nothing => self,
            Reads::One(w) => self.with_one_read(w),
            Reads::FourFloats(a, b, c, d) => {
                self.with_operand(a)
                    .with_operand(b)
                    .with_operand(c)
                    .with_operand(d)
            }
        }
    }

    // The names of the set and those that are written.
    pub fn with_written(self, writes: Writes) -> NameSet
        ensures { names_of result ≡ put (names_of self) (all_writes writes) }
    {
        match writes {
            Writes::Nothing => self,
            Writes::One(Write::Like(n, _) | Write::Float(n)) => self.with_name(n),
            Writes::TwoFloats(a, b) => self.with_name(a).with_name(b),
        }
    }
}
