ghost use Rattle.std.specs.Prelude.{◌≡◌, Some};
ghost use Rattle.fault.specs.Faults.{number as number_of, place as place_of, words};

use std::fmt;

/// Why an input is refused. A case with a place holds it; for the others the place is 0.
#[derive(Clone, Copy, Debug, PartialEq, Eq)]
pub enum Fault {
    /// 1: a sheet shorter than four bytes.
    SheetShort,
    /// 2: a sheet's counts or starts outside their ranges.
    SheetHeader,
    /// 3: a sheet's length is not the one that its header asks for.
    SheetLength,
    /// 4: an unknown kind, at this fragment.
    FragmentKind(usize),
    /// 5: a row byte outside its range, or not the 0 asked for, at this fragment.
    FragmentRow(usize),
    /// 6: a part that is not earlier, or a fragment that is not named exactly once, at this fragment.
    FragmentTree(usize),
    /// 7: a number of steps that the header does not say.
    StepCount,
    /// 8: the empty list is a negative trace.
    EmptyNegative,
    /// 9: a translation without a count, with too high a count, or of another length than it asks for.
    TranslationShape,
    /// 10: a translation's row outside its ranges, this one.
    TranslationRow(usize),
    /// 11: a translation's code that is not above the one before it, at this row.
    TranslationOrder(usize),
    /// 12: bytes that are no action: of the wrong count, at 0, or with a byte outside its range, there.
    ActionBytes(usize),
    /// 13: a kind or a partner outside its range.
    OutOfRange,
    /// 14: a run file too short for a count, with too high a count, or of another length than it asks for.
    RunShape,
}

impl Fault {
    /// The number of the refusal.
    // Stays: a refusal has two numbers, and `u8::from` would not say which.
    pub fn number(self) -> u8
        ensures { result ≡ number_of self }
    {
        match self {
            Fault::SheetShort => 1,
            Fault::SheetHeader => 2,
            Fault::SheetLength => 3,
            Fault::FragmentKind(_) => 4,
            Fault::FragmentRow(_) => 5,
            Fault::FragmentTree(_) => 6,
            Fault::StepCount => 7,
            Fault::EmptyNegative => 8,
            Fault::TranslationShape => 9,
            Fault::TranslationRow(_) => 10,
            Fault::TranslationOrder(_) => 11,
            Fault::ActionBytes(_) => 12,
            Fault::OutOfRange => 13,
            Fault::RunShape => 14,
        }
    }

    /// The place of the refusal, 0 where none is named.
    // Stays: as `number`.
    pub fn place(self) -> usize
        ensures { result ≡ place_of self }
    {
        match self {
            Fault::FragmentKind(at)
            | Fault::FragmentRow(at)
            | Fault::FragmentTree(at)
            | Fault::TranslationRow(at)
            | Fault::TranslationOrder(at)
            | Fault::ActionBytes(at) => at,
            _ => 0,
        }
    }
}

/// Its number and its place, in words.
impl fmt::Display for Fault {
    ghost output = { λ f. Some (words f) };

    fn fmt<W: fmt::Write>(&self, f: &mut fmt::Formatter<W>) -> fmt::Result {
        let number = self.number();
        let place = self.place();
        write!(f, "{number} at {place}")
    }
}
