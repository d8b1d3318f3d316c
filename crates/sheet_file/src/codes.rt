// The codes of terms, comparisons and variables.
ghost use Rattle.std.specs.Prelude.{◌≡◌, if◌then◌else◌, ◌&&◌, nat_le, nat_lt, Some, None};
ghost use Rattle.action.specs.Ranges.{highest_argument};
ghost use Rattle.sheet_file.specs.Codes.{term as term_of, comparison as comparison_of, variable as variable_of, guard as guard_of, change as change_of};

use action::deed::HIGHEST_ARGUMENT;
use sheet::step::{Change, Comparison, Guard, Term, Variable};

// Stays: functions, since a type of another crate gets no `TryFrom` here.
fn term(code: u8) -> Option<Term>
    ensures { result ≡ (if nat_le code 19 then Some (term_of code) else None) }
{
    match code {
        0..=15 => Some(Term::Number(code)),
        16 => Some(Term::X),
        17 => Some(Term::Y),
        18 => Some(Term::First),
        19 => Some(Term::Second),
        _ => None,
    }
}

fn comparison(code: u8) -> Option<Comparison>
    ensures { result ≡ (if nat_lt 0 code && nat_le code 6 then Some (comparison_of code) else None) }
{
    match code {
        1 => Some(Comparison::Equal),
        2 => Some(Comparison::Unequal),
        3 => Some(Comparison::Less),
        4 => Some(Comparison::AtMost),
        5 => Some(Comparison::Greater),
        6 => Some(Comparison::AtLeast),
        _ => None,
    }
}

fn variable(code: u8) -> Option<Variable>
    ensures { result ≡ (if nat_lt 0 code && nat_le code 2 then Some (variable_of code) else None) }
{
    match code {
        1 => Some(Variable::X),
        2 => Some(Variable::Y),
        _ => None,
    }
}

// The guard of three bytes, each in its range.
pub(crate) fn guard(left: u8, code: u8, right: u8) -> Option<Guard>
    ensures { result ≡ (if nat_le left 19 && nat_le code 6 && nat_le right 19 then guard_of left code right else None) }
{
    Some(Guard {
        left: term(left)?,
        comparison: comparison(code)?,
        right: term(right)?,
    })
}

// The change of three bytes, each in its range.
pub(crate) fn change(target: u8, source: u8, add: u8) -> Option<Change>
    ensures { result ≡ (if nat_le target 2 && nat_le source 19 && nat_le add highest_argument then change_of target source add else None) }
{
    if add > HIGHEST_ARGUMENT {
        return None;
    }
    Some(Change {
        target: variable(target)?,
        source: term(source)?,
        add,
    })
}
