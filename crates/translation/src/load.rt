ghost use Rattle.std.specs.Prelude.{◌≡◌, ℕ, ◌*◌, ◌<◌, Ok, length, drop, zip, position, nat_le, slice_index_or, [], MatchResult};
ghost use Rattle.fault.specs.declared.fault.Fault.TheVariants.{TranslationRow};
ghost use Rattle.fault.specs.Checks.{refuse_if, filled};
ghost use Rattle.action.specs.declared.call.Call.{Call};
ghost use Rattle.translation.specs.Tables.{image};
ghost use Rattle.translation.specs.Files.{codes_of, rows_of, shape_check, four_of, row_wrong, rows_check, codes_check, row_at, table_of, translation_check, translation_of, file_image, ByItsRow};

use crate::translation::{HIGHEST_SELECTOR, MOST_ROWS, Row, Translation};
use action::deed::HIGHEST_ADDRESS;
use action::kind::HIGHEST_KIND;
use fault::fault::Fault;
use std::array;

/// Loads a translation from bytes into a place that the caller lends; or refusal 9, 10 or 11, and the place is as it was.
pub fn load_translation(bytes: &[u8], place: &mut Translation) -> Result<(), Fault>
    ensures verdict { result ≡ translation_check bytes.now }
    ensures place { place.new ≡ filled (translation_check bytes.now) (translation_of bytes.now) place.old }
    ensures means { result ≡ Ok tt → (c : Call) → image place.new c ≡ file_image bytes.now c }
    ensures rows { result ≡ Ok tt → (c : Call) → ByItsRow bytes.now c (image place.new c) }
{
    let rows = Rows::of(bytes)?;
    rows.check_ranges()?;
    rows.check_order()?;
    *place = Translation {
        rows: rows.table(),
        used: rows.codes.len(),
    };
    Ok(())
}

// The rows of a translation as its bytes hold them: the code of each, and four bytes of each.
#[derive(Drop)]
struct Rows<'a> {
    codes: &'a [u8],
    rows: &'a [u8],
    ghost four: { length rows.now ≡ 4 * length codes.now },
}

impl<'a> Rows<'a> {
    // The rows that the bytes hold, or refusal 9.
    fn of(bytes: &'a [u8]) -> Result<Rows<'a>, Fault>
        ensures { MatchResult result (λ r. (Ok tt ≡ shape_check bytes.now) × (r.codes.now ≡ codes_of bytes.now) × (r.rows.now ≡ rows_of bytes.now)) (λ f. Err f ≡ shape_check bytes.now) }
    {
        let [count, rest @ ..] = bytes else {
            return Err(Fault::TranslationShape);
        };
        let count = *count as usize;
        if count > MOST_ROWS || rest.len() != 5 * count {
            return Err(Fault::TranslationShape);
        }
        let (codes, rows) = rest.split_at(count);
        Ok(Rows { codes, rows })
    }

    // The four bytes of each.
    fn fours(&self) -> &'a [[u8; 4]]
        ensures count { length result.now ≡ length self.now.codes.now }
        ensures each { (i : ℕ) → i < length result.now → slice_index_or result.now i [] ≡ four_of self.now.rows.now i }
    {
        let (fours, _) = self.rows.as_chunks();
        fours
    }

    // Refusal 10, at the lowest row outside its ranges.
    fn check_ranges(&self) -> Result<(), Fault>
        ensures { result ≡ rows_check self.now.codes.now self.now.rows.now }
    {
        for (i, four) in self.fours().iter().enumerate() {
            check_row(four, i)?;
        }
        Ok(())
    }

    // Refusal 11, at the lowest row whose code is not above the one before it.
    // Stays: a `match` of its own, as in the checks of a sheet.
    fn check_order(&self) -> Result<(), Fault>
        ensures { result ≡ codes_check self.now.codes.now }
    {
        match first_fall(self.codes) {
            Some(i) => Err(Fault::TranslationOrder(i + 1)),
            None => Ok(()),
        }
    }

    // Row i, or past the last a blank one.
    fn row(&self, i: usize) -> Row
        ensures { result ≡ row_at self.now.codes.now self.now.rows.now i }
    {
        match (self.codes.get(i), self.fours().get(i)) {
            (Some(code), Some([address, signal, first, second])) => Row {
                code: *code,
                address: *address,
                signal: *signal,
                first: *first,
                second: *second,
            },
            _ => Row::blank(),
        }
    }

    // The rows, and blank ones after them.
    fn table(&self) -> [Row; MOST_ROWS]
        ensures { result ≡ table_of self.now.codes.now self.now.rows.now }
    {
        array::from_fn(|i| self.row(i))
    }
}

// Refusal 10, at row i, if these bytes of it are outside their ranges.
fn check_row(four: &[u8; 4], i: usize) -> Result<(), Fault>
    ensures { result ≡ refuse_if (TranslationRow i) (row_wrong four.now) }
{
    let [address, signal, first, second] = four;
    if *address > HIGHEST_ADDRESS
        || *signal > HIGHEST_KIND
        || *first > HIGHEST_SELECTOR
        || *second > HIGHEST_SELECTOR
    {
        return Err(Fault::TranslationRow(i));
    }
    Ok(())
}

// The first code that is not below the next.
fn first_fall(codes: &[u8]) -> Option<usize>
    ensures { result ≡ position (λ q. nat_le q.1 q.0) (zip codes.now (drop 1 codes.now)) }
{
    codes
        .iter()
        .zip(codes.iter().skip(1))
        .position(|(code, next)| next <= code)
}
