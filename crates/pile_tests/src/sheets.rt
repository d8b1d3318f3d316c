use action::call::Call;
use action::partner::Partner;
use gate::gate::Gate;
use host::board::Board;
use sheet::sheet::Sheet;
use sheet_file::load::load_sheet;
use sheet_watch::watching::SheetWatch;
use std::test::Fail;
use translation::load::load_translation;
use translation::translated::Translated;
use translation::translation::Translation;
use watch::cap::Cap;
use watch::narrowed::Narrowed;
use watch::pair::Pair;
use watch::watch::Watch;

// The seq of the neg of a step of signal 3 and a step of signal 4, both with partner 2.
const SHEET: [u8; 40] = [
    4, 2, 0, 0, 1, 5, 1, 2, 2, 3, 0, 0, 0, 0, 0, 0, 0, 0, 0, 0, 0, 0, 0, 0, 2, 4, 0, 0, 0, 0, 0, 0,
    1, 2, 0, 0, 0, 0, 0, 0,
];

// The forms 0, 1 and 2 of family 1: signal 3 and signal 4 with partner 2, signal 3 with partner 5.
const TABLE: [u8; 16] = [3, 8, 9, 10, 2, 3, 1, 2, 2, 4, 0, 0, 5, 3, 0, 0];

fn call(form: u8) -> Result<Call, Fail> {
    Ok(Call::from_bytes(&[1, form, 0, 0, 0])?)
}

// A gate over calls, under a translated pair of a narrowed sheet watch and a cap of two 3s.
#[test]
fn a_pile_over_calls(rt: HostRuntime) -> Result<(), Fail> {
    let mut sheet = Sheet::blank();
    load_sheet(&SHEET, &mut sheet)?;
    let mut table = Translation::none();
    load_translation(&TABLE, &mut table)?;
    let narrowed = Narrowed::new(SheetWatch::new(&sheet), Partner::try_from(2)?);
    let pile = Translated::new(Pair::new(narrowed, Cap::new(3, 2)?), table);
    let mut gate = Gate::open(pile, Board::new());
    assert_eq!(rt; gate.submit(&call(1)?).number(), 0, "a 4 before any 3");
    assert_eq!(rt;
        gate.submit(&call(2)?).number(),
        0,
        "a 3 with another partner"
    );
    assert_eq!(rt;
        gate.query(&call(1)?).number(),
        0,
        "which the sheet is not shown"
    );
    assert_eq!(rt;
        gate.submit(&call(0)?).number(),
        0,
        "a 3 alone is not forbidden"
    );
    assert_eq!(rt; gate.query(&call(1)?).number(), 21, "a 4 after it is");
    assert_eq!(rt;
        gate.query(&call(2)?).number(),
        21,
        "a third 3 is over the cap"
    );
    assert_eq!(rt; gate.submit(&call(7)?).number(), 0, "a call without a row");
    assert_eq!(rt; gate.submit(&call(1)?).number(), 21);
    assert_eq!(rt; gate.submit(&call(7)?).number(), 20);
    Ok(())
}
