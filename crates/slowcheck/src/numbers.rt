//! The numbers and places of refusals and answers, as they are promised.
use crate::edges::expect;
use fault::fault::Fault;
use gate::answer::Answer;
use run_file::MOST_DEEDS;

// The refusals that name no place.
fn refusals_agree() -> bool {
    let promised = [
        (Fault::SheetShort, 1),
        (Fault::SheetHeader, 2),
        (Fault::SheetLength, 3),
        (Fault::StepCount, 7),
        (Fault::EmptyNegative, 8),
        (Fault::TranslationShape, 9),
        (Fault::OutOfRange, 13),
        (Fault::RunShape, 14),
    ];
    promised.iter().all(|(fault, number)| (fault.number(), fault.place()) == (*number, 0))
}

// The refusals that name this place.
fn placed_agree(at: usize) -> bool {
    let promised = [
        (Fault::FragmentKind(at), 4),
        (Fault::FragmentRow(at), 5),
        (Fault::FragmentTree(at), 6),
        (Fault::TranslationRow(at), 10),
        (Fault::TranslationOrder(at), 11),
        (Fault::ActionBytes(at), 12),
    ];
    promised.iter().all(|(fault, number)| (fault.number(), fault.place()) == (*number, at))
}

fn answers_agree() -> bool {
    let promised = [
        (Answer::Done, 0),
        (Answer::Stopped, 20),
        (Answer::Barred, 21),
        (Answer::Declined, 22),
    ];
    promised
        .iter()
        .all(|(answer, number)| answer.number() == *number)
}

/// Each refusal has its number and its place, whatever place a file can name, and each answer its number.
pub fn numbers() -> anyhow::Result<()> {
    expect(
        refusals_agree() && (0..MOST_DEEDS).all(placed_agree),
        "the numbers of refusals",
    )?;
    expect(answers_agree(), "the numbers of answers")
}
