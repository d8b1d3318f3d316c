use action::call::Call;
use action::deed::Deed;
use fault::fault::Fault;
use gate::answer::Answer;
use gate::ask::{Ask, Reply};
use gate::gate::Gate;
use host::board::Board;
use host::host::Host;
use host::spool::Spool;
use lending::lent::serve_on_list;
use std::test::Fail;
use watch::cap::Cap;

// A deed of this signal.
fn deed(signal: u8) -> Result<Deed, Fault> {
    Deed::from_bytes(&[0, signal, 0, 0])
}

// The number of a reply to an action; 100 and the count, or 200 and the number of its refusal.
// Stays: numbers, which are what is promised of answers and refusals.
fn number(reply: Reply) -> u64 {
    match reply {
        Reply::Answered(a) => a.number() as u64,
        Reply::Counted(Ok(n)) => n.saturating_add(100),
        Reply::Counted(Err(f)) => 200 + f.number() as u64,
    }
}

#[test]
fn a_spool_of_no_places(rt: HostRuntime) -> Result<(), Fail> {
    let mut list = [deed(9)?; 2];
    let mut gate = Gate::open(Cap::new(3, 0)?, Spool::new(&mut list[..0]));
    assert_eq!(rt; gate.submit(&deed(4)?).number(), 22);
    assert_eq!(rt; gate.query(&deed(3)?).number(), 21);
    assert_eq!(rt; gate.submit(&deed(4)?).number(), 22);
    assert_eq!(rt; gate.submit(&deed(3)?).number(), 21);
    assert_eq!(rt; gate.submit(&deed(4)?).number(), 20);
    assert!(rt; gate.close().stopped());
    Ok(())
}

#[test]
fn a_board_of_999(rt: HostRuntime) -> Result<(), Fail> {
    let mut gate = Gate::open(Cap::new(3, 0)?, Board::new());
    for _ in 0..999 {
        assert_eq!(rt; gate.submit(&deed(5)?).number(), 0);
    }
    assert_eq!(rt; gate.query(&deed(5)?).number(), 22);
    assert_eq!(rt; gate.submit(&deed(5)?).number(), 22);
    assert_eq!(rt; gate.submit(&deed(6)?).number(), 0);
    let closed = gate.close();
    assert_eq!(rt; number(Reply::Counted(closed.count(5))), 1099);
    assert_eq!(rt; number(Reply::Counted(closed.count(6))), 101);
    assert_eq!(rt; number(Reply::Counted(closed.count(32))), 213);
    assert!(rt; !closed.stopped());
    Ok(())
}

#[test]
fn a_spool_after_close(rt: HostRuntime) -> Result<(), Fail> {
    let mut list = [deed(9)?; 4];
    let mut gate = Gate::open(Cap::new(3, 0)?, Spool::new(&mut list));
    assert_eq!(rt; gate.submit(&deed(5)?).number(), 0);
    assert_eq!(rt; gate.submit(&deed(4)?).number(), 0);
    assert_eq!(rt; gate.submit(&deed(3)?).number(), 21);
    assert_eq!(rt; gate.submit(&deed(4)?).number(), 20);
    assert_eq!(rt; number(Reply::Counted(gate.count(4))), 101);
    let _places = gate.close().into_host().into_places();
    assert_eq!(rt; list[0], deed(5)?);
    assert_eq!(rt; list[1], deed(4)?);
    assert_eq!(rt; list[2], deed(9)?);
    assert_eq!(rt; list[3], deed(9)?);
    Ok(())
}

#[test]
fn a_run_of_calls(rt: HostRuntime) -> Result<(), Fail> {
    let first = Call::from_bytes(&[7, 0, 1, 2, 3])?;
    let other = Call::from_bytes(&[8, 1, 0, 0, 0])?;
    let asks = [
        Ask::Query(other),
        Ask::Submit(first),
        Ask::Count(7),
        Ask::Count(40),
        Ask::Submit(other),
        Ask::Submit(first),
    ];
    let mut replies = [Reply::Answered(Answer::Declined); 7];
    let mut gate = Gate::open(Cap::new(8, 0)?, Board::new());
    assert_eq!(rt; gate.run(&asks, &mut replies), 6);
    assert_eq!(rt; number(replies[0]), 21);
    assert_eq!(rt; number(replies[1]), 0);
    assert_eq!(rt; number(replies[2]), 101);
    assert_eq!(rt; number(replies[3]), 213);
    assert_eq!(rt; number(replies[4]), 21);
    assert_eq!(rt; number(replies[5]), 20);
    assert_eq!(rt; number(replies[6]), 22);
    Ok(())
}

#[test]
fn a_lent_list(rt: HostRuntime) -> Result<(), Fail> {
    let mut list = [deed(9)?; 3];
    let asks = [
        Ask::Submit(deed(5)?),
        Ask::Query(deed(3)?),
        Ask::Submit(deed(4)?),
    ];
    let mut replies = [Reply::Answered(Answer::Stopped); 4];
    assert_eq!(rt;
        serve_on_list(Cap::new(3, 0)?, &mut list, &asks, &mut replies),
        3
    );
    assert_eq!(rt; number(replies[0]), 0);
    assert_eq!(rt; number(replies[1]), 21);
    assert_eq!(rt; number(replies[2]), 0);
    assert_eq!(rt; number(replies[3]), 20);
    assert_eq!(rt; list[0], deed(5)?);
    assert_eq!(rt; list[1], deed(4)?);
    assert_eq!(rt; list[2], deed(9)?);
    Ok(())
}

#[test]
fn a_host_after_close(rt: HostRuntime) -> Result<(), Fail> {
    let mut held = Board::new();
    assert_eq!(rt; held.perform(&deed(4)?).number(), 0);
    let mut gate = Gate::open(Cap::new(3, 0)?, held);
    assert_eq!(rt; gate.submit(&deed(4)?).number(), 0);
    let closed = gate.close();
    assert!(rt; !closed.stopped());
    let mut board = closed.into_host();
    assert_eq!(rt; board.perform(&deed(3)?).number(), 0);
    assert_eq!(rt; number(Reply::Counted(board.count(4))), 102);
    Ok(())
}
