use std::process::Abort;
use std::test::*;
use tape::Fault;

// The fault is told in these words.
fn check(rt: &(impl Abort + AllocGlobal), fault: Fault, text: &str) -> Result<(), Fail> {
    assert_eq!(rt; format!(in rt.alloc(); "{fault}")?.as_str(), text);
    Ok(())
}

#[test]
fn of_the_tape(rt: HostRuntime) -> Result<(), Fail> {
    check(&rt, Fault::TapeLength, "the tape has too many bytes")?;
    check(&rt, Fault::Place, "the place is beyond the end of the tape")?;
    check(
        &rt,
        Fault::ReplyRoom,
        "there is too little room for a reply",
    )?;
    check(&rt, Fault::UnknownCommand, "no command has this letter")?;
    check(
        &rt,
        Fault::OperandsCut,
        "the tape ends before the operands do",
    )
}

#[test]
fn of_a_machine(rt: HostRuntime) -> Result<(), Fail> {
    use machine::Fault as Machine;
    check(
        &rt,
        Fault::Machine(Machine::Span),
        "the span must be from 2 to the number of trays",
    )?;
    check(
        &rt,
        Fault::Machine(Machine::TrayNumber(3)),
        "it must be from 1 to the number of trays",
    )?;
    check(
        &rt,
        Fault::Machine(Machine::NoSuchTurn),
        "the machine does not have this turn",
    )
}

#[test]
fn of_a_planner(rt: HostRuntime) -> Result<(), Fail> {
    use planner::Fault as Planner;
    check(
        &rt,
        Fault::Planner(Planner::Limit),
        "the limit must be from 0 to 64",
    )?;
    check(&rt, Fault::Planner(Planner::AtWork), "a task is at work")?;
    check(&rt, Fault::Planner(Planner::NoTask), "no task is at work")?;
    check(
        &rt,
        Fault::Planner(Planner::Grant),
        "a grant must be from 1 to 1000000 looks",
    )?;
    check(
        &rt,
        Fault::Planner(Planner::GrantSum),
        "the grants since a load must come to at most 2000000000 looks",
    )?;
    check(&rt, Fault::Planner(Planner::NotFound), "no plan is found")?;
    check(
        &rt,
        Fault::Planner(Planner::NothingToDrop),
        "no task is at work that could be dropped",
    )
}
