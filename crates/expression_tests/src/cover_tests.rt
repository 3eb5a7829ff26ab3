use choice_covers::{Bounds, Covering, Placed, between, refuse_coverage, refuse_outside};
use name_findings::{Fault, Findings};
use spark_base::Pos;
use spark_messages::Code;
use std::alloc::Global;
use std::test::Fail;

const ONE_TO_TEN: Bounds = Bounds { low: 1, high: 10 };

/// Choices in lines from 1 on.
fn placed(coverings: [Covering; 3]) -> [Placed; 3] {
    let [first, second, third] = coverings;
    [in_line(1, first), in_line(2, second), in_line(3, third)]
}

fn in_line(line: u32, covering: Covering) -> Placed {
    Placed {
        at: Pos { line, col: 1 },
        covering,
    }
}

/// The line of a fault, and none where there is none.
fn line_of(fault: Option<Fault>) -> Option<u32> {
    fault.map(|fault| fault.at.line)
}

/// The line of the first refusal; what has the choices stands in line 9.
fn first_line(alloc: Global, choices: &[Placed]) -> Result<Option<u32>, Fail> {
    let mut found = Findings::new(alloc, 0)?;
    let at = Pos { line: 9, col: 1 };
    refuse_coverage(alloc, &mut found, Code::Y08, at, ONE_TO_TEN, choices)?;
    Ok(line_of(found.first()))
}

#[test]
fn each_value_is_covered_once(rt: HostRuntime) -> Result<(), Fail> {
    let alloc = rt.alloc();
    let from = |low: i128, high: i128| Covering::From(low, high);
    let rows = [
        ([from(1, 3), from(4, 4), from(5, 10)], None),
        ([from(5, 10), from(1, 3), from(4, 4)], None),
        ([from(1, 3), from(5, 10), from(7, 2)], Some(9)),
        ([from(2, 3), from(4, 4), from(5, 10)], Some(9)),
        ([from(1, 3), from(4, 4), from(5, 9)], Some(9)),
        ([from(1, 3), from(3, 6), from(7, 10)], Some(2)),
        ([from(1, 2), from(9, 10), from(1, 10)], Some(3)),
        ([from(1, 2), Covering::Others, from(5, 4)], Some(3)),
        ([from(1, 2), Covering::Others, Covering::Others], Some(3)),
        ([from(1, 2), Covering::Unclear, from(3, 4)], None),
        ([from(1, 2), from(3, 4), Covering::Others], None),
        ([from(-8, 20), from(30, 31), between(None, Some(4))], None),
    ];
    for (coverings, line) in rows {
        assert_eq!(rt; first_line(alloc, &placed(coverings))?, line);
    }
    Ok(())
}

#[test]
fn values_outside_the_index(rt: HostRuntime) -> Result<(), Fail> {
    let alloc = rt.alloc();
    let from = |low: i128, high: i128| Covering::From(low, high);
    let rows = [
        ([from(1, 3), from(4, 10), from(20, 11)], None),
        ([from(1, 3), from(4, 11), Covering::Others], Some(2)),
        ([from(1, 3), Covering::Unclear, from(0, 0)], Some(3)),
    ];
    for (coverings, line) in rows {
        let mut found = Findings::new(alloc, 0)?;
        refuse_outside(&mut found, ONE_TO_TEN, &placed(coverings));
        assert_eq!(rt; line_of(found.first()), line);
    }
    Ok(())
}
