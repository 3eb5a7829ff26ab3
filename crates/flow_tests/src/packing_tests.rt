// A row by hand, of a body that names leaves 2 and 8 of ten, as words.
ghost use Rattle.std.specs.Prelude.{◌≡◌, ◌<◌, length, IfOk};
ghost use Rattle.flow_relations.specs.Framing.{IsFrame, frame_size};
ghost use Rattle.flow_relations.specs.Told.{AreRowsSized};

use flow_bits::{Row, Square};
use flow_relations::{BodyRow, Frame};
use row_equations::words_of_row;
use spark_base::{LeafNo, NoMemory};
use std::alloc::Global;

const VOID: u32 = 10;

// One leaf or two.
fn leaves(alloc: Global, one: u32, other: u32) -> Result<Row, NoMemory>
    requires one { one < 10 }
    requires other { other < 10 }
    ensures { IfOk result (λ row. length row ≡ 11) }
{
    let mut row = Row::new(alloc, VOID + 1)?;
    row.add(one);
    row.add(other);
    Ok(row)
}

fn frame(alloc: Global) -> Result<Frame, NoMemory>
    ensures frame { IfOk result (λ frame. IsFrame frame) }
    ensures size { IfOk result (λ frame. frame_size frame ≡ 2) }
    ensures void { IfOk result (λ frame. frame.void ≡ 10) }
{
    let leaves = vec![in alloc; LeafNo(2), LeafNo(8)]?;
    Ok(Frame { leaves, void: VOID })
}

// Of numbers: 0 is that of leaf 2, and 1 that of leaf 8.
fn pairs(alloc: Global) -> Result<Square, NoMemory>
    ensures { IfOk result (λ square. length square ≡ 3) }
{
    let mut square = Square::new(alloc, 3)?;
    square.add(0, 1);
    square.add(1, 1);
    Ok(square)
}

fn row(alloc: Global) -> Result<BodyRow, NoMemory>
    ensures size { IfOk result (λ row. AreRowsSized 11 row) }
    ensures void { IfOk result (λ row. row.frame.void ≡ 10) }
{
    Ok(BodyRow {
        leaves: leaves(alloc, 2, 8)?,
        returns: true,
        reads: leaves(alloc, 2, 8)?,
        writes: leaves(alloc, 5, 5)?,
        keeps: leaves(alloc, 8, 8)?,
        depends: pairs(alloc)?,
        frame: frame(alloc)?,
    })
}

// Leaves 3 and 9 are in no set and have no numbers.
#[test]
fn words_of_rows(rt: HostRuntime) -> Result<(), NoMemory> {
    let alloc = rt.alloc();
    let row = row(alloc)?;
    let all = words_of_row(alloc, &row, &[LeafNo(2), LeafNo(5), LeafNo(8)])?;
    assert_eq!(rt; all.as_slice(), [1u64, 5, 2, 4, 4 + 256].as_slice());
    let more = words_of_row(
        alloc,
        &row,
        &[LeafNo(2), LeafNo(3), LeafNo(5), LeafNo(8), LeafNo(9)],
    )?;
    assert_eq!(rt; more.as_slice(), [1u64, 9, 4, 8, 8 + 262_144].as_slice());
    let one = words_of_row(alloc, &row, &[LeafNo(5)])?;
    assert_eq!(rt; one.as_slice(), [1u64, 0, 1, 0, 0].as_slice());
    let none = words_of_row(alloc, &row, &[])?;
    assert_eq!(rt; none.as_slice(), [1u64].as_slice());
    Ok(())
}
