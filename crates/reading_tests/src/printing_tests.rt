use spark_base::{Bytes, FileNo, Pos};
use spark_messages::{Code, Kind, Message, ordered, text_of};
use std::alloc::Global;
use std::test::Fail;

fn message(alloc: Global, line: u32, code: Code, text: &str) -> Result<Message, Fail> {
    Ok(Message {
        file: FileNo(0),
        place: Pos { line, col: 1 },
        code,
        text: Bytes::from_slice(alloc, text.as_bytes())?,
        kind: Kind::Error,
    })
}

#[test]
fn messages_come_in_order_and_once(rt: HostRuntime) -> Result<(), Fail> {
    let alloc = rt.alloc();
    let mut list = Vec::new(alloc);
    list.push(message(alloc, 2, Code::G01, "a")?)?;
    list.push(message(alloc, 1, Code::G02, "a")?)?;
    list.push(message(alloc, 2, Code::G01, "a")?)?;
    list.push(message(alloc, 1, Code::G01, "b")?)?;
    let list = ordered(list)?;
    let mut names = Vec::new(alloc);
    names.push(String::from_str(alloc, "f")?)?;
    let text = text_of(alloc, names.as_slice(), list.as_slice())?;
    let want =
        "f:1:1: error: b [G01]\nf:1:1: error: a [G02]\nf:2:1: error: a [G01]\nsparkflow: 3 errors, 0 warnings\n";
    assert_eq!(rt; text.as_slice(), want.as_bytes());
    Ok(())
}
