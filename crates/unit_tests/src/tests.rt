// What the units of sources come to.
use crate::rows::{ARRANGED, ORDERED, REFUSED, ROWS};
use ada_lexer::lex;
use ada_tree::Units;
use spark_base::{Bytes, FileNo, Items, NoMemory};
use spark_messages::{Message, PhaseFault};
use spark_parser::parse;
use std::alloc::{AllocError, Global};
use std::test::Fail;
use unit_order::{Order, unit_order};

/// The trees of files.
fn units_of(alloc: Global, files: &[&str]) -> Result<Units, NoMemory> {
    let mut all = Items::new(alloc);
    let mut number: u32 = 0;
    for file in files {
        let source = Bytes::from_slice(alloc, file.as_bytes())?;
        match lex(alloc, FileNo(number), source) {
            Ok(tokens) => all.push(tokens)?,
            Err(_) => return Err(NoMemory),
        }
        number = number.saturating_add(1);
    }
    match parse(alloc, all.as_slice()) {
        Ok(units) => Ok(units),
        Err(_) => Err(NoMemory),
    }
}

fn shown_order(alloc: Global, order: &Order) -> Result<String, AllocError> {
    let mut text = String::new(alloc);
    let mut space = "";
    for unit in order.units.as_slice() {
        text.push_str(format!(in alloc; "{space}{unit}")?.as_str())?;
        space = " ";
    }
    if let Some(main) = order.main {
        text.push_str(format!(in alloc; "{space}main {main}")?.as_str())?;
    }
    Ok(text)
}

fn shown_refusal(alloc: Global, message: &Message) -> Result<String, AllocError> {
    let file = message.file.0;
    let line = message.place.line;
    let col = message.place.col;
    let code = message.code.name();
    let mut text = format!(in alloc; "{file}:{line}:{col} {code} ")?;
    for letter in message.text.as_slice() {
        text.push(*letter as char)?;
    }
    Ok(text)
}

/// What is told of the units of files.
fn told(alloc: Global, files: &[&str]) -> Result<String, NoMemory> {
    let units = units_of(alloc, files)?;
    match unit_order(alloc, &units) {
        Ok(order) => Ok(shown_order(alloc, &order)?),
        Err(PhaseFault::Refused(message)) => Ok(shown_refusal(alloc, &message)?),
        Err(PhaseFault::NoMemory) => Err(NoMemory),
    }
}

#[test]
fn units_have_an_order_or_a_refusal(rt: HostRuntime) -> Result<(), Fail> {
    let alloc = rt.alloc();
    for (files, wanted) in ROWS {
        assert_eq!(rt; told(alloc, files)?.as_str(), wanted);
    }
    Ok(())
}

/// The same files in all orders: a refusal moves with them, and the order goes by the place of the specs.
#[test]
fn four_files_in_all_orders(rt: HostRuntime) -> Result<(), Fail> {
    let alloc = rt.alloc();
    for ([a, b, c, d], ordered, refused) in ARRANGED {
        let files = [
            ORDERED[a % 4],
            ORDERED[b % 4],
            ORDERED[c % 4],
            ORDERED[d % 4],
        ];
        assert_eq!(rt; told(alloc, &files)?.as_str(), ordered);
        let files = [
            REFUSED[a % 4],
            REFUSED[b % 4],
            REFUSED[c % 4],
            REFUSED[d % 4],
        ];
        assert_eq!(rt; told(alloc, &files)?.as_str(), refused);
    }
    Ok(())
}
