// Reads examples from standard input, one to a line, and prints each with what the libraries answer.
//
//     limit NUMBER TARGET LOWER UPPER
//     deviation VALUE TARGET
//     outside K DEVIATION LIMIT
//     sheet LENGTH STATED ROWS ROWS_AT NAMES_LENGTH NAMES_AT NAMES | ROW | ROW ..
//
// A sheet is written out field by field, right or wrong, with its name block as text; `draft` has the rows' fields.
#![tactic(auto)]

mod draft;

use anyhow::anyhow;
use draft::{Draft, parsed};
use sheet::{Sheet, read};
use std::alloc::Global;
use tolerance::{deviation, is_outside, limit};

fn limit_case(heap: Global, text: &str) -> anyhow::Result<String> {
    let mut words = text.split_whitespace();
    let number = parsed(words.next())?;
    let target = parsed(words.next())?;
    let lower = parsed(words.next())?;
    let upper = parsed(words.next())?;
    Ok(limit(number, target, lower, upper).to_string(heap)?)
}

fn deviation_case(heap: Global, text: &str) -> anyhow::Result<String> {
    let mut words = text.split_whitespace();
    let value = parsed(words.next())?;
    let target = parsed(words.next())?;
    Ok(deviation(value, target).to_string(heap)?)
}

fn outside_case(heap: Global, text: &str) -> anyhow::Result<String> {
    let mut words = text.split_whitespace();
    let k = parsed(words.next())?;
    let deviation = parsed(words.next())?;
    let limit = parsed(words.next())?;
    Ok(is_outside(k, deviation, limit).to_string(heap)?)
}

// The names with their places.
fn names(heap: Global, sheet: &Sheet) -> anyhow::Result<String> {
    let mut text = String::from_str(heap, "accepted")?;
    for name in (0..sheet.row_count()).filter_map(|row| sheet.name(row)) {
        let label = name.text();
        let place = name.place;
        text.push_str(format!(in heap; " {label} at {place}")?.as_str())?;
    }
    Ok(text)
}

fn sheet_case(heap: Global, text: &str) -> anyhow::Result<String> {
    let bytes = Draft::parse(heap, text)?.bytes(heap)?;
    match read(&bytes) {
        Ok(sheet) => names(heap, &sheet),
        Err(refusal) => {
            let number = refusal.number();
            let row = refusal.row();
            Ok(format!(in heap; "refused {number} at row {row}")?)
        }
    }
}

fn answer(heap: Global, line: &str) -> anyhow::Result<String> {
    match line.split_once(' ') {
        Some(("limit", rest)) => limit_case(heap, rest),
        Some(("deviation", rest)) => deviation_case(heap, rest),
        Some(("outside", rest)) => outside_case(heap, rest),
        Some(("sheet", rest)) => sheet_case(heap, rest),
        _ => Err(anyhow!("no such case")),
    }
}

// `rule_cases` has this loop too; why it has its own is said there.
fn run(rt: &HostRuntime) -> anyhow::Result<()> {
    for line in rt.lines(rt.alloc()) {
        let line = line?;
        if line.is_empty() || line.as_str().starts_with("#") {
            println!(rt; "{line}")?;
        } else {
            let answer = answer(rt.alloc(), line.as_str())?;
            println!(rt; "{line} -> {answer}")?;
        }
    }
    Ok(())
}

fn main(rt: HostRuntime) -> anyhow::Result<()> {
    run(&rt)
}
