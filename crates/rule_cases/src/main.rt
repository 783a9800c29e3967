// Reads examples of the rules from standard input, one to a line, and prints each with what the libraries answer.
//
//     verdict RULES UNIT DEVIATION..   (newest first)
//     rules TEXT
//     value TEXT
#![tactic(auto)]

use anyhow::{Context, anyhow};
use pile::{Reason, RulesError, read_rules};
use rulebook::Rulebook;
use std::alloc::Global;
use text::hundredths;

fn verdict_case(heap: Global, text: &str) -> anyhow::Result<String> {
    let mut words = text.split_whitespace();
    let mut rules = read_rules(heap, words.next().unwrap_or("").as_bytes())
        .ok()
        .context("no such rules")?;
    let unit = words.next().unwrap_or("").parse::<u32>()?;
    let window: Vec<i32> = words
        .map(|word| -> anyhow::Result<i32> { Ok(word.parse::<i32>()?) })
        .try_collect(heap)?;
    Ok(rules.judge(unit, &window).to_string(heap)?)
}

// Shorter words than a reason prints, since the stored lines have these.
fn reason_words(reason: Reason) -> &'static str {
    match reason {
        Reason::UnknownGuideline => "unknown guideline",
        Reason::WrongFields => "wrong fields",
        Reason::UnknownLayer => "unknown layer",
        Reason::WrongK => "wrong k",
        Reason::WrongLevel => "wrong level",
    }
}

fn rules_case(heap: Global, text: &str) -> anyhow::Result<String> {
    match read_rules(heap, text.as_bytes()) {
        Ok(_) => Ok(String::from_str(heap, "read")?),
        Err(RulesError::Wrong { place, reason }) => {
            let words = reason_words(reason);
            Ok(format!(in heap; "wrong at {place}: {words}")?)
        }
        Err(RulesError::NoMemory) => Err(anyhow!("no memory")),
    }
}

fn value_case(heap: Global, text: &str) -> anyhow::Result<String> {
    match hundredths(text.as_bytes()) {
        Some(value) => Ok(value.to_string(heap)?),
        None => Ok(String::from_str(heap, "none")?),
    }
}

fn answer(heap: Global, line: &str) -> anyhow::Result<String> {
    match line.split_once(' ') {
        Some(("verdict", rest)) => verdict_case(heap, rest),
        Some(("rules", rest)) => rules_case(heap, rest),
        Some(("value", rest)) => value_case(heap, rest),
        _ => Err(anyhow!("no such case")),
    }
}

// `cases` has this loop too: a crate for it would have a public function, which owes a contract that pins what it does, and
// of what is printed none can be stated.
fn run(rt: &HostRuntime) -> anyhow::Result<()> {
    for line in rt.lines(rt.alloc()) {
        let line = line?;
        if line.is_empty() || line.as_str().starts_with("#") {
            println!(rt; "{line}")?;
        } else {
            let answer = answer(rt.alloc(), line.as_str())?;
            println!(rt; "{line} -> {answer}")?;
        }
    }
    Ok(())
}

fn main(rt: HostRuntime) -> anyhow::Result<()> {
    run(&rt)
}
