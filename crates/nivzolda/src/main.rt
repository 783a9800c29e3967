// The program: reads files, prints lines. What matters is in the libraries.
#![tactic(auto)]

mod arguments;
mod assays;
mod control_series;
mod decimal;
mod insert;
mod judged;
mod value;

use anyhow::anyhow;
use std::process::ExitCode;
use std::{env, fs};

const USAGE: &str = "usage: nivzolda COMMAND ...

  nivzolda sheet FILE   read a package insert: its assays and their limits, or why it is refused
  nivzolda judge FILE ASSAY RULES VALUE...
                        judge control values of one assay, one after the other
  nivzolda help         print this

FILE is a package insert. ASSAY is a name in it, or @ and a row number. VALUE is in the assay's unit, with at most two
decimals. RULES is swiss or german, and layers on top, lowest first, joined by +: side:K:LEVEL or drift:K:LEVEL.

example: nivzolda sheet insert.bin
example: nivzolda judge insert.bin K swiss+side:8:1+drift:6:2 4.02 4.13
";

// The bytes of a file, or a word on standard error. It is told where it is found, in words for the person who typed it:
// `main` only sets the status.
fn file(rt: &HostRuntime, path: &str) -> anyhow::Result<Vec<u8>> {
    match fs::read(rt, path) {
        Ok(bytes) => Ok(bytes),
        Err(error) => {
            eprintln!(rt; "nivzolda: cannot read {path}: {error}")?;
            Err(anyhow!("the file cannot be read"))
        }
    }
}

// Reads the insert and prints what is in it, or why it is refused.
fn sheet(rt: &HostRuntime, path: &str) -> anyhow::Result<()> {
    let bytes = file(rt, path)?;
    let text = insert::report(rt.alloc(), &bytes)?;
    print!(rt; "{text}")?;
    Ok(())
}

// Judges the values and prints each with its verdict.
fn judge(
    rt: &HostRuntime,
    path: &str,
    assay: &str,
    rules: &str,
    words: &[String],
) -> anyhow::Result<()> {
    let mut rules = arguments::rules(rt, rules)?;
    let values = arguments::values(rt, words)?;
    let bytes = file(rt, path)?;
    let text = judged::report(rt.alloc(), &bytes, assay.as_bytes(), &mut rules, &values)?;
    print!(rt; "{text}")?;
    Ok(())
}

fn wrong_call(rt: &HostRuntime, what: &str) -> anyhow::Result<()> {
    eprintln!(rt; "nivzolda: {what}")?;
    eprint!(rt; "{USAGE}")?;
    Err(anyhow!("the command line cannot be read"))
}

fn help(rt: &HostRuntime) -> anyhow::Result<()> {
    print!(rt; "{USAGE}")?;
    Ok(())
}

fn run(rt: &HostRuntime) -> anyhow::Result<()> {
    let args: Vec<String> = env::args(rt)?.skip(1).collect(rt.alloc())?;
    let [command, rest @ ..] = args.as_slice() else {
        return help(rt);
    };
    match (command.as_str(), rest) {
        ("help", _) => help(rt),
        ("sheet", [path]) => sheet(rt, path.as_str()),
        ("sheet", _) => wrong_call(rt, "sheet takes one file"),
        ("judge", [path, assay, rules, words @ ..]) if !words.is_empty() => judge(
            rt,
            path.as_str(),
            assay.as_str(),
            rules.as_str(),
            words,
        ),
        ("judge", _) => wrong_call(rt, "judge takes a file, an assay, rules and values"),
        _ => wrong_call(rt, "there is no such command"),
    }
}

// An error ends the program with status 1. A wrong call, and a file, value or rule that cannot be read, has been told on
// standard error by then; missing memory and a failed print have not.
fn main(rt: HostRuntime) -> ExitCode {
    match run(&rt) {
        Ok(()) => ExitCode::SUCCESS,
        Err(_) => ExitCode::FAILURE,
    }
}

#[cfg(test)]
mod tests {
    use super::*;

    #[test]
    fn a_missing_file_is_an_error(rt: HostRuntime) {
        assert!(rt; sheet(&rt, "no-such-file").is_err());
    }
}
