// What the words of the command line say: values and rules. A word that says nothing is told on standard error.
ghost use Rattle.std.specs.Prelude.{◌≡◌, IfOk, Some};
ghost use Rattle.nivzolda.specs.Values.{value_in};

use crate::value::Value;
use anyhow::anyhow;
use pile::{Guideline, Pile, RulesError, read_rules};

// The value that a word says.
fn value(rt: &HostRuntime, word: &str) -> anyhow::Result<Value>
    ensures { IfOk result (λ v. value_in word.now ≡ Some v) }
{
    match word.parse::<Value>() {
        Ok(value) => Ok(value),
        Err(error) => {
            eprintln!(rt; "nivzolda: {word} is {error}")?;
            Err(anyhow!("a value cannot be read"))
        }
    }
}

pub(crate) fn values(rt: &HostRuntime, words: &[String]) -> anyhow::Result<Vec<Value>> {
    words
        .iter()
        .map(|word| value(rt, word.as_str()))
        .try_collect(rt.alloc())
}

pub(crate) fn rules(rt: &HostRuntime, word: &str) -> anyhow::Result<Pile<Guideline>> {
    let read = read_rules(rt.alloc(), word.as_bytes());
    if let Err(error) = &read
        && *error != RulesError::NoMemory
    {
        eprintln!(rt; "nivzolda: rules {word} {error}")?;
    }
    Ok(read?)
}
