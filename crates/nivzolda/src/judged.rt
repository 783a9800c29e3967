// What the program says of a series of control values.
ghost use Rattle.std.specs.Prelude.{◌≡◌, IfOk, string_bytes};
ghost use Rattle.nivzolda.specs.Lines.{judged_lines};
ghost use Rattle.nivzolda.specs.Judged.{no_such_row, judged_assay};
ghost use Rattle.nivzolda.specs.Reports.{Reports};

use crate::assays::assay_row;
use crate::control_series::verdicts;
use crate::insert::refused_line;
use crate::value::Value;
use rulebook::{Rulebook, Verdict};
use sheet::read;
use std::alloc::{AllocError, Global};

// A line for each value with its verdict.
fn judged_lines(heap: Global, values: &[Value], verdicts: &[Verdict]) -> Result<String, AllocError>
    ensures { IfOk result (λ t. string_bytes t ≡ judged_lines values.now verdicts.now) }
{
    let mut text = String::new(heap);
    for (value, verdict) in values.iter().zip(verdicts) {
        writeln!(text, "{value} {verdict}")?;
    }
    Ok(text)
}

fn no_such_row(heap: Global) -> Result<String, AllocError>
    ensures { IfOk result (λ t. string_bytes t ≡ no_such_row) }
{
    String::from_str(heap, "refused 8: no such row\n")
}

// What the program prints: the verdicts, or why there are none.
pub(crate) fn report<B: Rulebook>(
    heap: Global,
    bytes: &[u8],
    assay: &[u8],
    rules: &mut B,
    values: &[Value],
) -> Result<String, AllocError>
    ensures { IfOk result (λ t. Reports bytes.now (judged_assay bytes.now assay.now (B.meaning rules.old) values.now) (string_bytes t)) }
{
    let sheet = match read(bytes) {
        Ok(sheet) => sheet,
        Err(refusal) => return refused_line(heap, &refusal),
    };
    let Some(row) = assay_row(&sheet, assay) else {
        return no_such_row(heap);
    };
    let target = Value::try_from(row.target).unwrap();
    let verdicts = verdicts(heap, rules, row.limit, target, values)?;
    judged_lines(heap, values, &verdicts)
}

#[cfg(test)]
mod tests {
    use super::*;
    use crate::insert::tests::K;
    use pile::read_rules;
    use std::test::Fail;

    #[test]
    fn a_series_is_judged(rt: HostRuntime) -> Result<(), Fail> {
        let mut rules = read_rules(rt.alloc(), b"swiss+side:8:2+drift:6:1")
            .ok()
            .ok_or("no rules")?;
        let values: Vec<Value> = [402, 413, 387, 402, 401, 402, 403, 404, 405, 406, 401, 399]
            .iter()
            .filter_map(|hundredths| Value::try_from(*hundredths).ok())
            .collect(rt.alloc())?;
        let text = report(rt.alloc(), K, b"K", &mut rules, &values)?;
        assert_eq!(rt;
            text.as_str(),
            "4.02 fit\n4.13 warning\n3.87 alarm\n4.02 fit\n4.01 fit\n4.02 fit\n4.03 fit\n4.04 fit\n4.05 fit\n4.06 warning\n4.01 alarm\n3.99 fit\n"
        );
        Ok(())
    }
}
