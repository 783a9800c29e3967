// The table of tolerances: how far a single value may lie from its target, by analyte and target range.
ghost use Rattle.std.specs.Prelude.{◌≡◌, find};
ghost use Rattle.std.specs.Option.{option_copied};
ghost use Rattle.tolerance.specs.Table.{holds_for, tolerances, tolerance_for, OnlyRow, listed};

// One target range of one analyte. Targets are in hundredths of the analyte's unit.
#[derive(Clone, Copy)]
pub struct ToleranceRow {
    pub number: u16,
    pub first: u32,
    pub last: u32,
    // what a single value may deviate, in permille of the target
    pub permille: u16,
}

const TOLERANCES: [ToleranceRow; 10] = [
    // chloride
    ToleranceRow {
        number: 13,
        first: 7_000,
        last: 15_000,
        permille: 45,
    },
    // digoxin
    ToleranceRow {
        number: 19,
        first: 50,
        last: 100,
        permille: 175,
    },
    ToleranceRow {
        number: 19,
        first: 101,
        last: 500,
        permille: 140,
    },
    // ethanol
    ToleranceRow {
        number: 22,
        first: 20,
        last: 60,
        permille: 150,
    },
    ToleranceRow {
        number: 22,
        first: 61,
        last: 500,
        permille: 90,
    },
    // glucose
    ToleranceRow {
        number: 25,
        first: 4_000,
        last: 40_000,
        permille: 110,
    },
    // haemoglobin
    ToleranceRow {
        number: 27,
        first: 200,
        last: 2_000,
        permille: 40,
    },
    // potassium
    ToleranceRow {
        number: 35,
        first: 200,
        last: 800,
        permille: 45,
    },
    // creatinine
    ToleranceRow {
        number: 36,
        first: 50,
        last: 1_000,
        permille: 115,
    },
    // sodium
    ToleranceRow {
        number: 43,
        first: 11_000,
        last: 18_000,
        permille: 30,
    },
];

impl ToleranceRow {
    // Whether this row is for that table number and its range holds the target, both ends included.
    fn holds(&self, number: u16, target: u32) -> bool
        ensures { result ≡ holds_for self.now number target }
    {
        self.number == number && (self.first..=self.last).contains(&target)
    }
}

// The first of the rows that holds for that table number and target; lent, so that the rows passed over are not copied.
fn first_holding(rows: &[ToleranceRow], number: u16, target: u32) -> Option<&ToleranceRow>
    ensures { option_copied result ≡ find (λ row. holds_for row number target) rows.now }
{
    rows.iter().find(|row| row.holds(number, target))
}

// The row of the table for that number whose range holds the target, if there is one.
#[tactic(auto, using(crate::proofs::RangesApart::only_row))]
pub fn lookup(number: u16, target: u32) -> Option<ToleranceRow>
    ensures row { result ≡ tolerance_for number target }
    ensures only { OnlyRow tolerances number target result }
{
    let row = first_holding(&TOLERANCES, number, target)?;
    Some(*row)
}

// Whether the table has that number, for whatever target.
pub fn is_listed(number: u16) -> bool
    ensures { result ≡ listed number }
{
    TOLERANCES.iter().any(|row| row.number == number)
}
