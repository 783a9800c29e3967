// Worked examples of the limit, each with its result, for whoever wants to see that the rule is the one meant.
ghost use Rattle.std.specs.Prelude.{◌≡◌, map};
ghost use Rattle.tolerance.specs.Examples.{worked_limits, stated_limit, limit_by_rule};

// What a package insert states of one assay, and the limit that follows.
#[derive(Clone, Copy)]
pub struct WorkedLimit {
    pub number: u16,
    pub target: u32,
    pub lower: u32,
    pub upper: u32,
    pub limit: u64,
}

// The examples. Each stated limit is the one that the rule gives.
pub fn worked_limits() -> [WorkedLimit; 5]
    ensures listed { result ≡ worked_limits }
    ensures hold { map limit_by_rule result ≡ map stated_limit result }
{
    WORKED_LIMITS
}

const WORKED_LIMITS: [WorkedLimit; 5] = [
    // potassium: the table's share of the target is the smaller
    WorkedLimit {
        number: 35,
        target: 400,
        lower: 350,
        upper: 450,
        limit: 18_000,
    },
    // digoxin, on both sides of the border between its two ranges
    WorkedLimit {
        number: 19,
        target: 100,
        lower: 50,
        upper: 200,
        limit: 17_500,
    },
    WorkedLimit {
        number: 19,
        target: 101,
        lower: 50,
        upper: 200,
        limit: 14_140,
    },
    // chloride just below its range, where the insert alone decides, and at its first target
    WorkedLimit {
        number: 13,
        target: 6_999,
        lower: 6_900,
        upper: 7_200,
        limit: 99_000,
    },
    WorkedLimit {
        number: 13,
        target: 7_000,
        lower: 6_900,
        upper: 7_200,
        limit: 100_000,
    },
];
