// The deviation of a value from its target, and whether it is outside so many standard deviations.
ghost use Rattle.std.specs.Prelude.{◌≡◌};
ghost use Rattle.tolerance.specs.Deviations.{deviation_of, outside};

// 3,000 times the value minus the target, signed. So it compares with the limit, which stands for three standard deviations.
pub fn deviation(value: u32, target: u32) -> i64
    ensures { result ≡ deviation_of value target }
{
    3_000 * (i64::from(value) - i64::from(target))
}

// Whether the size of the deviation exceeds k times the limit: it is outside k standard deviations.
pub fn is_outside(k: u32, deviation: i64, limit: u64) -> bool
    ensures { result ≡ outside k deviation limit }
{
    u128::from(deviation.unsigned_abs()) > u128::from(k) * u128::from(limit)
}
