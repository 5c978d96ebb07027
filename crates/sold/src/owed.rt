// What the premiums of a group are to pay.
ghost use Rattle.std.specs.Prelude.{◌≡◌, ◌+◌, ◌*◌};
ghost use Rattle.sold.specs.Owed.{OwedBounds};

// What the premiums of a group are to pay, 1,000 × n × T × (n × e + SL).
pub fn owed_of(risks: u32, tax: u32, expense: u32, total: u64) -> u128
    requires { OwedBounds risks tax expense total }
    ensures { result ≡ 1000 * risks * tax * (risks * expense + total) }
{
    let n = u64::from(risks);
    let owed = n * u64::from(tax) * (n * u64::from(expense) + total);
    1000 * u128::from(owed)
}
