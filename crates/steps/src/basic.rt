// Steps 4 and 5: the balanced basic premium M and the excess loss charge Q, in thousandths of a dollar for
// the group.
ghost use Rattle.std.specs.Prelude.{◌≡◌};
ghost use Rattle.plan.specs.Basic.{basic_of, excess_of};
ghost use Rattle.steps.specs.Basic.{BasicBounds, basic_is, ExcessBounds};

// Step 4: M where it is at least 0, by what is added and what is taken away, so that no signed number is needed.
pub(crate) fn basic_of(n: u64, e: u64, c: u64, sl: u64, sx: u64, ss: u64) -> Option<u64>
    requires { BasicBounds n e c sl sx ss }
    ensures { basic_is result (basic_of n e c sl sx ss) }
{
    let added = 1000 * n * e + c * sx;
    let taken = (c - 1000) * sl + c * ss;
    added.checked_sub(taken)
}

// Step 5: Q = c × (SL − SA).
pub fn excess_of(c: u64, total: u64, limited: u64) -> u64
    requires { ExcessBounds c total limited }
    ensures { result ≡ excess_of c total limited }
{
    c * (total - limited)
}
