// Step 3: the ratable losses of a risk.
ghost use Rattle.std.specs.Prelude.{◌≡◌};
ghost use Rattle.plan.specs.Ratable.{clamp};

// K, a risk's limited losses raised to the minimum mark's dollars if below and cut to the maximum mark's if above. No `clamp`, since
// nothing here says that LH is at most LG.
pub fn ratable_of(limited: u32, minimum: u32, maximum: u32) -> u32
    ensures { result ≡ clamp minimum maximum limited }
{
    limited.max(minimum).min(maximum)
}
