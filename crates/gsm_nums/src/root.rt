// Square roots, rounded up.
ghost use Rattle.std.specs.Prelude.{◌≡◌, ◌≤◌, ◌*◌, ◌-◌, ◌^◌, ℕ};
ghost use Rattle.gsm_nums.specs.Root.{root_up_of};

/// The square root of `n`, rounded up.
pub fn root_up(n: u128) -> u64
    requires { n ≤ (2 ^ 64 - 1) * (2 ^ 64 - 1) }
    ensures value { result ≡ root_up_of n }
    ensures root { n ≤ result * result }
    ensures least { (x : ℕ) → n ≤ x * x → result ≤ x }
{
    let down = n.isqrt();
    let up = if down * down < n { down + 1 } else { down };
    up as u64
}
