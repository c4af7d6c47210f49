// The least power that Card's bound asks for.
#![tactic(auto)]

ghost use Rattle.std.specs.Prelude.{◌≡◌, ◌≤◌};
ghost use Rattle.calculus.specs.Limits.{alphabet_limit, variable_limit};
ghost use Rattle.calculus.specs.Rules.{least_power};

// Card's bound: "the smallest number such that n to the power L is at least m". The power stops once m is reached.
// It goes along with the index, so a chain would carry both and be no plainer.
pub fn least_power(n: usize, m: usize) -> usize
    requires { (n ≤ alphabet_limit) × (m ≤ variable_limit) }
    ensures value { result ≡ least_power m n m 0 }
    ensures upper_bound { result ≤ m }
{
    let mut power = 1;
    for k in 0..m {
        if m <= power {
            return k;
        }
        power *= n;
    }
    m
}
