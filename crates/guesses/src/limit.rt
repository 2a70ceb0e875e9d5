// How many doublings a guess may take.
ghost use Rattle.std.specs.Prelude.{[], ◌∷◌, MatchOption, IsTrue, Some, ◌≡◌, ◌*◌, ◌^◌, ◌<◌, ◌≤◌};
ghost use Rattle.guesses.specs.Limits.{steps, fourth, doublings_of, is_no_guess, limit_of, limit_if, LimitLaw, WorkedLimits};

fn fourth_power(x: u16) -> u64
    requires { x ≤ 4096 }
    ensures { result ≡ fourth x }
{
    let s = x as u64 * x as u64;
    s * s
}

// How often `p` is doubled until it is above `q`: once for each binary digit of `q / p`.
#[tactic(auto, using(crate::proofs::Limits::steps_digits))]
fn doublings(p: u64, q: u64) -> u16
    requires { 0 < p }
    ensures { result ≡ steps 64 p q }
{
    (64 - (q / p).leading_zeros()) as u16
}

// The guess that k of n points are enough: k is from 1 to n, and there are at most 4,096 points.
#[derive(Clone, Copy)]
pub struct Guess {
    n: u16,
    k: u16,
    ghost some: { 0 < k },
    ghost within: { k ≤ n },
    ghost few: { n ≤ 4096 },
}

impl Guess {
    pub fn new(n: u16, k: u16) -> Option<Guess>
        ensures { MatchOption result (IsTrue (is_no_guess n k)) (λ g. (g.n ≡ n) × (g.k ≡ k)) }
    {
        if k == 0 || n < k || n > 4096 {
            return None;
        }
        Some(Guess { n, k })
    }

    // How many doublings each of the k points may take.
    #[tactic(auto, using(crate::proofs::Limits::limit_le))]
    fn doublings_each(&self) -> u16
        ensures value { result ≡ doublings_of self.now.n self.now.k }
        ensures small { self.now.k * result ≤ 3 * self.now.n }
    {
        doublings(fourth_power(self.k), fourth_power(self.n))
    }

    // The limit: how many doublings the k points may take together.
    #[tactic(auto, using(crate::proofs::Limits::limit_le, crate::proofs::Limits::limit_pos))]
    pub fn limit(&self) -> u16
        ensures value { result ≡ limit_of self.now.n self.now.k }
        ensures most { result ≤ 3 * self.now.n }
        ensures some { 0 < result }
    {
        self.k * self.doublings_each()
    }
}

// The limit of the guess k among n points, if k is from 1 to n and there are at most 4,096 points.
pub fn limit(n: u16, k: u16) -> Option<u16>
    ensures value { result ≡ limit_if n k }
    ensures law { LimitLaw n k }
{
    Guess::new(n, k).map(|guess| guess.limit())
}

// The worked limits.
pub fn worked_limits() -> [Option<u16>; 7]
    ensures value { result ≡ Some 1 ∷ Some 9 ∷ Some 10 ∷ Some 6 ∷ Some 4 ∷ Some 49 ∷ Some 4096 ∷ [] }
    ensures worked { WorkedLimits }
{
    [
        limit(1, 1),
        limit(4, 1),
        limit(4, 2),
        limit(4, 3),
        limit(4, 4),
        limit(4096, 1),
        limit(4096, 4096),
    ]
}
