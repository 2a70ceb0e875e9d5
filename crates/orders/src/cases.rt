// The worked cases that are settled by proof, in one table.
ghost use Rattle.std.specs.Prelude.{◌≡◌};
ghost use Rattle.orders.specs.Cases.{WorkedCases, Determined};

use guesses::limit::worked_limits;

// How many cases the table has: the worked limits, the corner of a box, the first sweep and the first miss of the web job.
pub fn worked_cases() -> usize
    ensures count { result ≡ 10 }
    ensures cases { WorkedCases }
    ensures determined { Determined }
{
    worked_limits().len() + 3
}
