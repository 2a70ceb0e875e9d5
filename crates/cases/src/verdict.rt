// The answers of the two verifiers, as text.
use nets::lightest::Lightest;
use nets::verifier::{Lowest, Verifier};
use ranges::number::RangeNumber;
use ranges::refusal::Refusal;
use ranges::space::Space;
use std::fmt;

// One verifier's answer.
#[derive(Clone, Copy)]
struct Answer(Result<Option<RangeNumber>, Refusal>);

impl fmt::Display for Answer {
    fn fmt<W: fmt::Write>(&self, f: &mut fmt::Formatter<W>) -> fmt::Result {
        match self.0 {
            Ok(None) => write!(f, "none"),
            Ok(Some(j)) => write!(f, "{j}"),
            Err(e) => {
                let number = e.number();
                write!(f, "refused {number}")
            }
        }
    }
}

// What both verifiers say of the same marks.
#[derive(Clone, Copy)]
pub struct Verdicts {
    lowest: Answer,
    lightest: Answer,
}

impl fmt::Display for Verdicts {
    fn fmt<W: fmt::Write>(&self, f: &mut fmt::Formatter<W>) -> fmt::Result {
        let lowest = self.lowest;
        let lightest = self.lightest;
        write!(f, "lowest {lowest}, lightest {lightest}")
    }
}

pub fn judge<S: Space>(space: &S, marks: &[u8], weights: &[u64]) -> Verdicts {
    Verdicts {
        lowest: Answer(Lowest.judge(space, marks, weights)),
        lightest: Answer(Lightest.judge(space, marks, weights)),
    }
}
