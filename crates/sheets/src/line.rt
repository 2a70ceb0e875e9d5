// A line of the book as its eight bytes.
ghost use Rattle.std.specs.Prelude.{◌≡◌, Some, None, Ok, Err, cond, nat_le};
ghost use Rattle.ranges.specs.declared.refusal.Refusal.TheVariants.{BadSheet};
ghost use Rattle.sheets.specs.Sheets.{code, hit_points, line_bytes, LineFits};
ghost use Rattle.sheets.specs.Lines.{verdict_of, verdict_stands, line_in};

use crate::bytes::{read, store};
use guesses::book::{GuessLine, Verdict};
use ranges::refusal::Refusal;

// A verdict as a sheet has it: its number, and the points of a hit.
#[derive(Clone, Copy)]
struct Coded {
    code: u16,
    points: u16,
}

impl From<Verdict> for Coded {
    ghost from_gives = { λ v r. r ≡ record { code = code v; points = hit_points v } };

    fn from(v: Verdict) -> Coded {
        let (code, points) = match v {
            Verdict::Open => (0, 0),
            Verdict::Hit(points) => (1, points),
            Verdict::RuledOut => (2, 0),
            Verdict::GivenUp => (3, 0),
        };
        Coded { code, points }
    }
}

impl TryFrom<Coded> for Verdict {
    type Error = Refusal;

    ghost try_from_gives = { λ c r. r ≡ cond (nat_le c.code 3) (Ok (verdict_of c.code c.points)) (Err BadSheet) };

    fn try_from(c: Coded) -> Result<Verdict, Refusal> {
        match c.code {
            0 => Ok(Verdict::Open),
            1 => Ok(Verdict::Hit(c.points)),
            2 => Ok(Verdict::RuledOut),
            3 => Ok(Verdict::GivenUp),
            _ => Err(Refusal::BadSheet),
        }
    }
}

pub(crate) fn line_bytes(line: GuessLine) -> [u8; 8]
    ensures bytes { result ≡ line_bytes line }
    ensures fits { LineFits line }
{
    let coded = Coded::from(line.verdict);
    let mut bytes = [0; 8];
    store(&mut bytes, 0, &line.k.to_le_bytes());
    store(&mut bytes, 2, &line.doublings.to_le_bytes());
    store(&mut bytes, 4, &coded.code.to_le_bytes());
    store(&mut bytes, 6, &coded.points.to_le_bytes());
    bytes
}

// The line that these bytes are; there is none where no verdict has the number.
pub(crate) fn line_from(bytes: &[u8; 8]) -> Result<GuessLine, Refusal>
    ensures { result ≡ cond (verdict_stands bytes.now 0) (Ok (line_in bytes.now 0)) (Err BadSheet) }
{
    let coded = Coded {
        code: u16::from_le_bytes(read(bytes, 4)),
        points: u16::from_le_bytes(read(bytes, 6)),
    };
    Ok(GuessLine {
        k: u16::from_le_bytes(read(bytes, 0)),
        doublings: u16::from_le_bytes(read(bytes, 2)),
        verdict: Verdict::try_from(coded)?,
    })
}
