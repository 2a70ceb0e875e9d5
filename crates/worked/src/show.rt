// How the program prints lines of a book and marks.
use guesses::book::{GuessLine, Verdict};
use ranges::hit::is_marked;
use ranges::number::PointNumber;

pub fn show_line(rt: &HostRuntime, i: usize, line: GuessLine) -> anyhow::Result<()> {
    let GuessLine {
        k,
        doublings,
        verdict,
    } = line;
    print!(rt; "line {i}: guess {k}, {doublings} doublings, ")?;
    match verdict {
        Verdict::Hit(points) => println!(rt; "hit with {points}")?,
        other => println!(rt; "{other}")?,
    }
    Ok(())
}

pub fn show_marks(rt: &HostRuntime, marks: &[u8]) -> anyhow::Result<()> {
    for (p, _) in (0..u16::MAX).map(PointNumber).zip(marks) {
        if is_marked(marks, p) {
            println!(rt; "at {p}")?;
        }
    }
    Ok(())
}
