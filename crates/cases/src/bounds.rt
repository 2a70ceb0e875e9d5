// The bound of greedy by the numbers alone.
use greedy::greedy::Greedy;
use nets::finder::Finder;
use shapes::strips::Strips;

// How many points and ranges, and the guess.
#[derive(Clone, Copy)]
struct Sizes {
    n: u16,
    m: u16,
    k: u16,
}

// The digits of m count 0, 1, 2, 2, 3, 3, 4, then 14 and 15 at the largest counts of ranges.
static SIZES: [Sizes; 13] = [
    Sizes { n: 100, m: 0, k: 1 },
    Sizes { n: 100, m: 1, k: 1 },
    Sizes { n: 100, m: 2, k: 1 },
    Sizes { n: 100, m: 3, k: 1 },
    Sizes { n: 100, m: 4, k: 1 },
    Sizes { n: 100, m: 7, k: 1 },
    Sizes { n: 100, m: 8, k: 1 },
    Sizes {
        n: 100,
        m: 4,
        k: 16,
    },
    Sizes {
        n: 100,
        m: 4,
        k: 17,
    },
    Sizes {
        n: 4096,
        m: 16383,
        k: 1,
    },
    Sizes {
        n: 4096,
        m: 16384,
        k: 1,
    },
    Sizes {
        n: 4096,
        m: 16384,
        k: 136,
    },
    Sizes {
        n: 4096,
        m: 16384,
        k: 137,
    },
];

pub fn show_bounds(rt: &HostRuntime) -> anyhow::Result<()> {
    for sizes in &SIZES {
        show_bound(rt, *sizes)?;
    }
    Ok(())
}

fn show_bound(rt: &HostRuntime, sizes: Sizes) -> anyhow::Result<()> {
    let Sizes { n, m, k } = sizes;
    let bound = bound_of(&Greedy, sizes);
    println!(rt; "greedy, points {n} ranges {m} guess {k}: bound {bound}")?;
    Ok(())
}

// Every kind of space has the same bound; a finder wants one named.
fn bound_of<'a, F: Finder<Strips<'a>>>(finder: &F, sizes: Sizes) -> u32 {
    finder.bound(sizes.n, sizes.m, sizes.k)
}
