// Each refusal of place, alone and where several causes meet, one below each size; refused, every buffer stays.
use greedy::greedy::Greedy;
use nets::verifier::Lowest;
use placing::place::place;
use ranges::number::RangeNumber;
use ranges::refusal::{Refusal, answer_number};
use ranges::space::Space;
use runs::buffers::Buffers;
use shapes::box_range::{BoxPoint, BoxRange};
use shapes::boxes::Boxes;

const POINTS: [BoxPoint; 1] = [BoxPoint { x: 1, y: 1 }];

// The first box holds the point, the second holds none.
const BOXES: [BoxRange; 2] = [
    BoxRange {
        x0: 0,
        y0: 0,
        x1: 2,
        y1: 2,
    },
    BoxRange {
        x0: 5,
        y0: 5,
        x1: 6,
        y1: 6,
    },
];

// How much each buffer has; one point and one range ask for 1, 1, 3, 1 and 344.
#[derive(Clone, Copy)]
struct Sizes {
    weights: usize,
    marks: usize,
    ledger: usize,
    scratch: usize,
    sheet: usize,
}

const ENOUGH: Sizes = Sizes {
    weights: 1,
    marks: 1,
    ledger: 3,
    scratch: 1,
    sheet: 344,
};

const SHORT: Sizes = Sizes {
    weights: 0,
    marks: 0,
    ledger: 2,
    scratch: 0,
    sheet: 343,
};

pub fn show_refusals(rt: &HostRuntime) -> anyhow::Result<()> {
    let whole = Boxes::new(&POINTS, &BOXES[0..1]);
    let bare = Boxes::new(&POINTS, &BOXES);
    show_sizes(rt, "a bare range", &bare, ENOUGH)?;
    show_sizes(
        rt,
        "weights short",
        &whole,
        Sizes {
            weights: 0,
            ..ENOUGH
        },
    )?;
    show_sizes(rt, "marks short", &whole, Sizes { marks: 0, ..ENOUGH })?;
    show_sizes(
        rt,
        "ledger short",
        &whole,
        Sizes {
            ledger: 2,
            ..ENOUGH
        },
    )?;
    show_sizes(
        rt,
        "scratch short",
        &whole,
        Sizes {
            scratch: 0,
            ..ENOUGH
        },
    )?;
    show_sizes(
        rt,
        "sheet short",
        &whole,
        Sizes {
            sheet: 343,
            ..ENOUGH
        },
    )?;
    show_sizes(rt, "bare range and all buffers short", &bare, SHORT)?;
    show_sizes(rt, "all buffers short", &whole, SHORT)?;
    let lengths_fit = Sizes {
        weights: 1,
        marks: 1,
        ..SHORT
    };
    show_sizes(rt, "ledger, scratch and sheet short", &whole, lengths_fit)?;
    let ledger_fits = Sizes {
        ledger: 3,
        ..lengths_fit
    };
    show_sizes(rt, "scratch and sheet short", &whole, ledger_fits)?;
    show_untouched(rt, &whole)?;
    show_sizes(rt, "just enough", &whole, ENOUGH)
}

fn show_sizes<S: Space>(rt: &HostRuntime, what: &str, s: &S, sizes: Sizes) -> anyhow::Result<()> {
    let placed = try_sizes(s, sizes);
    match placed {
        Err(Refusal::EmptyRange(j)) => println!(rt; "{what}: 5 range {j}")?,
        _ => println!(rt; "{what}: {}", answer_number(&placed))?,
    }
    Ok(())
}

// Place with so much of each buffer, and nothing beyond what there is.
fn try_sizes<S: Space>(s: &S, sizes: Sizes) -> Result<(), Refusal> {
    let mut buffers = Buffers {
        weights: &mut [7; 1][0..sizes.weights.min(1)],
        marks: &mut [7; 1][0..sizes.marks.min(1)],
        ledger: &mut [RangeNumber(9); 3][0..sizes.ledger.min(3)],
        scratch: &mut [9; 1][0..sizes.scratch.min(1)],
    };
    let mut sheet = [9u8; 344];
    place(
        s,
        &Greedy,
        &Lowest,
        &mut buffers,
        &mut sheet[0..sizes.sheet.min(344)],
    )?;
    Ok(())
}

// A sheet one byte short is found last of all; still nothing is written.
fn show_untouched<S: Space>(rt: &HostRuntime, s: &S) -> anyhow::Result<()> {
    let mut weights = [7u64; 1];
    let mut marks = [7u8; 1];
    let mut ledger = [RangeNumber(9); 3];
    let mut scratch = [9u8; 1];
    let mut sheet = [9u8; 343];
    let mut buffers = Buffers {
        weights: &mut weights,
        marks: &mut marks,
        ledger: &mut ledger,
        scratch: &mut scratch,
    };
    let refused = place(s, &Greedy, &Lowest, &mut buffers, &mut sheet).is_err();
    let same = refused
        && weights == [7; 1]
        && marks == [7; 1]
        && ledger == [RangeNumber(9); 3]
        && scratch == [9; 1]
        && sheet == [9; 343];
    println!(rt; "buffers as they were: {same}")?;
    Ok(())
}
