// The listing of the job at its limits.
use crate::job::{book, mark, untouched, word};
use listings::listing::write_listing;
use ranges::refusal::answer_number;

struct Listed {
    what: &'static str,
    n: u16,
    marks: usize,
    room: usize,
}

static LISTINGS: [Listed; 9] = [
    Listed {
        what: "exact",
        n: 4,
        marks: 4,
        room: 92,
    },
    Listed {
        what: "one byte more",
        n: 4,
        marks: 4,
        room: 93,
    },
    Listed {
        what: "one byte short",
        n: 4,
        marks: 4,
        room: 91,
    },
    Listed {
        what: "no room",
        n: 4,
        marks: 4,
        room: 0,
    },
    Listed {
        what: "marks too short",
        n: 4,
        marks: 3,
        room: 92,
    },
    Listed {
        what: "marks too long",
        n: 4,
        marks: 5,
        room: 92,
    },
    Listed {
        what: "marks too short, one byte short",
        n: 4,
        marks: 3,
        room: 91,
    },
    Listed {
        what: "no points",
        n: 0,
        marks: 0,
        room: 82,
    },
    Listed {
        what: "no points, one byte short",
        n: 0,
        marks: 0,
        room: 81,
    },
];

pub fn listings(rt: &HostRuntime) -> anyhow::Result<()> {
    for listed in &LISTINGS {
        say_listing(rt, listed)?;
    }
    Ok(())
}

fn say_listing(rt: &HostRuntime, listed: &Listed) -> anyhow::Result<()> {
    let what = listed.what;
    let mut marks = vec![in rt.alloc(); 0u8; listed.marks]?;
    mark(&mut marks);
    let mut text = vec![in rt.alloc(); 9u8; listed.room]?;
    let answer = write_listing(listed.n, 2, &book(), 1, &marks, &mut text);
    let number = answer_number(&answer);
    let word = word(untouched(&text));
    let len = answer.unwrap_or(0);
    println!(rt; "listing, {what}: {number}, {word}, length {len}")?;
    Ok(())
}
