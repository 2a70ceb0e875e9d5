// Sheets closed at the limits; a refused writer comes back and is torn up.
use crate::job::{begun, book, mark, word};

// A ledger for each guess, the worked book, and so many marks, with points 1 and 3 chosen.
struct Close {
    what: &'static str,
    guesses: &'static [u16],
    floor: u16,
    marks: usize,
    room: usize,
}

const EXACT: Close = Close {
    what: "exact",
    guesses: &[1],
    floor: 1,
    marks: 4,
    room: 58,
};

static CLOSES: [Close; 15] = [
    EXACT,
    Close {
        what: "one byte more",
        room: 59,
        ..EXACT
    },
    Close {
        what: "one byte short",
        room: 57,
        ..EXACT
    },
    Close {
        what: "no marks",
        marks: 0,
        room: 54,
        ..EXACT
    },
    Close {
        what: "4096 marks",
        marks: 4096,
        ..EXACT
    },
    Close {
        what: "4097 marks",
        marks: 4097,
        ..EXACT
    },
    Close {
        what: "4097 marks, one byte short, other floor",
        floor: 2,
        marks: 4097,
        room: 57,
        ..EXACT
    },
    Close {
        what: "one byte short, other floor",
        floor: 2,
        room: 57,
        ..EXACT
    },
    Close {
        what: "floor 0",
        floor: 0,
        ..EXACT
    },
    Close {
        what: "floor 2",
        floor: 2,
        ..EXACT
    },
    Close {
        what: "two ledgers, floor of the last",
        guesses: &[1, 2],
        floor: 2,
        room: 80,
        ..EXACT
    },
    Close {
        what: "two ledgers, floor of the first",
        guesses: &[1, 2],
        room: 80,
        ..EXACT
    },
    Close {
        what: "no ledger, floor 0",
        guesses: &[],
        floor: 0,
        room: 36,
        ..EXACT
    },
    Close {
        what: "no ledger, one byte short",
        guesses: &[],
        floor: 0,
        room: 35,
        ..EXACT
    },
    Close {
        what: "no ledger, floor 1",
        guesses: &[],
        room: 36,
        ..EXACT
    },
];

pub fn closes(rt: &HostRuntime) -> anyhow::Result<()> {
    for close in &CLOSES {
        say_close(rt, close)?;
    }
    Ok(())
}

fn say_close(rt: &HostRuntime, close: &Close) -> anyhow::Result<()> {
    let what = close.what;
    let mut marks = vec![in rt.alloc(); 0u8; close.marks]?;
    mark(&mut marks);
    let mut sheet = vec![in rt.alloc(); 9u8; close.room]?;
    // no copy on the heap, which could fail
    let mut before = [0u8; 96];
    let writer = begun(&mut sheet, close.guesses);
    if let Some(front) = before.get_mut(..close.room) {
        front.copy_from_slice(&sheet);
    }
    match writer.close(&mut sheet, &book(), close.floor, &marks) {
        Ok(len) => println!(rt;
            "close, {what}: 0, {}, length {len}",
            word(before.starts_with(&sheet))
        )?,
        Err((back, e)) => {
            let kept = word(before.starts_with(&sheet));
            let torn = back.tear_up(&mut sheet);
            println!(rt; "close, {what}: {}, {kept}, torn up {torn}", e.number())?;
        }
    }
    Ok(())
}
