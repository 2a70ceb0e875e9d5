// Ledger sections added at the limits, as the first and behind another.
use crate::job::{LEDGER, begun, untouched, word};
use ranges::number::RangeNumber;
use ranges::refusal::answer_number;
use sheets::writer::SheetWriter;

// A section of equal lines, in a buffer of so many bytes.
struct Add {
    what: &'static str,
    k: u16,
    lines: usize,
    room: usize,
}

static ADDS: [Add; 13] = [
    Add {
        what: "guess 0",
        k: 0,
        lines: 1,
        room: 6,
    },
    Add {
        what: "guess 1",
        k: 1,
        lines: 1,
        room: 6,
    },
    Add {
        what: "guess 4096",
        k: 4096,
        lines: 1,
        room: 6,
    },
    Add {
        what: "guess 4097",
        k: 4097,
        lines: 1,
        room: 6,
    },
    Add {
        what: "guess 0, 16384 lines, no room",
        k: 0,
        lines: 16384,
        room: 0,
    },
    Add {
        what: "no lines",
        k: 1,
        lines: 0,
        room: 4,
    },
    Add {
        what: "no lines, one byte short",
        k: 1,
        lines: 0,
        room: 3,
    },
    Add {
        what: "3 lines",
        k: 1,
        lines: 3,
        room: 10,
    },
    Add {
        what: "3 lines, one byte short",
        k: 1,
        lines: 3,
        room: 9,
    },
    Add {
        what: "16383 lines",
        k: 1,
        lines: 16383,
        room: 32770,
    },
    Add {
        what: "16383 lines, one byte short",
        k: 1,
        lines: 16383,
        room: 32769,
    },
    Add {
        what: "16384 lines",
        k: 1,
        lines: 16384,
        room: 32772,
    },
    Add {
        what: "16384 lines, no room",
        k: 1,
        lines: 16384,
        room: 0,
    },
];

pub fn adds(rt: &HostRuntime) -> anyhow::Result<()> {
    for add in &ADDS {
        say_add(rt, add)?;
    }
    Ok(())
}

// The buffer is compared before the writer is spent, since that writes too.
fn say_add(rt: &HostRuntime, add: &Add) -> anyhow::Result<()> {
    let lines = vec![in rt.alloc(); RangeNumber(7); add.lines]?;
    let mut sheet = vec![in rt.alloc(); 9u8; add.room]?;
    let mut writer = SheetWriter::begin();
    let number = answer_number(&writer.add(&mut sheet, add.k, &lines));
    let word = word(untouched(&sheet));
    let torn = writer.tear_up(&mut sheet);
    println!(rt; "add, {}: {number}, {word}, torn up {torn}", add.what)?;
    Ok(())
}

// The worked ledger, behind a first section of 22 bytes with the same lines.
struct Second {
    what: &'static str,
    k: u16,
    room: usize,
}

static SECONDS: [Second; 4] = [
    Second {
        what: "exact",
        k: 2,
        room: 44,
    },
    Second {
        what: "one byte short",
        k: 2,
        room: 43,
    },
    Second {
        what: "guess 0",
        k: 0,
        room: 44,
    },
    Second {
        what: "guess 4097",
        k: 4097,
        room: 44,
    },
];

pub fn second_adds(rt: &HostRuntime) -> anyhow::Result<()> {
    for second in &SECONDS {
        say_second(rt, second)?;
    }
    Ok(())
}

fn say_second(rt: &HostRuntime, second: &Second) -> anyhow::Result<()> {
    let mut sheet = vec![in rt.alloc(); 9u8; second.room]?;
    // no copy on the heap, which could fail
    let mut before = [0u8; 64];
    let mut writer = begun(&mut sheet, &[1]);
    if let Some(front) = before.get_mut(..second.room) {
        front.copy_from_slice(&sheet);
    }
    let number = answer_number(&writer.add(&mut sheet, second.k, &LEDGER));
    let word = word(before.starts_with(&sheet));
    let torn = writer.tear_up(&mut sheet);
    println!(rt;
        "second add, {}: {number}, {word}, torn up {torn}",
        second.what
    )?;
    Ok(())
}
