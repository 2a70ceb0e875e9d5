// Sheets for the reader: each condition broken alone, and kept at its limit.
use crate::job::WORKED;
use ranges::refusal::answer_number;
use sheets::reader::read_sheet;

// What is done to a copy of the worked sheet: the bytes changed, each with its place, and how many are kept.
struct Damage {
    what: &'static str,
    changes: &'static [(usize, u8)],
    len: usize,
}

const WHOLE: Damage = Damage {
    what: "as it is",
    changes: &[],
    len: 58,
};

static DAMAGES: [Damage; 47] = [
    WHOLE,
    Damage {
        what: "first 57 bytes",
        len: 57,
        ..WHOLE
    },
    Damage {
        what: "first 16 bytes",
        len: 16,
        ..WHOLE
    },
    Damage {
        what: "first 15 bytes",
        len: 15,
        ..WHOLE
    },
    Damage {
        what: "no bytes",
        len: 0,
        ..WHOLE
    },
    Damage {
        what: "book's place at the points' place",
        changes: &[(2, 17), (42, 38)],
        ..WHOLE
    },
    Damage {
        what: "book's place past the points' place",
        changes: &[(2, 18), (42, 40)],
        ..WHOLE
    },
    Damage {
        what: "book's place 2^24 higher",
        changes: &[(45, 1)],
        ..WHOLE
    },
    Damage {
        what: "points' place at the trailer's place",
        changes: &[(2, 11), (42, 26), (46, 42)],
        ..WHOLE
    },
    Damage {
        what: "points' place past the trailer's place",
        changes: &[(2, 11), (42, 26), (46, 43)],
        ..WHOLE
    },
    Damage {
        what: "points' place 2^24 higher",
        changes: &[(49, 1)],
        ..WHOLE
    },
    Damage {
        what: "book of one line",
        changes: &[(2, 13), (42, 30)],
        ..WHOLE
    },
    Damage {
        what: "book of 14 bytes",
        changes: &[(46, 36), (36, 0)],
        ..WHOLE
    },
    Damage {
        what: "book of 18 bytes",
        changes: &[(46, 40)],
        ..WHOLE
    },
    Damage {
        what: "book with guess 0",
        changes: &[(22, 0)],
        ..WHOLE
    },
    Damage {
        what: "first verdict 0",
        changes: &[(26, 0)],
        ..WHOLE
    },
    Damage {
        what: "first verdict 3",
        changes: &[(26, 3)],
        ..WHOLE
    },
    Damage {
        what: "first verdict 4",
        changes: &[(26, 4)],
        ..WHOLE
    },
    Damage {
        what: "first verdict 258",
        changes: &[(27, 1)],
        ..WHOLE
    },
    Damage {
        what: "last verdict 3",
        changes: &[(34, 3)],
        ..WHOLE
    },
    Damage {
        what: "last verdict 4",
        changes: &[(34, 4)],
        ..WHOLE
    },
    Damage {
        what: "points 0 and 3",
        changes: &[(38, 0)],
        ..WHOLE
    },
    Damage {
        what: "points 2 and 3",
        changes: &[(38, 2)],
        ..WHOLE
    },
    Damage {
        what: "points 3 and 3",
        changes: &[(38, 3)],
        ..WHOLE
    },
    Damage {
        what: "points 3 and 1",
        changes: &[(38, 3), (40, 1)],
        ..WHOLE
    },
    Damage {
        what: "points 1 and 259",
        changes: &[(41, 1)],
        ..WHOLE
    },
    Damage {
        what: "point n - 1, n is 3",
        changes: &[(40, 2), (54, 3)],
        ..WHOLE
    },
    Damage {
        what: "point n, n is 3",
        changes: &[(54, 3)],
        ..WHOLE
    },
    Damage {
        what: "n 0",
        changes: &[(54, 0)],
        ..WHOLE
    },
    Damage {
        what: "n 4096",
        changes: &[(54, 0), (55, 16)],
        ..WHOLE
    },
    Damage {
        what: "n 4097",
        changes: &[(54, 1), (55, 16)],
        ..WHOLE
    },
    Damage {
        what: "ledger's guess 2, floor 1",
        changes: &[(0, 2)],
        ..WHOLE
    },
    Damage {
        what: "ledger's guess 1, floor 2",
        changes: &[(56, 2)],
        ..WHOLE
    },
    Damage {
        what: "ledger's guess 2, floor 2",
        changes: &[(0, 2), (56, 2)],
        ..WHOLE
    },
    Damage {
        what: "ledger's guess 0, floor 0",
        changes: &[(0, 0), (56, 0)],
        ..WHOLE
    },
    Damage {
        what: "ledger's guess 1, floor 257",
        changes: &[(57, 1)],
        ..WHOLE
    },
    Damage {
        what: "ledger's guess 257, floor 257",
        changes: &[(1, 1), (57, 1)],
        ..WHOLE
    },
    Damage {
        what: "section a line short",
        changes: &[(2, 8)],
        ..WHOLE
    },
    Damage {
        what: "section a line long",
        changes: &[(2, 10)],
        ..WHOLE
    },
    Damage {
        what: "section 256 lines long",
        changes: &[(3, 1)],
        ..WHOLE
    },
    Damage {
        what: "last section without lines",
        changes: &[(50, 18)],
        ..WHOLE
    },
    Damage {
        what: "last section of 3 bytes",
        changes: &[(50, 19)],
        ..WHOLE
    },
    Damage {
        what: "ledger's place at the book's",
        changes: &[(50, 22)],
        ..WHOLE
    },
    Damage {
        what: "ledger's place past the sheet",
        changes: &[(50, 58)],
        ..WHOLE
    },
    Damage {
        what: "ledger's place 2^32 - 2",
        changes: &[(50, 254), (51, 255), (52, 255), (53, 255)],
        ..WHOLE
    },
    Damage {
        what: "no ledger, floor 1",
        changes: &[(50, 255), (51, 255), (52, 255), (53, 255)],
        ..WHOLE
    },
    Damage {
        what: "no ledger, floor 0",
        changes: &[(50, 255), (51, 255), (52, 255), (53, 255), (56, 0)],
        ..WHOLE
    },
];

pub fn damaged_sheets(rt: &HostRuntime) -> anyhow::Result<()> {
    for damage in &DAMAGES {
        say_damage(rt, damage)?;
    }
    Ok(())
}

fn say_damage(rt: &HostRuntime, damage: &Damage) -> anyhow::Result<()> {
    let mut copy = Vec::from_slice(rt.alloc(), &WORKED)?;
    change(&mut copy, damage.changes);
    copy.truncate(damage.len);
    let number = answer_number(&read_sheet(&copy));
    println!(rt; "damaged, {}: {number}", damage.what)?;
    Ok(())
}

fn change(sheet: &mut [u8], changes: &[(usize, u8)]) {
    for (place, byte) in changes {
        if let Some(changed) = sheet.get_mut(*place) {
            *changed = *byte;
        }
    }
}

// A sheet of few bytes, with the trailer as its last 16.
struct Small {
    what: &'static str,
    bytes: &'static [u8],
}

static SMALLS: [Small; 13] = [
    Small {
        what: "16 bytes",
        bytes: &[0, 0, 0, 0, 0, 0, 0, 0, 255, 255, 255, 255, 2, 0, 0, 0],
    },
    Small {
        what: "15 bytes",
        bytes: &[0, 0, 0, 0, 0, 0, 0, 0, 255, 255, 255, 255, 2, 0, 0],
    },
    Small {
        what: "n 0",
        bytes: &[0, 0, 0, 0, 0, 0, 0, 0, 255, 255, 255, 255, 0, 0, 0, 0],
    },
    Small {
        what: "half a point",
        bytes: &[0, 0, 0, 0, 0, 0, 0, 0, 0, 255, 255, 255, 255, 2, 0, 0, 0],
    },
    Small {
        what: "a point",
        bytes: &[0, 0, 0, 0, 0, 0, 0, 0, 0, 0, 255, 255, 255, 255, 2, 0, 0, 0],
    },
    Small {
        what: "point n - 1",
        bytes: &[1, 0, 0, 0, 0, 0, 0, 0, 0, 0, 255, 255, 255, 255, 2, 0, 0, 0],
    },
    Small {
        what: "point n",
        bytes: &[2, 0, 0, 0, 0, 0, 0, 0, 0, 0, 255, 255, 255, 255, 2, 0, 0, 0],
    },
    Small {
        what: "points' place past the trailer's place",
        bytes: &[0, 0, 0, 0, 1, 0, 0, 0, 255, 255, 255, 255, 2, 0, 0, 0],
    },
    Small {
        what: "no ledger, floor 1",
        bytes: &[0, 0, 0, 0, 0, 0, 0, 0, 255, 255, 255, 255, 2, 0, 1, 0],
    },
    Small {
        what: "no ledger, book's place 2",
        bytes: &[0, 0, 2, 0, 0, 0, 2, 0, 0, 0, 255, 255, 255, 255, 2, 0, 0, 0],
    },
    Small {
        what: "ledger without bytes",
        bytes: &[0, 0, 0, 0, 0, 0, 0, 0, 0, 0, 0, 0, 2, 0, 1, 0],
    },
    Small {
        what: "ledger of 3 bytes",
        bytes: &[1, 0, 0, 3, 0, 0, 0, 3, 0, 0, 0, 0, 0, 0, 0, 2, 0, 1, 0],
    },
    Small {
        what: "ledger of 4 bytes",
        bytes: &[1, 0, 0, 0, 4, 0, 0, 0, 4, 0, 0, 0, 0, 0, 0, 0, 2, 0, 1, 0],
    },
];

pub fn small_sheets(rt: &HostRuntime) -> anyhow::Result<()> {
    for small in &SMALLS {
        let number = answer_number(&read_sheet(small.bytes));
        println!(rt; "small, {}: {number}", small.what)?;
    }
    Ok(())
}

// Books of 24 lines, of a byte more, and of 25 lines.
pub fn long_books(rt: &HostRuntime) -> anyhow::Result<()> {
    for len in [192, 193, 200] {
        say_book(rt, len)?;
    }
    Ok(())
}

// A sheet of nothing but open lines: no ledger and no points.
fn say_book(rt: &HostRuntime, len: u8) -> anyhow::Result<()> {
    let trailer = [0, 0, 0, 0, len, 0, 0, 0, 255, 255, 255, 255, 0, 0, 0, 0];
    let mut sheet = vec![in rt.alloc(); 0u8; len as usize]?;
    sheet.extend_from_slice(&trailer)?;
    let number = answer_number(&read_sheet(&sheet));
    println!(rt; "book of {len} bytes: {number}")?;
    Ok(())
}
