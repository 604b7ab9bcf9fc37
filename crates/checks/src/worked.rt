// Surveys worked by hand, through the calls that the programs make.
ghost use Rattle.std.specs.Prelude.{◌≡◌, ◌<◌, length, IfOk, vec_len};
ghost use Rattle.survey.specs.Model.{model, size};

use crate::tests::{EXAMPLE, bytes_of};
use cut::barring::is_bar;
use cut::finding::{Cut, Finding};
use cut::judging::witness_or_cut;
use cut::scratch::Scratch;
use pattern::blanks::from_bytes;
use publication::audit::{audit, audit_line};
use publication::publishing::publish;
use search::searching::search;
use sensitivity::profile::open_above;
use sensitivity::table::Table;
use std::alloc::Global;
use std::test::Fail;
use survey::reading::read;
use survey::refusal::{Lent, Refusal};

// One cell dominates, and its row has no other that could give.
const ONE_LONE: [(u16, u32); 7] = [
    (0, 100),
    (1, 30),
    (1, 30),
    (2, 30),
    (2, 30),
    (3, 30),
    (3, 30),
];
// No cell lacks anything.
const ALL_THREES: [(u16, u32); 12] = [
    (0, 10),
    (0, 10),
    (0, 10),
    (1, 10),
    (1, 10),
    (1, 10),
    (2, 10),
    (2, 10),
    (2, 10),
    (3, 10),
    (3, 10),
    (3, 10),
];
// One row.
const ONE_ROW: [(u16, u32); 3] = [(0, 100), (1, 30), (1, 30)];
// The cell across has one workshop, which would notice.
const TWO_LONE: [(u16, u32); 6] = [(0, 100), (1, 30), (1, 30), (2, 30), (2, 30), (3, 30)];

// A table of the survey with these workshops, at 15 per cent.
fn table_of(heap: Global, rows: u8, columns: u8, workshops: &[(u16, u32)]) -> Result<Table, Fail>
    requires { length workshops.now < 65536 }
    ensures { IfOk result (λ t. vec_len t.profiles ≡ size (model t.survey)) }
{
    let bytes = bytes_of(heap, rows, columns, 15, workshops)?;
    let survey = read(heap, bytes.as_slice())?;
    Ok(Table::new(heap, survey)?)
}

#[test]
fn lacks(rt: HostRuntime) -> Result<(), Fail> {
    let heap = rt.alloc();
    assert_eq!(rt; open_above(15, 6), 1);
    let a = table_of(heap, 3, 3, &EXAMPLE)?;
    for cell in 0..10 {
        assert_eq!(rt; a.lack(cell), if cell == 1 { 14 } else { 0 });
    }
    let b = table_of(heap, 2, 2, &ONE_LONE)?;
    assert_eq!(rt; [b.lack(0), b.lack(1), b.lack(2), b.lack(3)], [15, 5, 5, 5]);
    let e = table_of(heap, 2, 2, &TWO_LONE)?;
    assert_eq!(rt; [e.lack(0), e.lack(1), e.lack(2), e.lack(3)], [15, 5, 5, 5]);
    Ok(())
}

#[test]
fn pages(rt: HostRuntime) -> Result<(), Fail> {
    let heap = rt.alloc();
    let a = publish(heap, &table_of(heap, 3, 3, &EXAMPLE)?)?;
    assert_eq!(rt;
        a.as_str(),
        "100 - - 270\n60 120 36 216\n220 - - 374\n380 315 165 860\n"
    );
    let c = publish(heap, &table_of(heap, 2, 2, &ALL_THREES)?)?;
    assert_eq!(rt; c.as_str(), "30 30 60\n30 30 60\n60 60 120\n");
    let f = publish(heap, &table_of(heap, 2, 2, &[])?)?;
    assert_eq!(rt; f.as_str(), "0 0 0\n0 0 0\n0 0 0\n");
    assert_eq!(rt;
        publish(heap, &table_of(heap, 2, 2, &ONE_LONE)?).err(),
        Some(Refusal::Unprotected(1))
    );
    assert_eq!(rt;
        publish(heap, &table_of(heap, 1, 2, &ONE_ROW)?).err(),
        Some(Refusal::Unprotected(0))
    );
    assert_eq!(rt;
        publish(heap, &table_of(heap, 2, 2, &TWO_LONE)?).err(),
        Some(Refusal::Unprotected(0))
    );
    Ok(())
}

#[test]
fn searches(rt: HostRuntime) -> Result<(), Fail> {
    let heap = rt.alloc();
    let a = table_of(heap, 3, 3, &EXAMPLE)?;
    let mut long = [true; 10];
    assert_eq!(rt; search(heap, &a, &mut long), Ok(()));
    assert_eq!(rt;
        long,
        [
            false, true, true, false, false, false, false, true, true, true,
        ]
    );
    let mut short = [true; 8];
    assert_eq!(rt;
        search(heap, &a, &mut short),
        Err(Refusal::Short(Lent::Pattern))
    );
    assert_eq!(rt; short, [true; 8]);
    let b = table_of(heap, 2, 2, &ONE_LONE)?;
    let mut kept = [false, true, false, true];
    assert_eq!(rt; search(heap, &b, &mut kept), Err(Refusal::Unprotected(1)));
    assert_eq!(rt; kept, [false, true, false, true]);
    Ok(())
}

#[test]
fn witnesses(rt: HostRuntime) -> Result<(), Fail> {
    let heap = rt.alloc();
    let a = table_of(heap, 3, 3, &EXAMPLE)?;
    let blanks = [false, true, true, false, false, false, false, true, true];
    let mut sums = [0; 9];
    let mut falls = [0; 9];
    let mut rises = [0; 9];
    let mut witness = [0; 9];
    let shown = witness_or_cut(
        &a,
        &blanks,
        1,
        &mut sums,
        &mut falls,
        &mut rises,
        &mut witness,
    )?;
    assert!(rt; matches!(shown, Finding::Shown));
    assert_eq!(rt; witness, [100, 109, 61, 60, 120, 36, 220, 86, 68]);
    let printed = witness_or_cut(
        &a,
        &[false; 9],
        1,
        &mut sums,
        &mut falls,
        &mut rises,
        &mut witness,
    )?;
    assert!(rt; matches!(printed, Finding::Printed));
    let refused = witness_or_cut(
        &a,
        &blanks,
        1,
        &mut sums,
        &mut falls,
        &mut rises,
        &mut [0; 8],
    );
    assert_eq!(rt; refused.err(), Some(Refusal::Short(Lent::Flow)));
    Ok(())
}

// Cells judged in memory of one's own.
#[test]
fn judged_in_own_memory(rt: HostRuntime) -> Result<(), Fail> {
    let heap = rt.alloc();
    let a = table_of(heap, 3, 3, &EXAMPLE)?;
    let blanks = [false, true, true, false, false, false, false, true, true];
    let mut scratch = Scratch::new(heap, 9)?;
    assert!(rt; matches!(scratch.judge(&a, &blanks, 1)?, Finding::Shown));
    assert!(rt; matches!(scratch.judge(&a, &[false; 9], 1)?, Finding::Printed));
    let mut short = Scratch::new(heap, 8)?;
    assert_eq!(rt;
        short.judge(&a, &blanks, 1).err(),
        Some(Refusal::Short(Lent::Sums))
    );
    let e = table_of(heap, 2, 2, &TWO_LONE)?;
    let barred = Scratch::new(heap, 4)?.judge(&e, &[true; 4], 0)?;
    assert!(rt; matches!(barred, Finding::Barred(_)));
    Ok(())
}

#[test]
fn cuts(rt: HostRuntime) -> Result<(), Fail> {
    let heap = rt.alloc();
    let b = table_of(heap, 2, 2, &ONE_LONE)?;
    let mut rows = [false; 40];
    rows[0] = true;
    let row_alone = Cut {
        rows,
        columns: [false; 40],
    };
    assert!(rt; is_bar(&b, &[true; 4], 1, &row_alone));
    assert!(rt; !is_bar(&b, &[true; 4], 0, &row_alone));
    assert!(rt;
        !is_bar(
            &b,
            &[true; 4],
            1,
            &Cut {
                rows: [false; 40],
                columns: [false; 40],
            },
        )
    );
    let barred = audit(heap, &b, &[true; 4])?;
    assert_eq!(rt;
        audit_line(heap, &barred)?.as_str(),
        "open 1 rows 0 columns"
    );
    let a = table_of(heap, 3, 3, &EXAMPLE)?;
    let printed = audit(heap, &a, &[false; 9])?;
    assert_eq!(rt; audit_line(heap, &printed)?.as_str(), "open 1 printed");
    let mut pattern = [false; 9];
    assert_eq!(rt;
        from_bytes(a.survey(), &[0, 1, 1, 0, 0, 0, 0, 1, 1], &mut pattern),
        Ok(())
    );
    let protected = audit(heap, &a, &pattern)?;
    assert_eq!(rt; audit_line(heap, &protected)?.as_str(), "protected");
    assert_eq!(rt;
        from_bytes(a.survey(), &[0; 8], &mut pattern),
        Err(Refusal::Pattern(8))
    );
    assert_eq!(rt;
        from_bytes(a.survey(), &[0, 1, 2, 0, 0, 0, 0, 1, 3], &mut pattern),
        Err(Refusal::Pattern(2))
    );
    assert_eq!(rt;
        audit(heap, &a, &[true; 8]).err(),
        Some(Refusal::Short(Lent::Pattern))
    );
    Ok(())
}

// Makes each cell blank that has a workshop.
fn blank_occupied(workshops: &[(u16, u32)], pattern: &mut [bool])
    ensures { length pattern.new ≡ length pattern.old }
{
    for (cell, _) in workshops {
        if let Some(blank) = pattern.get_mut(*cell as usize) {
            *blank = true;
        }
    }
}

// A way over three cells that fall.
#[test]
fn three_fall(rt: HostRuntime) -> Result<(), Fail> {
    let list = [
        (0, 100),
        (1, 20),
        (1, 20),
        (4, 20),
        (4, 20),
        (5, 20),
        (5, 20),
        (8, 20),
        (8, 20),
        (6, 20),
        (6, 20),
    ];
    let table = table_of(rt.alloc(), 3, 3, &list)?;
    let mut pattern = [false; 9];
    blank_occupied(&list, &mut pattern);
    let mut scratch = Scratch::new(rt.alloc(), 9)?;
    let shown = scratch.judge(&table, &pattern, 0)?;
    assert!(rt; matches!(shown, Finding::Shown));
    assert_eq!(rt;
        scratch.witness.as_slice(),
        [115, 25, 0, 0, 55, 25, 25, 0, 55].as_slice()
    );
    Ok(())
}

// The second way takes back what the first let fall at cell 7.
#[test]
fn taken_back(rt: HostRuntime) -> Result<(), Fail> {
    let places = [1, 6, 7, 12, 10, 4, 19, 17, 8, 23, 20];
    let mut list = Vec::new(rt.alloc());
    list.push((0, 133))?;
    for place in places.iter() {
        list.push((*place, 10))?;
        list.push((*place, 10))?;
    }
    assert!(rt; list.len() < 65536);
    let table = table_of(rt.alloc(), 5, 5, list.as_slice())?;
    let mut pattern = [false; 25];
    blank_occupied(list.as_slice(), &mut pattern);
    let mut scratch = Scratch::new(rt.alloc(), 25)?;
    let shown = scratch.judge(&table, &pattern, 0)?;
    assert!(rt; matches!(shown, Finding::Shown));
    let witness = &scratch.witness;
    assert_eq!(rt;
        [scratch.falls[7], scratch.rises[7], witness[7]],
        [10, 10, 20]
    );
    assert_eq!(rt;
        [
            witness[0],
            witness[1],
            witness[6],
            witness[17],
            witness[8],
            witness[20],
        ],
        [153, 10, 30, 10, 10, 10]
    );
    Ok(())
}

// A table of forty rows and columns in which the one way goes through all of them, down a staircase.
#[test]
fn long_way(rt: HostRuntime) -> Result<(), Fail> {
    let mut list = Vec::new(rt.alloc());
    list.push((0, 100))?;
    for i in 0..40u16 {
        let stair = if i < 39 { 41 * i + 1 } else { 1560 };
        list.push((stair, 20))?;
        list.push((stair, 20))?;
        if i > 0 {
            list.push((41 * i, 20))?;
            list.push((41 * i, 20))?;
        }
    }
    assert!(rt; list.len() < 65536);
    let table = table_of(rt.alloc(), 40, 40, list.as_slice())?;
    let mut pattern = [false; 1600];
    blank_occupied(list.as_slice(), &mut pattern);
    let mut scratch = Scratch::new(rt.alloc(), 1600)?;
    let shown = scratch.judge(&table, &pattern, 0)?;
    let witness = &scratch.witness;
    assert!(rt; matches!(shown, Finding::Shown));
    assert_eq!(rt;
        [
            witness[0],
            witness[1],
            witness[41],
            witness[42],
            witness[1599],
            witness[1560],
        ],
        [115, 25, 55, 25, 55, 25]
    );
    pattern[1560] = false;
    let barred = scratch.judge(&table, &pattern, 0)?;
    assert!(rt; matches!(barred, Finding::Barred(_)));
    Ok(())
}

// A lone workshop across may not rise, and a cell in its row with two may.
#[test]
fn lone_across(rt: HostRuntime) -> Result<(), Fail> {
    let heap = rt.alloc();
    let b = table_of(heap, 2, 2, &ONE_LONE)?;
    let mut scratch = Scratch::new(heap, 4)?;
    let shown = scratch.judge(&b, &[true; 4], 0)?;
    assert!(rt; matches!(shown, Finding::Shown));
    assert_eq!(rt; scratch.witness.as_slice(), [115, 45, 45, 75].as_slice());
    let e = table_of(heap, 2, 2, &TWO_LONE)?;
    let barred = scratch.judge(&e, &[true; 4], 0)?;
    assert!(rt; matches!(barred, Finding::Barred(_)));
    Ok(())
}
