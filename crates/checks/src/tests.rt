// Examples at the edges of what is taken, the order of refusals, and the sums of one survey.
ghost use Rattle.std.specs.Prelude.{◌≡◌, ◌+◌, ◌*◌, ◌<◌, ◌⊎◌, length, IfOk, Some, vec_len};
ghost use Rattle.survey.specs.Format.{verdict};
ghost use Rattle.survey.specs.declared.refusal.Refusal.TheVariants.{Memory};

use std::alloc::{AllocError, Global};
use std::test::Fail;
use survey::reading::read;
use survey::refusal::{Lent, Refusal, Side};

// The bytes of a survey.
pub(crate) fn bytes_of(
    heap: Global,
    rows: u8,
    columns: u8,
    percent: u8,
    workshops: &[(u16, u32)],
) -> Result<Vec<u8>, AllocError>
    requires { length workshops.now < 65536 }
    ensures { IfOk result (λ v. vec_len v ≡ 5 + 6 * length workshops.now) }
{
    let mut bytes = [rows, columns, percent].to_vec(heap)?;
    bytes.extend_from_slice(&(workshops.len() as u16).to_le_bytes())?;
    for (cell, turnover) in workshops.iter() {
        bytes.extend_from_slice(&cell.to_le_bytes())?;
        bytes.extend_from_slice(&turnover.to_le_bytes())?;
    }
    Ok(bytes)
}

// The refusal, None where the survey is taken.
fn refusal(heap: Global, bytes: &[u8]) -> Option<Refusal>
    ensures { (result ≡ verdict bytes.now) ⊎ (result ≡ Some Memory) }
{
    match read(heap, bytes) {
        Ok(_) => None,
        Err(e) => Some(e),
    }
}

// Heads at the edges of what is taken, with no workshop after them.
#[test]
fn heads(rt: HostRuntime) {
    let table = [
        ([0, 1, 1, 0, 0], Some(Refusal::Dimension(Side::Rows))),
        ([1, 1, 1, 0, 0], None),
        ([40, 40, 100, 0, 0], None),
        ([41, 40, 100, 0, 0], Some(Refusal::Dimension(Side::Rows))),
        ([40, 0, 1, 0, 0], Some(Refusal::Dimension(Side::Columns))),
        ([40, 41, 1, 0, 0], Some(Refusal::Dimension(Side::Columns))),
        ([0, 0, 0, 255, 255], Some(Refusal::Dimension(Side::Rows))),
        ([1, 1, 0, 255, 255], Some(Refusal::Percentage)),
        ([1, 1, 101, 1, 0], Some(Refusal::Percentage)),
        ([1, 1, 100, 33, 78], Some(Refusal::TooMany)),
        ([1, 1, 100, 32, 78], Some(Refusal::Length(5))),
    ];
    for (bytes, expected) in table.iter() {
        assert_eq!(rt; refusal(rt.alloc(), bytes), *expected);
    }
}

// The bytes are as many as the head says, up to 20,000 workshops.
#[test]
fn lengths(rt: HostRuntime) -> Result<(), Fail> {
    let one = [1, 1, 1, 1, 0, 0, 0, 9, 0, 0, 0, 0];
    assert_eq!(rt; refusal(rt.alloc(), &one[0..0]), Some(Refusal::Length(0)));
    assert_eq!(rt; refusal(rt.alloc(), &one[0..4]), Some(Refusal::Length(4)));
    assert_eq!(rt; refusal(rt.alloc(), &one[0..10]), Some(Refusal::Length(10)));
    assert_eq!(rt; refusal(rt.alloc(), &one[0..11]), None);
    assert_eq!(rt; refusal(rt.alloc(), &one), Some(Refusal::Length(12)));
    let mut most = [1, 1, 1, 32, 78].to_vec(rt.alloc())?;
    for _ in 0..20_000 {
        most.extend_from_slice(&[0, 0, 0, 202, 154, 59])?;
    }
    assert_eq!(rt; refusal(rt.alloc(), most.as_slice()), None);
    most.push(0)?;
    assert_eq!(rt;
        refusal(rt.alloc(), most.as_slice()),
        Some(Refusal::Length(120_006))
    );
    Ok(())
}

// The last cell and the largest turnover are taken; the first workshop that is refused is told, by its cell first.
#[test]
fn workshops(rt: HostRuntime) -> Result<(), Fail> {
    let most = 1_000_000_000;
    let table = [
        ([(5, 0), (0, most), (5, 1), (0, 1), (1, 1), (2, 1)], None),
        (
            [(5, 0), (6, 0), (5, 1), (0, 1), (1, 1), (2, 1)],
            Some(Refusal::Cell(1)),
        ),
        (
            [(5, 0), (5, 0), (5, 1), (0, 1), (1, 1), (2, most + 1)],
            Some(Refusal::Turnover(5)),
        ),
        (
            [(5, 0), (5, 0), (5, 1), (0, most + 1), (1, 1), (6, 1)],
            Some(Refusal::Turnover(3)),
        ),
        (
            [(5, 0), (5, 0), (5, 1), (65535, 4294967295), (1, 1), (6, 1)],
            Some(Refusal::Cell(3)),
        ),
    ];
    for (list, expected) in table.iter() {
        let bytes = bytes_of(rt.alloc(), 2, 3, 10, list)?;
        assert_eq!(rt; refusal(rt.alloc(), bytes.as_slice()), *expected);
    }
    Ok(())
}

// The line that tells of a refusal.
#[test]
fn lines(rt: HostRuntime) -> Result<(), Fail> {
    let table = [
        (Refusal::Dimension(Side::Columns), "refused 1 at 1"),
        (Refusal::Length(120_006), "refused 4 at 120006"),
        (Refusal::Turnover(3), "refused 6 at 3"),
        (Refusal::Short(Lent::Flow), "refused 8 at 1"),
        (Refusal::Memory, "refused 10 at 0"),
    ];
    for (refused, line) in table.iter() {
        assert_eq!(rt; refused.to_string(rt.alloc())?.as_str(), *line);
    }
    Ok(())
}

// The turnovers of a table of three rows and three columns.
pub(crate) const EXAMPLE: [(u16, u32); 30] = [
    (0, 40),
    (0, 30),
    (0, 20),
    (0, 10),
    (1, 90),
    (1, 5),
    (2, 30),
    (2, 25),
    (2, 20),
    (3, 25),
    (3, 20),
    (3, 15),
    (4, 50),
    (4, 40),
    (4, 30),
    (5, 12),
    (5, 10),
    (5, 8),
    (5, 6),
    (6, 70),
    (6, 60),
    (6, 50),
    (6, 40),
    (7, 35),
    (7, 30),
    (7, 20),
    (7, 15),
    (8, 20),
    (8, 18),
    (8, 16),
];

#[test]
fn sums(rt: HostRuntime) -> Result<(), Fail> {
    let bytes = bytes_of(rt.alloc(), 3, 3, 15, &EXAMPLE)?;
    let survey = read(rt.alloc(), bytes.as_slice())?;
    assert_eq!(rt;
        [
            survey.row_sum(0),
            survey.row_sum(1),
            survey.row_sum(2),
            survey.row_sum(3),
        ],
        [270, 216, 374, 0]
    );
    assert_eq!(rt;
        [
            survey.column_sum(0),
            survey.column_sum(1),
            survey.column_sum(2),
            survey.column_sum(3),
        ],
        [380, 315, 165, 0]
    );
    assert_eq!(rt; survey.total(), 860);
    let mut short = [7; 8];
    assert_eq!(rt;
        survey.cell_sums(&mut short),
        Err(Refusal::Short(Lent::Sums))
    );
    assert_eq!(rt; short, [7; 8]);
    let mut long = [7; 11];
    assert_eq!(rt; survey.cell_sums(&mut long), Ok(()));
    assert_eq!(rt; long, [100, 95, 75, 60, 120, 36, 220, 100, 54, 7, 7]);
    Ok(())
}
