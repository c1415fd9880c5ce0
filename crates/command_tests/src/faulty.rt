//! Reads and writes that fail.
use crate::answers::{Faults, NONE, answer_over, answer_to, assert_answer, assert_ends, row_files};
use crate::samples::{RESISTOR, RESISTOR_TABLES, USAGE};
use c_runs::resistor;
use std::test::Fail;
use va_command::Status;

/// Each command with the read, the write to `out` and the write to `err` that fail (0 for none), the most bytes that a write
/// takes, the status that is wanted, how many bytes of the output were written before it, and the reason.
const FAULTY: [(&str, [u64; 3], usize, Status, usize, &str); 10] = [
    ("compile m.va", [0, 1, 0], 100, Status::WriteFault, 0, ""),
    ("compile m.va", [0, 3, 0], 100, Status::WriteFault, 200, ""),
    ("compile m.va", [0, 300, 0], 1, Status::WriteFault, 299, ""),
    (
        "compile m.va",
        [1, 0, 0],
        100,
        Status::ReadFault,
        0,
        "m.va: read fault\n",
    ),
    (
        "compile none.va",
        [1, 0, 0],
        100,
        Status::ReadFault,
        0,
        "none.va: read fault\n",
    ),
    (
        "compile none.va",
        [2, 0, 0],
        1,
        Status::NoFile,
        0,
        "none.va: no such file\n",
    ),
    ("compile none.va", [0, 0, 1], 100, Status::WriteFault, 0, ""),
    (
        "compile none.va",
        [0, 0, 3],
        4,
        Status::WriteFault,
        0,
        "none.va:",
    ),
    ("help", [0, 0, 2], 5, Status::WriteFault, 0, "usage"),
    ("help", [1, 1, 0], 5, Status::Usage, 0, USAGE),
];

/// A sink that fails keeps what it took before, and a fault that nothing is due to changes nothing.
#[test]
fn faults_leave_a_first_part(rt: HostRuntime) -> Result<(), Fail> {
    let whole = answer_to(rt.alloc(), "compile m.va", RESISTOR.as_bytes(), NONE)?;
    for (command, [read, out, err], take, status, count, reason) in FAULTY {
        let faults = Faults {
            read,
            out,
            err,
            take,
        };
        let end = answer_to(rt.alloc(), command, RESISTOR.as_bytes(), faults)?;
        assert_eq!(rt; end.status, status, "{command}");
        assert_eq!(rt; end.err.as_slice(), reason.as_bytes(), "{command}");
        assert_eq!(rt; end.out.len(), count, "{command}");
        assert!(rt;
            whole.out.as_slice().starts_with(end.out.as_slice()),
            "{command}"
        );
    }
    let faults = Faults {
        read: 2,
        out: 0,
        err: 1,
        take: 1,
    };
    let by_bytes = answer_to(rt.alloc(), "compile m.va", RESISTOR.as_bytes(), faults)?;
    assert_eq!(rt; by_bytes.status, Status::Done);
    assert_eq!(rt; by_bytes.out.as_slice(), whole.out.as_slice());
    Ok(())
}

/// Files that fail at each of the five reads, and at none.
#[test]
fn each_read_may_fail(rt: HostRuntime) -> Result<(), Fail> {
    let row = "@m.va:`include \"a.h\"
`include \"b.h\"
@a.h:`include \"b.h\" // and once more below
@b.h:`ifndef B
`define B
`include \"r.h\"
`endif
";
    let names = ["m.va", "a.h", "b.h", "r.h", "b.h"];
    for (read, name) in (1u64..).zip(names) {
        let list = row_files(rt.alloc(), row)?;
        let end = answer_over(rt.alloc(), "compile m.va", list, Faults { read, ..NONE })?;
        assert_eq!(rt; end.status, Status::ReadFault, "{read}");
        let reason = format!(in rt.alloc(); "{name}: read fault\n")?;
        assert_eq!(rt; end.err.as_slice(), reason.as_bytes(), "{read}");
        assert!(rt; end.out.is_empty(), "{read}");
    }
    let list = row_files(rt.alloc(), row)?;
    let end = answer_over(rt.alloc(), "compile m.va", list, Faults { read: 6, ..NONE })?;
    assert_ends(&rt, &end, "", "no read fails");
    Ok(())
}

/// Tables of which one write takes 20 bytes.
#[test]
fn tables_are_cut_where_a_sink_fails(rt: HostRuntime) -> Result<(), Fail> {
    let rows = [
        (1, 0, Status::ReadFault, "m.va: read fault\n", 0),
        (0, 1, Status::WriteFault, "", 0),
        (0, 3, Status::WriteFault, "", 40),
        (2, 100, Status::Done, "", RESISTOR_TABLES.len()),
    ];
    for (read, out, status, reason, count) in rows {
        let faults = Faults {
            read,
            out,
            err: 0,
            take: 20,
        };
        let text = resistor::text().as_bytes();
        let end = answer_to(rt.alloc(), "read m.va", text, faults)?;
        let (written, _) = RESISTOR_TABLES.split_at_checked(count).ok_or("few bytes")?;
        assert_answer(&rt, &end, (status, reason, written), reason);
    }
    Ok(())
}
