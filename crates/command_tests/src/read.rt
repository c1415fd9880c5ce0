//! The command `read`: the tables of C files.
use crate::answers::{NONE, answer_to, assert_answer};
use crate::samples::{DIODE_TABLES, INDUCTOR_TABLES, ONE_MISSING, POWER_TABLES, RESISTOR_TABLES};
use c_runs::{diode, inductor, power, resistor};
use std::test::Fail;
use va_command::Status;

/// A C file without modules has no tables. Blanks may stand behind it, up to the most bytes of a file.
#[test]
fn c_files_are_read_up_to_their_limit(rt: HostRuntime) -> Result<(), Fail> {
    let (before, after) = ONE_MISSING.split_once("= 1u").ok_or("no number")?;
    let text = format!(in rt.alloc(); "{before}= 0u{after}")?;
    let mut bytes = text.as_bytes().to_vec(rt.alloc())?;
    for (size, status, reason) in [
        (text.len(), Status::Done, ""),
        (1 << 26, Status::Done, ""),
        ((1 << 26) + 1, Status::Refused, "m.va:1:1: FileLarge\n"),
    ] {
        bytes.resize(size, b' ')?;
        let end = answer_to(rt.alloc(), "read m.va", bytes.as_slice(), NONE)?;
        assert_eq!(rt; end.status, status, "{size}");
        assert_eq!(rt; end.err.as_slice(), reason.as_bytes(), "{size}");
        assert!(rt; end.out.is_empty(), "{size}");
    }
    Ok(())
}

#[test]
fn files_with_modules_have_their_tables(rt: HostRuntime) -> Result<(), Fail> {
    let rows = [
        (resistor::text(), RESISTOR_TABLES),
        (diode::text(), DIODE_TABLES),
        (inductor::text(), INDUCTOR_TABLES),
        (power::text(), POWER_TABLES),
    ];
    for (text, tables) in rows {
        let end = answer_to(rt.alloc(), "read m.va", text.as_bytes(), NONE)?;
        assert_answer(&rt, &end, (Status::Done, "", tables), tables);
    }
    Ok(())
}

/// Changes to the diode's file: a part that stands once in it, what it is made, and why the file is refused then.
const CHANGES: [(&str, &str, &str); 4] = [
    (
        ".num_terminals = 2u",
        ".num_terminals = 4u",
        "m.va:331:54: CForm\n",
    ),
    (
        "inst -> q1 = v23",
        "inst -> q9 = v23",
        "m.va:168:9: CForm\n",
    ),
    (
        "_tran_0 }\n, {\n0 }\n}\n;\n",
        "_tran_0 }\n, {\n0 }\n}\n;\nx",
        "m.va:336:1: Syntax\n",
    ),
    (
        "_tran_0 }\n, {\n0 }\n}\n;\n",
        "_tran_0 }\n, {\n0 }\n}\n;\nx @",
        "m.va:336:3: BadByte\n",
    ),
];

/// Bytes that begin no token are blamed before tokens, and these before the form.
#[test]
fn changed_files_are_refused(rt: HostRuntime) -> Result<(), Fail> {
    for (old, new, reason) in CHANGES {
        let (before, after) = diode::text().split_once(old).ok_or("nothing to change")?;
        let text = format!(in rt.alloc(); "{before}{new}{after}")?;
        let end = answer_to(rt.alloc(), "read m.va", text.as_bytes(), NONE)?;
        assert_answer(&rt, &end, (Status::Refused, reason, ""), reason);
    }
    Ok(())
}
