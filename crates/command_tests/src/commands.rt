//! Words and statuses.
use crate::answers::{NONE, answer_to};
use crate::samples::{ONE_MISSING, RESISTOR, UNDECLARED, USAGE};
use alg_laws::{Dual, Whole};
use std::marker::PhantomData;
use std::test::Fail;
use va_command::{Status, run};
use va_io::{MemFiles, MemSink};

const UNBUILT: &str = "m.va:1:1: Unbuilt\n";

const BAD_TOKEN: &str = "m.va:1:1: BadToken\n";

/// Each command with the text of `m.va`, the status that is wanted, and the reason.
const COMMANDS: [(&str, &str, Status, &str); 23] = [
    ("compile m.va", RESISTOR, Status::Done, ""),
    ("compile m.va", UNDECLARED, Status::Refused, UNBUILT),
    ("compile m.va", "", Status::Refused, UNBUILT),
    ("compile m.va", "\u{e9}\u{7ff}", Status::Refused, BAD_TOKEN),
    (
        "compile none.va",
        RESISTOR,
        Status::NoFile,
        "none.va: no such file\n",
    ),
    ("compile ", RESISTOR, Status::NoFile, ": no such file\n"),
    ("compile", RESISTOR, Status::Usage, USAGE),
    ("", RESISTOR, Status::Usage, USAGE),
    ("compile m.va m.va", RESISTOR, Status::Usage, USAGE),
    ("compile m.va ", RESISTOR, Status::Usage, USAGE),
    ("Compile m.va", RESISTOR, Status::Usage, USAGE),
    ("compiles m.va", RESISTOR, Status::Usage, USAGE),
    ("m.va compile", RESISTOR, Status::Usage, USAGE),
    ("check m.va", RESISTOR, Status::Usage, USAGE),
    ("tables m.va", RESISTOR, Status::Usage, USAGE),
    ("read m.va", RESISTOR, Status::Refused, "m.va:1:1: Syntax\n"),
    ("read m.va", "@", Status::Refused, "m.va:1:1: BadByte\n"),
    (
        "read m.va",
        "#include \"osdi_0_3.h\"\n",
        Status::Refused,
        "m.va:2:1: Syntax\n",
    ),
    (
        "read m.va",
        ONE_MISSING,
        Status::Refused,
        "m.va:20:39: CForm\n",
    ),
    (
        "read none.va",
        RESISTOR,
        Status::NoFile,
        "none.va: no such file\n",
    ),
    ("eval m.va p.txt", RESISTOR, Status::Usage, USAGE),
    ("make 1", RESISTOR, Status::Usage, USAGE),
    ("work 1", RESISTOR, Status::Usage, USAGE),
];

#[test]
fn commands_end_with_their_reasons(rt: HostRuntime) -> Result<(), Fail> {
    for (command, text, status, reason) in COMMANDS {
        let end = answer_to(rt.alloc(), command, text.as_bytes(), NONE)?;
        assert_eq!(rt; end.status, status, "{command}");
        assert_eq!(rt; end.err.as_slice(), reason.as_bytes(), "{command}");
        assert_eq!(rt; end.out.is_empty(), status != Status::Done, "{command}");
    }
    Ok(())
}

/// The algebra is free: dual numbers serve as well.
#[test]
fn any_algebra_serves(rt: HostRuntime) {
    let alloc = rt.alloc();
    let law: PhantomData<Dual<Whole>> = PhantomData;
    let mut files = MemFiles::new(alloc, Vec::new(alloc), Vec::new(alloc));
    let mut out = MemSink::new(alloc, 1, Vec::new(alloc));
    let mut err = MemSink::new(alloc, 1, Vec::new(alloc));
    let status = run(alloc, law, &[], &mut files, &mut out, &mut err);
    assert_eq!(rt; status, Status::Usage);
    assert_eq!(rt; err.bytes(), USAGE.as_bytes());
}

#[test]
fn statuses_have_numbers(rt: HostRuntime) {
    let rows = [
        (Status::Done, 0),
        (Status::Refused, 1),
        (Status::Usage, 2),
        (Status::NoFile, 3),
        (Status::ReadFault, 4),
        (Status::WriteFault, 5),
        (Status::NoMemory, 7),
    ];
    for (status, number) in rows {
        assert_eq!(rt; status.number(), number, "{status:?}");
    }
}
