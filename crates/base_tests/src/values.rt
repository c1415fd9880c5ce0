//! `va_base`: lists, names, tokens' bytes, faults, numerals, and want of memory.
use std::alloc::{AllocFailed, Global};
use std::test::Fail;
use va_base::{
    Expanded, Fault, FaultCode, FileText, Items, Name, NoMemory, Phase, Place, Token, TokenKind,
    before, decimal, numeral_len,
};

#[test]
fn lists_and_names_keep_their_elements(rt: HostRuntime) -> Result<(), Fail> {
    let lists: [&[u32]; 3] = [&[3, 1, 2, 1], &[], &[u32::MAX]];
    for elements in lists {
        let items = Items::new(elements.to_vec(rt.alloc())?);
        assert_eq!(rt; items.as_list(), elements);
        assert_eq!(rt; items.into_list().as_slice(), elements);
    }
    let names: [&[u8]; 3] = [b"resistor", b"", &[0, 127, 128, 255]];
    for bytes in names {
        let name = Name::new(bytes.to_vec(rt.alloc())?);
        assert_eq!(rt; name.as_bytes(), bytes);
    }
    Ok(())
}

fn place(line: u32, col: u32) -> Place {
    Place { file: 0, line, col }
}

#[test]
fn a_token_has_its_bytes(rt: HostRuntime) -> Result<(), Fail> {
    let token = Token {
        kind: TokenKind::Number,
        file: 0,
        first: 4,
        len: 4,
        place: place(1, 5),
    };
    let files = vec![in rt.alloc();
        FileText {
            name: Name::new(vec![in rt.alloc(); b'm']?),
            bytes: Items::new(b"x = 1.5m;".to_vec(rt.alloc())?)
        },
    ]?;
    let text = Expanded {
        tokens: Items::new(vec![in rt.alloc(); token]?),
        files: Items::new(files),
    };
    assert!(rt; text.bytes(&token) == b"1.5m".as_slice());
    Ok(())
}

#[test]
fn codes_have_numbers_and_words(rt: HostRuntime) {
    let rows = [
        (FaultCode::BadToken, 1, "BadToken"),
        (FaultCode::TokensMany, 11, "TokensMany"),
        (FaultCode::Syntax, 12, "Syntax"),
        (FaultCode::OutOfProfile, 23, "OutOfProfile"),
        (FaultCode::DdtNonLinear, 28, "DdtNonLinear"),
        (FaultCode::NodesMany, 41, "NodesMany"),
        (FaultCode::CForm, 45, "CForm"),
        (FaultCode::Unbuilt, 46, "Unbuilt"),
    ];
    for (code, number, spelling) in rows {
        assert_eq!(rt; code.number(), number, "{spelling}");
        assert_eq!(rt; code.spelling(), spelling);
    }
}

fn fault(phase: Phase, at: u32, code: FaultCode) -> Fault {
    Fault {
        phase,
        at,
        place: place(1, 1),
        code,
    }
}

#[test]
fn faults_come_in_order(rt: HostRuntime) {
    let order = [
        fault(Phase::Syntax, 9, FaultCode::Syntax),
        fault(Phase::Names, 3, FaultCode::UnknownName),
        fault(Phase::Names, 3, FaultCode::WrongKind),
        fault(Phase::Names, 4, FaultCode::UnknownName),
        fault(Phase::Rules, 0, FaultCode::Unbuilt),
    ];
    for (i, a) in order.iter().enumerate() {
        for (j, b) in order.iter().enumerate() {
            assert_eq!(rt; before(a, b), i < j, "{i} and {j}");
        }
    }
}

#[test]
fn numerals_and_their_decimals(rt: HostRuntime) {
    let rows: [(&[u8], Option<(u128, i32)>); 14] = [
        (b"1.5m", Some((15, -4))),
        (b"150_0u", Some((1500, -6))),
        (b"1e-3", Some((1, -3))),
        (b"1.50", Some((150, -2))),
        (b"1.", None),
        (b".5", None),
        (b"", None),
        (b"1_", None),
        (
            b"170141183460469231731687303715884105727",
            Some((170141183460469231731687303715884105727, 0)),
        ),
        (b"170141183460469231731687303715884105728", None),
        (b"1e9999", Some((1, 9999))),
        (b"1e10000", None),
        (b"1e-9999", Some((1, -9999))),
        (b"0.1e-9999", None),
    ];
    for (bytes, want) in rows {
        let found = decimal(bytes).map(|found| (found.mantissa, found.power));
        assert!(rt; found == want, "{bytes:?}");
    }
}

#[test]
fn numerals_at_the_front(rt: HostRuntime) {
    let rows: [(&[u8], Option<usize>); 10] = [
        (b"1.5mA", Some(4)),
        (b"1.e3", Some(1)),
        (b"1e+", Some(1)),
        (b"1__0_", Some(4)),
        (b"1_.5", Some(1)),
        (b"1e10000 ", Some(7)),
        (b"1.5k3", Some(4)),
        (b".5", None),
        (b"_1", None),
        (b"", None),
    ];
    for (text, want) in rows {
        assert_eq!(rt; numeral_len(text), want, "{text:?}");
    }
}

/// A list of one byte with this room, by `?` at both errors of std.
fn kept(alloc: Global, byte: u8, room: usize) -> Result<Vec<u8>, NoMemory> {
    let mut bytes = Vec::with_capacity(alloc, room)?;
    bytes.push(byte)?;
    Ok(bytes)
}

#[test]
fn want_of_memory_is_answered_where_it_is_refused(rt: HostRuntime) {
    assert!(rt; kept(rt.alloc(), 200, 1).is_ok_and(|bytes| bytes.as_slice() == [200].as_slice()));
    assert_eq!(rt; kept(rt.alloc(), 200, usize::MAX).err(), Some(NoMemory));
    assert_eq!(rt; NoMemory::from(AllocFailed { value: 200u8 }), NoMemory);
}
