//! Tokens, parse trees and places of faults: texts worked out by hand.
use crate::marked::{LENGTH_LIMIT, changed};
use crate::texts::{no_modules, sample};
use c_syntax::{CErr, TokenErr, parse_file, place, tokens};
use c_tree::token::{CToken, CTokenKind};
use std::alloc::Global;
use std::test::Fail;

/// Texts of one line, and after ` => ` their tokens: the letter of the kind (F field, I integer, M mark, N include, R real,
/// T string, U unsigned, W word), the index of the first byte, and the length; or `!` and the first byte that begins none.
const LINES: &str = r##"<=->&& => M0+2 M2+2 M4+2
++||<<= => M0+1 M1+1 M2+1 M3+1 M4+1 M5+2
+=-=*= => M0+2 M2+2 M4+1 M5+1
--> => M0+1 M1+2
===!== => M0+2 M2+1 M3+2 M5+1
(){}[];, => M0+1 M1+1 M2+1 M3+1 M4+1 M5+1 M6+1 M7+1
= + - / % < > ! & | * => M0+1 M2+1 M4+1 M6+1 M8+1 M10+1 M12+1 M14+1 M16+1 M18+1 M20+1
3x => I0+1 W1+1
3ue5 => U0+2 W2+2
constint32_t => W0+12
_a1 B_2 => W0+3 W4+3
3e => I0+1 W1+1
3e+5 => I0+1 W1+1 M2+1 I3+1
1E5 => I0+1 W1+2
3e-x => I0+1 W1+1 M2+1 W3+1
15e-4 => R0+5
0e5 0e0 => R0+3 R4+3
0 0u => I0+1 U2+2
2147483647 => I0+10
2147483648 => !0
4294967295u => U0+11
4294967296u => !0
2147483648e0 2147483648u => R0+12 U13+11
1e9999 1e-9999 => R0+6 R7+7
1e10000 => !0
x 1e-10000 => !2
170141183460469231731687303715884105727e0 => R0+41
170141183460469231731687303715884105728e0 => !0
a 00 => !2
03u => !0
01e3 => !0
1e03 => !0
1e-03 => !0
1e-0 => !0
-1 => M0+1 I1+1
.name .payload.parameter_id => F0+5 F6+21
a . name => !2
.5 => !0
.a.5 => !2
a.b => W0+1 F1+2
"a b" "" => T0+5 T6+2
"#include;" x => T0+11 W12+1
"\042\377\000" => T0+14
x "\101" => !2
"\400" => !0
"\01" => !0
"\x41" => !0
"\"" => !0
"a?" => !0
"`" => !0
a "b => !2
#include => N0+8
#includex  "y" => N0+14
x#include y => W0+1 N1+10
x # include => !2
#define A => !0
$x => !0
a : b => !2
? => !0
static double fn_0_1 ( double a0 ) { => W0+6 W7+6 W14+6 M21+1 W23+6 W30+2 M33+1 M35+1
x[inst->node[3u]] => W0+1 M1+1 W2+4 M6+2 W8+4 M12+1 U13+2 M15+1 M16+1
v0=-1e0; => W0+2 M2+1 M3+1 R4+3 M7+1"##;

/// Texts with line ends, tabs and carriage returns, and what a row above has of them.
const LINE_ENDS: [(&str, &str); 3] = [
    ("#include <math.h>\nint ;\n", "N0+17 W18+3 M22+1"),
    ("int ;\r\n", "!5"),
    ("x\ty", "!1"),
];

fn letter(kind: CTokenKind) -> char {
    match kind {
        CTokenKind::Field => 'F',
        CTokenKind::Include => 'N',
        CTokenKind::Integer => 'I',
        CTokenKind::Mark => 'M',
        CTokenKind::Real => 'R',
        CTokenKind::Text => 'T',
        CTokenKind::Unsigned => 'U',
        CTokenKind::Word => 'W',
    }
}

/// How a row writes tokens.
fn written(alloc: Global, tokens: &[CToken]) -> Result<String, Fail> {
    let mut row = String::new(alloc);
    for token in tokens {
        if !row.is_empty() {
            row.push(' ')?;
        }
        let kind = letter(token.kind);
        row.push_str(&format!(in alloc; "{kind}{}+{}", token.first, token.len)?)?;
    }
    Ok(row)
}

/// What a row writes of a text.
fn row_of(alloc: Global, text: &[u8]) -> Result<String, Fail> {
    if text.len() >= LENGTH_LIMIT {
        return Err(Fail::from("a long text"));
    }
    match tokens(alloc, text) {
        Ok(list) => written(alloc, &list),
        Err(TokenErr::BadByte(at)) => Ok(format!(in alloc; "!{at}")?),
        Err(TokenErr::NoMemory) => Err(Fail::from("no memory")),
    }
}

#[test]
fn tokens_of_lines(rt: HostRuntime) -> Result<(), Fail> {
    for line in LINES.lines() {
        let (text, want) = line.split_once(" =>").ok_or("a row without tokens")?;
        let found = row_of(rt.alloc(), text.as_bytes())?;
        assert!(rt; found.as_str() == want.trim(), "{line}");
    }
    for (text, want) in LINE_ENDS {
        let found = row_of(rt.alloc(), text.as_bytes())?;
        assert!(rt; found.as_str() == want, "{want}");
    }
    Ok(())
}

#[test]
fn each_byte_alone(rt: HostRuntime) -> Result<(), Fail> {
    for byte in 0..=255 {
        let found = row_of(rt.alloc(), &[byte])?;
        let want = match byte {
            b'a'..=b'z' | b'A'..=b'Z' | b'_' => "W0+1",
            b'0'..=b'9' => "I0+1",
            b' ' | b'\n' => "",
            b'(' | b')' | b'{' | b'}' | b'[' | b']' | b';' | b',' | b'*' | b'=' | b'+' | b'-' =>
                "M0+1",
            b'/' | b'%' | b'<' | b'>' | b'!' | b'&' | b'|' => "M0+1",
            _ => "!0",
        };
        assert!(rt; found.as_str() == want, "{byte}");
    }
    Ok(())
}

/// A fault: the byte, or the token that is no part of a sentence or breaks a rule of form.
pub fn written_fault(alloc: Global, fault: CErr) -> Result<String, Fail> {
    match fault {
        CErr::BadByte(at) => Ok(format!(in alloc; "byte {at}")?),
        CErr::Syntax(at) => Ok(format!(in alloc; "token {at}")?),
        CErr::Form(at) => Ok(format!(in alloc; "form {at}")?),
        CErr::NoMemory => Err(Fail::from("no memory")),
    }
}

/// What parsing answers: how many tokens and nodes there are, or the fault.
fn parsed(alloc: Global, text: &str) -> Result<String, Fail> {
    if text.len() >= LENGTH_LIMIT {
        return Err(Fail::from("a long text"));
    }
    match parse_file(alloc, text.as_bytes()) {
        Ok(file) => Ok(format!(in alloc;
            "{} tokens, {} nodes",
            file.tokens.len(),
            file.tree.len()
        )?),
        Err(fault) => written_fault(alloc, fault),
    }
}

/// Changes of the sample, each with a mark at the first bad token.
const CHANGES: &str = "return 0u => return @1u
#include <math.h> => @#include  <math.h>
break ; => break ; @;
double temp ; => double @temp2 ;
+= inst -> r0 => @*= inst -> r0
JACOBIAN_ENTRY_RESIST | JACOBIAN_ENTRY_REACT => JACOBIAN_ENTRY_REACT @| JACOBIAN_ENTRY_RESIST
JACOBIAN_ENTRY_RESIST | JACOBIAN_ENTRY_REACT => JACOBIAN_ENTRY_RESIST | @JACOBIAN_ENTRY_RESIST
fn_0_1 ( ) { => @fn_00_1 ( ) {
fn_0_1 ( ) { => @fn_0_4294967296 ( ) {
pow ( v0 , a0 ) => pow ( v0 , @)
pow ( v0 , a0 ) => pow @v0
x [ inst -> node => x [ @model -> node
inst -> g0 = 1 => inst -> g0 = @2
= 15e-1 => = @- 15e-1
double a0 , int32_t a1 => double a0 @int32_t a1
( ! v4 ) { => ( ! v4 )@
uint32_t tag => uint32_t @tags
inst -> col [ 0u ] => inst -> @jq [ 0u ]
* inst -> jr [ 0u ] => * inst -> @col [ 0u ]
.is_flow = 0 => .is_flow = @0u
sizeof ( model_0 ) => sizeof ( @inst_0 )";

#[test]
fn whole_files(rt: HostRuntime) -> Result<(), Fail> {
    let alloc = rt.alloc();
    let rows = vec![in alloc;
        (sample(alloc)?, "1503 tokens, 384 nodes"),
        (no_modules(alloc)?, "132 tokens, 7 nodes"),
        ("".to_string(alloc)?, "token 0"),
        ("x ?".to_string(alloc)?, "byte 2"),
        (
            "#include \"osdi_0_3.h\"\n#include <math.h>\n".to_string(alloc)?,
            "token 2"
        ),
    ]?;
    for (text, want) in rows {
        let found = parsed(alloc, text.as_str())?;
        assert!(rt; found.as_str() == want, "{want}");
    }
    Ok(())
}

#[test]
fn first_bad_tokens(rt: HostRuntime) -> Result<(), Fail> {
    let alloc = rt.alloc();
    let text = sample(alloc)?;
    for row in CHANGES.lines() {
        let marked = changed(alloc, text.as_str(), row)?;
        let token = marked.token.ok_or("a row without a mark")?;
        let found = parsed(alloc, marked.text.as_str())?;
        let want = format!(in alloc; "token {token}")?;
        assert!(rt; found.as_str() == want.as_str(), "{row}");
    }
    Ok(())
}

#[test]
fn places_of_faults(rt: HostRuntime) -> Result<(), Fail> {
    let rows = [
        (CErr::BadByte(11), "0:2:6"),
        (CErr::BadByte(0), "0:1:1"),
        (CErr::Syntax(0), "0:1:1"),
        (CErr::Syntax(1), "0:1:4"),
        (CErr::Form(2), "0:2:3"),
        (CErr::Syntax(3), "0:3:1"),
        (CErr::NoMemory, "0:1:1"),
    ];
    for (fault, want) in rows {
        let found = place(b"ab cd\n  ef ?\n", &fault);
        let row = format!(in rt.alloc(); "{}:{}:{}", found.file, found.line, found.col)?;
        assert!(rt; row.as_str() == want, "{row}");
    }
    Ok(())
}
