//! Texts and their tokens, worked out by hand.
ghost use Rattle.std.specs.Prelude.{◌<◌, ◌^◌, length};

use std::alloc::Global;
use std::process::Abort;
use std::test::Fail;
use va_base::{Token, TokenKind};
use va_lexer::lex;

/// Texts of one line, and after ` =>` their tokens: the letter of the kind (B bad, L line end, M mark, N number, S system name,
/// T tick, W word, X string), the index of the first byte, and the length.
const LINES: &str = r#"== => M0+2
= = => M0+1 M2+1
=== => M0+2 M2+1
!= => M0+2
!== => M0+2 M2+1
!!= => M0+1 M1+2
<= => M0+2
<+ => M0+2
<<= => M0+1 M1+2
<<+ => M0+1 M1+2
<=+ => M0+2 M2+1
<+= => M0+2 M2+1
<- => M0+1 M1+1
< + => M0+1 M2+1
>= => M0+2
>== => M0+2 M2+1
>>= => M0+1 M1+2
>+ => M0+1 M1+1
** => M0+2
*** => M0+2 M2+1
**** => M0+2 M2+2
*) => M0+2
**) => M0+2 M2+1
(* => M0+2
(*) => M0+2 M2+1
(**) => M0+2 M2+2
( *) => M0+1 M2+2
(*)*) => M0+2 M2+1 M3+2
&& => M0+2
&&& => M0+2 B2+1
& & => B0+1 B2+1
| => B0+1
|| => M0+2
||= => M0+2 M2+1
()[],;:.+-/%!?@ => M0+1 M1+1 M2+1 M3+1 M4+1 M5+1 M6+1 M7+1 M8+1 M9+1 M10+1 M11+1 M12+1 M13+1 M14+1
/ / => M0+1 M2+1
/= => M0+1 M1+1
+= => M0+1 M1+1
-= => M0+1 M1+1
=> => M0+1 M1+1
=< => M0+1 M1+1
=! => M0+1 M1+1
*= => M0+1 M1+1
*/ => M0+1 M1+1
/) => M0+1 M1+1
{}#~^' => B0+1 B1+1 B2+1 B3+1 B4+1 B5+1
0 => N0+1
1.5m => N0+4
1.5mA => N0+4 W4+1
1.e3 => N0+1 M1+1 W2+2
.5 => M0+1 N1+1
1__0 => N0+4
1_ => N0+1 W1+1
_1 => W0+2
1_000_000.5_5e-1_0 => N0+18
1e => N0+1 W1+1
1e+ => N0+1 W1+1 M2+1
1e+2 => N0+4
1E-2 => N0+4
1e3m => N0+3 W3+1
1.5k2 => N0+4 N4+1
1kk => N0+2 W2+1
1m_2 => N0+2 W2+2
1.5_ => N0+3 W3+1
1_.5 => N0+1 W1+1 M2+1 N3+1
1.2.3 => N0+3 M3+1 N4+1
12abc => N0+3 W3+2
0x1F => N0+1 W1+3
1T1G1M1K1k1m1u1n1p1f1a => N0+2 N2+2 N4+2 N6+2 N8+2 N10+2 N12+2 N14+2 N16+2 N18+2 N20+2
1e9999 => N0+6
1e10000 => B0+7
1e10000x => B0+7 W7+1
1.5e10000 => N0+9
1e-9999 => N0+7
1e-10000 => B0+8
170141183460469231731687303715884105727 => N0+39
170141183460469231731687303715884105728 => B0+39
1-1 => N0+1 M1+1 N2+1
1e5-3 => N0+3 M3+1 N4+1
4'b1 => N0+1 B1+1 W2+2
a_b$c9 => W0+6
_ => W0+1
module => W0+6
a.b => W0+1 M1+1 W2+1
\a,b; c => W0+5 W6+1
\a+b) => W0+5
\ => B0+1
\ a => B0+1 W2+1
\\ => W0+2
\a\b => W0+4
$x$y => S0+4
$ => B0+1
$ x => B0+1 W2+1
$1 => S0+2
$$ => S0+2
$temperature => S0+12
$.a => B0+1 M1+1 W2+1
`a => T0+2
` => B0+1
` a => B0+1 W2+1
`1 => B0+1 N1+1
`a`b => T0+2 T2+2
``a => B0+1 T1+2
`_x$ => T0+4
`\a => B0+1 W1+2
"" => X0+2
"a b" => X0+5
"a\"b" => X0+6
"a\\"b => X0+5 W5+1
"a""b" => X0+3 X3+3
"a => B0+2
" => B0+1
"a\ => B0+3
"a\" => B0+4
"/*" => X0+4
"//" => X0+4
it's "odd => W0+2 B2+1 W3+1 B5+4
a//b => W0+1
a/b => W0+1 M1+1 W2+1
// =>
/**/ =>
/*/ => B0+3
/*/*/ =>
/***/ =>
/*a*/b => W5+1
a/*b => W0+1 B1+3
/* // */a => W8+1
// /* =>
/*a*/*/ => M5+1 M6+1
I(a, c) <+ V(a, c) / r; => W0+1 M1+1 W2+1 M3+1 W5+1 M6+1 M8+2 W11+1 M12+1 W13+1 M14+1 W16+1 M17+1 M19+1 W21+1 M22+1"#;

/// Texts of several lines, or with bytes that show no letter, and their tokens, with line and column.
const TEXTS: [(&[u8], &str); 34] = [
    (b"", ""),
    (b" \t\r a", "W4+1@1:5"),
    (b"\xc3\xa9", "B0+1@1:1 B1+1@1:2"),
    (b"\x00\x7f\x80\xff", "B0+1@1:1 B1+1@1:2 B2+1@1:3 B3+1@1:4"),
    (b"\"\t\x80\xff\"", "X0+5@1:1"),
    (b"\"\x7f\"a", "B0+4@1:1"),
    (b"\"\x01\"a", "B0+4@1:1"),
    (b"\"a\\\x7f\"", "B0+5@1:1"),
    (b"/*\xc3\xa9*/a", "W6+1@1:7"),
    (b"// \xff", ""),
    (b"a\nb", "W0+1@1:1 L1+1@1:2 W2+1@2:1"),
    (b"\n\n", "L0+1@1:1 L1+1@2:1"),
    (b"a\r\nb\r\n", "W0+1@1:1 L2+1@1:3 W3+1@2:1 L5+1@2:3"),
    (b"a // b\nc", "W0+1@1:1 L6+1@1:7 W7+1@2:1"),
    (b"// a\\\nb", "L5+1@1:6 W6+1@2:1"),
    (b"a \\\nb", "W0+1@1:1 W4+1@2:1"),
    (b"a \\\r\nb", "W0+1@1:1 W5+1@2:1"),
    (b"a\\\rb", "W0+1@1:1 B1+1@1:2 W3+1@1:4"),
    (b"\\a\\\nb", "W0+3@1:1 L3+1@1:4 W4+1@2:1"),
    (b"/* a\n b */ c", "W11+1@2:7"),
    (b"/*\n\n*/\nx", "L6+1@3:3 W7+1@4:1"),
    (b"\"ab\nc\"", "B0+3@1:1 L3+1@1:4 W4+1@2:1 B5+1@2:2"),
    (b"\"a\\\nb", "B0+3@1:1 L3+1@1:4 W4+1@2:1"),
    (b"\"a\r\nb", "B0+3@1:1 L3+1@1:4 W4+1@2:1"),
    (b"/* a\nb", "B0+6@1:1"),
    (b"x\n/*\ny", "W0+1@1:1 L1+1@1:2 B2+4@2:1"),
    (b"`define A 1\n", "T0+7@1:1 W8+1@1:9 N10+1@1:11 L11+1@1:12"),
    (b"a\\\n", "W0+1@1:1"),
    (b"\\\n\\\nx", "W4+1@3:1"),
    (b"a\n\\", "W0+1@1:1 L1+1@1:2 B2+1@2:1"),
    (b"\\\r", "B0+1@1:1"),
    (b"\ta", "W1+1@1:2"),
    (b"a\n\n  b", "W0+1@1:1 L1+1@1:2 L2+1@2:1 W5+1@3:3"),
    (b"\"x\"\n\"y\n", "X0+3@1:1 L3+1@1:4 B4+2@2:1 L6+1@2:3"),
];

fn letter(kind: TokenKind) -> char {
    match kind {
        TokenKind::Bad => 'B',
        TokenKind::End => 'E',
        TokenKind::Mark => 'M',
        TokenKind::Newline => 'L',
        TokenKind::Number => 'N',
        TokenKind::System => 'S',
        TokenKind::Text => 'X',
        TokenKind::Tick => 'T',
        TokenKind::Word => 'W',
    }
}

/// How a row writes a token.
fn written(alloc: Global, token: &Token, with_place: bool) -> Result<String, Fail> {
    let kind = letter(token.kind);
    if with_place {
        Ok(format!(in alloc;
            "{kind}{}+{}@{}:{}",
            token.first, token.len, token.place.line, token.place.col
        )?)
    } else {
        Ok(format!(in alloc; "{kind}{}+{}", token.first, token.len)?)
    }
}

/// The tokens of a text as a row writes them.
fn row_of(alloc: Global, text: &[u8], with_places: bool) -> Result<String, Fail>
    requires { length text.now < 2 ^ 32 }
{
    let mut row = String::new(alloc);
    for token in &lex(alloc, text, 7)? {
        if !row.is_empty() {
            row.push(' ')?;
        }
        row.push_str(&written(alloc, token, with_places)?)?;
    }
    Ok(row)
}

/// Checks the tokens of a text.
fn check(
    rt: &impl Abort,
    alloc: Global,
    text: &[u8],
    with_places: bool,
    want: &str,
) -> Result<(), Fail> {
    assert!(rt; text.len() < 100);
    let found = row_of(alloc, text, with_places)?;
    assert_eq!(rt; found.as_str(), want, "{text:?}");
    Ok(())
}

#[test]
fn tokens_of_texts(rt: HostRuntime) -> Result<(), Fail> {
    for line in LINES.lines() {
        let (text, want) = line.split_once(" =>").ok_or("a row without tokens")?;
        check(&rt, rt.alloc(), text.as_bytes(), false, want.trim())?;
    }
    for (text, want) in TEXTS {
        check(&rt, rt.alloc(), text, true, want)?;
    }
    Ok(())
}

/// The letter of the kind of a text of one byte, or a space where it has no token.
fn letter_of(byte: u8) -> char {
    match byte {
        b'a'..=b'z' | b'A'..=b'Z' | b'_' => 'W',
        b'0'..=b'9' => 'N',
        b' ' | b'\t' | b'\r' => ' ',
        b'\n' => 'L',
        b'('
        | b')'
        | b'['
        | b']'
        | b','
        | b';'
        | b':'
        | b'.'
        | b'='
        | b'<'
        | b'>'
        | b'+'
        | b'-'
        | b'*'
        | b'/'
        | b'%'
        | b'!'
        | b'?'
        | b'@' => 'M',
        _ => 'B',
    }
}

#[test]
fn each_byte_alone(rt: HostRuntime) -> Result<(), Fail> {
    for byte in 0..=255 {
        let tokens = lex(rt.alloc(), &[byte], 7)?;
        let found = match tokens.as_slice() {
            [token] => letter(token.kind),
            _ => ' ',
        };
        assert_eq!(rt; found, letter_of(byte), "{byte}");
    }
    Ok(())
}
