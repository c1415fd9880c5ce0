//! A diode's module with one token changed: deleted, doubled, or replaced by `;` or by `1`, each of them in turn. Each token
//! stands on a line of its own, so that the line tells the token. The expected values were found by a recogniser of any grammar
//! (Earley's) outside this repository, over the rows as the language's description writes them.
use crate::reading::{Reading, read};
use std::alloc::{AllocError, Global};
use std::process::Abort;
use std::test::Fail;

/// A row for each token. Of the text without it, with it doubled, with `;` and with `1` in its place, the index of the first bad
/// token, or `-` where the text is a sentence; and then the token.
const ROWS: &str = r#"0 1 0 0 module
1 2 1 1 diode
2 3 4 2 (
3 4 3 3 a
4 5 4 4 ,
5 6 5 5 c
6 7 6 6 )
7 8 - 7 ;
9 9 8 8 inout
9 - 9 9 a
- 11 12 10 ,
11 12 11 11 c
12 13 - 12 ;
14 15 13 13 electrical
14 15 14 14 a
15 16 17 15 ,
16 17 16 16 c
17 18 19 17 ,
18 19 18 18 ci
19 20 - 19 ;
21 21 20 20 (*
21 22 21 21 desc
22 23 22 22 =
23 24 23 - "saturation current"
24 25 24 24 ,
25 26 25 25 units
26 27 26 26 =
27 28 27 - "A"
28 29 28 28 *)
33 30 29 29 parameter
- 31 30 30 real
31 32 31 31 is
32 33 32 32 =
33 34 33 - 1e-14
34 35 35 34 from
35 36 35 35 [
36 37 36 - 0
37 38 37 37 :
38 39 38 - inf
39 40 39 39 )
40 41 - 40 ;
45 42 41 41 parameter
- 43 42 42 real
43 44 43 43 n
44 45 44 44 =
45 46 45 - 1
46 47 47 46 from
47 50 47 47 (
48 49 48 - 0
49 50 49 49 :
50 51 50 - inf
51 52 51 51 )
52 53 54 52 ,
53 54 53 53 rs
54 55 54 54 =
55 56 55 - 0
56 57 57 56 from
57 58 57 57 [
58 59 58 - 0
59 60 59 59 :
60 61 60 - inf
61 62 61 61 )
62 63 - 62 ;
67 64 63 63 parameter
- 65 64 64 real
65 66 65 65 cj
66 67 66 66 =
67 68 67 - 1p
68 69 69 68 from
69 70 69 69 [
70 71 70 - 0
71 72 71 71 :
72 73 72 - inf
73 74 73 73 )
74 75 - 74 ;
76 76 75 75 (*
76 77 76 76 type
77 78 77 77 =
78 79 78 - "instance"
79 80 79 79 *)
84 81 80 80 parameter
- 82 81 81 real
82 83 82 82 area
83 84 83 83 =
84 85 84 - 1
85 86 86 85 from
86 89 86 86 (
87 88 87 - 0
88 89 88 88 :
89 90 89 - inf
90 91 90 90 )
91 92 - 91 ;
93 93 92 92 (*
93 94 93 93 desc
94 95 94 94 =
95 96 95 - "junction current"
96 97 96 96 ,
97 98 97 97 units
98 99 98 98 =
99 100 99 - "A"
100 101 100 100 *)
102 102 101 101 real
102 103 102 102 id
103 104 - 103 ;
105 105 104 104 real
105 106 105 105 q
106 107 - 106 ;
107 108 107 107 analog
141 194 109 108 begin
109 110 110 109 if
110 116 110 110 (
111 112 111 - rs
112 113 112 112 >
113 114 113 - 0
114 115 114 114 )
115 116 116 115 I
116 117 116 116 (
117 118 117 117 a
118 119 118 118 ,
119 120 119 119 ci
120 121 120 120 )
121 122 121 121 <+
124 123 122 123 V
123 126 125 123 (
124 125 124 - a
125 126 125 125 ,
126 127 126 - ci
129 128 127 127 )
128 129 130 128 /
129 130 129 - rs
130 132 - 130 ;
- 132 - 131 else
132 133 133 132 V
133 134 133 133 (
134 135 134 134 a
135 136 135 135 ,
136 137 136 136 ci
137 138 137 137 )
138 139 138 138 <+
139 140 139 - 0
140 - - 140 ;
141 142 142 141 id
142 143 142 142 =
143 144 143 - area
144 145 146 144 *
145 146 145 - is
- 147 147 146 *
164 167 147 148 (
- 149 148 149 limexp
149 167 149 149 (
152 151 150 151 V
151 154 151 151 (
152 153 152 - ci
153 154 153 153 ,
154 155 154 - c
165 166 155 155 )
156 157 156 156 /
164 167 157 158 (
158 159 158 - n
159 160 159 159 *
160 161 160 - $vt
165 166 161 161 )
165 166 162 162 )
163 - 163 163 -
164 165 164 - 1
165 166 165 165 )
166 - - 166 ;
167 168 168 167 q
168 169 168 168 =
169 170 169 - cj
170 171 177 170 *
173 172 171 172 V
172 175 174 172 (
173 174 173 - ci
174 175 174 174 ,
175 176 175 - c
176 177 176 176 )
177 - - 177 ;
178 179 179 178 I
179 180 179 179 (
180 181 180 180 ci
181 182 181 181 ,
182 183 182 182 c
183 184 183 183 )
184 185 184 184 <+
- 186 185 - id
186 - 191 186 +
- 188 187 188 ddt
188 192 190 188 (
- 190 189 - q
190 191 190 190 )
191 - - 191 ;
192 193 193 192 end
193 194 193 193 endmodule"#;

/// The token that a row ends with.
fn token_of(row: &str) -> Result<&str, Fail> {
    let mut rest = row;
    for _ in 0..4 {
        let (_, behind) = rest.split_once(" ").ok_or("a row without a token")?;
        rest = behind;
    }
    Ok(rest)
}

/// Puts a token on the next line of a text.
fn push_line(text: &mut String, token: &str) -> Result<(), AllocError> {
    text.push_str(token)?;
    text.push_str("\n")
}

/// The text with other tokens in place of the one with this number, each token on a line of its own.
fn changed(alloc: Global, number: usize, instead: &[&str]) -> Result<String, Fail> {
    let mut text = String::new(alloc);
    for (index, row) in ROWS.lines().enumerate() {
        if index == number {
            for token in instead {
                push_line(&mut text, token)?;
            }
        } else {
            push_line(&mut text, token_of(row)?)?;
        }
    }
    Ok(text)
}

/// The first bad token of a text by its number, line and column, or `-` where the text has a source.
fn blamed(alloc: Global, text: &str) -> Result<String, Fail> {
    match read(alloc, text)? {
        Reading::Source(_) => Ok("-".to_string(alloc)?),
        Reading::Syntax(at, place) => Ok(format!(in alloc; "{at}:{}:{}", place.line, place.col)?),
        Reading::Size(_) => Err("a fault of size".into()),
    }
}

/// Checks that a text has a source, or that its first bad token is the one with this number, at the front of its line.
fn check(rt: &impl Abort, alloc: Global, text: &str, want: &str) -> Result<(), Fail> {
    let found = blamed(alloc, text)?;
    if want == "-" {
        assert_eq!(rt; found.as_str(), want, "{text}");
    } else {
        let number = want.parse::<u32>().ok().ok_or("no number")?;
        let place = format!(in alloc; "{number}:{}:1", number.saturating_add(1))?;
        assert_eq!(rt; found.as_str(), place.as_str(), "{text}");
    }
    Ok(())
}

/// Checks one change of a token: the first column of a row that is left. Gives the columns behind it.
fn check_column<'a>(
    rt: &impl Abort,
    alloc: Global,
    number: usize,
    instead: &[&str],
    columns: &'a str,
) -> Result<&'a str, Fail> {
    let (want, behind) = columns.split_once(" ").ok_or("a row without a column")?;
    let text = changed(alloc, number, instead)?;
    check(rt, alloc, &text, want)?;
    Ok(behind)
}

#[test]
fn each_token_changed_is_a_sentence_or_blamed(rt: HostRuntime) -> Result<(), Fail> {
    let alloc = rt.alloc();
    for (number, row) in ROWS.lines().enumerate() {
        let token = token_of(row)?;
        let rest = check_column(&rt, alloc, number, &[], row)?;
        let rest = check_column(&rt, alloc, number, &[token, token], rest)?;
        let rest = check_column(&rt, alloc, number, &[";"], rest)?;
        check_column(&rt, alloc, number, &["1"], rest)?;
    }
    Ok(())
}

/// Some file goes on with the tokens before the cut, so of a text that is cut its end is blamed, but of an empty one.
#[test]
fn the_end_of_a_text_that_is_cut_is_blamed(rt: HostRuntime) -> Result<(), Fail> {
    let alloc = rt.alloc();
    let mut text = String::new(alloc);
    for (number, row) in ROWS.lines().enumerate() {
        let want = if number == 0 {
            "-".to_string(alloc)?
        } else {
            format!(in alloc; "{number}")?
        };
        check(&rt, alloc, &text, &want)?;
        push_line(&mut text, token_of(row)?)?;
    }
    check(&rt, alloc, &text, "-")
}
