//! Texts and what they expand to, worked out by hand.
use crate::expansion::{answer_to, expansion_of, files_of};
use std::alloc::Global;
use std::test::Fail;
use va_base::Expanded;

/// Texts, and after ` =>` the words that they expand to, or the fault.
const ROWS: &str = r#"`define A 1 + 2|x = `A;| => x = 1 + 2 ;
`__VAMS_ENABLE__ x `__VAMS_COMPACT_MODELING__| => x
`define D(x) V(a, c) / x|<+ `D(r);| => <+ V ( a , c ) / r ;
`define MAX2(x, y) ((x) > (y) ? (x) : (y))|`MAX2(min(1, 2), `MAX2(3, 4))| => ( ( min ( 1 , 2 ) ) > ( ( ( 3 ) > ( 4 ) ? ( 3 ) : ( 4 ) ) ) ? ( min ( 1 , 2 ) ) : ( ( ( 3 ) > ( 4 ) ? ( 3 ) : ( 4 ) ) ) )
`define R(x, y) x y|`R([0:inf), f[(a,b),c])| => [ 0 : inf ) f [ ( a , b ) , c ]
`define O(x) [x]|`O(])| => [ ] ]
`define P(x, y) y x|`P((*a, b*))| => b *) (* a
`define O(x) [x]|`O()| => [ ]
`define O(x) [x]|`O|(1|2)| => [ 1 2 ]
`define P(x, y) y x|`define Q(x, y) x y|`P(x, 2) `Q(y, 1)| => 2 x y 1
`define G(x) <x>|`define F(x) `G(x)|`F(7)| => < 7 >
`define \A 1|`define B(x) \x|`A `B(2)| => 1 2
`define A (x) y|`A| => ( x ) y
`define A(*x*) y|`A| => (* x *) y
`define A 1|`define A(x) x 2|`A(3)| => 3 2
`define A `B|`define B 1|`A|`define B 2|`A| => 1 2
`define A 1|`undef A 2|`undef A 3| => 2 3
`define K(x) 1|`K(')| => 1
`define A ' `include `B| =>
`timescale 1 ' `define|x| => x
a b|c 'd| => m.va:2:3: BadToken
a|b "c| => m.va:2:3: BadToken
`define A 1 '| `A| => m.va:2:2: BadToken
x `NO| => m.va:1:3: UnknownMacro
`define A `NO|`A| => m.va:2:1: UnknownMacro
`define K(x) 1|`K(`NO)| => m.va:2:1: UnknownMacro
`define P(x, y) y x|`P(', `NO)| => m.va:2:1: UnknownMacro
`define A 1|`undef A|`A| => m.va:3:1: UnknownMacro
`define O(x) [x]|x `O 1| => m.va:2:3: MacroArgs
`define O(x) [x]|`O| => m.va:2:1: MacroArgs
`define O(x) [x]|`O(*1*)| => m.va:2:1: MacroArgs
`define O(x) [x]|`O((1)| => m.va:2:1: MacroArgs
`define O(x) [x]|`O(1, 2)| => m.va:2:1: MacroArgs
`define P(x, y) y x|`P()| => m.va:2:1: MacroArgs
`define D(x) `E x|`define E(x) x|`D((1))| => m.va:3:1: MacroArgs
`include "b.h"|1)|@@b.h `define O(x) [x]|`O(| => b.h:2:1: MacroArgs
`define A `B|`define B `A|real x;|analog x = `A;| => m.va:4:12: MacroSelf
`define G(x) x|`define F(x) `G(`F(1))|`F(2)| => m.va:3:1: MacroSelf
`define A `A `NO|`A| => m.va:2:1: MacroSelf
`define A `undef A|`A| => m.va:2:1: Directive
`define K(x) 1|`K(1|`timescale)| => m.va:2:1: Directive
x `define| => m.va:1:3: Directive
`define 1| => m.va:1:1: Directive
`define include 1| => m.va:1:1: Directive
`define timescale| => m.va:1:1: Directive
`define \define 1| => m.va:1:1: Directive
`define A() 1| => m.va:1:1: Directive
`define A(1) 1| => m.va:1:1: Directive
`define A(x, y, x) 1| => m.va:1:1: Directive
`define A(x y) 1| => m.va:1:1: Directive
`define A(x,) 1| => m.va:1:1: Directive
`define A(x, y|) 1| => m.va:1:1: Directive
`undef|A| => m.va:1:1: Directive
`undef define| => m.va:1:1: Directive
`include b| => m.va:1:1: Directive
`include|"b.h"| => m.va:1:1: Directive
`ifdef NOPE|it's "odd|`endif|x| => x
`define A|`ifdef A 1|`elsif A 2|`else 3|`endif 4| => 1 4
`define A|`ifdef B 1|`elsif A 2|`elsif A 3|`else 4|`endif| => 2
`ifdef B 1|`elsif C 2|`else 3|`endif| => 3
`ifndef B 1|`else 2|`endif| => 1
`ifdef B|`ifndef C 1|`elsif C 2|`else 3|`endif 4|`else 5|`endif| => 5
`ifdef B|`define C `endif|x| => x
`define C `endif|x| => x
`ifdef B|`define define `include `undef `NO|`endif|x| => x
`ifdef __VAMS_ENABLE__|x|`endif| => x
`elsif| => m.va:1:1: Conditional
x `else| => m.va:1:3: Conditional
`ifdef A|`endif `endif| => m.va:2:8: Conditional
`ifdef A|`else|`else| => m.va:3:1: Conditional
`ifdef A|`else|`elsif A| => m.va:3:1: Conditional
`ifdef|A| => m.va:1:1: Conditional
`ifndef 1| => m.va:1:1: Conditional
`ifdef A|`ifdef|`endif| => m.va:2:1: Conditional
`ifndef A|`elsif|`endif| => m.va:2:1: Conditional
`ifdef A|`ifdef B|`else|`else| => m.va:4:1: Conditional
`ifdef A|`endif| `ifdef A|x `elsif B|`else| => m.va:3:2: Conditional
`ifdef A| `ifndef B| => m.va:2:2: Conditional
`ifndef A|`include "b.h"|`endif|@@b.h x `endif| => b.h:1:3: Conditional
`include "b.h"|`endif|@@b.h `ifdef A| => b.h:1:1: Conditional
a `include "b.h" c|`B d|@@b.h `define B b|`B| => a b c b d
`ifdef B|`include "gone.h"|`endif|x| => x
`include "gone.h"| => m.va:1:1: MissingInclude
`define A 1 \|2|x `A| => x 1 2
`define A /* c|d */ 1|`A| => 1
`define L(x) ln(x) // log|`L(2)| => ln ( 2 )
`define C(x) x && x <= 2 ** 3|`C(a)| => a && a <= 2 ** 3
`define S(x) $strobe("%g", x)|`S(a)| => $strobe ( "%g" , a )
`define S(x) "x"|`S(a)| => "x"
`define F(x) x `x|`define x 1|`F(2)| => 2 1
`define F(a) `G(a)|`define G(b) [b a]|`F(1)| => [ 1 a ]
`define F(x) <x>|`F(`F(1))| => < < 1 > >
`define F(x) x|`define G(x) `F(x) x|`G(`G(1))| => 1 1 1 1
`define P(a, b) a b|`P(1,)| => 1
`define P(a, b) a b|`P(, 2)| => 2
`define P(a, b) a b|`P((1, 2), [3, 4])| => ( 1 , 2 ) [ 3 , 4 ]
`define A B|`define B 1|A `A| => A B
`define A 1|`define A 2|`A| => 2
`define A 1|`ifdef N|`undef A|`endif|`A| => 1
`define A|`ifdef A|`ifdef B|1|`else|2|`endif|`endif| => 2
`define A 1|`ifdef A `A `else 2 `endif 3| => 1 3
`ifndef A|`define A 1|`endif `A| => 1
`ifdef A `define B|`else `define B 2|`endif `B| => 2
`ifdef A|1|`elsif A|2|`endif| =>
`define A|`ifndef A 1|`elsif B 2|`elsif A 3|`endif| => 3
`define A|`ifdef A|1|`elsif A|`NO '|`else|`include "gone.h"|`endif| => 1
`resetall|`default_nettype none|`begin_keywords "1800-2009"|x| => x
x ` A| => m.va:1:3: BadToken
`define A 1e10000|`A| => m.va:2:1: BadToken
x /* never| => m.va:1:3: BadToken
`define O(x) x|`define Y 5|`O(`Y) `O `Y| => m.va:3:8: MacroArgs
`define P(a, b) a b|`P(1, 2, 3)| => m.va:2:1: MacroArgs
`define A `ifdef B|`A| => m.va:2:1: Directive
(|`define| => m.va:2:1: Directive
`include <b.h>| => m.va:1:1: Directive
`include ""| => m.va:1:1: MissingInclude
x `include "b.h"|@@b.h y|  `include "c.h"| => b.h:2:3: MissingInclude
`include "b.h"|`A|@@b.h `define A `A| => m.va:2:1: MacroSelf
`include "b.h"|`B|@@b.h `define B 7| => 7
`include "b.h" 'x|@@b.h z| => m.va:1:16: BadToken
`define A 1|`include "b.h"|`A|@@b.h `undef A|`define A 2| => 2
`include "b.h"|`include "b.h"|@@b.h `ifndef B|`define B|b|`endif| => b
`ifdef A|`include "b.h"|`else|`include "c.h"|`endif|@@c.h c| => c"#;

/// Texts in the same form, and the files, lines and columns of the tokens that they expand to, that of the end included.
const PLACES: &str = r#"`define A 1 + 2|x = `A;| => 0.2.1 0.2.3 0.2.5 0.2.5 0.2.5 0.2.7 0.3.1
`define O(x) [x]| `O(1| 2) 3| => 0.2.2 0.2.2 0.2.2 0.2.2 0.3.5 0.4.1
`define A 1|`define B `A `A|  `B| => 0.3.3 0.3.3 0.4.1
`include "b.h" x|y|@@b.h  b| => 1.1.2 0.1.16 0.2.1 0.3.1
`include "b.h" `B|@@b.h `define B 1|c| => 1.2.1 0.1.16 0.2.1
`include "b.h"|`include "b.h"|x|@@b.h b| => 1.1.1 2.1.1 0.3.1 0.4.1
`include "b.h"|@@b.h `include "c.h"|b|@@c.h c| => 2.1.1 1.2.1 0.2.1
`ifdef A|1|`else 2|`endif 3| => 0.3.7 0.4.8 0.5.1
x => 0.1.1 0.1.2
 => 0.1.1"#;

/// The places of a text after expansion.
fn places_of(alloc: Global, text: &Expanded) -> Result<String, Fail> {
    let mut row = String::new(alloc);
    for token in text.tokens.as_list() {
        if !row.is_empty() {
            row.push(' ')?;
        }
        let place = token.place;
        let written = format!(in alloc; "{}.{}.{}", place.file, place.line, place.col)?;
        row.push_str(&written)?;
    }
    Ok(row)
}

#[test]
fn texts_expand_as_worked_out(rt: HostRuntime) -> Result<(), Fail> {
    let alloc = rt.alloc();
    for row in ROWS.lines() {
        let (text, want) = row.split_once(" =>").ok_or("a row without an answer")?;
        let found = answer_to(alloc, text)?;
        assert_eq!(rt; found.as_str(), want.trim(), "{row}");
    }
    Ok(())
}

/// A token from a macro has the place of the outermost use.
#[test]
fn tokens_have_their_places(rt: HostRuntime) -> Result<(), Fail> {
    let alloc = rt.alloc();
    for row in PLACES.lines() {
        let (text, want) = row.split_once(" =>").ok_or("a row without places")?;
        let answer = expansion_of(alloc, files_of(alloc, text)?, "m.va", 0)?;
        let found = places_of(alloc, &answer.ok().ok_or("refused")?)?;
        assert_eq!(rt; found.as_str(), want.trim(), "{row}");
    }
    Ok(())
}
