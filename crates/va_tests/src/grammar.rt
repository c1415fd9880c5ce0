//! Sentences of the grammar and texts that are none.
use crate::reading::{expanded, parsed, read, refusal};
use predict::ParseTree;
use std::alloc::Global;
use std::process::Abort;
use std::test::Fail;
use va_grammar::row::{ELSE, EXCLUDED_SINGLE, EXCLUDED_TO, NO_ELSE};

/// How many rows the grammar has.
const ROWS: usize = 173;

/// Sentences that meet each row of the grammar, one a line. The first is empty.
const SENTENCES: &str = r#"
(* a , b = "text" , c = 1 *) (* d *) nature N endnature
nature Voltage ; units = "V" ; access = V ; abstol = 1e-6 ; endnature
nature Charge : Voltage abstol = 1 ; endnature
discipline electrical potential Voltage ; flow Current ; domain continuous ; enddiscipline
discipline other ; potential . abstol = 1e-6 ; enddiscipline
module m ; endmodule
module m ( ) ; endmodule module n ( a ) ; endmodule
module m ( a , c ) ; inout a , c ; electrical a , c ; input electrical d , e ; output f ; endmodule
module m ; branch ( a , c ) b , d ; branch ( a ) e ; endmodule
module m ; (* desc = "current" *) parameter real p = 1 , q = 2 from [ 0 : inf ) exclude 3 exclude ( 1 : 2 ] ; endmodule
module m ; parameter integer p = 1 exclude [ 1 : 2 ) from ( 0 : 1 ] exclude ( 4 ) ; endmodule
module m ; parameter p = - 1 ; localparam real q = 1 ; aliasparam r = p ; real x , y = 2 ; integer i ; endmodule
module m ; analog function real f ; input a , b ; real a , b ; integer c ; f = a ; endfunction endmodule
module m ; analog function f ; input a ; begin f = 1 ; end endfunction endmodule
module m ; analog begin : local real t ; integer u = 1 ; ; x = 1 ; end endmodule
module m ; analog if ( a ) x = 1 ; else if ( b ) x = 2 ; else x = 3 ; endmodule
module m ; analog if ( a ) ; analog if ( b ) begin end endmodule
module m ; analog case ( x ) 1 , 2 : ; default : ; default ; endcase endmodule
module m ; analog case ( x ) endcase endmodule
module m ; analog for ( i = 0 ; i < 3 ; i = i + 1 ) x = i ; endmodule
module m ; analog begin while ( x ) ; repeat ( 3 ) ; end endmodule
module m ; analog begin @ ( initial_step ) ; @ ( initial_step ( "ac" , "dc" ) ) ; @ ( final_step ) ; end endmodule
module m ; analog begin $finish ; $strobe ( ) ; $strobe ( "x" , 1 ) ; end endmodule
module m ; analog begin I ( a , c ) <+ 1 ; I ( b ) <+ 1 ; end endmodule
module m ; analog x = a ? b : c ? d : e ; endmodule
module m ; analog x = a || b && c == d != e < f <= g > h >= i + j - k * l / m % n ** o ; endmodule
module m ; analog x = + - ! ( inf ) ; endmodule
module m ; analog x = f ( ) + f ( 1 ) + $vt + $simparam ( "gmin" , 1 ) ; endmodule"#;

/// Two natures, a discipline and a module of that discipline.
const DIODE: &str = r#"
nature Voltage units = "V" ; access = V ; abstol = 1e-6 ; endnature
nature Current units = "A" ; access = I ; abstol = 1e-12 ; endnature
discipline electrical potential Voltage ; flow Current ; enddiscipline
module diode ( a , c ) ;
inout a , c ;
electrical a , c , ci ;
(* desc = "saturation_current" , units = "A" *) parameter real is = 1e-14 from [ 0 : inf ) ;
parameter real n = 1 from ( 0 : inf ) , rs = 0 from [ 0 : inf ) ;
parameter real cj = 1p from [ 0 : inf ) ;
(* type = "instance" *) parameter real area = 1 from ( 0 : inf ) ;
(* desc = "junction_current" , units = "A" *) real id ;
real q ;
analog begin
  if ( rs > 0 ) I ( a , ci ) <+ V ( a , ci ) / rs ; else V ( a , ci ) <+ 0 ;
  id = area * is * ( limexp ( V ( ci , c ) / ( n * $vt ) ) - 1 ) ;
  q = cj * V ( ci , c ) ;
  I ( ci , c ) <+ id + ddt ( q ) ;
end
endmodule
"#;

/// The parse tree of a sentence.
fn tree_of(alloc: Global, text: &str) -> Result<ParseTree, Fail> {
    let expanded = expanded(alloc, text)?;
    match parsed(alloc, &expanded)? {
        Ok(tree) => Ok(tree),
        Err(at) => {
            let refused = format!(in alloc; "refused at {at}: {text}")?;
            Err(refused.as_str().into())
        }
    }
}

/// Marks the rows of a sentence's nodes.
fn mark_rows(alloc: Global, text: &str, met: &mut [bool]) -> Result<(), Fail> {
    let tree = tree_of(alloc, text)?;
    for node in tree.nodes() {
        *met.get_mut(node.row as usize).ok_or("no such row")? = true;
    }
    Ok(())
}

#[test]
fn each_row_is_met_by_a_sentence(rt: HostRuntime) -> Result<(), Fail> {
    let alloc = rt.alloc();
    let mut met = [false; ROWS];
    for text in SENTENCES.lines() {
        mark_rows(alloc, text, &mut met)?;
    }
    for (row, seen) in met.iter().enumerate() {
        assert!(rt; *seen, "row {row} is not met");
    }
    mark_rows(alloc, DIODE, &mut met)
}

/// Texts that are no sentences, one a line, with a `^` in front of the first bad token.
const FAULTS: &str = r#"^ endmodule
module m ; endmodule ^ ;
module m ( a ^ c ) ; endmodule
module m ^ endmodule
module m ; ^
module ^ module
nature N ^ "V"
nature N abstol ^ ; endnature
discipline d domain continuous ^ enddiscipline
discipline d potential ^ = 1 ; enddiscipline
(* ^ *) module m ; endmodule
(* a *) ^
module m ; electrical ^ ; endmodule
module m ; branch ( a , c ) ^ ; endmodule
module m ; parameter real ^ from ( 0 : 1 ) ; endmodule
module m ; parameter real p = 1 from ( 0 ^ , 1 ) ; endmodule
module m ; parameter real p = 1 from ^ 1 ; endmodule
module m ; parameter real p = 1 exclude ( 1 ) ^ + 2 ; endmodule
module m ; parameter real p = 1 exclude ( 1 ) ^ ? 2 : 3 ; endmodule
module m ; parameter real p = 1 exclude ( 1 : 2 ^ ; endmodule
module m ; parameter real p = 1 exclude [ 1 ^ ] ; endmodule
module m ; aliasparam a = ^ 1 ; endmodule
module m ; analog x = 3 + ^ ; endmodule
module m ; analog ^
module m ; analog x = 1 ^ . ; endmodule
module m ; analog x = ^ . 5 ; endmodule
module m ; analog x = ( 1 ^ ; endmodule
module m ; analog x = f ( 1 , ^ ) ; endmodule
module m ; analog x = a ? b ^ ; endmodule
module m ; analog x = 1 ^ 2 ; endmodule
module m ; analog x = ^ "s" ; endmodule
module m ; analog x ^ + 1 ; endmodule
module m ; analog x ( a ) ^ = 1 ; endmodule
module m ; analog x ( a , c ^ , d ) <+ 1 ; endmodule
module m ; analog if ( 1 ) ; else ; ^ else ; endmodule
module m ; analog if ( 1 ) ^ else ; endmodule
module m ; analog begin real x ; x = 1 ; ^ real y ; end endmodule
module m ; analog begin x = 1 ; ^ endmodule
module m ; analog case ( x ) default : ^ endcase endmodule
module m ; analog for ( i = 0 ^ , i < 3 ; i = 1 ) ; endmodule
module m ; analog @ ( ^ timer ) ; endmodule
module m ; analog @ ( initial_step ( ^ ) ) ; endmodule
module m ; analog function real f ^ input a ; f = 1 ; endfunction endmodule
module m ; analog function real f ; f = 1 ; ^ endmodule"#;

#[test]
fn the_first_bad_token_is_blamed(rt: HostRuntime) -> Result<(), Fail> {
    let alloc = rt.alloc();
    for row in FAULTS.lines() {
        let (front, back) = row.split_once('^').ok_or("a row without a mark")?;
        let text = format!(in alloc; "{front}{back}")?;
        let want = format!(in alloc; "Syntax {}", front.split_whitespace().count())?;
        let found = refusal(alloc, &read(alloc, &text)?)?;
        assert_eq!(rt; found.as_str(), want.as_str(), "{row}");
    }
    Ok(())
}

/// Checks the rows of a sentence's nodes, in pre-order, as far as they are among these two.
fn check_rows(
    rt: &impl Abort,
    alloc: Global,
    text: &str,
    among: [u16; 2],
    want: [u16; 2],
) -> Result<(), Fail> {
    let mut found = Vec::new(alloc);
    let tree = tree_of(alloc, text)?;
    for node in tree.nodes() {
        if among.contains(&node.row) {
            found.push(node.row)?;
        }
    }
    assert_eq!(rt; found.as_slice(), want.as_slice(), "{text}");
    Ok(())
}

/// An `else` belongs to the nearest `if`, and a value in parentheses is no interval. The outer of two nodes stands first.
#[test]
fn rows_that_share_a_beginning_are_told_apart(rt: HostRuntime) -> Result<(), Fail> {
    let alloc = rt.alloc();
    let nested = "module m; analog if (a) if (b) ; else ; endmodule";
    check_rows(&rt, alloc, nested, [ELSE, NO_ELSE], [ELSE, NO_ELSE])?;
    let excluded = "module m; parameter p = 1 exclude (a) exclude (a : b); endmodule";
    let kinds = [EXCLUDED_SINGLE, EXCLUDED_TO];
    check_rows(&rt, alloc, excluded, kinds, kinds)
}
