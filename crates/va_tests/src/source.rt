//! Texts and the source trees that they stand for, worked out by hand. Tokens are counted from 0.
use crate::reading::{Reading, read, refusal};
use crate::shown::shown;
use std::alloc::Global;
use std::process::Abort;
use std::test::Fail;

/// What stands for `x` in the value of `analog x = ..;`, with the index of its first token: 6.
const EXPRESSIONS: &str = r#"a => Name{6,'a'}
1.5 => Literal{6,Decimal{15,-1},false}
2k => Literal{6,Decimal{2,3},false}
1e-6 => Literal{6,Decimal{1,-6},false}
2147483647 => Literal{6,Decimal{2147483647,0},true}
2147483648 => Literal{6,Decimal{2147483648,0},false}
inf => Inf{6}
(a) => Group{6,{Name{7,'a'}}}
-a => Unary{6,Minus,{Name{7,'a'}}}
+!a => Unary{6,Plus,{Unary{7,Not,{Name{8,'a'}}}}}
a - b - c => Binary{6,{Binary{6,{Name{6,'a'}},Subtract,{Name{8,'b'}}}},Subtract,{Name{10,'c'}}}
a + b * c => Binary{6,{Name{6,'a'}},Add,{Binary{8,{Name{8,'b'}},Multiply,{Name{10,'c'}}}}}
a ** b ** c => Binary{6,{Binary{6,{Name{6,'a'}},Power,{Name{8,'b'}}}},Power,{Name{10,'c'}}}
-a ** b => Binary{6,{Unary{6,Minus,{Name{7,'a'}}}},Power,{Name{9,'b'}}}
a || b && c => Binary{6,{Name{6,'a'}},Or,{Binary{8,{Name{8,'b'}},And,{Name{10,'c'}}}}}
a == b != c => Binary{6,{Binary{6,{Name{6,'a'}},Equal,{Name{8,'b'}}}},NotEqual,{Name{10,'c'}}}
a < b <= c => Binary{6,{Binary{6,{Name{6,'a'}},Less,{Name{8,'b'}}}},AtMost,{Name{10,'c'}}}
a > b >= c => Binary{6,{Binary{6,{Name{6,'a'}},Greater,{Name{8,'b'}}}},AtLeast,{Name{10,'c'}}}
a / b % c => Binary{6,{Binary{6,{Name{6,'a'}},Divide,{Name{8,'b'}}}},Remainder,{Name{10,'c'}}}
a ? b : c ? d : e => Choose{6,{Name{6,'a'}},{Name{8,'b'}},{Choose{10,{Name{10,'c'}},{Name{12,'d'}},{Name{14,'e'}}}}}
f() => Call{6,Function,'f',[]}
f(a, 1) => Call{6,Function,'f',[Expr(Name{8,'a'}),Expr(Literal{10,Decimal{1,0},true})]}
$vt => Call{6,System,'$vt',[]}
$vt() => Call{6,System,'$vt',[]}
$simparam("gmin", 1) => Call{6,System,'$simparam',[Text(NameAt{8,'gmin'}),Expr(Literal{10,Decimal{1,0},true})]}
\ab + 1 => Binary{6,{Name{6,'ab'}},Add,{Literal{8,Decimal{1,0},true}}}"#;

/// Statements behind `analog`, which begin at token 4.
const STATEMENTS: &str = r#"; => Null{4}
x = 1; => Assign{4,'x',Literal{6,Decimal{1,0},true}}
I(a) <+ 2; => Contribute{4,'I',NameAt{6,'a'},None,Literal{9,Decimal{2,0},true}}
I(a, b) <+ c; => Contribute{4,'I',NameAt{6,'a'},Some(NameAt{8,'b'}),Name{11,'c'}}
$finish; => Task{4,'$finish',[]}
$strobe(); => Task{4,'$strobe',[]}
$strobe("x", 1); => Task{4,'$strobe',[Text(NameAt{6,'x'}),Expr(Literal{8,Decimal{1,0},true})]}
begin end => Block{4,None,[],[]}
begin ; x = 1; end => Block{4,None,[],[Null{5},Assign{6,'x',Literal{8,Decimal{1,0},true}}]}
begin : b real t; integer u = 1, v; end => Block{4,Some(NameAt{6,'b'}),[Declaration{7,Real,[Variable{NameAt{8,'t'},None}]},Declaration{10,Integer,[Variable{NameAt{11,'u'},Some(Literal{13,Decimal{1,0},true})},Variable{NameAt{15,'v'},None}]}],[]}
if (a) x = 1; => If{4,Name{6,'a'},{Assign{8,'x',Literal{10,Decimal{1,0},true}}},None}
if (a) ; else if (b) ; else ; => If{4,Name{6,'a'},{Null{8}},Some({If{10,Name{12,'b'},{Null{14}},Some({Null{16}})}})}
if (a) if (b) ; else ; => If{4,Name{6,'a'},{If{8,Name{10,'b'},{Null{12}},Some({Null{14}})}},None}
case (x) endcase => Case{4,Name{6,'x'},[],[]}
case (x) 1, 2: ; default: ; default ; 3: ; endcase => Case{4,Name{6,'x'},[CaseItem{8,[Literal{8,Decimal{1,0},true},Literal{10,Decimal{2,0},true}],Null{12}},CaseItem{18,[Literal{18,Decimal{3,0},true}],Null{20}}],[CaseDefault{13,Null{15}},CaseDefault{16,Null{17}}]}
for (i = 0; i < 3; i = j) ; => For{4,Assignment{NameAt{6,'i'},Literal{8,Decimal{0,0},true}},Binary{10,{Name{10,'i'}},Less,{Literal{12,Decimal{3,0},true}}},Assignment{NameAt{14,'i'},Name{16,'j'}},{Null{18}}}
while (x) ; => While{4,Name{6,'x'},{Null{8}}}
repeat (3) ; => Repeat{4,Literal{6,Decimal{3,0},true},{Null{8}}}
@(initial_step) ; => Event{4,InitialStep,[],{Null{8}}}
@(initial_step("ac", "dc")) ; => Event{4,InitialStep,[NameAt{8,'ac'},NameAt{10,'dc'}],{Null{13}}}
@(final_step) ; => Event{4,FinalStep,[],{Null{8}}}"#;

/// Items of a module, which begin at token 3.
const ITEMS: &str = r#"inout a; => Direction{3,Inout,None,[NameAt{4,'a'}]}
input electrical d, e; => Direction{3,Input,Some(NameAt{4,'electrical'}),[NameAt{5,'d'},NameAt{7,'e'}]}
output a, c; => Direction{3,Output,None,[NameAt{4,'a'},NameAt{6,'c'}]}
electrical a, c; => Nodes{3,'electrical',[NameAt{4,'a'},NameAt{6,'c'}]}
branch (a, c) b, d; => Branch{3,NameAt{5,'a'},Some(NameAt{7,'c'}),[NameAt{9,'b'},NameAt{11,'d'}]}
branch (a) e; => Branch{3,NameAt{5,'a'},None,[NameAt{7,'e'}]}
parameter real p = 1, q = 2; => Parameters{3,false,Some(Real),[Parameter{NameAt{5,'p'},Literal{7,Decimal{1,0},true},[]},Parameter{NameAt{9,'q'},Literal{11,Decimal{2,0},true},[]}]}
localparam p = 1; => Parameters{3,true,None,[Parameter{NameAt{4,'p'},Literal{6,Decimal{1,0},true},[]}]}
parameter integer p = 1 from [0:inf) exclude 3 exclude (4) exclude (5:6] exclude [7:8]; => Parameters{3,false,Some(Integer),[Parameter{NameAt{5,'p'},Literal{7,Decimal{1,0},true},[From(Interval{Bound{true,Literal{10,Decimal{0,0},true}},Bound{false,Inf{12}}}),ExcludeValue(Literal{15,Decimal{3,0},true}),ExcludeValue(Literal{18,Decimal{4,0},true}),ExcludeInterval(Interval{Bound{false,Literal{22,Decimal{5,0},true}},Bound{true,Literal{24,Decimal{6,0},true}}}),ExcludeInterval(Interval{Bound{true,Literal{28,Decimal{7,0},true}},Bound{true,Literal{30,Decimal{8,0},true}}})]}]}
parameter p = 1 from (0:1]; => Parameters{3,false,None,[Parameter{NameAt{4,'p'},Literal{6,Decimal{1,0},true},[From(Interval{Bound{false,Literal{9,Decimal{0,0},true}},Bound{true,Literal{11,Decimal{1,0},true}}})]}]}
aliasparam r = p; => Alias{3,NameAt{4,'r'},NameAt{6,'p'}}
real x, y = 2; => Variables(Declaration{3,Real,[Variable{NameAt{4,'x'},None},Variable{NameAt{6,'y'},Some(Literal{8,Decimal{2,0},true})}]})
integer i; => Variables(Declaration{3,Integer,[Variable{NameAt{4,'i'},None}]})
analog ; => Analog{3,Null{4}}
analog function real f; input a, b; real a; integer c; f = a; endfunction => Function{3,Some(Real),NameAt{6,'f'},[Input{8,[NameAt{9,'a'},NameAt{11,'b'}]},Variables{13,Real,[NameAt{14,'a'}]},Variables{16,Integer,[NameAt{17,'c'}]}],Assign{19,'f',Name{21,'a'}}}
analog function f; input a; ; endfunction => Function{3,None,NameAt{5,'f'},[Input{7,[NameAt{8,'a'}]}],Null{10}}"#;

/// Whole texts, some of which are no sentences: those with the first bad token.
const TEXTS: &str = r#" => Source{[],[],[]}
module m; endmodule => Source{[],[],[Module{[],1,'m',[],[]}]}
module m(); endmodule module n(a, b); endmodule => Source{[],[],[Module{[],1,'m',[],[]},Module{[],7,'n',[NameAt{9,'a'},NameAt{11,'b'}],[]}]}
nature V; units = "V"; access = V; endnature => Source{[Nature{[],1,'V',None,[NatureItem{3,'units',Text(NameAt{5,'V'})},NatureItem{7,'access',Expr(Name{9,'V'})}]}],[],[]}
nature Q : V abstol = 1; endnature => Source{[Nature{[],1,'Q',Some(NameAt{3,'V'}),[NatureItem{4,'abstol',Expr(Literal{6,Decimal{1,0},true})}]}],[],[]}
nature N endnature => Source{[Nature{[],1,'N',None,[]}],[],[]}
discipline d potential V; flow I; domain continuous; enddiscipline => Source{[],[Discipline{[],1,'d',[Binding{2,Potential,NameAt{3,'V'}},Binding{5,Flow,NameAt{6,'I'}},Domain{8,NameAt{9,'continuous'}}]}],[]}
discipline d; potential.abstol = 1; flow.units = "A"; enddiscipline => Source{[],[Discipline{[],1,'d',[Override{3,Potential,NameAt{5,'abstol'},Expr(Literal{7,Decimal{1,0},true})},Override{9,Flow,NameAt{11,'units'},Text(NameAt{13,'A'})}]}],[]}
(* a, b = "t" *) (* c = 1 *) module m; endmodule => Source{[],[],[Module{[AttributeGroup{[Attribute{1,'a',None},Attribute{3,'b',Some(Text(NameAt{5,'t'}))}]},AttributeGroup{[Attribute{8,'c',Some(Expr(Literal{10,Decimal{1,0},true}))}]}],13,'m',[],[]}]}
module m; (* a *) real x; endmodule => Source{[],[],[Module{[],1,'m',[],[Item{[AttributeGroup{[Attribute{4,'a',None}]}],Variables(Declaration{6,Real,[Variable{NameAt{7,'x'},None}]})}]}]}
module m; endmodule nature N endnature discipline d enddiscipline module n; endmodule => Source{[Nature{[],5,'N',None,[]}],[Discipline{[],8,'d',[]}],[Module{[],1,'m',[],[]},Module{[],11,'n',[],[]}]}
module m; analog x = 3 + ; endmodule => Syntax 8
module m; parameter p = 1 exclude (1) + 2; endmodule => Syntax 11
module m; => Syntax 3
x => Syntax 0"#;

/// The source of a text as a row writes it, or its first bad token.
fn answer(alloc: Global, text: &str) -> Result<String, Fail> {
    let reading = read(alloc, text)?;
    match &reading {
        Reading::Source(source) => shown(alloc, source),
        _ => refusal(alloc, &reading),
    }
}

/// Checks rows whose texts stand between `before` and `after`, and their trees between `open` and `close`.
fn check(
    rt: &impl Abort,
    alloc: Global,
    rows: &str,
    around: [&str; 2],
    brackets: [&str; 2],
) -> Result<(), Fail> {
    for row in rows.lines() {
        let (text, want) = row.split_once(" => ").ok_or("a row without a tree")?;
        let whole = format!(in alloc; "{} {text} {}", around[0], around[1])?;
        let tree = format!(in alloc; "{}{want}{}", brackets[0], brackets[1])?;
        let found = answer(alloc, &whole)?;
        assert_eq!(rt; found.as_str(), tree.as_str(), "{text}");
    }
    Ok(())
}

#[test]
fn texts_stand_for_their_sources(rt: HostRuntime) -> Result<(), Fail> {
    let alloc = rt.alloc();
    check(&rt, alloc, TEXTS, ["", ""], ["", ""])?;
    check(
        &rt,
        alloc,
        ITEMS,
        ["module m;", "endmodule"],
        ["Source{[],[],[Module{[],1,'m',[],[Item{[],", "}]}]}"],
    )?;
    check(
        &rt,
        alloc,
        STATEMENTS,
        ["module m; analog", "endmodule"],
        [
            "Source{[],[],[Module{[],1,'m',[],[Item{[],Analog{3,",
            "}}]}]}",
        ],
    )?;
    check(
        &rt,
        alloc,
        EXPRESSIONS,
        ["module m; analog x =", "; endmodule"],
        [
            "Source{[],[],[Module{[],1,'m',[],[Item{[],Analog{3,Assign{4,'x',",
            "}}}]}]}",
        ],
    )
}
