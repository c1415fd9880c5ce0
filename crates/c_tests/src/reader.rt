//! Whole files that are read and printed again, and texts that are no C file.
use crate::marked::{LENGTH_LIMIT, changed};
use crate::syntax::written_fault;
use c_print::print;
use c_reader::read;
use c_runs::{diode, inductor, power, resistor};
use c_tables::tables;
use c_tree::CFile;
use std::alloc::Global;
use std::test::Fail;

const RESISTOR_TABLES: &str = "module resistor
ports 2
node 0 a \"V\" \"A\"
node 1 c \"V\" \"A\"
entry 0 0 r
entry 0 1 r
entry 1 0 r
entry 1 1 r
param 0 r real model \"\" \"Ohm\"
";

const DIODE_TABLES: &str = "module diode
ports 2
node 0 a \"V\" \"A\"
node 1 c \"V\" \"A\"
node 2 ai \"V\" \"A\"
entry 0 0 r
entry 0 2 r
entry 1 1 rx
entry 1 2 rx
entry 2 0 r
entry 2 1 rx
entry 2 2 rx
collapse 0 2
param 0 is real instance \"saturation current\" \"A\"
alias 0 js
param 1 rs real model \"\" \"Ohm\"
opvar 2 id real \"\" \"A\"
";

const INDUCTOR_TABLES: &str = "module inductor
ports 2
node 0 a \"V\" \"A\"
node 1 c \"V\" \"A\"
node 2 flow(a,c) \"A\" \"V\"
entry 0 2 r
entry 1 2 r
entry 2 0 r
entry 2 1 r
entry 2 2 x
param 0 l real model \"\" \"H\"
";

const POWER_TABLES: &str = "module power
ports 1
node 0 p \"V\" \"A\"
entry 0 0 r
param 0 n integer model \"degree\" \"\"
";

/// The file of a text.
fn file_of_text(alloc: Global, text: &str) -> Result<CFile, Fail> {
    if text.len() >= LENGTH_LIMIT {
        return Err(Fail::from("a long text"));
    }
    match read(alloc, text.as_bytes()) {
        Ok(file) => Ok(file),
        Err(_) => Err(Fail::from("no file")),
    }
}

/// How many statements the bodies of the last module have: the model's set-up, the instance's, the evaluation, and the functions.
fn lengths(alloc: Global, file: &CFile) -> Result<String, Fail> {
    let m = file.modules.as_list().last().ok_or("no module")?;
    let mut row = format!(in alloc;
        "{} {} {}",
        m.setup_model.as_list().len(),
        m.setup_instance.as_list().len(),
        m.eval.as_list().len()
    )?;
    for function in m.functions.as_list() {
        row.push_str(&format!(in alloc; " {}", function.body.as_list().len())?)?;
    }
    Ok(row)
}

#[test]
fn files_are_read_and_printed_again(rt: HostRuntime) -> Result<(), Fail> {
    let rows = [
        (resistor::text(), RESISTOR_TABLES, "8 1 15"),
        (diode::text(), DIODE_TABLES, "13 8 48"),
        (inductor::text(), INDUCTOR_TABLES, "5 1 20"),
        (power::text(), POWER_TABLES, "5 1 11 13 0"),
    ];
    for (text, want, counts) in rows {
        let file = file_of_text(rt.alloc(), text)?;
        let found = tables(rt.alloc(), &file)?;
        assert!(rt; found.as_slice() == want.as_bytes());
        let again = print(rt.alloc(), &file)?;
        assert!(rt; again.as_slice() == text.as_bytes());
        let found = lengths(rt.alloc(), &file)?;
        assert!(rt; found.as_str() == counts);
    }
    Ok(())
}

/// What reading answers.
fn answer_of(alloc: Global, text: &str) -> Result<String, Fail> {
    if text.len() >= LENGTH_LIMIT {
        return Err(Fail::from("a long text"));
    }
    match read(alloc, text.as_bytes()) {
        Ok(_) => Ok("file".to_string(alloc)?),
        Err(fault) => written_fault(alloc, fault),
    }
}

/// Changes of the diode, each with a mark at the least token at which a rule of form is broken.
const CHANGES: &str = "static uint32_t eval_0 => static uint32_t @eval_1
double q1 ; => double @q0 ;
inst -> q1 = v23 => inst -> @q9 = v23
const double v8 = - v5 => const double v8 = - @v25
v4 = 0e0 ; => v4 = 0e0 ; @v4 = 0e0 ;
const int32_t v6 = inst => const double v6 = @inst
v11 = exp ( v10 ) => v11 = @fn_0_0 ( v10 )
inst -> r0 = v4 => inst -> @p0 = v4
.num_terminals = 2u => .num_terminals = @4u
const uint32_t OSDI_NUM_DESCRIPTORS = 1u => const uint32_t OSDI_NUM_DESCRIPTORS = @2u
inst -> col [ 0u ] = v1 => inst -> col [ @1u ] = v1";

#[test]
fn least_tokens_that_break_a_rule(rt: HostRuntime) -> Result<(), Fail> {
    let alloc = rt.alloc();
    for row in CHANGES.lines() {
        let marked = changed(alloc, diode::text(), row)?;
        let token = marked.token.ok_or("a row without a mark")?;
        let found = answer_of(alloc, marked.text.as_str())?;
        let want = format!(in alloc; "form {token}")?;
        assert!(rt; found.as_str() == want.as_str(), "{row}");
    }
    Ok(())
}

/// The text of the file with the `for`, whose loop has no `break`.
fn endless(alloc: Global) -> Result<String, Fail> {
    let text = power::text();
    let (before, after) = text
        .split_once("if ( ! v2 ) {\nbreak ;\n}\n")
        .ok_or("no break")?;
    Ok(format!(in alloc; "{before}{after}")?)
}

#[test]
fn bytes_come_before_tokens_and_tokens_before_form(rt: HostRuntime) -> Result<(), Fail> {
    let alloc = rt.alloc();
    let broken = endless(alloc)?;
    assert!(rt;
        answer_of(alloc, broken.as_str())?
            .as_str()
            .starts_with("form ")
    );
    let bad = format!(in alloc; "{}x", broken.as_str())?;
    assert!(rt;
        answer_of(alloc, bad.as_str())?
            .as_str()
            .starts_with("token ")
    );
    let worse = format!(in alloc; "{}@", bad.as_str())?;
    let want = format!(in alloc; "byte {}", bad.len())?;
    assert!(rt; answer_of(alloc, worse.as_str())?.as_str() == want.as_str());
    assert!(rt; answer_of(alloc, "")?.as_str() == "token 0");
    Ok(())
}
