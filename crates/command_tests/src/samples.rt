//! Texts that commands are run on, and tables that they have.

/// A resistor.
pub(crate) const RESISTOR: &str =
    "module m(a, c); inout a, c; electrical a, c; parameter real r = 1; analog I(a, c) <+ V(a, c) / r; endmodule";

/// A resistor that reads a name which is not declared.
pub(crate) const UNDECLARED: &str =
    "module m(a, c); inout a, c; electrical a, c; parameter real r = 1; analog I(a, c) <+ V(a, c) / q; endmodule";

/// The disciplines of a circuit, as a header file.
pub(crate) const DISCIPLINES: &str = "nature Voltage
units = \"V\"; access = V; abstol = 1e-6;
endnature
nature Current
units = \"A\"; access = I; abstol = 1e-12;
endnature
discipline electrical
potential Voltage; flow Current;
enddiscipline
// end
";

/// Texts with their macros, conditional text and includes. A row has the command and, behind `>`, the line that it ends with,
/// none where it writes its output; then, behind each `@`, a file's name, `:` and the file. `r.h` has the resistor, and
/// `disc.h` the disciplines. Rows are parted by `~`.
pub(crate) const TEXTS: &str = "compile m.va>@m.va:`include \"r.h\"
~compile m.va>@m.va:`define D(x) V(a, c) / x
module m(a, c); inout a, c; electrical a, c; parameter real r = 1; analog I(a, c) <+ `D(r); endmodule
~compile m.va>@m.va:// the first form
`ifdef __VAMS_ENABLE__ `include \"r.h\"
`else `NO ' \"
`endif
~compile m.va>@m.va:`define MODULE module m
`timescale 1ns / 1ns
`MODULE (a, c); `include \"ports.h\" ; parameter real r = 1_0; analog I(a, c) <+ V(a, \\c ) / r; endmodule
@ports.h:inout a, c; electrical a, c
~compile d/m.va>@d/m.va:`include \"e/b.h\"
@d/e/b.h:`include \"/r.h\"
@/r.h:`include \"c.h\"
@/c.h:module m(a, c); inout a, c; electrical a, c; analog I(a, c) <+ V(a, c); endmodule
~compile m.va>m.va:2:1: Unbuilt@m.va:
~compile m.va>m.va:3:2: Unbuilt@m.va:

 ~compile m.va>m.va:3:4: Unbuilt@m.va:// a comment
/* and
*/ module m(a, c); endmodule
~compile m.va>disc.h:1:1: Unbuilt@m.va:`include \"disc.h\"
module m(a, c);
inout a, c;
electrical a, c;
analog I(a, c) <+ 0;
endmodule
~compile d/m.va>d/e/b.h:2:2: Syntax@d/m.va:`include \"e/b.h\"
@d/e/b.h:
 endmodule
~compile m.va>m.va:3:2: Unbuilt@m.va:`include \"word.h\"

 `WORD m; endmodule
@word.h:`define WORD module
~compile m.va>m.va:2:1: Unbuilt@m.va:`include \"disc.h\" `include \"r.h\"
@disc.h:
@r.h:// nothing
~compile m.va>m.va:1:1: Conditional@m.va:`elsif
~compile m.va>b.h:1:3: Conditional@m.va:`include \"b.h\"
@b.h:x `endif
~compile m.va>m.va:6:12: BadToken@m.va:`include \"disc.h\"
module m(a, c);
inout a, c;
electrical a, c;
real x;
analog x = 1e10000;
endmodule
~compile m.va>m.va:8:12: MacroSelf@m.va:`include \"disc.h\"
module m(a, c);
inout a, c;
electrical a, c;
`define A `B
`define B `A
real x;
analog x = `A;
endmodule
~compile m.va>m.va:1:3: UnknownMacro@m.va:x `NO
~compile m.va>m.va:2:1: MacroArgs@m.va:`define O(x) x
`O(1, 2)
~compile m.va>m.va:1:1: Directive@m.va:`define define 1
~compile m.va>m.va:1:1: MissingInclude@m.va:`include \"gone.h\"
~compile m.va>d/b.h:2:3: MissingInclude@m.va:`include \"d/b.h\"
@d/b.h:
  `include \"m.va\"
~compile m.va>m.va:1:1: IncludeDeep@m.va:`include \"m.va\"
";

/// A C file without modules that tells of one.
pub(crate) const ONE_MISSING: &str = r##"#include "osdi_0_3.h"
#include <math.h>
#include <stddef.h>
#include <stdint.h>
#include <stdlib.h>
static void init_error ( OsdiInitInfo * res , uint32_t id ) {
OsdiInitError * more = realloc ( res -> errors , ( res -> num_errors + 1u ) * sizeof ( OsdiInitError ) ) ;
if ( more ) {
more [ res -> num_errors ] = ( OsdiInitError ) {
.code = INIT_ERR_OUT_OF_BOUNDS , .payload.parameter_id = id }
;
res -> errors = more ;
res -> num_errors = res -> num_errors + 1u ;
}
}
static void load_nothing ( void * ip , void * mp , double * dst ) {
}
const uint32_t OSDI_VERSION_MAJOR = 0u ;
const uint32_t OSDI_VERSION_MINOR = 3u ;
const uint32_t OSDI_NUM_DESCRIPTORS = 1u ;
const OsdiDescriptor OSDI_DESCRIPTORS [ ] = {
{
0 }
}
;
"##;

/// The tables of `c_runs::resistor`.
pub(crate) const RESISTOR_TABLES: &str = "module resistor
ports 2
node 0 a \"V\" \"A\"
node 1 c \"V\" \"A\"
entry 0 0 r
entry 0 1 r
entry 1 0 r
entry 1 1 r
param 0 r real model \"\" \"Ohm\"
";

/// The tables of `c_runs::diode`.
pub(crate) const DIODE_TABLES: &str = "module diode
ports 2
node 0 a \"V\" \"A\"
node 1 c \"V\" \"A\"
node 2 ai \"V\" \"A\"
entry 0 0 r
entry 0 2 r
entry 1 1 rx
entry 1 2 rx
entry 2 0 r
entry 2 1 rx
entry 2 2 rx
collapse 0 2
param 0 is real instance \"saturation current\" \"A\"
alias 0 js
param 1 rs real model \"\" \"Ohm\"
opvar 2 id real \"\" \"A\"
";

/// The tables of `c_runs::inductor`.
pub(crate) const INDUCTOR_TABLES: &str = "module inductor
ports 2
node 0 a \"V\" \"A\"
node 1 c \"V\" \"A\"
node 2 flow(a,c) \"A\" \"V\"
entry 0 2 r
entry 1 2 r
entry 2 0 r
entry 2 1 r
entry 2 2 x
param 0 l real model \"\" \"H\"
";

/// The tables of `c_runs::power`.
pub(crate) const POWER_TABLES: &str = "module power
ports 1
node 0 p \"V\" \"A\"
entry 0 0 r
param 0 n integer model \"degree\" \"\"
";

/// What is written where the words make no request.
pub(crate) const USAGE: &str =
    "usage: vaosdi compile|check|tables|read FILE, or eval FILE POINT, or make|work N\n";
