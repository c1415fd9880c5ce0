//! The parse tables of C files. What the numbers stand for is written in `specs/grammar/Names.antt`, and the rows as texts in
//! `specs/grammar/Rows.antt`; the clauses of `CRows` say that these tables are those.
//!
//! Made by `tools/grammar_tables` from `crates/c_syntax/specs/grammar/Names.antt` and `Rows.antt`; edit those.

/// How many kinds of tokens there are. As a symbol of a row, a nonterminal has this number and its own.
pub const KINDS: u16 = 187;

/// How many nonterminals there are.
pub const NONTERMINALS: usize = 72;

/// The symbols of each row, in order. A row's number is its place, counted from 0.
pub static ROWS: [&[u16]; 144] = [
    // <File> = <osdi_header> <math_header> <stddef_header> <stdint_header> <stdlib_header> ..
    &[2, 3, 4, 5, 6, 188, 189, 256],
    // <Help> = static void init_error ( OsdiInitInfo * res , uint32_t id ) { OsdiInitError * ..
    &[
        65, 66, 67, 46, 68, 54, 69, 53, 70, 71, 47, 48, 72, 54, 73, 55, 74, 46, 69, 38, 75, 53, 46,
        69, 38, 76, 56, 36, 47, 54, 77, 46, 72, 47, 47, 52, 78, 46, 73, 47, 48, 73, 50, 69, 38, 76,
        51, 55, 46, 72, 47, 48, 135, 55, 79, 53, 136, 55, 71, 49, 52, 69, 38, 75, 55, 73, 52, 69,
        38, 76, 55, 69, 38, 76, 56, 36, 52, 49, 49, 65, 66, 80, 46, 66, 54, 81, 53, 66, 54, 82, 53,
        83, 54, 84, 47, 48, 49,
    ],
    // <Modules> = <Module> <Modules>
    &[190, 189],
    // <Modules> = .
    &[],
    // <Module> = <Structs> <Functions> <SetupModel> <SetupInstance> <Eval> <Loads> <Tables>
    &[191, 194, 206, 207, 208, 225, 239],
    // <Structs> = typedef struct { uint32_t tag ; <Fields> } <model> ; typedef struct { uint32_t ..
    &[
        85, 86, 48, 70, 87, 52, 192, 49, 16, 52, 85, 86, 48, 70, 88, 50, 224, 51, 52, 83, 54, 89,
        50, 224, 51, 52, 83, 54, 90, 50, 224, 51, 52, 91, 92, 50, 224, 51, 52, 83, 93, 52, 192, 49,
        17, 52,
    ],
    // <Fields> = <Type> <field> ; <Fields>
    &[193, 14, 52, 192],
    // <Fields> = .
    &[],
    // <Type> = double
    &[83],
    // <Type> = int32_t
    &[94],
    // <Functions> = static <FunctionOrAccess>
    &[65, 195],
    // <FunctionOrAccess> = <Type> <fn> ( <Arguments> ) { <Statements> return <Atom> ; } ..
    &[193, 15, 46, 196, 47, 48, 209, 95, 221, 52, 49, 194],
    // <FunctionOrAccess> = void * <access> ( void * ip , void * mp , uint32_t id , uint32_t ..
    &[
        66, 54, 18, 46, 66, 54, 81, 53, 66, 54, 82, 53, 70, 71, 53, 70, 96, 47, 48, 203, 204, 198,
        95, 33, 52, 49,
    ],
    // <Arguments> = <Type> <argument> <MoreArguments>
    &[193, 13, 197],
    // <Arguments> = .
    &[],
    // <MoreArguments> = , <Type> <argument> <MoreArguments>
    &[53, 193, 13, 197],
    // <MoreArguments> = .
    &[],
    // <AccessRows> = if ( id == <Number> <InstanceTest> ) { <FlagSetting> return & <Cell> ; } ..
    &[
        78, 46, 71, 42, 224, 199, 47, 48, 200, 95, 63, 201, 52, 49, 198,
    ],
    // <AccessRows> = .
    &[],
    // <InstanceTest> = && ( flags & ACCESS_FLAG_INSTANCE )
    &[39, 46, 96, 63, 97, 47],
    // <InstanceTest> = .
    &[],
    // <FlagSetting> = if ( flags & ACCESS_FLAG_SET ) { <Cell> = 1 ; }
    &[78, 46, 96, 63, 98, 47, 48, 201, 55, 34, 52, 49],
    // <FlagSetting> = .
    &[],
    // <Cell> = inst -> <FieldName>
    &[99, 38, 202],
    // <Cell> = model -> <FieldName>
    &[100, 38, 202],
    // <FieldName> = <field>
    &[14],
    // <FieldName> = temp
    &[93],
    // <Instance> = <inst> * inst = ( <inst> * ) ip ;
    &[17, 54, 99, 55, 46, 17, 54, 47, 81, 52],
    // <Model> = <model> * model = ( <model> * ) mp ;
    &[16, 54, 100, 55, 46, 16, 54, 47, 82, 52],
    // <Reset> = res -> flags = 0u ; res -> num_errors = 0u ; res -> errors = 0 ;
    &[
        69, 38, 96, 55, 35, 52, 69, 38, 76, 55, 35, 52, 69, 38, 75, 55, 33, 52,
    ],
    // <SetupModel> = static void <setup_model> ( void * handle , void * mp , OsdiSimParas * sim ..
    &[
        65, 66, 19, 46, 66, 54, 101, 53, 66, 54, 82, 53, 102, 54, 103, 53, 68, 54, 69, 47, 48, 204,
        205, 209, 49,
    ],
    // <SetupInstance> = static void <setup_instance> ( void * handle , void * ip , void * mp , ..
    &[
        65, 66, 20, 46, 66, 54, 101, 53, 66, 54, 81, 53, 66, 54, 82, 53, 83, 104, 53, 70, 105, 53,
        102, 54, 103, 53, 68, 54, 69, 47, 48, 203, 204, 205, 99, 38, 93, 55, 104, 52, 209, 49,
    ],
    // <Eval> = static uint32_t <eval> ( void * handle , void * ip , void * mp , OsdiSimInfo * ..
    &[
        65, 70, 21, 46, 66, 54, 101, 53, 66, 54, 81, 53, 66, 54, 82, 53, 106, 54, 107, 47, 48, 203,
        204, 108, 83, 54, 109, 55, 107, 38, 110, 52, 209, 95, 35, 52, 49,
    ],
    // <Statements> = <Statement> <Statements>
    &[210, 209],
    // <Statements> = .
    &[],
    // <Statement> = const <Type> <local> = <Right> ;
    &[108, 193, 12, 55, 214, 52],
    // <Statement> = <Type> <local> <FirstValue> ;
    &[193, 12, 211, 52],
    // <Statement> = <local> = <Atom> ;
    &[12, 55, 221, 52],
    // <Statement> = if ( <IfRest>
    &[78, 46, 212],
    // <Statement> = for ( ; ; ) { <Statements> }
    &[111, 46, 52, 52, 47, 48, 209, 49],
    // <Statement> = model -> <FieldName> = <Atom> ;
    &[100, 38, 202, 55, 221, 52],
    // <Statement> = inst -> <InstanceTarget> = <Atom> ;
    &[99, 38, 213, 55, 221, 52],
    // <Statement> = init_error ( res , <Number> ) ;
    &[67, 46, 69, 53, 224, 47, 52],
    // <FirstValue> = = <Atom>
    &[55, 221],
    // <FirstValue> = .
    &[],
    // <IfRest> = ! <Atom> ) { break ; }
    &[62, 221, 47, 48, 112, 52, 49],
    // <IfRest> = <Atom> ) { <Statements> } else { <Statements> }
    &[221, 47, 48, 209, 49, 113, 48, 209, 49],
    // <InstanceTarget> = <FieldName>
    &[202],
    // <InstanceTarget> = col [ <Number> ]
    &[92, 50, 224, 51],
    // <Right> = - <Atom>
    &[57, 221],
    // <Right> = ! <Atom>
    &[62, 221],
    // <Right> = ( <Conversion>
    &[46, 215],
    // <Right> = <Callee> ( <Values> )
    &[216, 46, 217, 47],
    // <Right> = <Atom> <Operation>
    &[221, 219],
    // <Conversion> = double ) <Atom>
    &[83, 47, 221],
    // <Conversion> = int32_t ) lround ( <Atom> )
    &[94, 47, 114, 46, 221, 47],
    // <Callee> = <function>
    &[11],
    // <Callee> = <fn>
    &[15],
    // <Values> = <Atom> <MoreValues>
    &[221, 218],
    // <Values> = .
    &[],
    // <MoreValues> = , <Atom> <MoreValues>
    &[53, 221, 218],
    // <MoreValues> = .
    &[],
    // <Operation> = <Operator> <Atom>
    &[220, 221],
    // <Operation> = .
    &[],
    // <Operator> = +
    &[56],
    // <Operator> = -
    &[57],
    // <Operator> = *
    &[54],
    // <Operator> = /
    &[58],
    // <Operator> = %
    &[59],
    // <Operator> = <
    &[60],
    // <Operator> = <=
    &[40],
    // <Operator> = >
    &[61],
    // <Operator> = >=
    &[41],
    // <Operator> = ==
    &[42],
    // <Operator> = !=
    &[43],
    // <Atom> = <local>
    &[12],
    // <Atom> = <argument>
    &[13],
    // <Atom> = <Integer>
    &[223],
    // <Atom> = <real>
    &[10],
    // <Atom> = <Cell>
    &[201],
    // <Atom> = x [ <Node> ]
    &[109, 50, 222, 51],
    // <Node> = inst -> node [ <Number> ]
    &[99, 38, 88, 50, 224, 51],
    // <Integer> = 0
    &[33],
    // <Integer> = 1
    &[34],
    // <Integer> = <integer>
    &[8],
    // <Number> = 0u
    &[35],
    // <Number> = 1u
    &[36],
    // <Number> = 3u
    &[37],
    // <Number> = <unsigned>
    &[9],
    // <Loads> = <ResidualResist> <ResidualReact> <JacobianResist> <JacobianReact> <JacobianTran> ..
    &[226, 227, 228, 229, 230, 231, 232],
    // <ResidualResist> = static void <load_residual_resist> ( void * ip , void * mp , double * ..
    &[
        65, 66, 22, 46, 66, 54, 81, 53, 66, 54, 82, 53, 83, 54, 84, 47, 48, 203, 233, 49,
    ],
    // <ResidualReact> = static void <load_residual_react> ( void * ip , void * mp , double * dst ..
    &[
        65, 66, 23, 46, 66, 54, 81, 53, 66, 54, 82, 53, 83, 54, 84, 47, 48, 203, 233, 49,
    ],
    // <JacobianResist> = static void <load_jacobian_resist> ( void * ip , void * mp ) { ..
    &[
        65, 66, 24, 46, 66, 54, 81, 53, 66, 54, 82, 47, 48, 203, 233, 49,
    ],
    // <JacobianReact> = static void <load_jacobian_react> ( void * ip , void * mp , double alpha ..
    &[
        65, 66, 25, 46, 66, 54, 81, 53, 66, 54, 82, 53, 83, 115, 47, 48, 203, 233, 49,
    ],
    // <JacobianTran> = static void <load_jacobian_tran> ( void * ip , void * mp , double alpha ) ..
    &[
        65, 66, 26, 46, 66, 54, 81, 53, 66, 54, 82, 53, 83, 115, 47, 48, 203, 233, 49,
    ],
    // <SpiceRhsDc> = static void <load_spice_rhs_dc> ( void * ip , void * mp , double * dst , ..
    &[
        65, 66, 27, 46, 66, 54, 81, 53, 66, 54, 82, 53, 83, 54, 84, 53, 83, 54, 109, 47, 48, 203,
        233, 49,
    ],
    // <SpiceRhsTran> = static void <load_spice_rhs_tran> ( void * ip , void * mp , double * dst ..
    &[
        65, 66, 28, 46, 66, 54, 81, 53, 66, 54, 82, 53, 83, 54, 84, 53, 83, 54, 109, 53, 83, 115,
        47, 48, 203, 233, 49,
    ],
    // <LoadStatements> = <LoadTarget> <LoadSign> <Factor> <MoreFactors> ; <LoadStatements>
    &[234, 236, 237, 238, 52, 233],
    // <LoadStatements> = .
    &[],
    // <LoadTarget> = dst [ <Node> ]
    &[84, 50, 222, 51],
    // <LoadTarget> = * inst -> <MatrixTarget>
    &[54, 99, 38, 235],
    // <MatrixTarget> = jr [ <Number> ]
    &[89, 50, 224, 51],
    // <MatrixTarget> = jq [ <Number> ]
    &[90, 50, 224, 51],
    // <LoadSign> = =
    &[55],
    // <LoadSign> = +=
    &[44],
    // <LoadSign> = -=
    &[45],
    // <Factor> = alpha
    &[115],
    // <Factor> = inst -> <FieldName>
    &[99, 38, 202],
    // <Factor> = x [ <Node> ]
    &[109, 50, 222, 51],
    // <MoreFactors> = * <Factor> <MoreFactors>
    &[54, 237, 238],
    // <MoreFactors> = .
    &[],
    // <Tables> = OsdiNode <nodes> [ ] = { <NodeRows> } ; OsdiJacobianEntry <entries> [ ] = { ..
    &[
        116, 29, 50, 51, 55, 48, 240, 49, 52, 117, 30, 50, 51, 55, 48, 242, 49, 52, 118, 31, 50,
        51, 55, 48, 249, 49, 52, 119, 32, 50, 51, 55, 48, 251, 49, 52,
    ],
    // <NodeRows> = { <NodeRow>
    &[48, 241],
    // <NodeRow> = .name = <string> , .units = <string> , .residual_units = <string> , ..
    &[
        137, 55, 7, 53, 138, 55, 7, 53, 139, 55, 7, 53, 140, 55, 120, 46, 17, 53, 202, 47, 53, 141,
        55, 120, 46, 17, 53, 202, 47, 53, 142, 55, 121, 53, 143, 55, 121, 53, 144, 55, 223, 49, 53,
        240,
    ],
    // <NodeRow> = 0 }
    &[33, 49],
    // <EntryRows> = { <EntryRow>
    &[48, 243],
    // <EntryRow> = .nodes = { <Pair> } , .react_ptr_off = <ReactPointer> , .flags = <EntryParts> ..
    &[
        145, 55, 48, 244, 49, 53, 146, 55, 246, 53, 147, 55, 247, 49, 53, 242,
    ],
    // <EntryRow> = 0 }
    &[33, 49],
    // <Pair> = .node_1 = <Number> , .node_2 = <SecondNode>
    &[148, 55, 224, 53, 149, 55, 245],
    // <SecondNode> = <Number>
    &[224],
    // <SecondNode> = UINT32_MAX
    &[121],
    // <ReactPointer> = offsetof ( <inst> , jq [ <Number> ] )
    &[120, 46, 17, 53, 90, 50, 224, 51, 47],
    // <ReactPointer> = UINT32_MAX
    &[121],
    // <EntryParts> = JACOBIAN_ENTRY_RESIST <AndReact>
    &[122, 248],
    // <EntryParts> = JACOBIAN_ENTRY_REACT
    &[123],
    // <AndReact> = | JACOBIAN_ENTRY_REACT
    &[64, 123],
    // <AndReact> = .
    &[],
    // <PairRows> = { <PairRow>
    &[48, 250],
    // <PairRow> = <Pair> } , <PairRows>
    &[244, 49, 53, 249],
    // <PairRow> = 0 }
    &[33, 49],
    // <ParamRows> = { <ParamRow>
    &[48, 252],
    // <ParamRow> = .name = ( char * [ ] ) { <string> <MoreStrings> } , .num_alias = <Number> , ..
    &[
        137, 55, 46, 124, 54, 50, 51, 47, 48, 7, 253, 49, 53, 150, 55, 224, 53, 151, 55, 7, 53,
        138, 55, 7, 53, 147, 55, 254, 64, 255, 53, 152, 55, 35, 49, 53, 251,
    ],
    // <ParamRow> = 0 }
    &[33, 49],
    // <MoreStrings> = , <string> <MoreStrings>
    &[53, 7, 253],
    // <MoreStrings> = .
    &[],
    // <ParamType> = PARA_TY_REAL
    &[125],
    // <ParamType> = PARA_TY_INT
    &[126],
    // <ParamKind> = PARA_KIND_INST
    &[127],
    // <ParamKind> = PARA_KIND_MODEL
    &[128],
    // <ParamKind> = PARA_KIND_OPVAR
    &[129],
    // <Exports> = const uint32_t OSDI_VERSION_MAJOR = 0u ; const uint32_t OSDI_VERSION_MINOR = ..
    &[
        108, 70, 130, 55, 35, 52, 108, 70, 131, 55, 37, 52, 108, 70, 132, 55, 224, 52, 108, 133,
        134, 50, 51, 55, 48, 257, 49, 52,
    ],
    // <Descriptors> = { <Descriptor>
    &[48, 258],
    // <Descriptor> = .name = <string> , .num_nodes = <Number> , .num_terminals = <Number> , ..
    &[
        137, 55, 7, 53, 153, 55, 224, 53, 154, 55, 224, 53, 145, 55, 29, 53, 155, 55, 224, 53, 156,
        55, 30, 53, 157, 55, 224, 53, 158, 55, 31, 53, 159, 55, 120, 46, 17, 53, 92, 47, 53, 160,
        55, 33, 53, 161, 55, 35, 53, 162, 55, 224, 53, 163, 55, 224, 53, 164, 55, 224, 53, 165, 55,
        32, 53, 166, 55, 120, 46, 17, 53, 88, 47, 53, 167, 55, 120, 46, 17, 53, 89, 47, 53, 168,
        55, 35, 53, 169, 55, 35, 53, 170, 55, 121, 53, 171, 55, 77, 46, 17, 47, 53, 172, 55, 77,
        46, 16, 47, 53, 173, 55, 18, 53, 174, 55, 19, 53, 175, 55, 20, 53, 176, 55, 21, 53, 177,
        55, 33, 53, 178, 55, 80, 53, 179, 55, 80, 53, 180, 55, 22, 53, 181, 55, 23, 53, 182, 55,
        24, 53, 183, 55, 25, 53, 184, 55, 26, 53, 185, 55, 27, 53, 186, 55, 28, 49, 53, 257,
    ],
    // <Descriptor> = 0 }
    &[33, 49],
];

/// For each nonterminal the kinds at which a row of it is chosen.
pub static NEXT_KINDS: [&[u16]; NONTERMINALS] = [
    &[2], // <File>
    &[65], // <Help>
    &[85, 108], // <Modules>
    &[85], // <Module>
    &[85], // <Structs>
    &[83, 94, 49], // <Fields>
    &[83, 94], // <Type>
    &[65], // <Functions>
    &[83, 94, 66], // <FunctionOrAccess>
    &[83, 94, 47], // <Arguments>
    &[53, 47], // <MoreArguments>
    &[78, 95], // <AccessRows>
    &[39, 47], // <InstanceTest>
    &[78, 95], // <FlagSetting>
    &[99, 100], // <Cell>
    &[14, 93], // <FieldName>
    &[17], // <Instance>
    &[16], // <Model>
    &[69], // <Reset>
    &[65], // <SetupModel>
    &[65], // <SetupInstance>
    &[65], // <Eval>
    &[12, 67, 78, 83, 94, 99, 100, 108, 111, 49, 95], // <Statements>
    &[108, 83, 94, 12, 78, 111, 100, 99, 67], // <Statement>
    &[55, 52], // <FirstValue>
    &[62, 8, 10, 12, 13, 33, 34, 99, 100, 109], // <IfRest>
    &[14, 93, 92], // <InstanceTarget>
    &[57, 62, 46, 11, 15, 8, 10, 12, 13, 33, 34, 99, 100, 109], // <Right>
    &[83, 94], // <Conversion>
    &[11, 15], // <Callee>
    &[8, 10, 12, 13, 33, 34, 99, 100, 109, 47], // <Values>
    &[53, 47], // <MoreValues>
    &[40, 41, 42, 43, 54, 56, 57, 58, 59, 60, 61, 52], // <Operation>
    &[56, 57, 54, 58, 59, 60, 40, 61, 41, 42, 43], // <Operator>
    &[12, 13, 8, 33, 34, 10, 99, 100, 109], // <Atom>
    &[99], // <Node>
    &[33, 34, 8], // <Integer>
    &[35, 36, 37, 9], // <Number>
    &[65], // <Loads>
    &[65], // <ResidualResist>
    &[65], // <ResidualReact>
    &[65], // <JacobianResist>
    &[65], // <JacobianReact>
    &[65], // <JacobianTran>
    &[65], // <SpiceRhsDc>
    &[65], // <SpiceRhsTran>
    &[54, 84, 49], // <LoadStatements>
    &[84, 54], // <LoadTarget>
    &[89, 90], // <MatrixTarget>
    &[55, 44, 45], // <LoadSign>
    &[115, 99, 109], // <Factor>
    &[54, 52], // <MoreFactors>
    &[116], // <Tables>
    &[48], // <NodeRows>
    &[137, 33], // <NodeRow>
    &[48], // <EntryRows>
    &[145, 33], // <EntryRow>
    &[148], // <Pair>
    &[9, 35, 36, 37, 121], // <SecondNode>
    &[120, 121], // <ReactPointer>
    &[122, 123], // <EntryParts>
    &[64, 49], // <AndReact>
    &[48], // <PairRows>
    &[148, 33], // <PairRow>
    &[48], // <ParamRows>
    &[137, 33], // <ParamRow>
    &[53, 49], // <MoreStrings>
    &[125, 126], // <ParamType>
    &[127, 128, 129], // <ParamKind>
    &[108], // <Exports>
    &[48], // <Descriptors>
    &[137, 33], // <Descriptor>
];

/// For each such kind the row.
pub static NEXT_ROWS: [&[u16]; NONTERMINALS] = [
    &[0], // <File>
    &[1], // <Help>
    &[2, 3], // <Modules>
    &[4], // <Module>
    &[5], // <Structs>
    &[6, 6, 7], // <Fields>
    &[8, 9], // <Type>
    &[10], // <Functions>
    &[11, 11, 12], // <FunctionOrAccess>
    &[13, 13, 14], // <Arguments>
    &[15, 16], // <MoreArguments>
    &[17, 18], // <AccessRows>
    &[19, 20], // <InstanceTest>
    &[21, 22], // <FlagSetting>
    &[23, 24], // <Cell>
    &[25, 26], // <FieldName>
    &[27], // <Instance>
    &[28], // <Model>
    &[29], // <Reset>
    &[30], // <SetupModel>
    &[31], // <SetupInstance>
    &[32], // <Eval>
    &[33, 33, 33, 33, 33, 33, 33, 33, 33, 34, 34], // <Statements>
    &[35, 36, 36, 37, 38, 39, 40, 41, 42], // <Statement>
    &[43, 44], // <FirstValue>
    &[45, 46, 46, 46, 46, 46, 46, 46, 46, 46], // <IfRest>
    &[47, 47, 48], // <InstanceTarget>
    &[49, 50, 51, 52, 52, 53, 53, 53, 53, 53, 53, 53, 53, 53], // <Right>
    &[54, 55], // <Conversion>
    &[56, 57], // <Callee>
    &[58, 58, 58, 58, 58, 58, 58, 58, 58, 59], // <Values>
    &[60, 61], // <MoreValues>
    &[62, 62, 62, 62, 62, 62, 62, 62, 62, 62, 62, 63], // <Operation>
    &[64, 65, 66, 67, 68, 69, 70, 71, 72, 73, 74], // <Operator>
    &[75, 76, 77, 77, 77, 78, 79, 79, 80], // <Atom>
    &[81], // <Node>
    &[82, 83, 84], // <Integer>
    &[85, 86, 87, 88], // <Number>
    &[89], // <Loads>
    &[90], // <ResidualResist>
    &[91], // <ResidualReact>
    &[92], // <JacobianResist>
    &[93], // <JacobianReact>
    &[94], // <JacobianTran>
    &[95], // <SpiceRhsDc>
    &[96], // <SpiceRhsTran>
    &[97, 97, 98], // <LoadStatements>
    &[99, 100], // <LoadTarget>
    &[101, 102], // <MatrixTarget>
    &[103, 104, 105], // <LoadSign>
    &[106, 107, 108], // <Factor>
    &[109, 110], // <MoreFactors>
    &[111], // <Tables>
    &[112], // <NodeRows>
    &[113, 114], // <NodeRow>
    &[115], // <EntryRows>
    &[116, 117], // <EntryRow>
    &[118], // <Pair>
    &[119, 119, 119, 119, 120], // <SecondNode>
    &[121, 122], // <ReactPointer>
    &[123, 124], // <EntryParts>
    &[125, 126], // <AndReact>
    &[127], // <PairRows>
    &[128, 129], // <PairRow>
    &[130], // <ParamRows>
    &[131, 132], // <ParamRow>
    &[133, 134], // <MoreStrings>
    &[135, 136], // <ParamType>
    &[137, 138, 139], // <ParamKind>
    &[140], // <Exports>
    &[141], // <Descriptors>
    &[142, 143], // <Descriptor>
];
