//! The numbers of the rows of the grammar, by name. A row's number is its place among the written rows of `c_syntax`, counted
//! from 0.

/// `<File> = <osdi_header> <math_header> <stddef_header> <stdint_header> <stdlib_header> <Help> <Modules> ..`
pub const FILE: u16 = 0;

/// `<Help> = static void init_error ( OsdiInitInfo * res , uint32_t id ) { OsdiInitError * more = realloc ( ..`
pub const HELP: u16 = 1;

/// `<Modules> = <Module> <Modules>`
pub const MODULES: u16 = 2;

/// `<Modules> = .`
pub const NO_MODULES: u16 = 3;

/// `<Module> = <Structs> <Functions> <SetupModel> <SetupInstance> <Eval> <Loads> <Tables>`
pub const MODULE: u16 = 4;

/// `<Structs> = typedef struct { uint32_t tag ; <Fields> } <model> ; typedef struct { uint32_t node [ ..`
pub const STRUCTS: u16 = 5;

/// `<Fields> = <Type> <field> ; <Fields>`
pub const FIELDS: u16 = 6;

/// `<Fields> = .`
pub const NO_FIELDS: u16 = 7;

/// `<Type> = double`
pub const REAL_TYPE: u16 = 8;

/// `<Type> = int32_t`
pub const INTEGER_TYPE: u16 = 9;

/// `<Functions> = static <FunctionOrAccess>`
pub const FUNCTIONS: u16 = 10;

/// `<FunctionOrAccess> = <Type> <fn> ( <Arguments> ) { <Statements> return <Atom> ; } <Functions>`
pub const FUNCTION: u16 = 11;

/// `<FunctionOrAccess> = void * <access> ( void * ip , void * mp , uint32_t id , uint32_t flags ) { ..`
pub const ACCESS: u16 = 12;

/// `<Arguments> = <Type> <argument> <MoreArguments>`
pub const ARGUMENTS: u16 = 13;

/// `<Arguments> = .`
pub const NO_ARGUMENTS: u16 = 14;

/// `<MoreArguments> = , <Type> <argument> <MoreArguments>`
pub const MORE_ARGUMENTS: u16 = 15;

/// `<MoreArguments> = .`
pub const NO_MORE_ARGUMENTS: u16 = 16;

/// `<AccessRows> = if ( id == <Number> <InstanceTest> ) { <FlagSetting> return & <Cell> ; } <AccessRows>`
pub const ACCESS_ROWS: u16 = 17;

/// `<AccessRows> = .`
pub const NO_ACCESS_ROWS: u16 = 18;

/// `<InstanceTest> = && ( flags & ACCESS_FLAG_INSTANCE )`
pub const INSTANCE_TEST: u16 = 19;

/// `<InstanceTest> = .`
pub const NO_INSTANCE_TEST: u16 = 20;

/// `<FlagSetting> = if ( flags & ACCESS_FLAG_SET ) { <Cell> = 1 ; }`
pub const FLAG_SETTING: u16 = 21;

/// `<FlagSetting> = .`
pub const NO_FLAG_SETTING: u16 = 22;

/// `<Cell> = inst -> <FieldName>`
pub const INSTANCE_CELL: u16 = 23;

/// `<Cell> = model -> <FieldName>`
pub const MODEL_CELL: u16 = 24;

/// `<FieldName> = <field>`
pub const NUMBERED_FIELD: u16 = 25;

/// `<FieldName> = temp`
pub const TEMPERATURE_FIELD: u16 = 26;

/// `<Instance> = <inst> * inst = ( <inst> * ) ip ;`
pub const INSTANCE: u16 = 27;

/// `<Model> = <model> * model = ( <model> * ) mp ;`
pub const MODEL: u16 = 28;

/// `<Reset> = res -> flags = 0u ; res -> num_errors = 0u ; res -> errors = 0 ;`
pub const RESET: u16 = 29;

/// `<SetupModel> = static void <setup_model> ( void * handle , void * mp , OsdiSimParas * sim , OsdiInitInfo ..`
pub const SETUP_MODEL: u16 = 30;

/// `<SetupInstance> = static void <setup_instance> ( void * handle , void * ip , void * mp , double ..`
pub const SETUP_INSTANCE: u16 = 31;

/// `<Eval> = static uint32_t <eval> ( void * handle , void * ip , void * mp , OsdiSimInfo * info ) { ..`
pub const EVAL: u16 = 32;

/// `<Statements> = <Statement> <Statements>`
pub const STATEMENTS: u16 = 33;

/// `<Statements> = .`
pub const NO_STATEMENTS: u16 = 34;

/// `<Statement> = const <Type> <local> = <Right> ;`
pub const CONSTANT: u16 = 35;

/// `<Statement> = <Type> <local> <FirstValue> ;`
pub const DECLARED: u16 = 36;

/// `<Statement> = <local> = <Atom> ;`
pub const ASSIGNED: u16 = 37;

/// `<Statement> = if ( <IfRest>`
pub const IF: u16 = 38;

/// `<Statement> = for ( ; ; ) { <Statements> }`
pub const FOR: u16 = 39;

/// `<Statement> = model -> <FieldName> = <Atom> ;`
pub const SET_MODEL: u16 = 40;

/// `<Statement> = inst -> <InstanceTarget> = <Atom> ;`
pub const SET_INSTANCE: u16 = 41;

/// `<Statement> = init_error ( res , <Number> ) ;`
pub const REPORT: u16 = 42;

/// `<FirstValue> = = <Atom>`
pub const FIRST_VALUE: u16 = 43;

/// `<FirstValue> = .`
pub const NO_FIRST_VALUE: u16 = 44;

/// `<IfRest> = ! <Atom> ) { break ; }`
pub const BREAK: u16 = 45;

/// `<IfRest> = <Atom> ) { <Statements> } else { <Statements> }`
pub const TWO_ARMS: u16 = 46;

/// `<InstanceTarget> = <FieldName>`
pub const FIELD_TARGET: u16 = 47;

/// `<InstanceTarget> = col [ <Number> ]`
pub const COLLAPSE_TARGET: u16 = 48;

/// `<Right> = - <Atom>`
pub const NEGATED: u16 = 49;

/// `<Right> = ! <Atom>`
pub const CONTRARY: u16 = 50;

/// `<Right> = ( <Conversion>`
pub const CONVERTED: u16 = 51;

/// `<Right> = <Callee> ( <Values> )`
pub const CALLED: u16 = 52;

/// `<Right> = <Atom> <Operation>`
pub const OPERANDS: u16 = 53;

/// `<Conversion> = double ) <Atom>`
pub const TO_REAL: u16 = 54;

/// `<Conversion> = int32_t ) lround ( <Atom> )`
pub const TO_INTEGER: u16 = 55;

/// `<Callee> = <function>`
pub const NAMED_FUNCTION: u16 = 56;

/// `<Callee> = <fn>`
pub const MODULE_FUNCTION: u16 = 57;

/// `<Values> = <Atom> <MoreValues>`
pub const VALUES: u16 = 58;

/// `<Values> = .`
pub const NO_VALUES: u16 = 59;

/// `<MoreValues> = , <Atom> <MoreValues>`
pub const MORE_VALUES: u16 = 60;

/// `<MoreValues> = .`
pub const NO_MORE_VALUES: u16 = 61;

/// `<Operation> = <Operator> <Atom>`
pub const OPERATION: u16 = 62;

/// `<Operation> = .`
pub const NO_OPERATION: u16 = 63;

/// `<Operator> = +`
pub const PLUS: u16 = 64;

/// `<Operator> = -`
pub const MINUS: u16 = 65;

/// `<Operator> = *`
pub const TIMES: u16 = 66;

/// `<Operator> = /`
pub const OVER: u16 = 67;

/// `<Operator> = %`
pub const REMAINDER: u16 = 68;

/// `<Operator> = <`
pub const LESS: u16 = 69;

/// `<Operator> = <=`
pub const AT_MOST: u16 = 70;

/// `<Operator> = >`
pub const GREATER: u16 = 71;

/// `<Operator> = >=`
pub const AT_LEAST: u16 = 72;

/// `<Operator> = ==`
pub const SAME: u16 = 73;

/// `<Operator> = !=`
pub const DIFFERS: u16 = 74;

/// `<Atom> = <local>`
pub const LOCAL_ATOM: u16 = 75;

/// `<Atom> = <argument>`
pub const ARGUMENT_ATOM: u16 = 76;

/// `<Atom> = <Integer>`
pub const INTEGER_ATOM: u16 = 77;

/// `<Atom> = <real>`
pub const REAL_ATOM: u16 = 78;

/// `<Atom> = <Cell>`
pub const CELL_ATOM: u16 = 79;

/// `<Atom> = x [ <Node> ]`
pub const UNKNOWN_ATOM: u16 = 80;

/// `<Node> = inst -> node [ <Number> ]`
pub const NODE: u16 = 81;

/// `<Integer> = 0`
pub const INTEGER_ZERO: u16 = 82;

/// `<Integer> = 1`
pub const INTEGER_ONE: u16 = 83;

/// `<Integer> = <integer>`
pub const INTEGER: u16 = 84;

/// `<Number> = 0u`
pub const NUMBER_ZERO: u16 = 85;

/// `<Number> = 1u`
pub const NUMBER_ONE: u16 = 86;

/// `<Number> = 3u`
pub const NUMBER_THREE: u16 = 87;

/// `<Number> = <unsigned>`
pub const NUMBER: u16 = 88;

/// `<Loads> = <ResidualResist> <ResidualReact> <JacobianResist> <JacobianReact> <JacobianTran> <SpiceRhsDc> ..`
pub const LOADS: u16 = 89;

/// `<ResidualResist> = static void <load_residual_resist> ( void * ip , void * mp , double * dst ) { ..`
pub const RESIDUAL_RESIST: u16 = 90;

/// `<ResidualReact> = static void <load_residual_react> ( void * ip , void * mp , double * dst ) { ..`
pub const RESIDUAL_REACT: u16 = 91;

/// `<JacobianResist> = static void <load_jacobian_resist> ( void * ip , void * mp ) { <Instance> ..`
pub const JACOBIAN_RESIST: u16 = 92;

/// `<JacobianReact> = static void <load_jacobian_react> ( void * ip , void * mp , double alpha ) { ..`
pub const JACOBIAN_REACT: u16 = 93;

/// `<JacobianTran> = static void <load_jacobian_tran> ( void * ip , void * mp , double alpha ) { <Instance> ..`
pub const JACOBIAN_TRAN: u16 = 94;

/// `<SpiceRhsDc> = static void <load_spice_rhs_dc> ( void * ip , void * mp , double * dst , double * x ) { ..`
pub const SPICE_RHS_DC: u16 = 95;

/// `<SpiceRhsTran> = static void <load_spice_rhs_tran> ( void * ip , void * mp , double * dst , double * x , ..`
pub const SPICE_RHS_TRAN: u16 = 96;

/// `<LoadStatements> = <LoadTarget> <LoadSign> <Factor> <MoreFactors> ; <LoadStatements>`
pub const LOAD: u16 = 97;

/// `<LoadStatements> = .`
pub const NO_LOAD: u16 = 98;

/// `<LoadTarget> = dst [ <Node> ]`
pub const NODE_TARGET: u16 = 99;

/// `<LoadTarget> = * inst -> <MatrixTarget>`
pub const MATRIX_TARGET: u16 = 100;

/// `<MatrixTarget> = jr [ <Number> ]`
pub const RESIST_TARGET: u16 = 101;

/// `<MatrixTarget> = jq [ <Number> ]`
pub const REACT_TARGET: u16 = 102;

/// `<LoadSign> = =`
pub const PUT: u16 = 103;

/// `<LoadSign> = +=`
pub const ADD: u16 = 104;

/// `<LoadSign> = -=`
pub const SUBTRACT: u16 = 105;

/// `<Factor> = alpha`
pub const ALPHA: u16 = 106;

/// `<Factor> = inst -> <FieldName>`
pub const CELL_FACTOR: u16 = 107;

/// `<Factor> = x [ <Node> ]`
pub const SOLUTION_FACTOR: u16 = 108;

/// `<MoreFactors> = * <Factor> <MoreFactors>`
pub const MORE_FACTORS: u16 = 109;

/// `<MoreFactors> = .`
pub const NO_MORE_FACTORS: u16 = 110;

/// `<Tables> = OsdiNode <nodes> [ ] = { <NodeRows> } ; OsdiJacobianEntry <entries> [ ] = { <EntryRows> } ; ..`
pub const TABLES: u16 = 111;

/// `<NodeRows> = { <NodeRow>`
pub const NODE_ROWS: u16 = 112;

/// `<NodeRow> = .name = <string> , .units = <string> , .residual_units = <string> , .resist_residual_off = ..`
pub const NODE_ROW: u16 = 113;

/// `<NodeRow> = 0 }`
pub const NO_NODE_ROW: u16 = 114;

/// `<EntryRows> = { <EntryRow>`
pub const ENTRY_ROWS: u16 = 115;

/// `<EntryRow> = .nodes = { <Pair> } , .react_ptr_off = <ReactPointer> , .flags = <EntryParts> } , <EntryRows>`
pub const ENTRY_ROW: u16 = 116;

/// `<EntryRow> = 0 }`
pub const NO_ENTRY_ROW: u16 = 117;

/// `<Pair> = .node_1 = <Number> , .node_2 = <SecondNode>`
pub const PAIR: u16 = 118;

/// `<SecondNode> = <Number>`
pub const SECOND_NODE: u16 = 119;

/// `<SecondNode> = UINT32_MAX`
pub const NO_SECOND_NODE: u16 = 120;

/// `<ReactPointer> = offsetof ( <inst> , jq [ <Number> ] )`
pub const REACT_POINTER: u16 = 121;

/// `<ReactPointer> = UINT32_MAX`
pub const NO_REACT_POINTER: u16 = 122;

/// `<EntryParts> = JACOBIAN_ENTRY_RESIST <AndReact>`
pub const RESIST_PARTS: u16 = 123;

/// `<EntryParts> = JACOBIAN_ENTRY_REACT`
pub const REACT_PART: u16 = 124;

/// `<AndReact> = | JACOBIAN_ENTRY_REACT`
pub const AND_REACT: u16 = 125;

/// `<AndReact> = .`
pub const NO_AND_REACT: u16 = 126;

/// `<PairRows> = { <PairRow>`
pub const PAIR_ROWS: u16 = 127;

/// `<PairRow> = <Pair> } , <PairRows>`
pub const PAIR_ROW: u16 = 128;

/// `<PairRow> = 0 }`
pub const NO_PAIR_ROW: u16 = 129;

/// `<ParamRows> = { <ParamRow>`
pub const PARAM_ROWS: u16 = 130;

/// `<ParamRow> = .name = ( char * [ ] ) { <string> <MoreStrings> } , .num_alias = <Number> , .description = ..`
pub const PARAM_ROW: u16 = 131;

/// `<ParamRow> = 0 }`
pub const NO_PARAM_ROW: u16 = 132;

/// `<MoreStrings> = , <string> <MoreStrings>`
pub const MORE_STRINGS: u16 = 133;

/// `<MoreStrings> = .`
pub const NO_MORE_STRINGS: u16 = 134;

/// `<ParamType> = PARA_TY_REAL`
pub const REAL_PARAM: u16 = 135;

/// `<ParamType> = PARA_TY_INT`
pub const INTEGER_PARAM: u16 = 136;

/// `<ParamKind> = PARA_KIND_INST`
pub const INSTANCE_PARAM: u16 = 137;

/// `<ParamKind> = PARA_KIND_MODEL`
pub const MODEL_PARAM: u16 = 138;

/// `<ParamKind> = PARA_KIND_OPVAR`
pub const OPVAR: u16 = 139;

/// `<Exports> = const uint32_t OSDI_VERSION_MAJOR = 0u ; const uint32_t OSDI_VERSION_MINOR = 3u ; const ..`
pub const EXPORTS: u16 = 140;

/// `<Descriptors> = { <Descriptor>`
pub const DESCRIPTORS: u16 = 141;

/// `<Descriptor> = .name = <string> , .num_nodes = <Number> , .num_terminals = <Number> , .nodes = <nodes> , ..`
pub const DESCRIPTOR: u16 = 142;

/// `<Descriptor> = 0 }`
pub const NO_DESCRIPTOR: u16 = 143;
