//! The four files whose runs were worked by hand.
use c_runs::{diode, inductor, power, resistor};
use std::test::Fail;

#[test]
fn texts_are_whole(rt: HostRuntime) -> Result<(), Fail> {
    let rows = [
        (resistor::text(), ".name = \"resistor\" , .num_nodes = 2u"),
        (diode::text(), ".name = \"diode\" , .num_nodes = 3u"),
        (inductor::text(), ".name = \"inductor\" , .num_nodes = 3u"),
        (power::text(), ".name = \"power\" , .num_nodes = 1u"),
    ];
    for (text, name) in rows {
        assert!(rt; text.starts_with("#include \"osdi_0_3.h\"\n"));
        assert!(rt; text.contains(name));
        assert!(rt; text.ends_with(", {\n0 }\n}\n;\n"));
    }
    Ok(())
}
