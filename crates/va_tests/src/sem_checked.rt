//! A checked text of one module.
ghost use Rattle.std.specs.Prelude.{◌≡◌, IfOk};
ghost use Rattle.va_tests.specs.LoneModule.{lone_module, lone_names, lone_types};

use std::alloc::{AllocError, Global};
use std::test::Fail;
use va_base::{Items, Name};
use va_sem::{Checked, Meaning, ModuleNames, NameUse, Names, Typed};
use va_tree::{Module, Source};

/// `module m; endmodule`
fn lone_text(alloc: Global) -> Result<Source, AllocError>
    ensures { IfOk result (λ s. s ≡ lone_module) }
{
    let module = Module {
        attributes: Items::new(Vec::new(alloc)),
        at: 1,
        name: Name::new(b"m".to_vec(alloc)?),
        ports: Items::new(Vec::new(alloc)),
        items: Items::new(Vec::new(alloc)),
    };
    let modules = vec![in alloc; module]?;
    Ok(Source {
        natures: Items::new(Vec::new(alloc)),
        disciplines: Items::new(Vec::new(alloc)),
        modules: Items::new(modules),
    })
}

/// What its names mean.
fn names_of_text(alloc: Global) -> Result<Names, AllocError>
    ensures { IfOk result (λ n. n ≡ lone_names) }
{
    let own = NameUse {
        at: 1,
        meaning: Meaning::Module(0),
    };
    let uses = vec![in alloc; own]?;
    let module = ModuleNames {
        nodes: Items::new(Vec::new(alloc)),
        ports: 0,
        branches: Items::new(Vec::new(alloc)),
        params: Items::new(Vec::new(alloc)),
        vars: Items::new(Vec::new(alloc)),
        functions: Items::new(Vec::new(alloc)),
        uses: Items::new(uses),
    };
    let modules = vec![in alloc; module]?;
    Ok(Names {
        modules: Items::new(modules),
        uses: Items::new(Vec::new(alloc)),
    })
}

/// The types of its expressions, of which there are none.
fn types_of_text(alloc: Global) -> Typed
    ensures { result ≡ lone_types }
{
    Typed {
        exprs: Items::new(Vec::new(alloc)),
    }
}

#[test]
fn gives_what_it_was_made_of(rt: HostRuntime) -> Result<(), Fail> {
    let alloc = rt.alloc();
    let source = lone_text(alloc)?;
    let names = names_of_text(alloc)?;
    let sealed = Checked::seal(alloc, source, names, types_of_text(alloc));
    let checked = sealed.ok().ok_or("not sealed")?;
    checked.keeps_rules();
    assert_eq!(rt; checked.source().modules.as_list().len(), 1);
    assert_eq!(rt; checked.names().modules.as_list().len(), 1);
    assert_eq!(rt; checked.typed().exprs.as_list().len(), 0);
    assert_eq!(rt; checked.kinds(0).len(), 0);
    assert_eq!(rt; checked.unknowns(0).len(), 0);
    Ok(())
}
