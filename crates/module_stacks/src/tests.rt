//! Tests of what no clause says: a map of many modules is made if there is enough memory.
use crate::module_map::ModuleMap;
use core_file::Module;
use std::alloc::{AllocError, Global};
use sym_edges::ByteRun;

fn module(alloc: Global, start: u64, end: u64) -> Module {
    Module {
        start,
        end,
        base: start,
        name: ByteRun::of(Vec::new(alloc)),
        build_id: None,
    }
}

#[test]
fn a_thousand_modules_within_one(rt: HostRuntime) -> Result<(), AllocError> {
    let alloc = rt.alloc();
    let mut modules = Vec::new(alloc);
    modules.push(module(alloc, 0, 1 << 40))?;
    for k in 0..1000u64 {
        let start = (k + 1) << 20;
        modules.push(module(alloc, start, start + 4096))?;
    }
    let map = ModuleMap::of(alloc, modules.as_slice())
        .ok()
        .expect(&rt, "a map");
    assert_eq!(rt; map.at(0), Some(0));
    assert_eq!(rt; map.at(500 << 20), Some(500));
    assert_eq!(rt; map.at((500 << 20) + 4095), Some(500));
    assert_eq!(rt; map.at((500 << 20) + 4096), Some(0));
    assert_eq!(rt; map.at(1 << 40), None);
    Ok(())
}
