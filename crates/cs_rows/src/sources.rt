// The calls of `cs_tool` without a source, which the program never makes.
use cs_tool::{Fault, agree, export, vet};
use std::alloc::Global;

fn is_unknown_root(refusal: &Option<Fault>) -> bool {
    matches!(refusal, Some(Fault::UnknownRoot))
}

/// Whether a package of no sources is refused for its root by `export`, `vet` and `agree`.
fn is_nothing_declared(alloc: Global) -> bool {
    let exported = export(alloc, &[], "#A").err();
    let vetted = vet(alloc, &[], "#A", b"1").err();
    let agreed = agree(alloc, &[], "#A", b"1").err();
    is_unknown_root(&exported) && is_unknown_root(&vetted) && is_unknown_root(&agreed)
}

#[test]
fn no_sources_declare_no_root(rt: HostRuntime) {
    assert!(rt; is_nothing_declared(rt.alloc()));
}
