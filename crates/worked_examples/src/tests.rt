use crate::project::{built, bytes_of, count, put, status_of, tree_with};
use driver_cmd::Status;
use std::test::Fail;
use tree_mem::{MemSink, MemTree};

const ONE: &[u8] =
    b"object a.swift\nglobal one 1\nfunc one:init 0 0 0\n int 1\n store one 0 1\n return 0\nend\n";

const TWO: &[u8] =
    b"object b.swift\nglobal two 1\nfunc two:init 0 0 0\n load one 0 1\n load one 0 1\n add\n store two 0 1\n return 0\nend\n";

const SIZE: &[u8] = b"object Size.swift\nfunc Size:init 1 1 1\n get 0 1\n return 1\nend\n";

const AREA: &[u8] =
    b"object Area.swift\nfunc Size:area 1 1 1\n get 0 1\n field 0 1 1\n int 2\n mul\n return 1\nend\nfunc run 0 0 0\n int 3\n call Size:init 1 1\n call Size:area 1 1\n print.Int\n return 0\nend\n";

const MODULE: &[u8] = b"module M\ninternal let one Int\ninternal let two Int\n";

const RECORD: &[u8] =
    b"{\"files\":{\"a.swift\":[1,0,12,\"clean\"],\"b.swift\":[1,0,20,\"clean\"]},\"map\":null,\"module\":\"M\",\"version\":1}";

const DIRTY_RECORD: &[u8] =
    b"{\"files\":{\"a.swift\":[1,0,54,\"dirty\"]},\"map\":null,\"module\":\"M\",\"version\":1}";

const OPEN_GATE: &[u8] = &[1];

#[test]
fn objects_are_left(rt: HostRuntime) -> Result<(), Fail> {
    let alloc = rt.alloc();
    let mut tree = tree_with(alloc, "b.swift", "let two = one + one\n")?;
    put(&mut tree, "a.swift", "let one = 1\n")?;
    let mut out = MemSink::new(alloc);
    assert!(rt; built(&rt, &mut tree, &mut out)? == Status::Done);
    assert!(rt; out.bytes().is_empty());
    assert!(rt; count(alloc, &mut tree)? == 11);
    assert!(rt; bytes_of(alloc, &mut tree, "a.o")?.as_slice() == ONE);
    assert!(rt; bytes_of(alloc, &mut tree, "b.o")?.as_slice() == TWO);
    assert!(rt; bytes_of(alloc, &mut tree, "M.swiftmodule")?.as_slice() == MODULE);
    assert!(rt; bytes_of(alloc, &mut tree, "M.record.json")?.as_slice() == RECORD);
    assert!(rt; bytes_of(alloc, &mut tree, "M.gate")?.as_slice() == OPEN_GATE);
    Ok(())
}

#[test]
fn a_module_without_sources_has_its_own_files(rt: HostRuntime) -> Result<(), Fail> {
    let alloc = rt.alloc();
    let mut tree = MemTree::new(alloc)?;
    let mut out = MemSink::new(alloc);
    assert!(rt; built(&rt, &mut tree, &mut out)? == Status::Done);
    assert!(rt; count(alloc, &mut tree)? == 5);
    Ok(())
}

#[test]
fn structs_have_extensions_in_other_files(rt: HostRuntime) -> Result<(), Fail> {
    let alloc = rt.alloc();
    let mut tree = tree_with(
        alloc,
        "Size.swift",
        "struct Size {\n    let width: Int\n}\n",
    )?;
    put(
        &mut tree,
        "Area.swift",
        "extension Size {\n    var area: Int { return width * 2 }\n}\nfunc run() {\n    print(Size(width: 3).area)\n}\n",
    )?;
    let mut out = MemSink::new(alloc);
    assert!(rt; built(&rt, &mut tree, &mut out)? == Status::Done);
    assert!(rt; out.bytes().is_empty());
    assert!(rt; bytes_of(alloc, &mut tree, "Size.o")?.as_slice() == SIZE);
    assert!(rt; bytes_of(alloc, &mut tree, "Area.o")?.as_slice() == AREA);
    Ok(())
}

#[test]
fn errors_come_by_place(rt: HostRuntime) -> Result<(), Fail> {
    let alloc = rt.alloc();
    let mut tree = tree_with(
        alloc,
        "a.swift",
        "let one = missing\nfunc name() -> Int { return \"one\" }\n",
    )?;
    let mut out = MemSink::new(alloc);
    assert!(rt; built(&rt, &mut tree, &mut out)? == Status::Errors);
    let lines =
        b"a.swift:1:11: error: cannot find 'missing' in scope\na.swift:2:29: error: cannot convert value of type 'String' to 'Int'\n";
    assert!(rt; out.bytes() == lines.as_slice());
    assert!(rt; count(alloc, &mut tree)? == 3);
    assert!(rt; bytes_of(alloc, &mut tree, "M.record.json")?.as_slice() == DIRTY_RECORD);
    assert!(rt; bytes_of(alloc, &mut tree, "M.gate")?.as_slice() == OPEN_GATE);
    Ok(())
}

#[test]
fn files_without_a_tree_are_refused(rt: HostRuntime) -> Result<(), Fail> {
    let alloc = rt.alloc();
    let mut tree = tree_with(alloc, "c.swift", "func f( { }\n")?;
    put(&mut tree, "d.swift", "let a = $\n")?;
    put(&mut tree, "e.swift", "let b = missing\n")?;
    let mut out = MemSink::new(alloc);
    assert!(rt; built(&rt, &mut tree, &mut out)? == Status::Errors);
    let lines = b"c.swift:1:9: error: unexpected '{'\nd.swift:1:9: error: character not allowed\n";
    assert!(rt; out.bytes() == lines.as_slice());
    assert!(rt; count(alloc, &mut tree)? == 0);
    Ok(())
}

#[test]
fn circles_are_errors(rt: HostRuntime) -> Result<(), Fail> {
    let alloc = rt.alloc();
    let mut tree = tree_with(alloc, "a.swift", "let a = b\n")?;
    put(&mut tree, "b.swift", "let b = a\n")?;
    let mut out = MemSink::new(alloc);
    assert!(rt; built(&rt, &mut tree, &mut out)? == Status::Errors);
    let lines =
        b"a.swift:1:5: error: circular reference through 'a'\nb.swift:1:5: error: circular reference through 'b'\n";
    assert!(rt; out.bytes() == lines.as_slice());
    Ok(())
}

#[test]
fn objects_of_removed_sources_go(rt: HostRuntime) -> Result<(), Fail> {
    let alloc = rt.alloc();
    let mut tree = tree_with(alloc, "a.swift", "let one = 1\n")?;
    put(&mut tree, "sub/b.swift", "let two = 2\n")?;
    let mut out = MemSink::new(alloc);
    assert!(rt; built(&rt, &mut tree, &mut out)? == Status::Done);
    assert!(rt; count(alloc, &mut tree)? == 11);
    assert!(rt; tree.remove_source("sub/b.swift"));
    assert!(rt; built(&rt, &mut tree, &mut out)? == Status::Done);
    assert!(rt; count(alloc, &mut tree)? == 8);
    Ok(())
}

#[test]
fn words_have_places(rt: HostRuntime) -> Result<(), Fail> {
    let alloc = rt.alloc();
    let mut tree = tree_with(alloc, "a.swift", "let one = 1\n")?;
    let mut out = MemSink::new(alloc);
    assert!(rt; status_of(&rt, "", &mut tree, &mut out)? == Status::Usage { at: 0 });
    assert!(rt; status_of(&rt, "build", &mut tree, &mut out)? == Status::Usage { at: 1 });
    assert!(rt;
        status_of(&rt, "build -module-name let", &mut tree, &mut out)? == Status::Usage { at: 2 }
    );
    assert!(rt;
        status_of(&rt, "build -module-name M -j4", &mut tree, &mut out)? == Status::Usage { at: 3 }
    );
    assert!(rt; tree.calls().is_empty());
    Ok(())
}

#[test]
fn a_failing_tree_ends_the_build(rt: HostRuntime) -> Result<(), Fail> {
    let alloc = rt.alloc();
    let mut tree = tree_with(alloc, "a.swift", "let one = 1\n")?;
    let mut numbers = Vec::new(alloc);
    numbers.push(1)?;
    tree.fail_calls(numbers);
    let mut out = MemSink::new(alloc);
    assert!(rt; built(&rt, &mut tree, &mut out)? == Status::TreeFault);
    assert!(rt; out.bytes().is_empty());
    Ok(())
}

#[test]
fn a_failing_sink_ends_the_build(rt: HostRuntime) -> Result<(), Fail> {
    let alloc = rt.alloc();
    let mut tree = tree_with(alloc, "a.swift", "let one = two\n")?;
    let mut out = MemSink::failing(alloc);
    assert!(rt; built(&rt, &mut tree, &mut out)? == Status::SinkFault);
    Ok(())
}
