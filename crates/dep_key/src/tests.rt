use super::*;
use std::alloc::Global;
use std::test::Fail;

#[test]
fn paths_and_names_are_ordered_by_bytes(rt: HostRuntime) -> Result<(), Fail> {
    let alloc = rt.alloc();
    let a = Path::from_str(alloc, "a.swift")?;
    let b = Path::from_str(alloc, "b.swift")?;
    assert!(rt; a < b);
    assert_eq!(rt; a.clone()?, a);
    assert_eq!(rt; a.as_str(), "a.swift");
    assert_eq!(rt; b.into_string().as_str(), "b.swift");
    let upper = Name::from_str(alloc, "Z")?;
    let lower = Name::from_str(alloc, "a")?;
    assert!(rt; upper < lower);
    assert_eq!(rt; upper.clone()?.as_str(), "Z");
    Ok(())
}

#[test]
fn short_and_long_names_are_copied(rt: HostRuntime) -> Result<(), Fail> {
    let alloc = rt.alloc();
    let short = Name::from_string(String::from_str(alloc, "sixteen_bytes_in")?)?;
    let long = Name::from_string(String::from_str(alloc, "seventeen_bytes_in")?)?;
    assert_eq!(rt; short.as_str().len(), 16);
    assert_eq!(rt; short.clone()?.as_str(), "sixteen_bytes_in");
    assert_eq!(rt; long.clone()?.as_str(), "seventeen_bytes_in");
    assert_eq!(rt; Name::from_str(alloc, "seventeen_bytes_in")?, long);
    assert!(rt; long < short);
    Ok(())
}

#[test]
fn texts_are_bytes(rt: HostRuntime) -> Result<(), Fail> {
    let alloc = rt.alloc();
    let text = Text::from_slice(alloc, b"let x")?;
    let longer = Text::from_slice(alloc, b"let x = 1")?;
    assert!(rt; text < longer);
    assert_eq!(rt; text.clone()?, text);
    assert_eq!(rt; text.as_slice(), b"let x".as_slice());
    assert_eq!(rt; text.into_vec().len(), 5);
    Ok(())
}

fn top_level(alloc: Global, name: &str) -> Result<Key, NoMemory> {
    Ok(Key::top_level(Name::from_str(alloc, name)?))
}

#[test]
fn keys_are_ordered_by_kind_and_name(rt: HostRuntime) -> Result<(), Fail> {
    let alloc = rt.alloc();
    let one = top_level(alloc, "one")?;
    let two = top_level(alloc, "two")?;
    let file = Key::source_file(alloc, "a.swift")?;
    assert!(rt; one < two);
    assert!(rt; two < file);
    assert_eq!(rt; one.clone()?, one);
    assert!(rt; one.has_shape());
    let none = top_level(alloc, "")?;
    assert!(rt; !none.has_shape());
    Ok(())
}

#[test]
fn a_graph_is_checked(rt: HostRuntime) -> Result<(), Fail> {
    let alloc = rt.alloc();
    let mut uses = Vec::new(alloc);
    uses.push(top_level(alloc, "two")?)?;
    uses.push(top_level(alloc, "one")?)?;
    let mut nodes = Vec::new(alloc);
    nodes.push(Node {
        key: top_level(alloc, "two")?,
        print: Text::from_slice(alloc, b"")?,
        uses: Keys::from_vec(uses),
    })?;
    let graph = FileGraph {
        path: Path::from_str(alloc, "b.swift")?,
        nodes: Nodes::from_vec(nodes),
    };
    assert_eq!(rt; graph.check(), Some(Unsorted { at: 0 }));
    assert_eq!(rt; graph.clone()?, graph);
    Ok(())
}
