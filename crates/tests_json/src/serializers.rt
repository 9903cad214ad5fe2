//! Several values after one another, and what stands before a value that is refused.
use snap_content::{Content, Items, OutOfMemory, Pairs};
use snap_json::{JsonError, Serializer};
use std::alloc::Global;
use std::process::Abort;
use std::test::Fail;

#[test]
fn a_serializer_adds_values_one_behind_the_other(rt: HostRuntime) -> Result<(), Fail> {
    let mut serializer = Serializer::new(rt.alloc());
    serializer.serialize(&Content::Bool(true))?;
    serializer.serialize(&Content::Bool(true))?;
    serializer.serialize(&Content::Unit)?;
    assert_eq!(rt; serializer.into_result().as_str(), "truetruenull");
    Ok(())
}

/// A list of a number, and a map with a key that JSON has no form for.
fn list_of_refused(alloc: Global) -> Result<Content, OutOfMemory> {
    let mut pairs = Pairs::new(alloc);
    pairs.push((Content::Char('c'), Content::Bool(true)))?;
    let mut items = Items::new(alloc);
    items.push(Content::U8(1))?;
    items.push(Content::Map(pairs))?;
    Ok(Content::Seq(items))
}

#[test]
fn what_stands_before_a_refused_key_is_left(rt: HostRuntime) -> Result<(), Fail> {
    let list = list_of_refused(rt.alloc())?;
    let mut serializer = Serializer::new(rt.alloc());
    serializer.serialize(&Content::Bool(true))?;
    let refused = serializer.serialize(&list);
    assert!(rt; matches!(refused, Err(JsonError::JsonKey)));
    assert_eq!(rt; serializer.into_result().as_str(), "true[1,{");
    Ok(())
}
