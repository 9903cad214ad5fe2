//! Documents looked into by the readers of values.
use snap_parse::{Yaml, YamlLoader};
use std::process::Abort;
use std::test::Fail;

/// The number that was found.
fn number(found: Option<&Yaml>) -> Option<i64> {
    match found {
        Some(held) => held.as_i64(),
        None => None,
    }
}

/// The text that was found.
fn text(found: Option<&Yaml>) -> Option<&str> {
    match found {
        Some(held) => held.as_str(),
        None => None,
    }
}

/// What stands after the text, where something was found.
fn behind<'a>(found: Option<&'a Yaml>, key: &str) -> Option<&'a Yaml> {
    match found {
        Some(held) => held.get(key),
        None => None,
    }
}

/// What stands at the index, where something was found.
fn at(found: Option<&Yaml>, index: usize) -> Option<&Yaml> {
    match found {
        Some(held) => held.get_at(index),
        None => None,
    }
}

#[test]
fn a_document_is_looked_into_by_keys_and_indexes(rt: HostRuntime) -> Result<(), Fail> {
    let documents = YamlLoader::load_from_str(rt.alloc(), "---\na: 1\nb: 2.2\nc: [1, 2]\n")?;
    let document = documents.get(0);
    assert_eq!(rt; number(behind(document, "a")), Some(1));
    assert_eq!(rt; number(at(behind(document, "c"), 1)), Some(2));
    assert!(rt; at(behind(document, "d"), 0).is_none());
    Ok(())
}

#[test]
fn a_number_may_be_a_key(rt: HostRuntime) -> Result<(), Fail> {
    let source = "\n0:\n    important: true\n1:\n    important: false\n";
    let documents = YamlLoader::load_from_str(rt.alloc(), source)?;
    let important = behind(at(documents.get(0), 0), "important");
    assert!(rt; important == Some(&Yaml::Boolean(true)));
    Ok(())
}

#[test]
fn a_list_of_mappings_is_looked_into(rt: HostRuntime) -> Result<(), Fail> {
    let source = "# an example\n- name: Ogre\n  position: [0, 5, 0]\n- name: Dragon\n";
    let documents = YamlLoader::load_from_str(rt.alloc(), source)?;
    let first = at(documents.get(0), 0);
    assert_eq!(rt; text(behind(first, "name")), Some("Ogre"));
    assert_eq!(rt; number(at(behind(first, "position"), 1)), Some(5));
    Ok(())
}

#[test]
fn items_are_taken_one_by_one(rt: HostRuntime) -> Result<(), Fail> {
    let source = "- 'string'\n- 123\n- !!bool false\n- 0o77\n";
    let documents = YamlLoader::load_from_str(rt.alloc(), source)?;
    let mut items = Yaml::Array(documents).into_iter();
    let mut document = items.next().ok_or("no document")?.into_iter();
    let first = document.next().ok_or("no item")?;
    assert!(rt; first.into_string().ok_or("no text")?.as_str() == "string");
    assert_eq!(rt; document.next().ok_or("no item")?.into_i64(), Some(123));
    assert_eq!(rt; document.next().ok_or("no item")?.into_bool(), Some(false));
    assert_eq!(rt; document.next().ok_or("no item")?.into_i64(), Some(63));
    assert!(rt; document.next().is_none() && items.next().is_none());
    Ok(())
}
