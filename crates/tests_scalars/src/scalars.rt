//! Which scalars are told, and how: what readers by YAML 1.1 (PyYAML, Psych) and by the core schema of YAML 1.2 make of each.
use snap_explain_scalars::{Otherwise, read_elsewhere};
use std::test::Fail;

#[test]
fn numbers(rt: HostRuntime) -> Result<(), Fail> {
    for text in ["08053", "007", "00", "-017", "+01", "-00", "0000"] {
        assert_eq!(rt;
            read_elsewhere(text),
            Some(Otherwise::TextOrNumber),
            "{text}"
        );
    }
    for text in [
        "0o17", "0o0", "0o-7", "+1", "+0", "++1", "+-1", "0x-1F", "0x+1f",
    ] {
        assert_eq!(rt; read_elsewhere(text), Some(Otherwise::Text), "{text}");
    }
    for text in [
        "1_000",
        "-1_000_",
        "+1_0",
        "0_7",
        "0b101",
        "-0b1",
        "0b1_0",
        "-0x1F",
        "0x1_F",
        "0xcbf29ce484222325",
        ".NaN",
    ] {
        assert_eq!(rt; read_elsewhere(text), Some(Otherwise::Number), "{text}");
    }
    Ok(())
}

#[test]
fn others(rt: HostRuntime) -> Result<(), Fail> {
    for text in [
        "yes", "Yes", "YES", "no", "No", "NO", "on", "On", "ON", "off", "Off", "OFF", "True",
        "TRUE", "False", "FALSE",
    ] {
        assert_eq!(rt; read_elsewhere(text), Some(Otherwise::Truth), "{text}");
    }
    for (text, otherwise) in [
        ("Null", Otherwise::Null),
        ("NULL", Otherwise::Null),
        ("2001-12-14", Otherwise::Date),
        ("<<", Otherwise::MergeKey),
        ("=", Otherwise::DefaultKey),
    ] {
        assert_eq!(rt; read_elsewhere(text), Some(otherwise), "{text}");
    }
    Ok(())
}

#[test]
fn untold(rt: HostRuntime) -> Result<(), Fail> {
    for text in [
        "",
        "0",
        "-0",
        "7",
        "-17",
        "8053",
        "0x1F",
        "0x00",
        "0xcbf29",
        "true",
        "false",
        "null",
        "~",
        "y",
        "n",
        "Y",
        "N",
        "yES",
        "nO",
        "oN",
        "tRUE",
        "nULL",
        "yes please",
        "nothing",
        "12:30",
        "1:02:03",
    ] {
        assert_eq!(rt; read_elsewhere(text), None, "{text}");
    }
    for text in [
        "2001-1-1",
        "20011-2-14",
        "2001-12-1x",
        "2001-12-14T21:59:43Z",
        "2001-12-14 21:59:43",
        "-2001-12-14",
        "_1",
        "0o8",
        "0b",
        "0b2",
        "0x",
        "0xg",
        "0B1",
        "0X1F",
        "1_x",
        "-",
        "+",
        "--1",
        "<",
        "==",
        ".nan",
        ".",
        "é",
        "١٢",
        "08:053",
        "0é",
    ] {
        assert_eq!(rt; read_elsewhere(text), None, "{text}");
    }
    Ok(())
}

#[test]
fn words(rt: HostRuntime) -> Result<(), Fail> {
    for (otherwise, text) in [
        (
            Otherwise::TextOrNumber,
            "a number here, and a text or another number to some other readers of YAML",
        ),
        (
            Otherwise::Text,
            "a number here, and a text to some other readers of YAML",
        ),
        (
            Otherwise::Truth,
            "a text here, and a truth value to some other readers of YAML",
        ),
        (
            Otherwise::Null,
            "a text here, and null to some other readers of YAML",
        ),
        (
            Otherwise::Number,
            "a text here, and a number to some other readers of YAML",
        ),
        (
            Otherwise::Date,
            "a text here, and a date to some other readers of YAML",
        ),
        (
            Otherwise::MergeKey,
            "a text here, and a merge key to some other readers of YAML",
        ),
        (
            Otherwise::DefaultKey,
            "a text here, and a default key to some other readers of YAML",
        ),
    ] {
        assert_eq!(rt; otherwise.text(), text);
    }
    Ok(())
}
