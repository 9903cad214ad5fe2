//! The first scalar of a document that is told, and where it stands.
use snap_explain_scalars::first_otherwise;
use std::test::Fail;

#[test]
fn found(rt: HostRuntime) -> Result<(), Fail> {
    let alloc = rt.alloc();
    for (document, before, text) in [
        ("yes", 0, "yes"),
        ("---\nzip: 08053\nup: +1\n", 9, "08053"),
        ("--- 0o17\n", 4, "0o17"),
        ("a: 1\nno: 2\n", 5, "no"),
        ("a: on\r\nb: 1\r\n", 3, "on"),
        ("- 1\n- - off # c\n", 8, "off"),
        ("[1, True]", 4, "True"),
        ("{a: 1,no}", 6, "no"),
        ("{\"a\":NULL}", 5, "NULL"),
        ("{yes : 1}", 1, "yes"),
        ("{a: [x,{b: =}]}", 11, "="),
        ("? 1_000\n: b\n", 2, "1_000"),
    ] {
        let found = first_otherwise(alloc, document)?;
        match &found {
            None => assert!(rt; false, "{document}"),
            Some(found) => {
                assert_eq!(rt; found.text.as_str(), text, "{document}");
                assert_eq!(rt; found.before, before, "{document}");
            }
        }
    }
    Ok(())
}

#[test]
fn further(rt: HostRuntime) -> Result<(), Fail> {
    let alloc = rt.alloc();
    for (document, before, text) in [
        ("äöü: €\nb: yes\n", 10, "yes"),
        ("a: 𝄞 # 𝄞\nb: 2001-12-14", 12, "2001-12-14"),
        ("a: &x 0b1\nb: *x\n", 6, "0b1"),
        ("base: &b {a: 1}\nc:\n  <<: *b\n", 21, "<<"),
        ("a: \"yes\"\nb: 'no'\nc: |\n  off\nd: on\n", 31, "on"),
        ("a: !!str yes\nb: !x no\nc: off\n", 25, "off"),
        ("a:\n  yes\n\n  # c\nb: 1\n", 5, "yes"),
        ("a: yes \t\n", 3, "yes"),
        ("a: yes\0b: no", 3, "yes"),
        ("a: yes\n---\nb: no\n", 3, "yes"),
        ("- yes", 2, "yes"),
        ("[yes,no]", 1, "yes"),
        ("{\"a\":00}", 5, "00"),
        ("{\"at\":\"10:00\",\"zip\":08053}", 20, "08053"),
    ] {
        let found = first_otherwise(alloc, document)?;
        match &found {
            None => assert!(rt; false, "{document}"),
            Some(found) => {
                assert_eq!(rt; found.text.as_str(), text, "{document}");
                assert_eq!(rt; found.before, before, "{document}");
            }
        }
    }
    Ok(())
}

#[test]
fn none(rt: HostRuntime) -> Result<(), Fail> {
    let alloc = rt.alloc();
    for document in [
        "",
        "a: 1\nb: text\nc: [true, false, null, ~]\n",
        "a: \"yes\"\n'no': 'on'\n",
        "{\"yes\": \"08053\", 'no': \"1e3\"}",
        "a: |\n  yes\n  08053\nb: >\n  no\n",
        "a: !!str yes\nb: !!int 08\nc: !x no\n",
        "a: yes please\nb: it is on\nc: no, yes\n",
        "a: x:yes\nb: 12:30\nc: yes:x\n",
        "a: \"2026-12-01T00:00:59\"\nb: 08:00:07\nc: {d: [x:00,0:01]}\n",
        "a: yes\n  or no\n",
        "# yes\na: 1 # no\n",
        "a: yes#\nb: \"x: yes\"\n",
        "a: &yes 1\nb: *yes\n",
        "a: 2001-12-14T21:59:43Z\nb: 2001-12-14 21:59:43\n",
        "a: y\nb: n\n",
        "a: 1\0b: yes\n",
    ] {
        assert!(rt;
            matches!(first_otherwise(alloc, document)?, None),
            "{document}"
        );
    }
    Ok(())
}
