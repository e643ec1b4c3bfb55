use std::test::Fail;
use tl_grammar::{Expected, ParseFault, Statement};
use tl_lex::{LexFault, LexKind};
use tl_parse::{ParseError, parse};

/// What a text is refused for, as an independent reference finds it.
static FAULTS: [(&str, u32, Expected); 20] = [
    ("", 0, Expected::Word),
    ("SELECT", 6, Expected::Sign),
    ("SELECT a b FROM t", 9, Expected::Sign),
    ("SELECT a FROM t WHERE a", 23, Expected::Sign),
    ("SELECT a FROM t WHERE (a = 1", 28, Expected::Word),
    ("SELECT a FROM t LIMIT - 1", 22, Expected::Number),
    ("SELECT COUNT(*), SUM(*) FROM t", 21, Expected::Name),
    ("SELECT a FROM t ORDER BY", 24, Expected::Name),
    ("SELECT a FROM t JOIN u", 22, Expected::Word),
    ("SELECT a FROM select", 14, Expected::Name),
    ("SELECT * , a FROM t", 9, Expected::Word),
    ("SELECT - a FROM t", 9, Expected::Number),
    ("INSERT INTO t VALUES (1,)", 24, Expected::Sign),
    ("INSERT INTO t (a VALUES (1)", 17, Expected::Sign),
    (
        "CREATE TABLE t (a INT, PRIMARY KEY (a), b INT)",
        38,
        Expected::Sign,
    ),
    ("CREATE TABLE t (a)", 17, Expected::Word),
    ("UPDATE t SET a = 1 WHERE NOT", 28, Expected::Word),
    ("DELETE t", 7, Expected::Word),
    ("RECOVER 17", 8, Expected::Number),
    ("BEGIN;;", 6, Expected::End),
];

fn fault(rt: &HostRuntime, text: &str) -> Option<ParseError> {
    if text.len() > 200 {
        return None;
    }
    parse(rt.alloc(), text).err()
}

#[test]
fn a_text_is_refused_at_its_first_fault(rt: HostRuntime) -> Result<(), Fail> {
    for (text, at, expected) in &FAULTS {
        let wanted = ParseError::Parse(ParseFault {
            at: *at,
            expected: *expected,
        });
        assert!(rt; fault(&rt, text) == Some(wanted), "{text}");
    }
    let lexed = ParseError::Lex(LexFault {
        at: 13,
        kind: LexKind::BadCharacter,
    });
    assert!(rt; fault(&rt, "FROM SELECT (@") == Some(lexed));
    Ok(())
}

fn is_select(rt: &HostRuntime, text: &str) -> bool {
    text.len() <= 200 && matches!(parse(rt.alloc(), text), Ok(Statement::Select { .. }))
}

#[test]
fn statements_are_read(rt: HostRuntime) -> Result<(), Fail> {
    assert!(rt;
        is_select(
            &rt,
            "Select t.a + 2 * (b - -1), count(*) From t As x, u Join v On a = 'it''s' Group By a Order By 1 Desc Limit 3;"
        )
    );
    assert!(rt;
        fault(
            &rt,
            "CREATE TABLE t (a INT NOT NULL, b TEXT, PRIMARY KEY (b, a))"
        )
        .is_none()
    );
    assert!(rt; fault(&rt, "INSERT INTO t (a, b) VALUES (1, 'x'), (-2, NULL)").is_none());
    assert!(rt;
        fault(
            &rt,
            "UPDATE t SET a = a + 1, b = TRUE WHERE NOT (a IS NOT NULL OR b <> 3) AND c >= 4"
        )
        .is_none()
    );
    Ok(())
}
