//! Texts, with what was found in them apart from this code.

use std::test::Fail;
use tl_lex::LexKind::{BadCharacter, LongName, Unclosed, Wide};
use tl_lex::{LexError, LexFault, LexKind, Token, TokenKind, lex};

/// Below each byte of a text the letter of its token's kind, a capital where the token begins.
static TOKENS: [(&str, &[u8]); 13] = [
    ("SELECT * FROM nosuch", b"Nnnnnn S Nnnn Nnnnnn"),
    ("it''s 'it''s' ''''", b"NnTtN Ttttttt Tttt"),
    ("12ab", b"DdNn"),
    ("a<=b<>c!=d<e", b"NSsNSsNSsNSN"),
    ("000000000000000000000007", b"Dddddddddddddddddddddddd"),
    ("(-\t9223372036854775808", b"SS Ddddddddddddddddddd"),
    ("limit -9223372036854775808", b"Nnnnn SDdddddddddddddddddd"),
    ("1--9223372036854775808", b"DSSDdddddddddddddddddd"),
    ("'é€',", b"TttttttS"),
    (
        "a234567890123456789012345678901",
        b"Nnnnnnnnnnnnnnnnnnnnnnnnnnnnnnn",
    ),
    ("9223372036854775807", b"Ddddddddddddddddddd"),
    ("", b""),
    (" \t ", b"   "),
];

static FAULTS: [(&str, u32, LexKind); 12] = [
    ("INSERT INTO account VALUES ('ab", 28, Unclosed),
    ("é", 0, BadCharacter),
    ("x\n", 1, BadCharacter),
    ("9223372036854775808", 0, Wide),
    ("-9223372036854775809", 1, Wide),
    ("True -9223372036854775808", 6, Wide),
    ("a.b - 9223372036854775808", 6, Wide),
    ("a234567890123456789012345678901b", 0, LongName),
    ("12 @ 'ab", 3, BadCharacter),
    ("x !", 2, BadCharacter),
    ("a\r", 1, BadCharacter),
    ("'ab''", 0, Unclosed),
];

fn is_drawn(token: &Token, drawing: &[u8]) -> bool {
    let letter = match token.kind {
        TokenKind::Name => b'N',
        TokenKind::Number => b'D',
        TokenKind::Text => b'T',
        TokenKind::Sign => b'S',
    };
    match drawing.get(token.start as usize..token.end as usize) {
        Some([first, more @ ..]) => *first == letter && more.iter().all(|b| b.is_ascii_lowercase()),
        _ => false,
    }
}

#[test]
fn texts_are_their_tokens_or_their_first_fault(rt: HostRuntime) -> Result<(), Fail> {
    for (text, drawing) in &TOKENS {
        assert!(rt; text.len() < 100);
        let tokens = lex(rt.alloc(), text)?;
        let begin = drawing.iter().filter(|b| b.is_ascii_uppercase()).count();
        assert_eq!(rt; tokens.len(), begin);
        assert!(rt; tokens.iter().all(|token| is_drawn(token, drawing)));
    }
    for (text, at, kind) in &FAULTS {
        assert!(rt; text.len() < 100);
        let fault = LexError::Fault(LexFault {
            at: *at,
            kind: *kind,
        });
        assert_eq!(rt; lex(rt.alloc(), text).err(), Some(fault));
    }
    Ok(())
}
