use conf_lexer::{Head, LexError, first, next_line, split_at_first, split_head, split_words};
use ssh_fields::Text;
use std::alloc::Global;
use std::test::Fail;

// The words of a rest, a bar after each.
fn barred(alloc: Global, rest: &[u8]) -> Result<Text, LexError> {
    let words = split_words(alloc, rest)?;
    let mut text = Text::new(alloc);
    for word in words.as_slice() {
        text.add(word.as_bytes())?;
        text.push(b'|')?;
    }
    Ok(text)
}

// Whether a rest is split into these words, or refused so.
fn is_split_so(alloc: Global, rest: &str, want: Result<&str, LexError>) -> bool {
    match barred(alloc, rest.as_bytes()) {
        Ok(text) => matches!(want, Ok(words) if text.as_bytes() == words.as_bytes()),
        Err(e) => want.err() == Some(e),
    }
}

#[test]
fn words_are_split_at_blanks_outside_quotes(rt: HostRuntime) {
    for (rest, want) in [
        ("db web", Ok("db|web|")),
        ("\"a b\"c 'd'", Ok("a bc|d|")),
        ("a\\ b \\\"c \\d", Ok("a b|\"c|\\d|")),
        ("\"\" x#y # z", Ok("|x#y|")),
        ("a \"b", Err(LexError::OpenQuote { at: 2 })),
        ("# a", Err(LexError::NoArgument)),
    ] {
        assert!(rt; is_split_so(rt.alloc(), rest, want), "{rest}");
    }
}

#[test]
fn a_line_is_a_keyword_and_a_rest(rt: HostRuntime) -> Result<(), Fail> {
    match split_head(b"\t Port =  2222 \r") {
        Ok(Head::Line { keyword, rest }) => {
            assert!(rt; keyword == b"Port".as_slice());
            assert!(rt; rest == b"2222".as_slice());
        }
        _ => assert!(rt; false),
    }
    for (line, want) in [
        ("Port = = 2", LexError::TwoEquals { at: 7 }),
        ("Port =", LexError::NoArgument),
        ("# \0", LexError::ZeroByte { at: 2 }),
    ] {
        match split_head(line.as_bytes()) {
            Ok(_) => assert!(rt; false, "{line}"),
            Err(e) => assert!(rt; e == want, "{line}"),
        }
    }
    Ok(())
}

#[test]
fn lines_of_a_text_come_one_by_one(rt: HostRuntime) {
    let text = b"ab\n\nc";
    assert_eq!(rt; next_line(text, 0), Some((2, 3)));
    assert_eq!(rt; next_line(text, 3), Some((3, 4)));
    assert_eq!(rt; next_line(text, 4), Some((5, 5)));
    assert_eq!(rt; next_line(text, 5), None);
    assert_eq!(rt; next_line(b"a\n", 0), Some((1, 2)));
    assert_eq!(rt; next_line(b"", 0), None);
}

#[test]
fn bytes_are_split_at_the_first(rt: HostRuntime) {
    assert!(rt; matches!(first(b"ab"), Some((b'a', b"b"))));
    assert!(rt; first(b"").is_none());
    assert!(rt; matches!(split_at_first(b'=', b"a=b=c"), Some((b"a", b"b=c"))));
    assert!(rt; split_at_first(b'=', b"abc").is_none());
}
