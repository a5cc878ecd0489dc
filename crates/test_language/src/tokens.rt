//! How text is cut into tokens.
use ac_tokens::{TokenFault, tokenize};

#[test]
fn tokens_are_the_longest_that_begin_at_their_places(rt: HostRuntime) {
    let text = "x1<=10..-y # <> é\n\tfor :=";
    let spans = [
        (0, 2),
        (2, 4),
        (4, 6),
        (6, 8),
        (8, 9),
        (9, 10),
        (20, 23),
        (24, 26),
    ];
    let Ok(tokens) = tokenize(rt.alloc(), text) else {
        panic!(rt; "not cut");
    };
    assert_eq!(rt; tokens.len(), spans.len());
    for (token, (start, end)) in tokens.iter().zip(spans) {
        assert_eq!(rt; token.span.start, start);
        assert_eq!(rt; token.span.end, end);
    }
}

#[test]
fn first_fault_is_told(rt: HostRuntime) {
    for (text, place) in [("x := 1 ! 2", 7), ("a[007]", 2), ("1 . 2", 2), ("_x", 0)] {
        let fault = tokenize(rt.alloc(), text);
        assert!(rt;
            matches!(fault, Err(TokenFault::Token { at }) if at == place),
            "{text}"
        );
    }
    let literal = tokenize(rt.alloc(), "1000000000000 1000000000001");
    assert!(rt; matches!(literal, Err(TokenFault::Literal { at: 14 })));
    let name = tokenize(rt.alloc(), "a23456789b23456789c23456789d23456 .");
    assert!(rt; matches!(name, Err(TokenFault::Name { at: 0 })));
}
