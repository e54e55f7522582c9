// The calls that no program makes: each once where it succeeds, and where a number or a byte is missing.
use crate::{Token, Tokens};

// A list of two is filled from a text of two numbers, and one of three is not.
#[test]
fn fills_as_many_as_there_are(rt: HostRuntime) {
    let mut list = [Token::default(); 2];
    let mut input = Tokens {
        rest: b"P = -12, M = 7\n",
    };
    assert!(rt; input.fill(&mut list).is_some());
    assert_eq!(rt; list[0].signed(), -12);
    assert_eq!(rt; list[1].signed(), 7);
    assert_eq!(rt; input.rest, b"\n".as_slice());
    let mut longer = [Token::default(); 3];
    let mut again = Tokens { rest: b"-12 7" };
    assert!(rt; again.fill(&mut longer).is_none());
}

// Four digits where four are left, and none where three are or no number starts.
#[test]
fn digits_where_there_are_as_many(rt: HostRuntime) {
    let mut input = Tokens { rest: b" 0110 101" };
    assert_eq!(rt; input.digits(4), Some(b"0110".as_slice()));
    assert_eq!(rt; input.rest, b" 101".as_slice());
    assert!(rt; input.digits(4).is_none());
    assert_eq!(rt; input.rest, b" 101".as_slice());
    assert_eq!(rt; input.digits(3), Some(b"101".as_slice()));
    assert!(rt; input.digits(0).is_none());
}
