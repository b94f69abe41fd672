// What a journal is answered with, at the edges of its lines.
use crate::reply::LineError;
use crate::run::run;
use crate::session::{Session, replay};
use crate::text::{ReplyLine, push_line};
use fault::Fault;
use sheet::edit::Edit;
use std::test::Fail;

#[test]
fn lines_end_with_a_line_feed(rt: HostRuntime) -> Result<(), Fail> {
    let nothing = "calls 0, accepted 0, refused 0, unreadable 0; rooms 0, pairs 0\n";
    let one = "ok\nheld 1 255\ncalls 1, accepted 1, refused 0, unreadable 0; rooms 1, pairs 0\n";
    let blank = "unreadable\ncalls 0, accepted 0, refused 0, unreadable 1; rooms 0, pairs 0\n";
    let rows: [(&[u8], &str); 10] = [
        (b"", nothing),
        (b"\n", blank),
        (b"enter 100000ff\n", one),
        (b"enter 100000FF", one),
        (b"enter 100000fF\r\n", blank),
        (b"enter 100000ff ", blank),
        (b"enter  100000ff", blank),
        (b"enter 0100000ff", blank),
        (b"enter 10000ff", blank),
        (b"Enter 100000ff", blank),
    ];
    for (text, answer) in rows {
        let out = replay(rt.alloc(), text)?;
        assert_eq!(rt; out.as_str(), answer);
    }
    Ok(())
}

#[test]
fn pieces_are_as_good_as_the_whole(rt: HostRuntime) -> Result<(), Fail> {
    let text: &[u8] =
        b"enter 10000001\nenter 10000002\nstrike 20000102 and more\n\nenter 20000102\nstrike 20000102";
    let whole = replay(rt.alloc(), text)?;
    let mut session = Session::new();
    let mut out = String::new(rt.alloc());
    for piece in text.chunks(1) {
        session.feed(piece, &mut out)?;
    }
    session.finish(&mut out)?;
    assert_eq!(rt; out.as_str(), whole.as_str());
    assert_eq!(rt;
        out.as_str(),
        "ok\nok\nunreadable\nunreadable\nok\nok\nheld 1 1\nheld 2 2\ncalls 4, accepted 4, refused 0, unreadable 2; rooms 2, pairs 0\n"
    );
    Ok(())
}

#[test]
fn replies_come_in_order(rt: HostRuntime) -> Result<(), Fail> {
    let calls = [
        Edit::Strike(0x2000_0102),
        Edit::Enter(0x1000_0001),
        Edit::Enter(0x1000_0002),
        Edit::Enter(0x2000_0102),
        Edit::Enter(0x3000_0102),
        Edit::Strike(0x2000_0102),
    ];
    let outcome = run(rt.alloc(), &calls)?;
    let expected = [
        Err(Fault::OutOfRange),
        Ok(()),
        Ok(()),
        Ok(()),
        Err(Fault::AlreadyJoined),
        Ok(()),
    ];
    assert_eq!(rt; outcome.replies.as_slice(), expected.as_slice());
    assert_eq!(rt; outcome.board.rooms(), 2);
    assert_eq!(rt; outcome.board.pairs(), 0);
    Ok(())
}

#[test]
fn a_reply_is_a_line(rt: HostRuntime) -> Result<(), Fail> {
    let mut out = String::new(rt.alloc());
    push_line(&mut out, &ReplyLine(Ok(())))?;
    push_line(&mut out, &ReplyLine(Err(Fault::OutOfRange.into())))?;
    push_line(&mut out, &ReplyLine(Err(LineError::Unreadable)))?;
    assert_eq!(rt; out.as_str(), "ok\nfault 2 0 0\nunreadable\n");
    Ok(())
}
