use lists::{Memory, Seq, Text};
use matchmaker::{
    AskFault, Decision, Listing, Method, Opening, Request, decide, read_request, read_target,
    refusal_text, reply_text,
};
use room_model::{RoomDef, Texts};
use schema_model::{Id, is_id};
use std::alloc::{AllocError, Global};
use std::test::Fail;

const SESSION: Id = Id(*b"session01");

const TOKEN: Id = Id(*b"token0001");

fn texts(alloc: Global, words: &[&str]) -> Result<Texts, Memory> {
    let mut out = Seq::new(alloc);
    for word in words {
        out.push(Text::from_text(alloc, word)?)?;
    }
    Ok(out)
}

fn definition(alloc: Global, name: &str, max: u32, filter: &[&str]) -> Result<RoomDef, Memory> {
    Ok(RoomDef {
        name: Text::from_text(alloc, name)?,
        max,
        seat: 15_000,
        patch: 50,
        keep: 0,
        filter: texts(alloc, filter)?,
    })
}

// A request or a fault in one line.
fn shown(alloc: Global, asked: &Result<Request, AskFault>) -> Result<String, AllocError> {
    match asked {
        Ok(request) => {
            let method = request.method;
            let name = request.name.as_str();
            let mut line = format!(in alloc; "{method:?} {name}")?;
            for text in request.criteria.as_slice() {
                line.push_str(" ")?;
                line.push_str(text.as_str())?;
            }
            if let Some(token) = request.token {
                line.push_str(" ")?;
                line.push_str(std::str::from_utf8(&token.0).unwrap_or("?"))?;
            }
            Ok(line)
        }
        Err(fault) => format!(in alloc; "{fault:?}"),
    }
}

// What a target and a body ask for, in one line.
fn asked(alloc: Global, target: &str, body: &[u8]) -> Result<String, Fail> {
    let defs = [definition(alloc, "duel", 2, &["mode", "map"])?];
    let asked = read_request(alloc, &defs, target, body);
    Ok(shown(alloc, &asked)?)
}

#[test]
fn reads_requests(rt: HostRuntime) -> Result<(), Fail> {
    let rows: [(&str, &[u8], &str); 28] = [
        (
            "/matchmake/joinOrCreate/duel",
            b"{\"mode\":\"a\",\"level\":7}",
            "JoinOrCreate duel \"a\" ",
        ),
        ("/matchmake/create/duel?a=1", b"{}", "Create duel  "),
        ("/matchmake/join/%64uel?", b"", "Join duel  "),
        ("/matchmake/join/duel", b"{\"map\":null}", "Join duel  null"),
        ("/matchmake/joinById/a%2Fb%2", b"{}", "JoinById a/b%2"),
        ("/matchmake/joinById/%c3%A9", b"{}", "JoinById \u{e9}"),
        (
            "/matchmake/reconnect/nope",
            b"{\"reconnectionToken\":\"aaaaaaaa-\"}",
            "Reconnect nope aaaaaaaa-",
        ),
        (
            "/matchmake/reconnect/nope",
            b"{\"reconnectionToken\":\"aaaaaaaa\"}",
            "BadPayload",
        ),
        (
            "/matchmake/reconnect/nope",
            b"{\"reconnectionToken\":\"aaaaaaaa%\"}",
            "BadPayload",
        ),
        (
            "/matchmake/reconnect/nope",
            b"{\"reconnectionToken\":111111111}",
            "BadPayload",
        ),
        ("/matchmake/reconnect/nope", b"", "BadPayload"),
        ("/matchmake/swap/duel", b"[", "NoMethod"),
        ("/matchmake/join/", b"{}", "NoMethod"),
        ("/matchmake/join", b"{}", "NoMethod"),
        ("/matchmake/join/a/b", b"{}", "NoMethod"),
        ("/matchmake/join/%ff", b"{}", "NoMethod"),
        ("matchmake/join/a", b"{}", "NoMethod"),
        ("/matchmake//a", b"{}", "NoMethod"),
        ("/Matchmake/join/a", b"{}", "NoMethod"),
        ("/matchmake/join/?a", b"{}", "NoMethod"),
        ("", b"{}", "NoMethod"),
        ("/matchmake/join/none", b"[]", "BadPayload"),
        ("/matchmake/join/none", b"{", "BadPayload"),
        ("/matchmake/join/none", b" ", "BadPayload"),
        ("/matchmake/join/none", b"null", "BadPayload"),
        ("/matchmake/join/duel", b"{\"mode\":\"\xff\"}", "BadPayload"),
        ("/matchmake/join/none", b"{}", "NoHandler"),
        ("/matchmake/create/Duel", b"", "NoHandler"),
    ];
    for (target, body, expected) in rows {
        assert_eq!(rt;
            asked(rt.alloc(), target, body)?.as_str(),
            expected,
            "{target}"
        );
    }
    Ok(())
}

#[test]
fn reads_criteria(rt: HostRuntime) -> Result<(), Fail> {
    let rows = [
        ("1", "Join duel 1 "),
        ("18446744073709551615", "Join duel 18446744073709551615 "),
        ("-9223372036854775808", "Join duel -9223372036854775808 "),
        ("18446744073709551616", "BadPayload"),
        ("-9223372036854775809", "BadPayload"),
        ("1.0", "BadPayload"),
        ("-0", "BadPayload"),
        ("1e2", "BadPayload"),
        ("[[1.5]]", "BadPayload"),
        ("1e400", "BadPayload"),
        ("-0,\"mode\":1", "Join duel 1 "),
        ("1,\"mode\":2", "Join duel 2 "),
        ("1,\"mode\":-0", "BadPayload"),
        ("1e400,\"mode\":1", "BadPayload"),
        (
            " { \"b\" : [1, 2] , \"a\" : null } ",
            "Join duel {\"a\":null,\"b\":[1,2]} ",
        ),
        (
            "{\"a\":null,\"b\":[1,2]}",
            "Join duel {\"a\":null,\"b\":[1,2]} ",
        ),
        ("\"\\u0061\\/\\n\"", "Join duel \"a/\\n\" "),
        ("true,\"map\":false", "Join duel true false"),
    ];
    for (value, expected) in rows {
        let body = format!(in rt.alloc(); "{{\"mode\":{value}}}")?;
        assert_eq!(rt;
            asked(rt.alloc(), "/matchmake/join/duel", body.as_bytes())?.as_str(),
            expected,
            "{value}"
        );
    }
    Ok(())
}

// An object with lists inside one another under a key that is no criterion.
fn nested(alloc: Global, lists: u32) -> Result<String, AllocError> {
    let mut body = String::from_str(alloc, "{\"x\":")?;
    for _ in 0..lists {
        body.push_str("[")?;
    }
    for _ in 0..lists {
        body.push_str("]")?;
    }
    body.push_str("}")?;
    Ok(body)
}

#[test]
fn reads_127_levels(rt: HostRuntime) -> Result<(), Fail> {
    for (lists, expected) in [(126, "Join duel  "), (127, "BadPayload")] {
        let body = nested(rt.alloc(), lists)?;
        assert_eq!(rt;
            asked(rt.alloc(), "/matchmake/join/duel", body.as_bytes())?.as_str(),
            expected
        );
    }
    Ok(())
}

fn room(
    alloc: Global,
    id: &[u8; 9],
    def: u32,
    locked: bool,
    in_use: u32,
    criteria: &[&str],
) -> Result<Listing, Memory> {
    Ok(Listing {
        id: Id(*id),
        def,
        locked,
        in_use,
        max: if def == 0 { 1 } else { 2 },
        criteria: texts(alloc, criteria)?,
    })
}

// A decision in one line.
fn decision_text(alloc: Global, decision: &Decision) -> Result<String, AllocError> {
    match decision {
        Decision::Refuse(code, text) => {
            let text = text.as_str();
            format!(in alloc; "{code} {text}")
        }
        Decision::Join(room) => format!(in alloc; "join {room}"),
        Decision::Make(def) => format!(in alloc; "make {def}"),
        Decision::Return(room, session) => {
            let session = std::str::from_utf8(&session.0).unwrap_or("?");
            format!(in alloc; "return {room} {session}")
        }
    }
}

// What a request leads to among six rooms, in one line.
fn led(
    alloc: Global,
    method: Method,
    name: &str,
    criteria: Texts,
    kept: Option<Id>,
) -> Result<String, Fail> {
    let defs = [
        definition(alloc, "solo", 1, &[])?,
        definition(alloc, "duel", 2, &["mode"])?,
    ];
    let rooms = [
        room(alloc, b"room00000", 0, false, 0, &[])?,
        room(alloc, b"room00001", 1, false, 2, &["1"])?,
        room(alloc, b"room00002", 1, true, 0, &["1"])?,
        room(alloc, b"room00003", 1, false, 1, &["1"])?,
        room(alloc, b"room00004", 1, false, 1, &["1"])?,
        room(alloc, b"room00005", 1, false, 1, &[""])?,
    ];
    let request = Request {
        method,
        name: Text::from_text(alloc, name)?,
        criteria,
        token: None,
    };
    let decision = decide(alloc, &defs, &rooms, &request, kept)?;
    Ok(decision_text(alloc, &decision)?)
}

#[test]
fn decides_by_a_definition(rt: HostRuntime) -> Result<(), Fail> {
    let rows = [
        (Method::JoinOrCreate, "1", "join 3"),
        (Method::Join, "1", "join 3"),
        (Method::JoinOrCreate, "", "join 5"),
        (Method::JoinOrCreate, "null", "make 1"),
        (Method::JoinOrCreate, "2", "make 1"),
        (Method::Create, "1", "make 1"),
        (Method::Join, "2", "4211 no room meets the criteria"),
    ];
    for (method, mode, expected) in rows {
        let criteria = texts(rt.alloc(), &[mode])?;
        assert_eq!(rt;
            led(rt.alloc(), method, "duel", criteria, None)?.as_str(),
            expected
        );
    }
    let rows = [
        (Method::Join, "solo", "join 0"),
        (Method::Create, "solo", "make 0"),
        (Method::Join, "none", "4210 no handler"),
    ];
    for (method, name, expected) in rows {
        let criteria = Seq::new(rt.alloc());
        assert_eq!(rt;
            led(rt.alloc(), method, name, criteria, None)?.as_str(),
            expected
        );
    }
    Ok(())
}

#[test]
fn decides_by_an_id(rt: HostRuntime) -> Result<(), Fail> {
    let rows = [
        (Method::JoinById, "room00003", None, "join 3"),
        (
            Method::JoinById,
            "room00002",
            None,
            "4212 room room00002 is locked",
        ),
        (
            Method::JoinById,
            "room00001",
            None,
            "4212 room room00001 is locked",
        ),
        (Method::JoinById, "nope", None, "4212 room nope not found"),
        (Method::JoinById, "duel", None, "4212 room duel not found"),
        (
            Method::Reconnect,
            "room00002",
            Some(SESSION),
            "return 2 session01",
        ),
        (Method::Reconnect, "room00002", None, "4214 seat expired"),
        (Method::Reconnect, "nope", None, "4212 room nope not found"),
        (
            Method::Reconnect,
            "nope",
            Some(SESSION),
            "4212 room nope not found",
        ),
    ];
    for (method, id, kept, expected) in rows {
        let criteria = Seq::new(rt.alloc());
        assert_eq!(rt;
            led(rt.alloc(), method, id, criteria, kept)?.as_str(),
            expected
        );
    }
    Ok(())
}

#[test]
fn reads_openings(rt: HostRuntime) {
    let opening = |token| {
        Some(Opening {
            process: Id(*b"process01"),
            room: Id(*b"room00001"),
            session: SESSION,
            token,
        })
    };
    let rows = [
        ("/process01/room00001?sessionId=session01", opening(None)),
        (
            "/process01/room00001?sessionId=session01&reconnectionToken=token0001",
            opening(Some(TOKEN)),
        ),
        (
            "/process01/room00001?reconnectionToken=token0001&sessionId=session01",
            opening(Some(TOKEN)),
        ),
        (
            "/process01/room00001?x&sessionId=session01&y=1&=&sessionId=other",
            opening(None),
        ),
        (
            "/process01/room00001?sessionId=session01&&reconnectionToken=token0001&reconnectionToken=",
            opening(Some(TOKEN)),
        ),
        ("/process01/room00001", None),
        ("/process01/room00001?", None),
        ("/process01/room00001?sessionId", None),
        ("/process01/room00001?sessionId=short", None),
        (
            "/process01/room00001?sessionId=session01&reconnectionToken",
            None,
        ),
        ("/process01/room00001?sessionId=session0%31", None),
        (
            "/process01/room00001?sessionId=other&sessionId=session01",
            None,
        ),
        ("/process01/room0001?sessionId=session01", None),
        ("/process1/room00001?sessionId=session01", None),
        ("/process01/room00001/?sessionId=session01", None),
        ("process01/room00001?sessionId=session01", None),
        ("/process 1/room00001?sessionId=session01", None),
        ("", None),
    ];
    for (target, expected) in rows {
        assert_eq!(rt; read_target(target), expected, "{target}");
    }
}

#[test]
fn writes_replies(rt: HostRuntime) -> Result<(), Fail> {
    let process = Id(*b"process01");
    let listing = room(rt.alloc(), b"room00001", 1, false, 1, &[])?;
    assert!(rt; is_id(process) && is_id(listing.id) && is_id(SESSION));
    assert!(rt; !is_id(Id(*b"session 1")));
    let reply = reply_text(rt.alloc(), &listing, "du\"el", process, SESSION)?;
    assert_eq!(rt;
        reply.as_str(),
        "{\"room\":{\"clients\":1,\"maxClients\":2,\"name\":\"du\\\"el\",\"processId\":\"process01\",\"roomId\":\"room00001\"},\"sessionId\":\"session01\"}"
    );
    let refusal = refusal_text(rt.alloc(), 4212, "room \n\t\u{1f}\\\u{7f}\u{e9} not found")?;
    assert_eq!(rt;
        refusal.as_str(),
        "{\"code\":4212,\"error\":\"room \\n\\t\\u001f\\\\\u{7f}\u{e9} not found\"}"
    );
    Ok(())
}
