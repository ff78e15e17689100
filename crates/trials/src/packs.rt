//! MessagePack values by their bytes: every form at its edges, the levels, and lengths that lie.
use crate::script::lines_of;
use msgpack_lite::{PackFault, has_bytes, read, write};
use std::alloc::Global;
use std::process::Abort;
use std::test::Fail;

// The bytes that are written of the value that bytes are, or why they are none.
fn rewritten(alloc: Global, bytes: &[u8]) -> Result<Result<Vec<u8>, PackFault>, Fail> {
    match read(alloc, bytes) {
        Ok(pack) => {
            if !has_bytes(&pack) {
                return Err(Fail::new("no bytes"));
            }
            let mut out = Vec::new(alloc);
            write(&mut out, &pack)?;
            Ok(Ok(out))
        }
        Err(fault) => Ok(Err(fault)),
    }
}

fn answer(alloc: Global, hex: &str) -> Result<String, Fail> {
    let Ok(bytes) = hex::decode(alloc, hex) else {
        return Err(Fail::new("no hex"));
    };
    match rewritten(alloc, &bytes)? {
        Ok(out) => Ok(hex::encode(alloc, &out)?),
        Err(fault) => Ok(format!(in alloc; "{fault:?}")?),
    }
}

fn check(rt: &impl Abort, alloc: Global, script: &str) -> Result<(), Fail> {
    for (hex, expected) in &lines_of(alloc, script)? {
        let found = answer(alloc, hex)?;
        assert_eq!(rt; found.as_str(), *expected, "{hex}");
    }
    Ok(())
}

// Each form is read, and the shortest one is written.
const FORMS: &str = "
c0 = c0
c2 = c2
c3 = c3
00 = 00
7f = 7f
e0 = e0
ff = ff
cc00 = 00
cc7f = 7f
cc80 = cc80
ccff = ccff
cd0000 = 00
cd00ff = ccff
cd0100 = cd0100
cdffff = cdffff
ce0000ffff = cdffff
ce00010000 = ce00010000
ceffffffff = ceffffffff
cf00000000ffffffff = ceffffffff
cf0000000100000000 = cf0000000100000000
cfffffffffffffffff = cfffffffffffffffff
d000 = 00
d07f = 7f
d0ff = ff
d0e0 = e0
d0df = d0df
d080 = d080
d1007f = 7f
d1ff80 = d080
d1ff7f = d1ff7f
d18000 = d18000
d17fff = cd7fff
d2ffff8000 = d18000
d2ffff7fff = d2ffff7fff
d280000000 = d280000000
d27fffffff = ce7fffffff
d3ffffffff80000000 = d280000000
d3ffffffff7fffffff = d3ffffffff7fffffff
d38000000000000000 = d38000000000000000
d37fffffffffffffff = cf7fffffffffffffff
a0 = a0
a161 = a161
d900 = a0
d90161 = a161
da000161 = a161
db0000000161 = a161
a2c3a9 = a2c3a9
c400 = c400
c4010a = c4010a
c500010a = c4010a
c6000000010a = c4010a
90 = 90
9103 = 9103
dc0000 = 90
dc000103 = 9103
dd00000000 = 90
dd0000000103 = 9103
80 = 80
81a16103 = 81a16103
de0000 = 80
de0001a16103 = 81a16103
df00000001a16103 = 81a16103
82a16103a16104 = 82a16103a16104
81d901619281a0c0c3 = 81a1619281a0c0c3
";

#[test]
fn each_form(rt: HostRuntime) -> Result<(), Fail> {
    check(&rt, rt.alloc(), FORMS)
}

// What is no value, by the first byte that is refused.
const FAULTS: &str = "
c1 = Reserved(0)
92c0c1 = Reserved(2)
c700 = Extension(0)
c80000 = Extension(0)
c900000000 = Extension(0)
d400 = Extension(0)
d5 = Extension(0)
d6 = Extension(0)
d7 = Extension(0)
91d8 = Extension(1)
ca00000000 = Float(0)
91cb = Float(1)
8103c0 = KeyNotText(1)
81c0c0 = KeyNotText(1)
81c4016103 = KeyNotText(1)
82a161c09003 = KeyNotText(4)
a1ff = BadText(0)
81a1ffc0 = BadText(1)
a2c3 = Short(2)
0303 = Trailing(1)
c0c0 = Trailing(1)
cc = Short(1)
cd00 = Short(2)
ce000000 = Short(4)
cf = Short(1)
d0 = Short(1)
d3 = Short(1)
a161a161 = Trailing(2)
a36161 = Short(3)
d9 = Short(1)
da00 = Short(2)
db000000 = Short(4)
dbffffffff = Short(5)
c4 = Short(1)
c6ffffffff = Short(5)
91 = Short(1)
81 = Short(1)
81a161 = Short(3)
dc00 = Short(2)
dcffff = Short(3)
dd = Short(1)
ddffffffff = Short(5)
de = Short(1)
dfffffffff = Short(5)
ddffffffffddffffffff = Short(10)
";

#[test]
fn each_fault(rt: HostRuntime) -> Result<(), Fail> {
    check(&rt, rt.alloc(), FAULTS)
}

// ---- long ones

// A head and so many units behind it are written as they were read.
fn same(
    rt: &impl Abort,
    alloc: Global,
    head: &[u8],
    unit: &[u8],
    count: usize,
) -> Result<(), Fail> {
    let mut bytes = Vec::from_slice(alloc, head)?;
    for _ in 0..count {
        bytes.extend_from_slice(unit)?;
    }
    let found = rewritten(alloc, &bytes)?;
    assert_eq!(rt;
        found.as_ref().ok().map(|out| out.as_slice()),
        Some(bytes.as_slice())
    );
    Ok(())
}

#[test]
fn lengths_at_their_edges(rt: HostRuntime) -> Result<(), Fail> {
    let alloc = rt.alloc();
    for (head, unit, count) in [
        ([0xbf].as_slice(), b"a".as_slice(), 31),
        (&[0xd9, 32], b"a", 32),
        (&[0xd9, 255], b"a", 255),
        (&[0xda, 1, 0], b"a", 256),
        (&[0xda, 255, 255], b"a", 65_535),
        (&[0xdb, 0, 1, 0, 0], b"a", 65_536),
        (&[0xc4, 255], b"a", 255),
        (&[0xc5, 1, 0], b"a", 256),
        (&[0xc5, 255, 255], b"a", 65_535),
        (&[0xc6, 0, 1, 0, 0], b"a", 65_536),
        (&[0x9f], &[0xc0], 15),
        (&[0xdc, 0, 16], &[0xc0], 16),
        (&[0xdc, 255, 255], &[0xc0], 65_535),
        (&[0xdd, 0, 1, 0, 0], &[0xc0], 65_536),
        (&[0x8f], &[0xa0, 0xc0], 15),
        (&[0xde, 0, 16], &[0xa0, 0xc0], 16),
        (&[0xde, 255, 255], &[0xa0, 0xc0], 65_535),
        (&[0xdf, 0, 1, 0, 0], &[0xa0, 0xc0], 65_536),
    ] {
        same(&rt, alloc, head, unit, count)?;
    }
    Ok(())
}

// ---- levels

// So many lists of one item, the last of them empty.
fn nested(alloc: Global, levels: usize) -> Result<Vec<u8>, Fail> {
    let mut bytes = vec![in alloc; 0x91; levels]?;
    bytes.pop();
    bytes.push(0x90)?;
    Ok(bytes)
}

#[test]
fn so_many_levels(rt: HostRuntime) -> Result<(), Fail> {
    let alloc = rt.alloc();
    let most = nested(alloc, 32)?;
    assert_eq!(&rt;
        rewritten(alloc, &most)?
            .as_ref()
            .ok()
            .map(|out| out.as_slice()),
        Some(most.as_slice())
    );
    let deep = nested(alloc, 33)?;
    assert_eq!(&rt;
        rewritten(alloc, &deep)?.err(),
        Some(PackFault::TooDeep(32))
    );
    // A value that is no list or map may stand below the last level.
    let mut low = vec![in alloc; 0x91; 32]?;
    low.push(0xc0)?;
    assert_eq!(&rt; rewritten(alloc, &low)?.err(), None);
    Ok(())
}

// 64 KiB of lists that say they have 2^32 - 1 items each.
#[test]
fn lengths_that_lie(rt: HostRuntime) -> Result<(), Fail> {
    let alloc = rt.alloc();
    let mut bytes = Vec::new(alloc);
    for _ in 0..13_107 {
        bytes.extend_from_slice(&[0xdd, 0xff, 0xff, 0xff, 0xff])?;
    }
    assert_eq!(&rt;
        rewritten(alloc, &bytes)?.err(),
        Some(PackFault::TooDeep(160))
    );
    Ok(())
}
