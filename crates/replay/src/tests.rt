//! Runs over texts in memory, against text that was written by hand.
use crate::playing::run;
use std::alloc::Global;

// What is written for the input.
fn written(alloc: Global, input: &[u8]) -> anyhow::Result<Vec<u8>> {
    let mut text = Vec::new(alloc);
    let mut reader = input;
    run(alloc, &mut reader, &mut text)?;
    Ok(text)
}

#[test]
fn opens_what_was_sealed(rt: HostRuntime) -> anyhow::Result<()> {
    let session = b"key 2a2a2a2a2a2a2a2a2a2a2a2a2a2a2a2a
suite 4
header 6c69667420372C2070617274732073686565742031
open
body 16 1617114c5def7220726fef55001b1210656e687320656469756720656e6f212c
finish 65657420318000000000803120746565
";
    let shown = b"header: taken
body: given 16, held 16
finish: accepted, last 16
header taken: 6c69667420372c2070617274732073686565742031
body taken:   1617114c5def7220726fef55001b1210656e687320656469756720656e6f212c
handed out:   74776f20646f6f7220726f6c6c6572732c206f6e652067756964652073686f65
last place:   2c206f6e652067756964652073686f65
";
    let text = written(rt.alloc(), session.as_slice())?;
    assert!(rt; text.as_slice() == shown.as_slice());
    Ok(())
}

#[test]
fn names_what_is_no_session(rt: HostRuntime) -> anyhow::Result<()> {
    let cases: [(&[u8], &[u8]); 7] = [
        (b"suite 9\n", b"refused 2 by the key layer at 9\n"),
        (b"suite 4\nkey 2a\n", b"refused 3 by the key layer at 1\n"),
        (
            b"suite 4\r\nheader 2a\r\nkey 2a",
            b"line 3: suite and key stand before every call\n",
        ),
        (b"seal 2a\n", b"line 1: seal and open take nothing\n"),
        (b"suite 4\n\xff", b"the input is no UTF-8 text\n"),
        (b"\xff\nsuite 9", b"the input is no UTF-8 text\n"),
        (
            b"foo\n\xff\n",
            b"line 1: a line begins with suite, key, header, seal, open, body or finish\n",
        ),
    ];
    for (input, shown) in cases {
        let text = written(rt.alloc(), input)?;
        assert!(rt; text.as_slice() == shown);
    }
    Ok(())
}

#[test]
fn leaves_what_follows_a_broken_line(rt: HostRuntime) -> anyhow::Result<()> {
    let input = b"suite 4\nsuite 256\nkey 2a\n\xff";
    let mut text = Vec::new(rt.alloc());
    let mut reader = input.as_slice();
    run(rt.alloc(), &mut reader, &mut text)?;
    assert!(rt; text.as_slice() == b"line 2: suite takes a number from 0 to 255\n".as_slice());
    assert!(rt; reader == b"key 2a\n\xff".as_slice());
    Ok(())
}

// More bytes than one piece has.
#[test]
fn shows_long_bytes(rt: HostRuntime) -> anyhow::Result<()> {
    let mut input = Vec::from_slice(
        rt.alloc(),
        b"suite 4\nkey 2a2a2a2a2a2a2a2a2a2a2a2a2a2a2a2a\nheader ",
    )?;
    let mut shown = Vec::from_slice(rt.alloc(), b"header: taken\nheader taken: ")?;
    for _ in 0..9000 {
        input.extend_from_slice(b"6c")?;
        shown.extend_from_slice(b"6c")?;
    }
    shown.extend_from_slice(b"\nbody taken:   \nhanded out:   \ngiven up before a finish\n")?;
    let text = written(rt.alloc(), input.as_slice())?;
    assert!(rt; text.as_slice() == shown.as_slice());
    Ok(())
}
