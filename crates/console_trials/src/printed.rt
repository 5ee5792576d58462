//! A run over bytes in memory, and what it then wrote; and the list alone.
use delivery::seal;
use fault::{ConsoleFault, Placed};
use report::{LIST_LIMIT, list, run};
use sheet::{Entry, write};
use std::alloc::Global;
use std::io;
use std::io::Write;
use std::process::Abort;
use std::test::Fail;

const KEY: &'static [u8; 16] = b"sixteen new keys";

const PART: Entry<&'static [u8]> = Entry {
    code: b"DOORSH01",
    parent: None,
    count: 2,
    landing: None,
    months: None,
    drawing: None,
};

// A sheet of 16,384 bytes: 1,364 entries of twelve bytes, and one of sixteen.
fn largest(heap: Global) -> Result<Vec<u8>, Fail> {
    let mut sheet = vec![in heap; 0; 16384]?;
    let mut at = 0;
    for count in 1..1365u16 {
        at = write(Entry { count, ..PART }, &mut sheet, at)?;
    }
    let last: Entry<&[u8]> = Entry {
        drawing: Some(b"A/1"),
        ..PART
    };
    write(last, &mut sheet, at)?;
    Ok(sheet)
}

// The lines of that sheet.
fn lines(heap: Global) -> Result<String, Fail> {
    let mut text = String::new(heap);
    for count in 1..1365u16 {
        writeln!(text, "DOORSH01;-;{count};-;-;-;-")?;
    }
    text.push_str("DOORSH01;-;2;-;-;-;A/1\n")?;
    Ok(text)
}

// The longest delivery: a header of 4,096 bytes, and that sheet sealed under suite 1.
fn longest(heap: Global) -> Result<Vec<u8>, Fail> {
    let sheet = largest(heap)?;
    let header = vec![in heap; 0x22; 4096]?;
    let mut ciphertext = vec![in heap; 0; 16384]?;
    let mut tag = [0; 16];
    seal(1, KEY, &header, &sheet, &mut ciphertext, &mut tag)?;
    let mut bytes = vec![in heap; 1; 1]?;
    bytes.extend_from_slice(KEY)?;
    bytes.extend_from_slice(b"\x10\x00")?;
    bytes.extend_from_slice(&header)?;
    bytes.extend_from_slice(b"\x00\x00\x40\x00")?;
    bytes.extend_from_slice(&ciphertext)?;
    bytes.extend_from_slice(&tag)?;
    Ok(bytes)
}

// The input is answered by this text, and so many bytes of it are left unread.
fn prints(
    rt: &impl Abort,
    heap: Global,
    input: &[u8],
    text: &[u8],
    left: usize,
) -> Result<(), Fail> {
    let mut rest = input;
    let mut printed = Vec::new(heap);
    run(&mut rest, &mut printed)?;
    assert!(rt; printed.as_slice() == text, "other text");
    assert_eq!(rt; rest.len(), left);
    Ok(())
}

#[test]
fn longest_input(rt: HostRuntime) -> Result<(), Fail> {
    let heap = rt.alloc();
    let mut input = longest(heap)?;
    let text = lines(heap)?;
    assert_eq!(rt; input.len(), 20519);
    prints(&rt, heap, &input, text.as_bytes(), 0)?;
    input.push(0)?;
    prints(&rt, heap, &input, b"refused 1\n", 0)?;
    input.extend_from_slice(b"\x00\x00\x00")?;
    prints(&rt, heap, &input, b"refused 1\n", 3)
}

#[test]
fn shortest_inputs(rt: HostRuntime) -> Result<(), Fail> {
    let heap = rt.alloc();
    prints(&rt, heap, b"", b"refused 1\n", 0)?;
    prints(&rt, heap, b"\x04", b"refused 1\n", 0)
}

// A writer that counts how often it is called.
#[derive(Drop)]
struct Counted {
    written: Vec<u8>,
    writes: usize,
}

impl Write for Counted {
    fn write(&mut self, bytes: &[u8]) -> io::Result<usize> {
        self.writes = self.writes.saturating_add(1);
        self.written.extend_from_slice(bytes)?;
        Ok(bytes.len())
    }

    fn flush(&mut self) -> io::Result<()> {
        Ok(())
    }
}

// The longest list, of 1,365 lines, is one write.
#[test]
fn one_write(rt: HostRuntime) -> Result<(), Fail> {
    let heap = rt.alloc();
    let input = longest(heap)?;
    let text = lines(heap)?;
    let mut rest: &[u8] = &input;
    let mut writer = Counted {
        written: Vec::new(heap),
        writes: 0,
    };
    run(&mut rest, &mut writer)?;
    assert_eq!(rt; writer.writes, 1);
    assert!(rt; writer.written.as_slice() == text.as_bytes(), "other text");
    Ok(())
}

// The longest list in an array, and the place of a refusal.
#[test]
fn longest_list(rt: HostRuntime) -> Result<(), Fail> {
    let heap = rt.alloc();
    let mut input = longest(heap)?;
    let mut text = [0; LIST_LIMIT];
    let len = list(&input, &mut text)?;
    assert!(rt; &text[..len] == lines(heap)?.as_bytes(), "other lines");
    input.push(0)?;
    let refused = Placed {
        fault: ConsoleFault::Input,
        place: 20520,
    };
    assert!(rt; list(&input, &mut text) == Err(refused), "other refusal");
    Ok(())
}

// A writer that has room for fewer bytes than the text has gets its first bytes, and the run fails.
#[test]
fn full_writer(rt: HostRuntime) -> Result<(), Fail> {
    let heap = rt.alloc();
    let input = longest(heap)?;
    let text = lines(heap)?;
    let mut room = vec![in heap; 0; 100]?;
    let mut rest: &[u8] = &input;
    let mut writer: &mut [u8] = &mut room;
    assert!(rt;
        run(&mut rest, &mut writer).is_err(),
        "written past its room"
    );
    assert!(rt;
        text.as_bytes().starts_with(&room),
        "other bytes before the failure"
    );
    Ok(())
}
