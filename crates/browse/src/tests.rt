//! Runs over deliveries in memory, against text that was written by hand.
use crate::browsing::run;
use crate::words::ask_of;
use reading::Call;
use std::alloc::Global;
use wire::CIPHERTEXT_LIMIT;

// One entry: code DOORSH01 and count 2.
const DELIVERY: [u8; 51] = [
    4, 42, 42, 42, 42, 42, 42, 42, 42, 42, 42, 42, 42, 42, 42, 42, 42, 0, 0, 0, 0, 0, 12, 224, 0,
    0, 1, 2, 0, 49, 48, 72, 83, 82, 79, 79, 68, 5, 225, 128, 0, 0, 0, 0, 0, 0, 0, 0, 0, 0, 0,
];

// What is written for the input and the words.
fn written(alloc: Global, input: &[u8], words: &[&str]) -> anyhow::Result<Vec<u8>> {
    let mut opened = [0; CIPHERTEXT_LIMIT];
    let mut calls = Vec::new(alloc);
    for word in words {
        if let Some(ask) = ask_of(word) {
            calls.push(Call { ask, reply: None })?;
        }
    }
    let mut text = Vec::new(alloc);
    let mut reader = input;
    run(alloc, &mut reader, &mut text, &mut opened, &mut calls)?;
    Ok(text)
}

#[test]
fn shows_a_reply_for_each_word(rt: HostRuntime) -> anyhow::Result<()> {
    let words = [
        "code", "next", "code", "parent", "count", "landing", "months", "drawing", "next",
    ];
    let text = written(rt.alloc(), &DELIVERY, &words)?;
    let shown = b"absent
DOORSH01;-;2;-;-;-;-
DOORSH01
absent
2
absent
absent
absent
end
";
    assert!(rt; text.as_slice() == shown.as_slice());
    Ok(())
}

#[test]
fn shows_a_refusal(rt: HostRuntime) -> anyhow::Result<()> {
    let mut delivery = DELIVERY;
    delivery[0] = 9;
    let text = written(rt.alloc(), &delivery, &["next"])?;
    assert!(rt; text.as_slice() == b"refused 2 by the key layer at 9\n".as_slice());
    let text = written(rt.alloc(), &delivery[..50], &["next"])?;
    assert!(rt; text.as_slice() == b"refused 1 by the console layer at 50\n".as_slice());
    Ok(())
}
