//! A short session, sealed and opened again. Where memory runs out, `play` says so: an answer that
//! was wrong in another way would fail the test. `tools/each_alloc.sh` makes each allocation fail.
use fault::{Placed, SessionFault};
use script::{Answer, Course, Played, Stretch, play};
use session::{KeyPlace, seal};
use std::alloc::{AllocError, Global};
use std::test::Fail;
use suites::Mirror;

const HEADER: [u8; 21] = [0x11; 21];

const MESSAGE: [u8; 40] = [0x22; 40];

// What the calls answer: of the header, of three stretches of the body, and of the finish.
const ANSWERS: [Answer; 5] = [
    Answer::Header(Ok(())),
    Answer::Body(Ok((16, 4))),
    Answer::Body(Err(Placed {
        fault: SessionFault::Room,
        place: 20,
    })),
    Answer::Body(Ok((16, 8))),
    Answer::Finish(Ok(8)),
];

// The body in two stretches of twenty bytes; the second comes once before with no room for it.
fn stretches<'a>(body: &'a [u8; 40]) -> [Stretch<'a>; 3] {
    let (front, rest) = body.split_at(20);
    [
        Stretch {
            bytes: front,
            room: 32,
        },
        Stretch {
            bytes: rest,
            room: 0,
        },
        Stretch {
            bytes: rest,
            room: 32,
        },
    ]
}

// A course under a key of zeros.
fn played(heap: Global, course: Course<'_>) -> Result<Played, AllocError> {
    let header = [Stretch {
        bytes: &HEADER,
        room: 0,
    }];
    let (log, _) = play::<Mirror>(heap, &KeyPlace::new(), &header, course)?;
    Ok(log)
}

fn sealed(heap: Global) -> Result<Played, AllocError> {
    let course = Course::Seal {
        bodies: &stretches(&MESSAGE),
        finish: true,
    };
    played(heap, course)
}

fn opened(heap: Global, ciphertext: &[u8; 40], tag: &[u8; 16]) -> Result<Played, AllocError> {
    let course = Course::Open {
        bodies: &stretches(ciphertext),
        tag: Some(tag),
    };
    played(heap, course)
}

fn both(
    heap: Global,
    ciphertext: &[u8; 40],
    tag: &[u8; 16],
) -> Result<(Played, Played), AllocError> {
    Ok((sealed(heap)?, opened(heap, ciphertext, tag)?))
}

#[test]
fn plays_or_gives_up(rt: HostRuntime) -> Result<(), Fail> {
    let heap = rt.alloc();
    let mut ciphertext = [0; 40];
    let mut tag = [0; 16];
    seal::<Mirror>(&[0; 16], &HEADER, &MESSAGE, &mut ciphertext, &mut tag)?;
    let Ok((sealed, opened)) = both(heap, &ciphertext, &tag) else {
        println!(rt; "gave up")?;
        return Ok(());
    };
    assert!(rt;
        sealed.out.as_slice() == ciphertext.as_slice(),
        "sealed otherwise"
    );
    assert!(rt;
        sealed.answers.as_slice() == ANSWERS.as_slice(),
        "answered otherwise"
    );
    assert!(rt;
        opened.out.as_slice() == MESSAGE.as_slice(),
        "opened otherwise"
    );
    assert!(rt;
        opened.answers.as_slice() == ANSWERS.as_slice(),
        "answered otherwise"
    );
    match vec![in heap; 0u8; 1] {
        Ok(_) => println!(rt; "memory did not fail")?,
        Err(AllocError) => println!(rt; "memory failed later")?,
    }
    Ok(())
}
