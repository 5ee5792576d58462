//! The longest header and the longest message, in stretches, sealed and opened again.
use script::{Answer, Course, End, Played, Stretch, play};
use session::KeyPlace;
use std::alloc::{AllocError, Global};
use std::test::Fail;
use suites::Shaft;

const HEADER: usize = 65536;

const MESSAGE: usize = 1048576;

const STRETCH: usize = 4096;

fn stretches<'a>(heap: Global, bytes: &'a [u8]) -> Result<Vec<Stretch<'a>>, AllocError> {
    let mut all = Vec::new(heap);
    for bytes in bytes.chunks(STRETCH) {
        all.push(Stretch {
            bytes,
            room: STRETCH + 16,
        })?;
    }
    Ok(all)
}

fn placed() -> Result<KeyPlace, Fail> {
    let mut place = KeyPlace::new();
    place.fill(&[0x2a; 16])?;
    Ok(place)
}

// A sealing of the whole message under the whole header.
fn sealed(heap: Global, header: &[u8], message: &[u8]) -> Result<(Played, End), Fail> {
    let place = placed()?;
    let headers = stretches(heap, header)?;
    let bodies = stretches(heap, message)?;
    let course = Course::Seal {
        bodies: &bodies,
        finish: true,
    };
    Ok(play::<Shaft>(heap, &place, &headers, course)?)
}

// An opening of the whole ciphertext.
fn opened(
    heap: Global,
    header: &[u8],
    ciphertext: &[u8],
    tag: &[u8],
) -> Result<(Played, End), Fail> {
    let place = placed()?;
    let headers = stretches(heap, header)?;
    let bodies = stretches(heap, ciphertext)?;
    let course = Course::Open {
        bodies: &bodies,
        tag: Some(tag),
    };
    Ok(play::<Shaft>(heap, &place, &headers, course)?)
}

#[test]
fn seals_and_opens(rt: HostRuntime) -> Result<(), Fail> {
    let heap = rt.alloc();
    let header = vec![in heap; 0x11; HEADER]?;
    let message = vec![in heap; 0x22; MESSAGE]?;
    let (log, end) = sealed(heap, &header, &message)?;
    assert!(rt; log.header.as_slice() == header.as_slice(), "other header");
    assert!(rt; log.body.as_slice() == message.as_slice(), "other message");
    let tag = match end {
        End::Sealed { last: _, tag } => tag,
        End::Unfinished | End::Opened { last: _ } => [0; 16],
    };
    let (again, _) = opened(heap, &header, &log.out, &tag)?;
    assert!(rt;
        again.out.as_slice() == message.as_slice(),
        "opened otherwise"
    );
    assert!(rt;
        again.answers.last() == Some(&Answer::Finish(Ok(16))),
        "refused"
    );
    Ok(())
}
