//! The vectors that the POET v2.0 submission publishes, eight in all, four under each of its
//! suites: every key, digest, ciphertext and tag is executed and matched, through the suites with
//! the older header digest. They are what holds four-round AES to a source from outside.
use crate::older::OlderSuite;
use crate::samples::{holds, played, same, stretches, wrote};
use block::xor;
use script::{Answer, Course, End};
use session::{open, seal};
use std::alloc::Global;
use std::process::Abort;
use std::test::Fail;
use suite::{ChainingHash, HeaderDigest, Keyed, Permutation, Suite};
use suites::{Aes128, FourRounds, Keys};

// A key with the keys that are made from it, a header with its digest, and a message with its seal
// under either suite.
struct Published {
    delivered: [u8; 16],
    cipher: [u8; 16],
    mask: [u8; 16],
    chain: [u8; 16],
    header: &'static [u8],
    tau: [u8; 16],
    message: &'static [u8],
    four: Sealed,
    ten: Sealed,
}

struct Sealed {
    ciphertext: &'static [u8],
    tag: [u8; 16],
}

const PUBLISHED: [Published; 4] = [
    Published {
        delivered: *b"\x01\x02\x03\x04\x05\x06\x07\x08\x09\x0a\x0b\x0c\x0d\x0e\x0f\x10",
        cipher: *b"\xdb\xf1\x84\x11\x2e\xb9\x11\x16\x59\x71\x2b\xaf\xcf\xf2\xab\x24",
        mask: *b"\x9a\x7a\x06\x19\xaa\xc2\x9e\x6c\x1f\x2b\x5c\x47\x53\xd5\x88\xf3",
        chain: *b"\x14\x2c\x51\xc9\xaf\x2c\xf1\xd9\x2e\x89\x37\xc4\xfb\xc1\x8d\x7a",
        header: b"",
        tau: *b"\x65\x32\x57\x29\x54\xd6\x7d\xbe\x75\x22\x11\xb9\xc1\x1c\x56\x07",
        message: b"\x00\x11\x22\x33\x44\x55\x66\x77\x88\x99\xaa\xbb\xcc\xdd\xee\xff",
        four: Sealed {
            ciphertext: b"\xde\x79\x29\xb3\xa8\x28\x8f\x48\x93\x1e\xb3\x97\x4b\x40\xad\x60",
            tag: *b"\x40\x13\x1a\xbe\x5d\xd7\xa3\x1f\x99\x72\x92\x20\xf1\x33\xeb\x1e",
        },
        ten: Sealed {
            ciphertext: b"\x7a\x15\x53\xd4\x14\x78\xb2\x99\x3a\x4c\x19\x70\xd2\x41\x04\x56",
            tag: *b"\xdf\x9e\xeb\x7e\x56\x61\xa7\x8f\x72\x93\xa1\xf4\x50\xab\x71\x37",
        },
    },
    Published {
        delivered: *b"\x01\x02\x03\x04\x05\x06\x07\x08\x09\x0a\x0b\x0c\x0d\x0e\x0f\x10",
        cipher: *b"\xdb\xf1\x84\x11\x2e\xb9\x11\x16\x59\x71\x2b\xaf\xcf\xf2\xab\x24",
        mask: *b"\x9a\x7a\x06\x19\xaa\xc2\x9e\x6c\x1f\x2b\x5c\x47\x53\xd5\x88\xf3",
        chain: *b"\x14\x2c\x51\xc9\xaf\x2c\xf1\xd9\x2e\x89\x37\xc4\xfb\xc1\x8d\x7a",
        header: b"\
            \x00\x11\x22\x33\x44\x55\x66\x77\x88\x99\xaa\xbb\xcc\xdd\xee\xff\
            \xde\xad\xbe\xef\xde\xaf\xba\xbe",
        tau: *b"\x31\x23\x44\x18\x68\xe4\x49\x4f\x9b\x15\x7d\xb4\xbb\xa5\x7f\x75",
        message: b"",
        four: Sealed {
            ciphertext: b"",
            tag: *b"\x42\xc5\xa1\x70\xcf\x74\x5b\xb8\xce\x84\x51\xad\x83\x38\xd7\x27",
        },
        ten: Sealed {
            ciphertext: b"",
            tag: *b"\x51\xad\x44\x5b\x59\xca\xbb\x77\x9e\xcc\x29\x8e\x18\x3e\x36\x7a",
        },
    },
    Published {
        delivered: *b"\x00\x11\x22\x33\x44\x55\x66\x77\x88\x99\xaa\xbb\xcc\xdd\xee\xff",
        cipher: *b"\xfd\xe4\xfb\xae\x4a\x09\xe0\x20\xef\xf7\x22\x96\x9f\x83\x83\x2b",
        mask: *b"\x84\xd4\xc9\xc0\x8b\x4f\x48\x28\x61\xe3\xa9\xc6\xc3\x5b\xc4\xd9",
        chain: *b"\x1d\xf9\x27\x37\x45\x13\xbf\xd4\x9f\x43\x6b\xd7\x3f\x32\x52\x85",
        header: b"\x01\x02\x03\x04\x05\x06\x07\x08\x09\x0a\x0b\x0c\x0d\x0e\x0f\x10",
        tau: *b"\x7d\x04\x02\xee\x3e\xf4\x06\x5c\x7b\xed\x3a\xff\x96\x84\xdf\xb7",
        message: b"\
            \x00\x01\x02\x03\x04\x05\x06\x07\x08\x09\x0a\x0b\x0c\x0d\x0e\x0f\
            \x10\x11\x12\x13\x14\x15\x16\x17\x18\x19\x1a\x1b\x1c\x1d\x1e\x1f\
            \x20\x21\x22\x23\x24\x25\x26\x27\x28\x29\x2a\x2b\x2c\x2d\x2e\x2f\
            \xde\xad\xbe\xef\xde\xaf\xba\xbe",
        four: Sealed {
            ciphertext: b"\
                \xbc\x0c\xda\x83\xa5\xa4\x7b\x1f\x3d\x06\x3e\x07\xa7\x10\xba\xd0\
                \x6f\x0e\x93\xf8\xb5\x12\x32\xc7\xef\xa4\xdd\x45\x6a\xdc\xdc\x92\
                \xaf\x48\xec\x20\x59\x9f\x05\xcb\x0f\x1e\x4e\x22\x11\xbe\xeb\x47\
                \xb8\xca\x69\xf0\xd1\xa4\x7e\xcb",
            tag: *b"\x50\xdc\xff\x4d\xb0\x51\x99\x48\xd7\x1f\x5c\x95\x43\xad\x43\x2e",
        },
        ten: Sealed {
            ciphertext: b"\
                \x4b\x43\x0f\x48\x03\xae\x40\xea\xa8\x95\x42\xbd\x44\x70\x81\x80\
                \x46\x07\xd1\x57\x7a\xc0\xfd\x90\xa0\xb0\x53\xa4\xea\x4f\xc7\x66\
                \xd8\xd6\x38\x4e\x83\xfa\xbc\x26\x5d\xbe\xee\x32\x6f\xb1\x0c\x9e\
                \x9e\x63\xc1\xe0\x79\x22\x8b\xd5",
            tag: *b"\x67\x5e\xfa\x65\x08\xea\x2e\xf3\xe8\x74\x46\xdb\x18\x0f\xff\x73",
        },
    },
    Published {
        delivered: *b"\x00\x11\x22\x33\x44\x55\x66\x77\x88\x99\xaa\xbb\xcc\xdd\xee\xff",
        cipher: *b"\xfd\xe4\xfb\xae\x4a\x09\xe0\x20\xef\xf7\x22\x96\x9f\x83\x83\x2b",
        mask: *b"\x84\xd4\xc9\xc0\x8b\x4f\x48\x28\x61\xe3\xa9\xc6\xc3\x5b\xc4\xd9",
        chain: *b"\x1d\xf9\x27\x37\x45\x13\xbf\xd4\x9f\x43\x6b\xd7\x3f\x32\x52\x85",
        header: b"\
            \x00\x11\x22\x33\x44\x55\x66\x77\x88\x99\xaa\xbb\xcc\xdd\xee\xff\
            \xde\xad\xbe\xef\xde\xaf\xba\xbe",
        tau: *b"\x17\x99\xc6\xa8\xdf\x70\x85\x17\x23\x04\xcd\x46\x46\x39\x41\x3c",
        message: b"\
            \x00\x01\x02\x03\x04\x05\x06\x07\x08\x09\x0a\x0b\x0c\x0d\x0e\x0f\
            \x10\x11\x12\x13\x14\x15\x16\x17\x18\x19\x1a\x1b\x1c\x1d\x1e\x1f\
            \x20\x21\x22\x23\x24\x25\x26\x27\x28\x29\x2a\x2b\x2c\x2d\x2e\x2f\
            \xfe\xfe\xba\xbe",
        four: Sealed {
            ciphertext: b"\
                \x67\xf1\x28\xb1\x63\x10\xcd\x0c\xcd\x3b\xc3\xc3\x07\xa5\x00\x18\
                \xfc\x4c\x31\x73\x30\x9b\x5a\x7b\xeb\xa1\x05\x95\x47\xba\x31\x3c\
                \x34\x64\xd9\xb3\xfb\x48\x8b\x79\x89\xb8\x87\x5e\x55\xd9\xa9\x43\
                \x81\xa0\x7d\x2b",
            tag: *b"\x34\x0b\x40\xc2\xae\x24\x34\x79\xd7\xa2\xf4\xe5\xb5\x0d\xb8\x20",
        },
        ten: Sealed {
            ciphertext: b"\
                \x2a\x41\x1f\x68\xc7\x01\x7c\x54\x85\x2e\x64\x1c\x81\x02\xce\xa0\
                \xe3\x59\xbc\xe5\x9f\x76\x59\x0c\x57\xc9\xc0\x4a\x98\x14\x63\x5b\
                \x7d\xef\x80\x62\x5e\xec\x82\xe7\x66\x17\x4c\x72\x87\xe7\xd9\xd4\
                \xa9\x9b\x6a\x36",
            tag: *b"\x8b\x83\x74\xf0\x2b\xc6\xde\xa1\x98\xa9\x2a\x8b\x51\x3b\x60\x42",
        },
    },
];

#[test]
fn four_rounds(rt: HostRuntime) -> Result<(), Fail> {
    for (i, v) in PUBLISHED.iter().enumerate() {
        keys(&rt, v, i);
        digests(&rt, v, i);
        matches::<OlderSuite<FourRounds>>(&rt, rt.alloc(), v, &v.four, i)?;
    }
    Ok(())
}

#[test]
fn ten_rounds(rt: HostRuntime) -> Result<(), Fail> {
    for (i, v) in PUBLISHED.iter().enumerate() {
        matches::<OlderSuite<Aes128>>(&rt, rt.alloc(), v, &v.ten, i)?;
    }
    Ok(())
}

// The keys and the digest, which are the same under either suite.
fn keys(rt: &impl Abort, v: &Published, case: usize) {
    let keys = Keys::new::<Aes128>(v.delivered);
    same(
        rt,
        &keys.cipher,
        &v.cipher,
        "other key of the cipher",
        &case,
    );
    same(rt, &keys.mask, &v.mask, "other mask", &case);
    same(rt, &keys.chain, &v.chain, "other key of the chain", &case);
}

fn digests(rt: &impl Abort, v: &Published, case: usize) {
    let mut digest = OlderSuite::<FourRounds>::set_up(v.delivered).digest;
    digest.absorb(v.header);
    same(rt, &digest.finish(), &v.tau, "other digest", &case);
    let mut cut = OlderSuite::<Aes128>::set_up(v.delivered).digest;
    for b in v.header {
        cut.absorb(&[*b]);
    }
    same(
        rt,
        &cut.finish(),
        &v.tau,
        "other digest byte by byte",
        &case,
    );
}

// A message seals so, and opens again; one that is empty is no session's, so its tag is made from
// the parts.
fn matches<S: Suite>(
    rt: &impl Abort,
    heap: Global,
    v: &Published,
    sealed: &Sealed,
    case: usize,
) -> Result<(), Fail> {
    if v.message.is_empty() {
        let tag = tag_of_nothing::<S>(v.delivered, v.header);
        same(rt, &tag, &sealed.tag, "other tag", &case);
        return Ok(());
    }
    at_once::<S>(rt, v, sealed, case)?;
    seals_cut::<S>(rt, heap, v, sealed, case)?;
    opens_cut::<S>(rt, heap, v, sealed, case)
}

fn at_once<S: Suite>(
    rt: &impl Abort,
    v: &Published,
    sealed: &Sealed,
    case: usize,
) -> Result<(), Fail> {
    let mut out = [0xee; 56];
    let mut tag = [0; 16];
    let n = seal::<S>(&v.delivered, v.header, v.message, &mut out, &mut tag)?;
    wrote(rt, n, &out, sealed.ciphertext, &case);
    same(rt, &tag, &sealed.tag, "other tag", &case);
    let n = open::<S>(
        &v.delivered,
        v.header,
        sealed.ciphertext,
        &sealed.tag,
        &mut out,
    )?;
    wrote(rt, n, &out, v.message, &case);
    Ok(())
}

// The same in stretches of seven bytes.
fn seals_cut<S: Suite>(
    rt: &impl Abort,
    heap: Global,
    v: &Published,
    sealed: &Sealed,
    case: usize,
) -> Result<(), Fail> {
    let headers = stretches(heap, v.header, 7)?;
    let bodies = stretches(heap, v.message, 7)?;
    let course = Course::Seal {
        bodies: &bodies,
        finish: true,
    };
    let (log, end) = played::<S>(heap, &v.delivered, &headers, course)?;
    let out = log.out.as_slice();
    same(
        rt,
        out,
        sealed.ciphertext,
        "other ciphertext in stretches",
        &case,
    );
    let is_tag = matches!(end, End::Sealed { last: _, tag: t } if t == sealed.tag);
    holds(rt, is_tag, "other tag in stretches", &case);
    Ok(())
}

fn opens_cut<S: Suite>(
    rt: &impl Abort,
    heap: Global,
    v: &Published,
    sealed: &Sealed,
    case: usize,
) -> Result<(), Fail> {
    let headers = stretches(heap, v.header, 7)?;
    let bodies = stretches(heap, sealed.ciphertext, 7)?;
    let course = Course::Open {
        bodies: &bodies,
        tag: Some(&sealed.tag),
    };
    let (log, end) = played::<S>(heap, &v.delivered, &headers, course)?;
    let out = log.out.as_slice();
    same(rt, out, v.message, "other message in stretches", &case);
    let rest = match v.message.len() % 16 {
        0 => 16,
        n => n,
    };
    let is_finish = log.answers.last() == Some(&Answer::Finish(Ok(rest)));
    holds(rt, is_finish, "not accepted in stretches", &case);
    let is_last = matches!(end, End::Opened { last } if v.message.ends_with(&last[0..rest]));
    holds(rt, is_last, "other last bytes in stretches", &case);
    Ok(())
}

// The last row over the digest alone: all of what it gives out is the tag.
fn tag_of_nothing<S: Suite>(key: [u8; 16], header: &[u8]) -> [u8; 16] {
    let Keyed {
        permutation,
        hash,
        mut digest,
    } = S::set_up(key);
    digest.absorb(header);
    let tau = digest.finish();
    let size = permutation.encrypt(S::encode(0));
    let x = xor(xor(hash.hash(tau), tau), size);
    let y = xor(tau, S::encode(1));
    xor(xor(hash.hash(y), permutation.encrypt(x)), size)
}
