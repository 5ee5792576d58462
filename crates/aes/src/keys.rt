//! Key expansion, a round key at a time: four turns of the loop over words at once.
ghost use Rattle.aes.specs.Grouping.{next_key};
ghost use Rattle.std.specs.Prelude.{◌≡◌};

use crate::tower::sub_bytes;

// The round key after k, with the round constant rc.
pub(crate) fn next_key(k: [u8; 16], rc: u8) -> [u8; 16]
    ensures { result ≡ next_key rc k }
{
    let s = sub_bytes(k);
    let a0 = k[0] ^ (s[13] ^ rc);
    let a1 = k[1] ^ s[14];
    let a2 = k[2] ^ s[15];
    let a3 = k[3] ^ s[12];
    let b0 = k[4] ^ a0;
    let b1 = k[5] ^ a1;
    let b2 = k[6] ^ a2;
    let b3 = k[7] ^ a3;
    let c0 = k[8] ^ b0;
    let c1 = k[9] ^ b1;
    let c2 = k[10] ^ b2;
    let c3 = k[11] ^ b3;
    [
        a0,
        a1,
        a2,
        a3,
        b0,
        b1,
        b2,
        b3,
        c0,
        c1,
        c2,
        c3,
        k[12] ^ c0,
        k[13] ^ c1,
        k[14] ^ c2,
        k[15] ^ c3,
    ]
}
