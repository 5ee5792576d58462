//! Trials of Speck128/128, both ways: the vector of its designers, and many keys and blocks against
//! another program. The expected sums and the end of the chain are those that `tools/seals.py`
//! prints, which shares no code with the crates.
#![tactic(auto)]

#[cfg(test)]
mod tests {
    use speck::Schedule;
    use std::process::Abort;

    const KEY: [u8; 16] = *b"\x0f\x0e\x0d\x0c\x0b\x0a\x09\x08\x07\x06\x05\x04\x03\x02\x01\x00";

    const PLAIN: [u8; 16] = *b"\x6c\x61\x76\x69\x75\x71\x65\x20\x74\x69\x20\x65\x64\x61\x6d\x20";

    // Enciphers, and deciphers again.
    fn enciphered(rt: &impl Abort, key: [u8; 16], block: [u8; 16]) -> [u8; 16] {
        let schedule = Schedule::new(key);
        let ciphered = schedule.encipher(block);
        assert!(rt; schedule.decipher(ciphered) == block);
        ciphered
    }

    fn add(sum: &mut [u8; 16], block: [u8; 16]) {
        for (s, b) in sum.iter_mut().zip(block) {
            *s ^= b;
        }
    }

    // The vector that the designers published.
    #[test]
    fn published(rt: HostRuntime) {
        let ciphered = *b"\xa6\x5d\x98\x51\x79\x78\x32\x65\x78\x60\xfe\xdf\x5c\x57\x0d\x18";
        assert_eq!(rt; enciphered(&rt, KEY, PLAIN), ciphered);
    }

    // The blocks whose first bit is 1, whose first two are, and so on to all, under the key of
    // zeros, and the block of zeros under each as key: the sum of each kind.
    #[test]
    fn growing_ones(rt: HostRuntime) {
        let zeros = [0; 16];
        let mut block = zeros;
        let mut texts = zeros;
        let mut keys = zeros;
        for i in 0..16usize {
            for bit in 0..8u32 {
                block[i] |= 128 >> bit;
                add(&mut texts, enciphered(&rt, zeros, block));
                add(&mut keys, enciphered(&rt, block, zeros));
            }
        }
        assert_eq!(rt;
            texts,
            *b"\x08\x24\x27\x12\x65\xcd\xc7\x1a\x78\x40\xe5\xcb\xba\xf7\xad\x2a"
        );
        assert_eq!(rt;
            keys,
            *b"\xb3\x39\xd4\x3f\xd8\x5b\x2b\xbf\x3c\xe3\xc5\x40\x2f\x21\x7f\x0b"
        );
    }

    // A thousand keys and blocks: the next block is the last one enciphered, which is added to the
    // key by exclusive or for the next key.
    #[test]
    fn chain(rt: HostRuntime) {
        let mut key = KEY;
        let mut block = PLAIN;
        for _ in 0..1000 {
            block = enciphered(&rt, key, block);
            add(&mut key, block);
        }
        assert_eq!(rt;
            block,
            *b"\x35\x0a\xd2\xa0\x0b\xf8\x86\x4b\x4d\xe3\xdc\x17\x48\xfd\x4d\x06"
        );
    }
}
