//! Trials of AES-128, both ways: the examples of FIPS 197, vectors of other implementations, and
//! the substitution against the tables of `field`. The published vectors of POET-AES10-AES4, in
//! crate `trials`, try four rounds too.
#![tactic(auto)]

#[cfg(test)]
mod vectors;

#[cfg(test)]
mod tests {
    use super::vectors::VECTORS;
    use aes::Schedule;

    // The worked example of FIPS 197.
    #[test]
    fn worked_example(rt: HostRuntime) {
        let plain = *b"\x32\x43\xf6\xa8\x88\x5a\x30\x8d\x31\x31\x98\xa2\xe0\x37\x07\x34";
        let ciphered = *b"\x39\x25\x84\x1d\x02\xdc\x09\xfb\xdc\x11\x85\x97\x19\x6a\x0b\x32";
        let s = Schedule::new(*b"\x2b\x7e\x15\x16\x28\xae\xd2\xa6\xab\xf7\x15\x88\x09\xcf\x4f\x3c");
        assert_eq!(rt; s.encipher(plain), ciphered);
        assert_eq!(rt; s.decipher(ciphered), plain);
    }

    // Its vector for AES-128.
    #[test]
    fn vector_of_the_standard(rt: HostRuntime) {
        let plain = *b"\x00\x11\x22\x33\x44\x55\x66\x77\x88\x99\xaa\xbb\xcc\xdd\xee\xff";
        let ciphered = *b"\x69\xc4\xe0\xd8\x6a\x7b\x04\x30\xd8\xcd\xb7\x80\x70\xb4\xc5\x5a";
        let s = Schedule::new(*b"\x00\x01\x02\x03\x04\x05\x06\x07\x08\x09\x0a\x0b\x0c\x0d\x0e\x0f");
        assert_eq!(rt; s.encipher(plain), ciphered);
        assert_eq!(rt; s.decipher(ciphered), plain);
    }

    // Vectors of other implementations.
    #[test]
    fn table(rt: HostRuntime) {
        for v in &VECTORS {
            let s = Schedule::new(*v.key);
            assert_eq!(rt; s.encipher(*v.plain), *v.ten);
            assert_eq!(rt; s.decipher(*v.ten), *v.plain);
            assert_eq!(rt; s.encipher4(*v.plain), *v.four);
            assert_eq!(rt; s.decipher4(*v.four), *v.plain);
        }
    }

    fn add(sum: &mut [u8; 16], block: [u8; 16]) {
        for (s, b) in sum.iter_mut().zip(block) {
            *s ^= b;
        }
    }

    // The blocks whose first bit is 1, whose first two are, and so on to all, under the key of
    // zeros, and the block of zeros under each as key: the sets VarTxt and VarKey of AESAVS.
    // The sums at ten rounds are by OpenSSL, those at four by the AES instructions of a processor.
    #[test]
    fn growing_ones(rt: HostRuntime) {
        let zeros = [0; 16];
        let under_zeros = Schedule::new(zeros);
        let mut block = zeros;
        let (mut texts, mut texts_4) = (zeros, zeros);
        let (mut keys, mut keys_4) = (zeros, zeros);
        for i in 0..16usize {
            for bit in 0..8u32 {
                block[i] |= 128 >> bit;
                add(&mut texts, under_zeros.encipher(block));
                add(&mut texts_4, under_zeros.encipher4(block));
                let under_block = Schedule::new(block);
                add(&mut keys, under_block.encipher(zeros));
                add(&mut keys_4, under_block.encipher4(zeros));
            }
        }
        assert_eq!(rt;
            texts,
            *b"\x6b\x83\xd2\xbc\x0d\xb8\x29\xe5\x1b\x35\xeb\x28\x44\x0e\xd2\x75"
        );
        assert_eq!(rt;
            texts_4,
            *b"\xe2\x08\x7a\xc2\x18\x17\x37\x7c\xb7\x98\x51\xd9\x41\x16\x6c\x32"
        );
        assert_eq!(rt;
            keys,
            *b"\x68\xaf\xdf\x6c\x87\x36\x8c\x08\x74\x4b\xa8\x50\xb5\xba\xef\x4f"
        );
        assert_eq!(rt;
            keys_4,
            *b"\xf7\xed\xb4\xe1\xae\xe2\xdc\x12\xd7\xf4\x95\x03\x9f\x8c\x34\xdd"
        );
    }

    // Every byte, by look-ups in the tower as by the tables of `field`, both ways.
    #[test]
    fn substitution(rt: HostRuntime) {
        for b in 0..=255u8 {
            assert_eq!(rt; aes::sub_bytes([b; 16]), [field::sub_byte(b); 16]);
            assert_eq!(rt; aes::unsub_bytes([b; 16]), [field::unsub_byte(b); 16]);
        }
    }
}
