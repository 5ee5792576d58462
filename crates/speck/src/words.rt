//! The two words of a block, and a round on them, both ways.
ghost use Rattle.speck.specs.Cipher.{bytes, round, unround, words};
ghost use Rattle.std.specs.Prelude.{◌≡◌};

#[derive(Clone, Copy)]
pub(crate) struct Words {
    pub x: u64,
    pub y: u64,
}

impl Words {
    // The words of a block.
    #[tactic(auto, unfolding(crate::specs::Cipher::words))]
    pub(crate) fn from_block(block: [u8; 16]) -> Words
        ensures { result ≡ words block }
    {
        let mut x = [0; 8];
        let mut y = [0; 8];
        x.copy_from_slice(&block[..8]);
        y.copy_from_slice(&block[8..]);
        Words {
            x: u64::from_be_bytes(x),
            y: u64::from_be_bytes(y),
        }
    }

    // The block of the words.
    #[tactic(auto, unfolding(crate::specs::Cipher::bytes))]
    pub(crate) fn to_block(self) -> [u8; 16]
        ensures { result ≡ bytes self }
    {
        let mut block = [0; 16];
        block[..8].copy_from_slice(&self.x.to_be_bytes());
        block[8..].copy_from_slice(&self.y.to_be_bytes());
        block
    }

    // A round under the round key k.
    #[tactic(auto, unfolding(crate::specs::Cipher::round))]
    pub(crate) fn round(self, k: u64) -> Words
        ensures { result ≡ round k self }
    {
        let x = self.x.rotate_right(8).wrapping_add(self.y) ^ k;
        Words {
            x,
            y: self.y.rotate_left(3) ^ x,
        }
    }

    // A round undone.
    #[tactic(auto, unfolding(crate::specs::Cipher::unround))]
    pub(crate) fn unround(self, k: u64) -> Words
        ensures { result ≡ unround k self }
    {
        let y = (self.y ^ self.x).rotate_right(3);
        Words {
            x: (self.x ^ k).wrapping_sub(y).rotate_left(8),
            y,
        }
    }
}
