//! The steps that move bytes and add a round key.
ghost use Rattle.aes.specs.State.{add_round_key, inv_shift_rows, shift_rows};
ghost use Rattle.std.specs.Prelude.{◌≡◌};

// ShiftRows: row r moves by r places.
pub(crate) fn shift_rows(s: [u8; 16]) -> [u8; 16]
    ensures { result ≡ shift_rows s }
{
    [
        s[0], s[5], s[10], s[15], s[4], s[9], s[14], s[3], s[8], s[13], s[2], s[7], s[12], s[1],
        s[6], s[11],
    ]
}

// InvShiftRows: row r moves back by r places.
pub(crate) fn unshift_rows(s: [u8; 16]) -> [u8; 16]
    ensures { result ≡ inv_shift_rows s }
{
    [
        s[0], s[13], s[10], s[7], s[4], s[1], s[14], s[11], s[8], s[5], s[2], s[15], s[12], s[9],
        s[6], s[3],
    ]
}

// AddRoundKey.
pub(crate) fn add_round_key(k: [u8; 16], s: [u8; 16]) -> [u8; 16]
    ensures { result ≡ add_round_key k s }
{
    block::xor(s, k)
}
