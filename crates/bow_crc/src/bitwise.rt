// CRC-32 bit by bit.
ghost use Rattle.std.specs.Prelude.{◌≡◌};
ghost use Rattle.bow_crc.specs.Crc.{bit_out, byte_in, crc_of};

const POLYNOMIAL: u32 = 0xEDB8_8320;

// Lets the lowest bit out.
fn shift(register: u32) -> u32
    ensures { result ≡ bit_out register }
{
    if register & 1 == 1 {
        (register >> 1) ^ POLYNOMIAL
    } else {
        register >> 1
    }
}

// Takes the bits of a byte in, one after the other, the lowest first.
fn add_byte(register: u32, byte: u8) -> u32
    ensures { result ≡ byte_in register byte }
{
    let mut register = register;
    for index in 0..u8::BITS {
        register = shift(register ^ (byte >> index & 1) as u32);
    }
    register
}

/// CRC-32 of the bytes, bit by bit: reflected, with the polynomial `0xEDB88320`; the register starts as
/// all ones, and the result is its complement. Of the text `123456789` it is `0xCBF43926`.
#[tactic(auto, unfolding(crate::specs::Crc::crc_of))]
pub fn crc(bytes: &[u8]) -> u32
    ensures { result ≡ crc_of bytes.now }
{
    let mut register = u32::MAX;
    for byte in bytes {
        register = add_byte(register, *byte);
    }
    !register
}
