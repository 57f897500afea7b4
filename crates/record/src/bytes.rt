// Numbers of bytes, the lowest byte first. They are put together by shifts, as hosts do, and nowhere else; the library's `from_le_bytes` multiplies.
ghost use Rattle.std.specs.Prelude.{◌≡◌};
ghost use Rattle.record.specs.Bytes.{value};

// Two bytes are the low half of four.
pub(crate) fn number16(bytes: [u8; 2]) -> u16
    ensures { result ≡ value bytes }
{
    let [b0, b1] = bytes;
    number32([b0, b1, 0, 0]) as u16
}

pub(crate) fn number32(bytes: [u8; 4]) -> u32
    ensures { result ≡ value bytes }
{
    let [b0, b1, b2, b3] = bytes;
    u32::from(b0) + (u32::from(b1) << 8) + (u32::from(b2) << 16) + (u32::from(b3) << 24)
}
