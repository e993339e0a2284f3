// What is done with a short byte string.
ghost use Rattle.std.specs.Prelude.{◌≡◌, ◌≤◌, [], ◌∷◌, ◌++◌, length, take};
ghost use Rattle.panel.specs.Bytes.{bytes_of};

use super::ShortBytes;

impl ShortBytes {
    // No byte.
    pub fn new() -> ShortBytes
        ensures { bytes_of result ≡ [] }
    {
        ShortBytes {
            bytes: [0; 16],
            len: 0,
        }
    }

    // One byte more. A seventeenth is dropped.
    pub fn push(&mut self, byte: u8)
        ensures { bytes_of self.new ≡ take 16 (bytes_of self.old ++ (byte ∷ [])) }
    {
        if self.len < 16 {
            self.bytes[self.len] = byte;
            self.len += 1;
        }
    }

    // The first sixteen of some bytes.
    pub fn from_slice(bytes: &[u8]) -> ShortBytes
        ensures { bytes_of result ≡ take 16 bytes.now }
    {
        let mut short = ShortBytes::new();
        short.extend_from_slice(bytes);
        short
    }

    // More bytes, as far as there is room.
    pub fn extend_from_slice(&mut self, bytes: &[u8])
        ensures { bytes_of self.new ≡ take 16 (bytes_of self.old ++ bytes.now) }
    {
        for byte in bytes {
            self.push(*byte);
        }
    }

    pub fn as_slice(&self) -> &[u8]
        ensures is { result.now ≡ bytes_of self.now }
        ensures short { length result.now ≤ 16 }
    {
        &self.bytes[..self.len]
    }
}
