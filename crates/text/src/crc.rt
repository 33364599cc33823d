// CRC-32 as zlib and gzip have it, half a byte at a time.
ghost use Rattle.std.specs.Prelude.{◌≡◌, ◌<◌};
ghost use Rattle.text.specs.Crc.{turned, crc_byte, crc_of};

// Entry i is what four bits make of i.
const TABLE: [u32; 16] = [
    0x00000000, 0x1db71064, 0x3b6e20c8, 0x26d930ac, 0x76dc4190, 0x6b6b51f4, 0x4db26158, 0x5005713c,
    0xedb88320, 0xf00f9344, 0xd6d6a3e8, 0xcb61b38c, 0x9b64c2b0, 0x86d3d2d4, 0xa00ae278, 0xbdbdf21c,
];

fn entry(i: usize) -> u32
    requires { i < 16 }
    ensures { result ≡ turned 4 i }
{
    TABLE[i]
}

// Four bits go out at the low end.
#[tactic(auto, using(crate::proofs::Turning::half_turn))]
fn half(c: u32) -> u32
    ensures { result ≡ turned 4 c }
{
    entry((c % 16) as usize) ^ (c / 16)
}

// A byte goes in, and its eight bits go out.
#[tactic(auto, using(crate::proofs::Turning::whole_turn))]
fn step(c: u32, b: u8) -> u32
    ensures { result ≡ crc_byte c b }
{
    half(half(u32::from(b) ^ c))
}

#[tactic(auto, using(crate::proofs::Turning::crc_fold))]
pub fn crc32(bytes: &[u8]) -> u32
    ensures { result ≡ crc_of bytes.now }
{
    bytes.iter().fold(u32::MAX, |c, b| step(c, *b)) ^ u32::MAX
}
