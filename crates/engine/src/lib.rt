// The engine: the orders that it gets, what it replies to one, and its block of 128 bytes, built as one
// array and then written. The definitions are in `specs/Engine`. It rests on `endian` and `laws`.
#![tactic(auto)]

ghost use Rattle.std.specs.Prelude.{◌≡◌, ◌≤◌, length};
ghost use Rattle.engine.specs.Engine.{engine_block};

// What the engine is to do, with the timeout, and the place of a load or an unload.
// Kept with a case for none: document 01's "none, or clear .. or load or unload" is one answer, in C one number.
#[derive(Clone, Copy)]
pub enum Order {
    Nothing,
    Clear { timeout: u32 },
    Load { place: u32, timeout: u32 },
    Unload { place: u32, timeout: u32 },
}

// What the engine replies to an order: that it is done, nothing in its time, or that it failed, with the
// vendor's number.
#[derive(Clone, Copy)]
pub enum EngineReply {
    Done,
    TimedOut,
    Failed(u32),
}

// Where the tag stands in the block: METD begins with it.
const METD: usize = 64;

// Writes the block of a key and a tag. A key of fewer bytes than 64 has zeros after it: none at all
// gives an MEK of zeros.
pub fn write_block(block: &mut [u8], mek: &[u8], tag: u64)
    requires { (length block.old ≡ 128) × (length mek.now ≤ 64) }
    ensures { block.new ≡ engine_block mek.now tag }
{
    let mut built = [0u8; 128];
    built[..mek.len()].copy_from_slice(mek);
    // Kept as two numbers: `block_is`, which may not change, speaks of the tag's halves, each put as a number.
    let at = endian::put_u32(&mut built, METD, (tag % 0x1_0000_0000) as u32);
    endian::put_u32(&mut built, at, (tag / 0x1_0000_0000) as u32);
    block.copy_from_slice(&built);
}
