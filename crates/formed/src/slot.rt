// The slots: a chunk that is not held is zero, a held one has a place in an entry that is in use.
ghost use Rattle.std.specs.Prelude.{◌≡◌, ◌*◌, ◌<◌, ltb, length, get_or};
ghost use Rattle.index.specs.Index.{all};
ghost use Rattle.formed.specs.Formed.{zeros, held_right, slot_right, slot_at};

// Whether every byte is 0. There is no early way out, so that the loop is compiled to vector code.
pub fn all_zero(bytes: &[u8]) -> bool
    ensures { result ≡ zeros bytes.now }
{
    let mut any: u8 = 0;
    for byte in bytes {
        any |= *byte;
    }
    any == 0
}

// Whether entry e is in use.
fn in_use(entries: &[u64], e: usize) -> bool
    ensures { result ≡ ltb 0 (get_or entries.now e 0) }
{
    e < entries.len() && entries[e] != 0
}

// Whether the holder k is right. Chunk 16,777,216 ends 31 bytes on, where the last word does.
#[tactic(auto, unfolding(crate::specs::Formed::held_right))]
fn held_ok(entries: &[u64], k: u64, chunk: &[u8; 256]) -> bool
    requires { 0 < k }
    ensures { result ≡ held_right entries.now k chunk.now }
{
    let c = store::key_chunk(k);
    let last = store::LAST_CHUNK as u64;
    in_use(entries, store::key_entry(k)) && (c < last || (c == last && all_zero(&chunk[31..])))
}

// Whether a slot is right, that has the key k and the bytes of a chunk.
#[tactic(auto, unfolding(crate::specs::Formed::slot_right))]
fn slot_ok(entries: &[u64], k: u64, chunk: &[u8; 256]) -> bool
    ensures { result ≡ slot_right entries.now k chunk.now }
{
    if k == 0 {
        all_zero(chunk)
    } else {
        held_ok(entries, k, chunk)
    }
}

// Whether every slot is right.
pub fn slots_ok(entries: &[u64], holders: &[u64], bytes: &[u8]) -> bool
    requires { length bytes.now ≡ 256 * length holders.now }
    ensures { result ≡ all (slot_at entries.now holders.now bytes.now) (length holders.now) }
{
    let (chunks, _) = bytes.as_chunks::<256>();
    holders
        .iter()
        .zip(chunks)
        .all(|(k, chunk)| slot_ok(entries, *k, chunk))
}
